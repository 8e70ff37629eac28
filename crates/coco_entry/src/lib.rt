//! The entries of a store's files, and their bytes.
#![tactic(auto)]

pub mod base;
mod calls;
pub mod commit;
pub mod fault;
mod fields;
pub mod layout;
pub mod prepared;

pub use base::{
    BaseHead, MOST_ITEMS, put_base_dones, put_base_rows, put_head, read_base_dones, read_base_rows,
    read_head,
};
pub use commit::{Commit, put_commit, read_commit};
pub use fault::EntryFault;
pub use layout::{Files, Layout, LayoutEntry, put_layout, read_layout};
pub use prepared::{Prepared, Row, Rows, put_prepared, read_prepared, rises};
