//! What a store's files hold, of which kind each is, and what an entry more makes of it.
#![tactic(auto)]

pub mod kinds;
pub mod laws;

pub use laws::{
    a_commit_entry_adds_its_epoch, a_layout_switches_the_store, a_prepared_entry_keeps_the_store,
    a_refused_store_is_none, a_store_is_its_logs, entries_stand_under_another_layout,
    files_hold_one_store, store_examples,
};
