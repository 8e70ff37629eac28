//! What a store stands on: numbered files and the stream that its replies leave by, under one clock; in
//! memory, and over a folder with any writer.
#![tactic(auto)]

mod crash;
mod files;
pub mod folder;
pub mod fuse;
mod held;
pub mod host;
mod limit;
pub mod memory;
mod opened;
mod recorded;

pub use files::Purpose;
pub use folder::FolderHost;
pub use fuse::FuseHost;
pub use host::{Host, say_all};
pub use memory::MemoryHost;
