//! Logs in the files of a host: entries behind gates. An append is whole or absent in all that a crash may leave.
#![tactic(auto)]

pub mod draft;
pub mod entries;
pub mod fault;
mod gates;
pub mod laws;
pub mod log;
mod window;
mod writing;

pub use draft::Draft;
pub use entries::Entries;
pub use fault::LogFault;
pub use gates::MOST_ENTRY_BYTES;
pub use log::Log;
