//! What becomes of nodes that lost their memory: of their epoch, of their tables, and of its requests.
#![tactic(auto)]

pub mod laws;
mod reading;
mod requests;
mod stopping;

pub use laws::maps_of_tables;
pub use reading::read_lost;
pub use requests::requests_back;
pub use stopping::stop_early;
