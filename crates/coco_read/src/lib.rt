//! A store's files read as they are: what they hold, or which byte of them is refused first.
#![tactic(auto)]

pub mod fault;
pub mod reading;
pub mod rules;

pub use fault::OpenFault;
pub use reading::read_file;
pub use rules::Rules;
