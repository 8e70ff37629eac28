//! The messages of nodes and coordinator, their bytes, and the actions that a core asks for.
#![tactic(auto)]

pub mod action;
pub mod fault;
pub mod laws;
mod lists;
pub mod message;
mod reading;
mod writing;

pub use action::{Action, add, one, two};
pub use fault::MessageFault;
pub use laws::bytes_tell_messages_apart;
pub use message::{Message, Places};
pub use reading::{read_message, read_message_in};
pub use writing::{message_bytes, ship_bytes};
