//! Request lines in, the texts of their answers out.
#![tactic(auto)]

pub mod class;
pub mod error;
pub mod held;
pub mod laws;
mod plain;
pub mod reader;
pub mod requests;
pub mod texts;

pub use class::Class;
pub use error::{LineError, LineFault, RequestFault};
pub use json::Scratch;
pub use reader::{Body, Line, Reader};
pub use requests::{asked_request, request};
pub use texts::{cause_word, done_text, error_text, write_done, write_error};
