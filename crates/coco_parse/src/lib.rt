//! The tree of a procedure text's tokens, or the first token at which they have none.
#![tactic(auto)]

mod choice;
mod class;
mod counter;
pub mod error;
mod expression;
mod file;
mod frames;
pub mod limits;
pub mod parser;
pub mod quoted;
mod reader;
pub mod spelled;
mod spelling;
mod state;
mod statement;
pub mod word;

pub use error::{ParseError, ParseFault, ParseKind};
pub use parser::{one_reading, parse};
pub use quoted::Quoted;
pub use spelled::Spelled;
pub use word::Word;
