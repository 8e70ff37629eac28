//! The tokens of a procedure text, or the first place at which it has none.
#![tactic(auto)]

pub mod error;
mod front;
mod gap;
pub mod lexer;
pub mod limits;
mod quoted;
pub mod token;

pub use error::{LexError, LexFault, LexKind};
pub use lexer::{lex, one_reading};
pub use limits::MOST_NUMBER;
pub use token::{Token, TokenKind};
