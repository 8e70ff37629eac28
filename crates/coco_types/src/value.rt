//! What a row holds.
use crate::Text;

/// What a row may hold: a whole number or a text.
#[derive(Clone, Copy, Debug, PartialEq, Eq)]
pub enum Value {
    Int(i64),
    Text(Text),
}
