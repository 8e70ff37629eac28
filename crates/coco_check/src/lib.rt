//! The errors of procedures: each accepted tree, or the first error of another.
#![tactic(auto)]

mod body;
pub mod checker;
mod draft;
pub mod fault;
mod measure;
mod names;
mod procedure;
mod statement;

pub use checker::{built_in, check};
pub use coco_ast::{CheckError, CheckKind};
pub use fault::CheckFault;
