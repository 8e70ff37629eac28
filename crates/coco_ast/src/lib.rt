//! Procedures and their meaning, and histories of committed requests.
#![tactic(auto)]

pub mod builtin;
pub mod checked;
pub mod error;
mod index;
pub mod laws;
pub mod literal;
pub mod name;
pub mod plan;
pub mod planning;
pub mod slots;
pub mod tree;

pub use builtin::builtins;
pub use checked::Checked;
pub use error::{CheckError, CheckKind};
pub use literal::Literal;
pub use name::{MOST_NAME_BYTES, Name, continues_word, starts_word};
pub use plan::{Plan, PlanStep, Plans, Spot, Steps, Term};
pub use slots::Slots;
pub use tree::{Block, Expr, Names, Place, Proc, ProcList, Procs, Stmt, TwoOp};
