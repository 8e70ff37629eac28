//! The trees of procedures.

ghost use Rattle.std.specs.Prelude.{◌≡◌, IfOk};
ghost use Rattle.coco_ast.specs.Tree.{Quoted, Not, Negate, Two};
ghost use Rattle.coco_ast.specs.Views.{expression_of, sign_of};

use crate::{Literal, Name};
use coco_types::{NoMemory, Sequence, Text};
use std::alloc::Global;

/// An operator with two operands.
#[derive(Clone, Copy, Debug, PartialEq, Eq)]
pub enum TwoOp {
    Add,
    Subtract,
    Multiply,
    Divide,
    Remainder,
    Equal,
    NotEqual,
    Less,
    AtMost,
    Greater,
    AtLeast,
    And,
    Or,
}

/// An expression. `None` is the word `none`.
#[derive(Debug, Drop)]
pub enum Expr {
    Number(i64),
    Text(Literal),
    None,
    Var(Name),
    Not(Box<Expr>),
    Negate(Box<Expr>),
    Two {
        op: TwoOp,
        left: Box<Expr>,
        right: Box<Expr>,
    },
}

impl Expr {
    pub fn text(alloc: Global, text: Text) -> Result<Expr, NoMemory>
        ensures { IfOk result (λ e. expression_of e ≡ Quoted text) }
    {
        let text = Literal::of(alloc, &text)?;
        Ok(Expr::Text(text))
    }

    pub fn not(alloc: Global, operand: Expr) -> Result<Expr, NoMemory>
        ensures { IfOk result (λ e. expression_of e ≡ Not (expression_of operand)) }
    {
        let operand = Box::new(alloc, operand)?;
        Ok(Expr::Not(operand))
    }

    pub fn negate(alloc: Global, operand: Expr) -> Result<Expr, NoMemory>
        ensures { IfOk result (λ e. expression_of e ≡ Negate (expression_of operand)) }
    {
        let operand = Box::new(alloc, operand)?;
        Ok(Expr::Negate(operand))
    }

    pub fn two(alloc: Global, op: TwoOp, left: Expr, right: Expr) -> Result<Expr, NoMemory>
        ensures { IfOk result (λ e.
            expression_of e ≡ Two (sign_of op) (expression_of left) (expression_of right)) }
    {
        let left = Box::new(alloc, left)?;
        let right = Box::new(alloc, right)?;
        Ok(Expr::Two { op, left, right })
    }
}

/// A row of a table.
#[derive(Debug, Drop)]
pub struct Place {
    pub table: Name,
    pub row: Expr,
}

/// A statement.
#[derive(Debug, Drop)]
pub enum Stmt {
    Let {
        name: Name,
        value: Expr,
    },
    Get {
        name: Name,
        place: Place,
    },
    Put {
        place: Place,
        value: Expr,
    },
    Delete {
        place: Place,
    },
    If {
        test: Expr,
        yes: Block,
        no: Option<Block>,
    },
    Repeat {
        bound: u64,
        name: Name,
        block: Block,
    },
    Refuse(u16),
    Reply(Expr),
}

/// Statements, in order.
pub type Block = Vec<Stmt>;

pub type Names = Sequence<Name>;

/// A procedure.
#[derive(Debug, Drop)]
pub struct Proc {
    pub name: Name,
    pub params: Names,
    pub body: Block,
}

pub type ProcList = Sequence<Proc>;

/// The tables and the procedures of a text, each in its order.
#[derive(Debug, Drop)]
pub struct Procs {
    pub tables: Names,
    pub procs: ProcList,
}
