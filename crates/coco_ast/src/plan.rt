//! Procedures as they are run: each variable is named by its slot, which is worked out once.

use crate::{Literal, Name, Names, TwoOp};

/// An expression, as `Expr` is. Its operands are named by their places in the plan's list of terms, in which
/// each term stands behind its operands.
#[derive(Debug, Drop)]
pub enum Term {
    Number(i64),
    Text(Literal),
    None,
    Variable(usize),
    Not(usize),
    Negate(usize),
    Two {
        op: TwoOp,
        left: usize,
        right: usize,
    },
}

/// A row of a table. The row's number is the term at this place.
#[derive(Debug, Drop)]
pub struct Spot {
    pub table: Name,
    pub row: usize,
}

/// A statement, as `Stmt` is. Expressions are named by their places among the terms.
#[derive(Debug, Drop)]
pub enum PlanStep {
    Let {
        slot: usize,
        value: usize,
    },
    Get {
        slot: usize,
        spot: Spot,
    },
    Put {
        spot: Spot,
        value: usize,
    },
    Delete {
        spot: Spot,
    },
    If {
        test: usize,
        yes: Steps,
        no: Option<Steps>,
    },
    Repeat {
        bound: u64,
        slot: usize,
        block: Steps,
    },
    Refuse(u16),
    Reply(usize),
}

/// Statements, in order.
pub type Steps = Vec<PlanStep>;

/// How a procedure is run: the name of each slot, the parameters first, the terms of all its expressions, its
/// statements, and how deep blocks stand in one another at most.
#[derive(Debug, Drop)]
pub struct Plan {
    pub names: Names,
    pub terms: Vec<Term>,
    pub steps: Steps,
    pub depth: usize,
}

pub type Plans = Vec<Plan>;
