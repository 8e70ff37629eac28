//! A plan in the making.

use coco_ast::{Slots, Term};
use std::alloc::Global;

// What the plan of a procedure has so far: a slot for each name, and the terms of the expressions.
#[derive(Drop)]
pub(crate) struct Draft {
    pub(crate) alloc: Global,
    pub(crate) slots: Slots,
    pub(crate) terms: Vec<Term>,
}
