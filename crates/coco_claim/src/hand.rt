//! What a seat knows, the rule that ties all of them to the counter, and the steps. Word 0 is the table's own, word 1 the counter.
use atomic_table::{Join, Play, Split, TableRule};
use std::collections::LinkedList;

/// How many numbers are wanted, and how many seats draw them.
#[derive(Clone, Copy, Debug, PartialEq, Eq)]
pub struct Plan {
    pub n: u32,
    pub seats: u32,
}

/// The marks of a seat, and the numbers that it drew, in order. No value of it is made.
pub struct Hand {
    pub plan: Plan,
    pub marks: LinkedList<u32>,
    pub drawn: LinkedList<u64>,
}

/// The rule: each number below the counter stands in one view, once.
pub struct EachOnce;

impl TableRule<(), Hand, Plan> for EachOnce {
    ghost use Rattle.coco_claim.specs.Drawing.{Claimed, first_hand};

    ghost holds = { Claimed };

    ghost first = { first_hand };
}

pub struct Draw;

impl Play<(), Hand> for Draw {
    ghost use Rattle.coco_claim.specs.Drawing.{Drawn};

    ghost then = { Drawn };
}

pub struct OneMark;

impl Split<Hand> for OneMark {
    ghost use Rattle.coco_claim.specs.Drawing.{less_a_mark, one_mark};

    ghost left = { less_a_mark };

    ghost right = { one_mark };
}

pub struct Together;

impl Join<Hand> for Together {
    ghost use Rattle.coco_claim.specs.Drawing.{both, spent};

    ghost both = { both };

    ghost spent = { spent };
}
