//! Built-in procedures with their plans, literals and expressions as they are made.

use coco_ast::{Checked, Expr, Literal, PlanStep, Proc, Term, TwoOp, builtins};
use coco_check::built_in;
use coco_types::{NoMemory, Text};
use std::alloc::Global;
use std::test::Fail;

fn are_built_in(procs: &[Proc]) -> bool {
    match procs {
        [get, put, add] => {
            get.name.as_str() == "get" && put.name.as_str() == "put" && add.name.as_str() == "add"
        }
        _ => false,
    }
}

#[test]
fn built_in_procedures_stand_in_their_order(rt: HostRuntime) -> Result<(), Fail> {
    let made = builtins(rt.alloc())?;
    assert!(rt; are_built_in(made.procs.as_slice()));
    Ok(())
}

// The parameters `r` and `n` have slots 0 and 1, and `v`, which is replied, has slot 2. A `let` stands in an `if`.
fn adds_by_slots(procs: &Checked) -> bool {
    let Some(plan) = procs.plan(2) else {
        return false;
    };
    let names = plan.names.as_slice();
    let Some(PlanStep::Reply(place)) = plan.steps.last() else {
        return false;
    };
    names.len() == 3
        && names[2].as_str() == "v"
        && plan.depth == 2
        && matches!(plan.terms.get(*place), Some(Term::Variable(2)))
}

#[test]
fn a_plan_has_a_slot_for_each_variable(rt: HostRuntime) -> Result<(), Fail> {
    let procs = built_in(rt.alloc())?;
    assert!(rt; adds_by_slots(&procs));
    Ok(())
}

// The sum of a negated number and of the negation of none.
fn sum(alloc: Global) -> Result<Expr, NoMemory> {
    let left = Expr::negate(alloc, Expr::Number(1))?;
    let right = Expr::not(alloc, Expr::None)?;
    Expr::two(alloc, TwoOp::Add, left, right)
}

#[test]
fn expressions_are_made_of_operands(rt: HostRuntime) -> Result<(), Fail> {
    assert!(rt; matches!(sum(rt.alloc())?, Expr::Two { .. }));
    Ok(())
}

// Whether the literal of this text has its bytes, and is the text again.
fn has_its_text(alloc: Global, written: &str) -> Result<bool, NoMemory> {
    let Some(text) = Text::of(written) else {
        return Ok(false);
    };
    let literal = Literal::of(alloc, &text)?;
    Ok(literal.as_str() == written && literal.text() == text)
}

#[test]
fn a_literal_has_its_text(rt: HostRuntime) -> Result<(), Fail> {
    for written in ["", "Zürich"] {
        assert!(rt; has_its_text(rt.alloc(), written)?, "{written}");
    }
    Ok(())
}
