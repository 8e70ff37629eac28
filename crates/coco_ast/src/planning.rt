//! The steps of statements without blocks and the terms of expressions, of which plans are made.

ghost use Rattle.std.specs.Prelude.{IfOk, OnOk};
ghost use Rattle.coco_ast.specs.Checks.{variables_of};
ghost use Rattle.coco_ast.specs.Planning.{names_in, Adds, ReadsAs, StandsFor, StandsForPlace, IsStepOf};
ghost use Rattle.coco_ast.specs.Tree.{Let, Get, Put, Delete, Reply};
ghost use Rattle.coco_ast.specs.Views.{expression_of, place_of};

use crate::slots::Slots;
use crate::{Expr, Name, Place, PlanStep, Spot, Term};
use coco_types::NoMemory;
use std::alloc::Global;

/// The step of a `let`: its value first, and then the slot of its name.
pub fn let_step(
    slots: &mut Slots,
    terms: &mut Vec<Term>,
    alloc: Global,
    name: &Name,
    value: &Expr,
) -> Result<PlanStep, NoMemory>
    ensures adds { OnOk result (Adds slots.old slots.new terms.old.items terms.new.items (names_in (Let name.now (expression_of value.now)))) }
    ensures step { IfOk result (λ step. IsStepOf slots.new terms.new.items (Let name.now (expression_of value.now)) step) }
{
    let value = term_of(slots, terms, alloc, value)?;
    let slot = slots.slot(name)?;
    Ok(PlanStep::Let { slot, value })
}

/// The step of a `get`: its place first, and then the slot of its name.
pub fn get_step(
    slots: &mut Slots,
    terms: &mut Vec<Term>,
    alloc: Global,
    name: &Name,
    place: &Place,
) -> Result<PlanStep, NoMemory>
    ensures adds { OnOk result (Adds slots.old slots.new terms.old.items terms.new.items (names_in (Get name.now (place_of place.now)))) }
    ensures step { IfOk result (λ step. IsStepOf slots.new terms.new.items (Get name.now (place_of place.now)) step) }
{
    let spot = spot_of(slots, terms, alloc, place)?;
    let slot = slots.slot(name)?;
    Ok(PlanStep::Get { slot, spot })
}

/// The step of a `put`: its place first, and then its value.
pub fn put_step(
    slots: &mut Slots,
    terms: &mut Vec<Term>,
    alloc: Global,
    place: &Place,
    value: &Expr,
) -> Result<PlanStep, NoMemory>
    ensures adds { OnOk result (Adds slots.old slots.new terms.old.items terms.new.items (names_in (Put (place_of place.now) (expression_of value.now)))) }
    ensures step { IfOk result (λ step. IsStepOf slots.new terms.new.items (Put (place_of place.now) (expression_of value.now)) step) }
{
    let spot = spot_of(slots, terms, alloc, place)?;
    let value = term_of(slots, terms, alloc, value)?;
    Ok(PlanStep::Put { spot, value })
}

/// The step of a `delete`.
pub fn delete_step(
    slots: &mut Slots,
    terms: &mut Vec<Term>,
    alloc: Global,
    place: &Place,
) -> Result<PlanStep, NoMemory>
    ensures adds { OnOk result (Adds slots.old slots.new terms.old.items terms.new.items (names_in (Delete (place_of place.now)))) }
    ensures step { IfOk result (λ step. IsStepOf slots.new terms.new.items (Delete (place_of place.now)) step) }
{
    let spot = spot_of(slots, terms, alloc, place)?;
    Ok(PlanStep::Delete { spot })
}

/// The step of a `reply`.
pub fn reply_step(
    slots: &mut Slots,
    terms: &mut Vec<Term>,
    alloc: Global,
    value: &Expr,
) -> Result<PlanStep, NoMemory>
    ensures adds { OnOk result (Adds slots.old slots.new terms.old.items terms.new.items (names_in (Reply (expression_of value.now)))) }
    ensures step { IfOk result (λ step. IsStepOf slots.new terms.new.items (Reply (expression_of value.now)) step) }
{
    let value = term_of(slots, terms, alloc, value)?;
    Ok(PlanStep::Reply(value))
}

fn spot_of(
    slots: &mut Slots,
    terms: &mut Vec<Term>,
    alloc: Global,
    place: &Place,
) -> Result<Spot, NoMemory>
    ensures adds { OnOk result (Adds slots.old slots.new terms.old.items terms.new.items (variables_of (place_of place.now).row)) }
    ensures stands { IfOk result (λ spot. StandsForPlace slots.new terms.new.items spot (place_of place.now)) }
{
    let row = term_of(slots, terms, alloc, &place.row)?;
    Ok(Spot {
        table: place.table.copied(),
        row,
    })
}

/// The place of an expression's term, which comes behind the terms of its operands.
#[cycle(terms)]
pub fn term_of(
    slots: &mut Slots,
    terms: &mut Vec<Term>,
    alloc: Global,
    expr: &Expr,
) -> Result<usize, NoMemory>
    ensures adds { OnOk result (Adds slots.old slots.new terms.old.items terms.new.items (variables_of (expression_of expr.now))) }
    ensures stands { IfOk result (λ place. StandsFor slots.new terms.new.items place (expression_of expr.now)) }
{
    let term = next_term(slots, terms, alloc, expr)?;
    let place = terms.len();
    terms.push(term)?;
    Ok(place)
}

// The term of an expression, once its operands have their places.
#[cycle(terms)]
fn next_term(
    slots: &mut Slots,
    terms: &mut Vec<Term>,
    alloc: Global,
    expr: &Expr,
) -> Result<Term, NoMemory>
    ensures adds { OnOk result (Adds slots.old slots.new terms.old.items terms.new.items (variables_of (expression_of expr.now))) }
    ensures reads { IfOk result (λ term. ReadsAs slots.new terms.new.items term (expression_of expr.now)) }
{
    match expr {
        Expr::Number(number) => Ok(Term::Number(*number)),
        Expr::Text(text) => Ok(Term::Text(text.copied(alloc)?)),
        Expr::None => Ok(Term::None),
        Expr::Var(name) => {
            let slot = slots.slot(name)?;
            Ok(Term::Variable(slot))
        }
        Expr::Not(operand) => {
            let operand = term_of(slots, terms, alloc, operand)?;
            Ok(Term::Not(operand))
        }
        Expr::Negate(operand) => {
            let operand = term_of(slots, terms, alloc, operand)?;
            Ok(Term::Negate(operand))
        }
        Expr::Two { op, left, right } => {
            let left = term_of(slots, terms, alloc, left)?;
            let right = term_of(slots, terms, alloc, right)?;
            Ok(Term::Two {
                op: *op,
                left,
                right,
            })
        }
    }
}
