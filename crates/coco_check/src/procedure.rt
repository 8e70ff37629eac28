//! A procedure as a whole, and then its body with its plan.

ghost use Rattle.std.specs.Prelude.{◌≡◌, ◌<◌, ◌^◌, [], length, IfOk, not};
ghost use Rattle.coco_ast.specs.Checks.{counted_weight, in_order, statements_in};
ghost use Rattle.coco_ast.specs.Planning.{HasOwnNames};
ghost use Rattle.coco_ast.specs.Plans.{IsPlanOf, depth};
ghost use Rattle.coco_ast.specs.Views.{procedure_of, statements_of};
ghost use Rattle.coco_check.specs.Search.{Finds, adding, fault_of, header_kind as kind_of_header, procedure_fault, walk};

use crate::CheckKind;
use crate::body::Body;
use crate::draft::Draft;
use crate::fault::BodyFault;
use crate::measure::{block_ends, block_measure};
use crate::names::{NameSet, add_all};
use coco_ast::{Plan, Proc, Slots, Stmt};
use coco_types::limits::MOST_KEYS;
use std::alloc::Global;

// The plan of a procedure, or its first fault, where these tables are declared.
pub(crate) fn check_proc(
    alloc: Global,
    tables: &NameSet,
    is_new: bool,
    proc: &Proc,
) -> Result<Plan, BodyFault>
    requires { length (statements_in (procedure_of proc.now)) < 2 ^ 32 }
    ensures fault { Finds result (procedure_fault tables.now.keys is_new
        (adding [] 0 proc.now.params) (procedure_of proc.now)) }
    ensures plan { IfOk result (λ plan. IsPlanOf (procedure_of proc.now) plan) }
{
    let mut known = NameSet::new(alloc);
    let twice = add_all(&mut known, proc.params.as_slice())?;
    let is_twice = !is_new || twice.is_some();
    let measure = block_measure(&proc.body)?;
    if let Some(kind) = header_kind(is_twice, measure.weight, &proc.body) {
        return Err(BodyFault::Refused { statement: 0, kind });
    }
    check_body(alloc, tables, known, proc, measure.depth)
}

// What is wrong with a procedure as a whole, where its name or a parameter's stands twice or not.
fn header_kind(is_twice: bool, weight: u64, body: &[Stmt]) -> Option<CheckKind>
    requires { weight ≡ counted_weight (statements_of body.now) }
    ensures { result ≡ kind_of_header is_twice (statements_of body.now) }
{
    if is_twice {
        return Some(CheckKind::Twice);
    }
    if weight > MOST_KEYS {
        let count = weight as u32;
        return Some(CheckKind::TooManyKeys { count });
    }
    if block_ends(body) {
        None
    } else {
        Some(CheckKind::NoReply)
    }
}

// The plan of a procedure with these parameters, in which blocks stand so deep, or the first fault of its body.
fn check_body(
    alloc: Global,
    tables: &NameSet,
    params: NameSet,
    proc: &Proc,
    deep: usize,
) -> Result<Plan, BodyFault>
    requires own { HasOwnNames proc.now.params }
    requires deep { deep ≡ depth (procedure_of proc.now).body }
    requires few { length (in_order 1 (procedure_of proc.now).body) < 2 ^ 32 }
    ensures fault { Finds result (fault_of (walk tables.now.keys
        (record { last = 0; known = params.keys }) (in_order 1 (procedure_of proc.now).body))) }
    ensures plan { IfOk result (λ plan. IsPlanOf (procedure_of proc.now) plan) }
{
    let mut body = Body {
        last: 0,
        known: params,
    };
    let slots = Slots::of(alloc, proc.params.as_slice())?;
    let terms = Vec::new(alloc);
    let mut draft = Draft {
        alloc,
        slots,
        terms,
    };
    let steps = body.check_block(&mut draft, tables, 1, &proc.body)?;
    let Draft { slots, terms, .. } = draft;
    Ok(Plan {
        names: slots.into_names(),
        terms,
        steps,
        depth: deep,
    })
}
