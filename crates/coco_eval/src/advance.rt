//! How a run's state goes on, and what its writes are at the end.
ghost use Rattle.std.specs.Prelude.{◌≡◌, ◌+◌, ◌<◌, ◌≤◌, ◌^◌, true, length, reverse, vec_capacity, Some};
ghost use Rattle.coco_types.specs.Limits.{most_keys};
ghost use Rattle.coco_ast.specs.Meaning.{procedure_at};
ghost use Rattle.coco_ast.specs.Tree.{Procedure};
ghost use Rattle.coco_ast.specs.Plans.{depth};
ghost use Rattle.coco_eval.specs.Advance.{Advances, AdvancesIn, IsRoomy, settled_writes};
ghost use Rattle.coco_eval.specs.Moves.{named};
ghost use Rattle.coco_eval.specs.Planned.{statements_by};
ghost use Rattle.coco_eval.specs.Places.{weight_on, are_bounded};

use crate::machine::{Frame, Machine, Stop};
use coco_ast::{Checked, Name, Plan};
use coco_types::{Reply, Writes};
use std::mem;

/// Goes on in a procedure, to a key whose value is needed or to the end. It answers whether it asks.
pub fn advance(procs: &Checked, number: u16, machine: &mut Machine, spare: &mut Vec<Frame>) -> bool
    requires { (p : Procedure) × (procedure_at procs.now.procs number ≡ Some p) × IsRoomy p machine.old spare.old
        × (length machine.old.writes.items + weight_on (reverse machine.old.path.items) p.body ≤ most_keys) }
    ensures { (p : Procedure) → procedure_at procs.now.procs number ≡ Some p → AdvancesIn result procs.now.tables p machine.old machine.new spare.new }
{
    let Some(plan) = procs.plan(number) else {
        unreachable!()
    };
    let tables = procs.tree().tables.as_slice();
    go_on(machine, spare, tables, plan)
}

// Goes on from the path. The spare list lends its room.
fn go_on(machine: &mut Machine, spare: &mut Vec<Frame>, tables: &[Name], plan: &Plan) -> bool
    requires tables { length tables.now < 2 ^ 16 }
    requires names { named machine.old ≡ plan.now.names }
    requires bounded { are_bounded (statements_by plan.now plan.now.steps.items) ≡ true }
    requires path { depth (statements_by plan.now plan.now.steps.items) ≤ vec_capacity machine.old.path }
    requires spare { depth (statements_by plan.now plan.now.steps.items) ≤ vec_capacity spare.old }
    requires few { length machine.old.writes.items + weight_on (reverse machine.old.path.items) (statements_by plan.now plan.now.steps.items) ≤ most_keys }
    requires room { most_keys ≤ vec_capacity machine.old.writes }
    ensures advances { Advances result tables.now (statements_by plan.now plan.now.steps.items) machine.old machine.new }
    ensures path { depth (statements_by plan.now plan.now.steps.items) ≤ vec_capacity machine.new.path }
    ensures spare { depth (statements_by plan.now plan.now.steps.items) ≤ vec_capacity spare.new }
    ensures given { machine.new.given ≡ machine.old.given }
    ensures room { most_keys ≤ vec_capacity machine.new.writes }
    ensures named { named machine.new ≡ named machine.old }
{
    mem::swap(&mut machine.path, spare);
    machine.path.clear();
    match machine.block(tables, plan, &plan.steps, spare) {
        Stop::Goes => {
            machine.reply = Reply::Ok(None);
            false
        }
        Stop::Ends => false,
        Stop::Asks(_) => true,
    }
}

/// Settles the writes of a state that has ended, none after a refusal. The state gets the room of
/// those that were settled before.
pub fn settle(machine: &mut Machine, settled: &mut Writes)
    ensures writes { settled.new ≡ settled_writes machine.old.reply machine.old.writes.items }
    ensures others { machine.new ≡ record machine.old { writes = machine.new.writes } }
{
    if matches!(&machine.reply, Reply::Refused(_)) {
        machine.writes.clear();
    }
    let none = Writes::new(*machine.writes.allocator());
    let room = mem::replace(settled, none).into_vec();
    let writes = mem::replace(&mut machine.writes, room);
    *settled = Writes::from_vec(writes);
}
