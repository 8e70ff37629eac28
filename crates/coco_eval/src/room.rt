//! How a run's room is made: its variables, its lists and its paths.
ghost use Rattle.std.specs.Prelude.{◌≡◌, [], length, OnOk, OnErr};
ghost use Rattle.coco_ast.specs.Plans.{IsPlanOf};
ghost use Rattle.coco_ast.specs.Tree.{Procedure};
ghost use Rattle.coco_eval.specs.Preparing.{IsPrepared};

use crate::machine::{Frame, Machine};
use coco_ast::Plan;
use coco_types::limits::MOST_KEYS;
use coco_types::{Args, NoMemory};

/// Sets a state to the start of a procedure, with room for all that it may do. Out of memory, what
/// was given is as before.
pub fn prepare(
    machine: &mut Machine,
    spare: &mut Vec<Frame>,
    plan: &Plan,
    args: &Args,
) -> Result<(), NoMemory>
    requires { (p : Procedure) × IsPlanOf p plan.now × (length args.now ≡ length p.params) }
    ensures ok { OnOk result ((p : Procedure) → IsPlanOf p plan.now → length args.now ≡ length p.params → IsPrepared p plan.now.names args.now machine.new spare.new) }
    ensures given { OnOk result (machine.new.given.items ≡ []) }
    ensures err { OnErr result (machine.new.given.items ≡ machine.old.given.items) }
    ensures reply { machine.new.reply ≡ machine.old.reply }
{
    machine.variables.begin(&plan.names, args)?;
    machine.path.clear();
    machine.path.reserve(plan.depth)?;
    spare.clear();
    spare.reserve(plan.depth)?;
    machine.writes.clear();
    machine.writes.reserve(MOST_KEYS as usize)?;
    machine.given.reserve(MOST_KEYS as usize)?;
    machine.given.clear();
    Ok(())
}
