//! The kept replies, Done after Done.

ghost use Rattle.std.specs.Prelude.{◌≡◌, ◌≤◌, ℕ, List, ◌++◌, Option, length, IfOk, OnOk, OnErr};
ghost use Rattle.coco_types.specs.declared.call.Done.{Done};
ghost use Rattle.coco_ast.specs.History.{ids_of};
ghost use Rattle.coco_kept.specs.Holding.{MayFollow, NeverFall};
ghost use Rattle.coco_kept.specs.Keeping.{HoldsKept};

use crate::kept::Kept;
use coco_types::{Done, Dones, NoMemory};
use std::alloc::Global;

/// Adds Dones to the kept ones, in order, and makes room for all of them before. Out of memory none is added.
pub fn keep_dones(alloc: Global, kept: &mut Kept, dones: Dones) -> Result<(), NoMemory>
    requires { MayFollow kept.old dones }
    ensures kept { OnOk result ((before : Option ℕ) (added : List Done) → HoldsKept kept.old before added → NeverFall (added ++ dones) → HoldsKept kept.new before (added ++ dones)) }
    ensures keep { kept.new.keep ≡ kept.old.keep }
    ensures err { OnErr result (kept.new ≡ record kept.old { room = kept.new.room }) }
{
    make_room(alloc, kept, dones.as_slice())?;
    add_dones(kept, dones);
    Ok(())
}

/// Makes room among the kept ones for these Dones, and adds none of them.
pub fn make_room(alloc: Global, kept: &mut Kept, dones: &[Done]) -> Result<(), NoMemory>
    ensures same { kept.new ≡ record kept.old { room = kept.new.room } }
    ensures room { kept.old.room ≤ kept.new.room }
    ensures enough { OnOk result (length dones.now ≤ kept.new.room) }
{
    let ids = ids(alloc, dones)?;
    kept.reserve(ids.as_slice())
}

/// Adds Dones to the kept ones, in order, where there is room for all of them. It takes no memory.
pub fn add_dones(kept: &mut Kept, dones: Dones)
    requires follow { MayFollow kept.old dones }
    requires room { length dones ≤ kept.old.room }
    ensures kept { (before : Option ℕ) (added : List Done) → HoldsKept kept.old before added → NeverFall (added ++ dones) → HoldsKept kept.new before (added ++ dones) }
    ensures keep { kept.new.keep ≡ kept.old.keep }
{
    for done in dones.into_vec() {
        kept.add(done);
    }
}

fn ids(alloc: Global, dones: &[Done]) -> Result<Vec<u64>, NoMemory>
    ensures { IfOk result (λ ids. ids.items ≡ ids_of dones.now) }
{
    Ok(dones.iter().map(|done| done.id).collect(alloc)?)
}
