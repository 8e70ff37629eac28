//! All letters that wait at the coordinator.

ghost use Rattle.std.specs.Prelude.{◌≡◌, ◌≢◌, ◌≤◌, ℕ, List, [], OnOk};
ghost use Rattle.coco_chief.specs.Shown.{chief_of};
ghost use Rattle.coco_node.specs.Node.{Node as NodeState};
ghost use Rattle.coco_node.specs.declared.machine.TheConstants.{COORDINATOR as Chiefs};
ghost use Rattle.coco_letters.specs.Counting.{CountsFinished, CountsVotes};
ghost use Rattle.coco_letters.specs.Taking.{ChiefTakes};
ghost use Rattle.coco_letters.specs.Telling.{Adds, IsOfChief};
ghost use Rattle.coco_letters.specs.Turns.{AreFresh, AreSent, Counts};
ghost use Rattle.coco_letters.specs.Worlds.{GoesOn};

use crate::chief::chief_hears;
use coco_chief::ChiefCore;
use coco_net::Net;
use coco_node::COORDINATOR;
use coco_types::NoMemory;
use std::alloc::Global;

/// The coordinator takes all letters that wait at it, in order, and what it says to each goes out.
pub fn chief_takes<N: Net>(
    alloc: Global,
    net: &mut N,
    chief: &mut ChiefCore,
) -> Result<(), NoMemory>
    requires few { (chief_of chief.old).nodes ≤ 8 }
    requires sent { AreSent (N.sent net.old) (N.waiting net.old) }
    ensures heard { OnOk result (ChiefTakes (N.waiting net.old Chiefs) (chief_of chief.old) (N.sent net.old) (chief_of chief.new) (N.sent net.new)) }
    ensures finished { OnOk result (CountsFinished (N.waiting net.old Chiefs) (chief_of chief.old) (chief_of chief.new)) }
    ensures votes { OnOk result (CountsVotes (N.waiting net.old Chiefs) (chief_of chief.old) (chief_of chief.new)) }
    ensures says { OnOk result (Adds IsOfChief (N.sent net.old) (N.sent net.new)) }
    ensures world { OnOk result ((cores : List NodeState) → GoesOn (record { cores = cores; chief = chief_of chief.old; sent = N.sent net.old }) (record { cores = cores; chief = chief_of chief.new; sent = N.sent net.new })) }
    ensures nodes { (chief_of chief.new).nodes ≡ (chief_of chief.old).nodes }
    ensures sent { OnOk result (AreSent (N.sent net.new) (N.waiting net.new)) }
    ensures taken { OnOk result (N.waiting net.new Chiefs ≡ []) }
    ensures others { (p : ℕ) → p ≢ Chiefs → N.waiting net.new p ≡ N.waiting net.old p }
    ensures fresh { AreFresh (N.sent net.old) (N.fresh net.old) (N.sent net.new) (N.fresh net.new) }
    ensures counts { Counts (N.given net.old) (N.faults net.old) (N.last_seed net.old) (N.given net.new) (N.faults net.new) (N.last_seed net.new) }
{
    while let Some(letter) = net.next(COORDINATOR) {
        chief_hears(alloc, net, chief, &letter)?;
    }
    Ok(())
}
