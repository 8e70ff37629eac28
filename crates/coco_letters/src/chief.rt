//! What the coordinator does at letters, and of itself.

ghost use Rattle.std.specs.Prelude.{◌≡◌, ◌<◌, ◌≤◌, ℕ, List, Contains, IsTrue, OnOk};
ghost use Rattle.coco_chief.specs.Shown.{chief_of};
ghost use Rattle.coco_chief.specs.Table.{aborted, begun, forced, is_open, reminds};
ghost use Rattle.coco_chief.specs.declared.machine.Phase.TheVariants.{Forcing, Rest as Still};
ghost use Rattle.coco_node.specs.Node.{Node as NodeState};
ghost use Rattle.coco_node.specs.declared.machine.TheConstants.{COORDINATOR as Chiefs};
ghost use Rattle.coco_letters.specs.Telling.{Adds, IsOfChief};
ghost use Rattle.coco_letters.specs.Turns.{ChiefHears, ChiefTurns, OnlySends};
ghost use Rattle.coco_letters.specs.Worlds.{Commits, GoesOn, GoesOnAbove, GoesOnWith};

use crate::hearing::hear;
use crate::sending::send_actions;
use coco_chief::ChiefCore;
use coco_net::{Letter, Net};
use coco_node::COORDINATOR;
use coco_types::NoMemory;
use std::alloc::Global;

/// The coordinator takes a letter that waited at it, and what it says to it goes out. It drops what is no message of a
/// commit.
pub fn chief_hears<N: Net>(
    alloc: Global,
    net: &mut N,
    chief: &mut ChiefCore,
    letter: &Letter,
) -> Result<(), NoMemory>
    requires few { (chief_of chief.old).nodes ≤ 8 }
    requires sent { Contains (N.sent net.old) (record { to = Chiefs; letter = letter.now }) }
    ensures heard { OnOk result (ChiefHears letter.now (chief_of chief.old) (N.sent net.old) (chief_of chief.new) (N.sent net.new)) }
    ensures says { OnOk result (Adds IsOfChief (N.sent net.old) (N.sent net.new)) }
    ensures world { OnOk result ((cores : List NodeState) → GoesOn (record { cores = cores; chief = chief_of chief.old; sent = N.sent net.old }) (record { cores = cores; chief = chief_of chief.new; sent = N.sent net.new })) }
    ensures nodes { (chief_of chief.new).nodes ≡ (chief_of chief.old).nodes }
    ensures sends { OnlySends N.Net net.old net.new }
{
    match hear(alloc, letter)? {
        Some(message) => {
            let actions = chief.handle(letter.from, &message)?;
            send_actions(alloc, net, COORDINATOR, &actions)
        }
        None => Ok(()),
    }
}

/// The coordinator begins an epoch, and asks each node for its vote.
pub fn chief_begins<N: Net>(
    alloc: Global,
    net: &mut N,
    chief: &mut ChiefCore,
    epoch: u64,
) -> Result<(), NoMemory>
    requires few { (chief_of chief.old).nodes ≤ 8 }
    requires some { 0 < epoch }
    requires at_rest { (chief_of chief.old).phase ≡ Still }
    requires above_begun { (chief_of chief.old).current < epoch }
    requires above_committed { (chief_of chief.old).last < epoch }
    ensures turns { OnOk result (ChiefTurns (begun epoch (chief_of chief.old)) (N.sent net.old) (chief_of chief.new) (N.sent net.new)) }
    ensures says { OnOk result (Adds IsOfChief (N.sent net.old) (N.sent net.new)) }
    ensures world { OnOk result ((cores : List NodeState) → GoesOnAbove epoch (record { cores = cores; chief = chief_of chief.old; sent = N.sent net.old }) (record { cores = cores; chief = chief_of chief.new; sent = N.sent net.new })) }
    ensures nodes { (chief_of chief.new).nodes ≡ (chief_of chief.old).nodes }
    ensures sends { OnlySends N.Net net.old net.new }
{
    let actions = chief.begin(epoch)?;
    send_actions(alloc, net, COORDINATOR, &actions)
}

/// The commit entry that the coordinator forces is durable. It tells each node.
pub fn chief_forced<N: Net>(
    alloc: Global,
    net: &mut N,
    chief: &mut ChiefCore,
    epoch: u64,
) -> Result<(), NoMemory>
    requires few { (chief_of chief.old).nodes ≤ 8 }
    requires phase { (chief_of chief.old).phase ≡ Forcing }
    requires epoch { (chief_of chief.old).current ≡ epoch }
    ensures turns { OnOk result (ChiefTurns (forced epoch (chief_of chief.old)) (N.sent net.old) (chief_of chief.new) (N.sent net.new)) }
    ensures says { OnOk result (Adds IsOfChief (N.sent net.old) (N.sent net.new)) }
    ensures world { OnOk result ((cores : List NodeState) → GoesOnWith (Commits epoch) (record { cores = cores; chief = chief_of chief.old; sent = N.sent net.old }) (record { cores = cores; chief = chief_of chief.new; sent = N.sent net.new })) }
    ensures nodes { (chief_of chief.new).nodes ≡ (chief_of chief.old).nodes }
    ensures sends { OnlySends N.Net net.old net.new }
{
    let actions = chief.forced(epoch)?;
    send_actions(alloc, net, COORDINATOR, &actions)
}

/// The coordinator gives up the epoch that is voting or forcing, and tells each node.
pub fn chief_aborts<N: Net>(
    alloc: Global,
    net: &mut N,
    chief: &mut ChiefCore,
) -> Result<(), NoMemory>
    requires few { (chief_of chief.old).nodes ≤ 8 }
    requires undecided { IsTrue (is_open (chief_of chief.old).phase) }
    ensures turns { OnOk result (ChiefTurns (aborted (chief_of chief.old)) (N.sent net.old) (chief_of chief.new) (N.sent net.new)) }
    ensures says { OnOk result (Adds IsOfChief (N.sent net.old) (N.sent net.new)) }
    ensures world { OnOk result ((cores : List NodeState) → GoesOn (record { cores = cores; chief = chief_of chief.old; sent = N.sent net.old }) (record { cores = cores; chief = chief_of chief.new; sent = N.sent net.new })) }
    ensures nodes { (chief_of chief.new).nodes ≡ (chief_of chief.old).nodes }
    ensures sends { OnlySends N.Net net.old net.new }
{
    let _current = chief.current();
    let actions = chief.abort()?;
    send_actions(alloc, net, COORDINATOR, &actions)
}

/// The coordinator tells the nodes that haven't finished the last committed epoch once more.
pub fn chief_reminds<N: Net>(alloc: Global, net: &mut N, chief: &ChiefCore) -> Result<(), NoMemory>
    requires few { (chief_of chief.now).nodes ≤ 8 }
    ensures turns { OnOk result (ChiefTurns (reminds (chief_of chief.now), chief_of chief.now) (N.sent net.old) (chief_of chief.now) (N.sent net.new)) }
    ensures says { OnOk result (Adds IsOfChief (N.sent net.old) (N.sent net.new)) }
    ensures world { OnOk result ((cores : List NodeState) → GoesOn (record { cores = cores; chief = chief_of chief.now; sent = N.sent net.old }) (record { cores = cores; chief = chief_of chief.now; sent = N.sent net.new })) }
    ensures sends { OnlySends N.Net net.old net.new }
{
    let _last = chief.last();
    let actions = chief.remind()?;
    send_actions(alloc, net, COORDINATOR, &actions)
}
