//! Nodes finish what was committed last before an epoch is begun.

ghost use Rattle.std.specs.Prelude.{◌≡◌, ◌<◌, ◌≤◌, ℕ, false, true, length, Ok, IfOk, OnOk};
ghost use Rattle.std.specs.Bool.{MatchBool};
ghost use Rattle.coco_ast.specs.Keyed.{Rows};
ghost use Rattle.coco_chief.specs.Shown.{chief_of};
ghost use Rattle.coco_finish.specs.Exchanges.{HaveAllFinished, IsSilent};
ghost use Rattle.coco_finish.specs.Finishing.{AllCanFinish, Finish, HaveMap};
ghost use Rattle.coco_letters.specs.GivingUp.{Awaits, since};
ghost use Rattle.coco_letters.specs.Telling.{Adds, IsOfFinish};
ghost use Rattle.coco_letters.specs.Worlds.{GoesOn};
ghost use Rattle.coco_members.specs.AtRest.{scene_of, AreAtRest, AreMembers, ShardsHaveMap};
ghost use Rattle.coco_settle.specs.Reminding.{KeepsLogs};
ghost use Rattle.coco_vote.specs.Keeping.{KeepsLetters};

use coco_finish::{finish, have_all_finished, unfinished_nodes_are_told};
use coco_letters::chief_reminds;
use coco_members::Members;
use coco_net::Net;
use coco_types::NoMemory;
use std::alloc::Global;

// The nodes that haven't finished are reminded, and all finish.
fn remind_all<N: Net>(alloc: Global, net: &mut N, members: &mut Members) -> Result<bool, NoMemory>
    requires are { AreMembers members.old }
    requires some { 0 < (chief_of members.old.chief).last }
    requires can { AllCanFinish (chief_of members.old.chief).last members.old.cores.items }
    ensures rest { OnOk result ((next : ℕ) → AreAtRest next (N.sent net.old) members.old → AreAtRest next (N.sent net.new) members.new) }
    ensures finish { OnOk result (Finish (chief_of members.old.chief).last members.old.cores.items members.new.cores.items members.old.tables members.new.tables) }
    ensures committed { OnOk result ((chief_of members.new.chief).committed ≡ (chief_of members.old.chief).committed) }
    ensures stays { KeepsLogs members.old members.new }
    ensures map { (m : Rows) → HaveMap m members.old.tables → HaveMap m members.new.tables }
    ensures shards { OnOk result ((m : Rows) → ShardsHaveMap m members.old.tables → ShardsHaveMap m members.new.tables) }
    ensures all { IfOk result (λ all. MatchBool all (HaveAllFinished (chief_of members.new.chief))
        (IsSilent (chief_of members.old.chief).last (chief_of members.new.chief) (N.sent net.old) (N.given net.old) (N.sent net.new) (N.given net.new) (N.faults net.old) (N.faults net.new))) }
    ensures awaits { IfOk result (λ all. all ≡ false → Awaits (since (N.sent net.old) (N.sent net.new)) (since (N.given net.old) (N.given net.new))) }
    ensures said { OnOk result (Adds (IsOfFinish (chief_of members.old.chief).last) (N.sent net.old) (N.sent net.new)) }
    ensures letters { KeepsLetters N.Net net.old net.new }
    ensures world { OnOk result (GoesOn (scene_of members.old (N.sent net.old)) (scene_of members.new (N.sent net.new))) }
{
    let last = members.chief.last();
    chief_reminds(alloc, net, &members.chief)?;
    unfinished_nodes_are_told();
    let finished = finish(
        alloc,
        net,
        &mut members.chief,
        members.cores.as_mut_slice(),
        &mut members.tables,
        last,
    )?;
    Ok(finished)
}

/// Before an epoch is begun the nodes finish the one that was committed last: those that haven't are reminded of it, in
/// up to 16 exchanges. True where all have finished. Where they had before, or nothing was committed, nothing is touched.
pub fn remind<N: Net>(alloc: Global, net: &mut N, members: &mut Members) -> Result<bool, NoMemory>
    requires are { AreMembers members.old }
    requires can { AllCanFinish (chief_of members.old.chief).last members.old.cores.items }
    // What became of nodes, coordinator and tables.
    ensures rest { OnOk result ((next : ℕ) → AreAtRest next (N.sent net.old) members.old → AreAtRest next (N.sent net.new) members.new) }
    ensures finish { OnOk result (Finish (chief_of members.old.chief).last members.old.cores.items members.new.cores.items members.old.tables members.new.tables) }
    ensures committed { OnOk result ((chief_of members.new.chief).committed ≡ (chief_of members.old.chief).committed) }
    ensures stays { KeepsLogs members.old members.new }
    ensures map { (m : Rows) → HaveMap m members.old.tables → HaveMap m members.new.tables }
    ensures shards { OnOk result ((m : Rows) → ShardsHaveMap m members.old.tables → ShardsHaveMap m members.new.tables) }
    ensures untouched { HaveAllFinished (chief_of members.old.chief) → (result ≡ Ok true) × (net.new ≡ net.old) × (members.new ≡ members.old) }
    // The answer, and its cause.
    ensures all { IfOk result (λ all. MatchBool all (HaveAllFinished (chief_of members.new.chief))
        (IsSilent (chief_of members.old.chief).last (chief_of members.new.chief) (N.sent net.old) (N.given net.old) (N.sent net.new) (N.given net.new) (N.faults net.old) (N.faults net.new))) }
    ensures awaits { IfOk result (λ all. all ≡ false → Awaits (since (N.sent net.old) (N.sent net.new)) (since (N.given net.old) (N.given net.new))) }
    // The letters, the world and the counts.
    ensures said { OnOk result (Adds (IsOfFinish (chief_of members.old.chief).last) (N.sent net.old) (N.sent net.new)) }
    ensures letters { KeepsLetters N.Net net.old net.new }
    ensures world { OnOk result (GoesOn (scene_of members.old (N.sent net.old)) (scene_of members.new (N.sent net.new))) }
{
    let nodes = members.cores.len() as u8;
    if have_all_finished(&members.chief, nodes) {
        return Ok(true);
    }
    let all = remind_all(alloc, net, members)?;
    Ok(all)
}
