//! An exchange of two rounds in which nodes are told of a commit and say that they have finished.

ghost use Rattle.std.specs.Prelude.{◌≡◌, ◌<◌, ◌≤◌, ◌^◌, ℕ, true, List, Contains, length, OnOk};
ghost use Rattle.coco_chief.specs.Shown.{chief_of};
ghost use Rattle.coco_chief.specs.Table.{has_finished};
ghost use Rattle.coco_letters.specs.Turns.{AreSent};
ghost use Rattle.coco_node.specs.Node.{Node as NodeState};
ghost use Rattle.coco_finish.specs.declared.tables.NodeTables.{NodeTables as Tables};
ghost use Rattle.coco_finish.specs.Exchanges.{commit_of, AreReminded, HaveAllFinished, UnlessFault};
ghost use Rattle.coco_finish.specs.Finishing.{finished_of, AllCanFinish};
ghost use Rattle.coco_finish.specs.Phase.{HasFinished, KeepTables, MayFinish};
ghost use Rattle.coco_vote.specs.Keeping.{KeepsLetters};

use crate::NodeTables;
use crate::taking::nodes_finish;
use coco_chief::ChiefCore;
use coco_letters::chief_takes;
use coco_net::Net;
use coco_node::NodeCore;
use coco_types::NoMemory;
use std::alloc::Global;

// A round, and what the coordinator does with the letters that it gives it.
fn answer_round<N: Net>(alloc: Global, net: &mut N, chief: &mut ChiefCore) -> Result<(), NoMemory>
    requires few { (chief_of chief.old).nodes ≤ 8 }
    requires last { (chief_of chief.old).last < 2 ^ 64 }
    ensures done { OnOk result ((epoch : ℕ) (cores : List NodeState) (tables : Tables) → (chief_of chief.old).last ≡ epoch → AllCanFinish epoch cores → HasFinished N.Net epoch cores cores (chief_of chief.old) (chief_of chief.new) tables tables net.old net.new) }
    ensures came { OnOk result ((epoch : ℕ) → (chief_of chief.old).last ≡ epoch → UnlessFault (N.faults net.old) (N.faults net.new) ((n : ℕ) → n < (chief_of chief.old).nodes → Contains (N.fresh net.old) (finished_of n epoch) → has_finished n (chief_of chief.new) ≡ true)) }
    ensures letters { KeepsLetters N.Net net.old net.new }
    ensures sent { OnOk result (AreSent (N.sent net.new) (N.waiting net.new)) }
    ensures nodes { (chief_of chief.new).nodes ≡ (chief_of chief.old).nodes }
{
    net.round()?;
    chief_takes(alloc, net, chief)?;
    Ok(())
}

// A round, and what the nodes, and then the coordinator, do with the letters that it gives them.
fn tell_round<N: Net>(
    alloc: Global,
    net: &mut N,
    chief: &mut ChiefCore,
    cores: &mut [NodeCore],
    tables: &mut NodeTables,
    epoch: u64,
) -> Result<(), NoMemory>
    requires may { MayFinish epoch cores.old tables.old }
    requires nodes { (chief_of chief.old).nodes ≡ length cores.old }
    requires last { (chief_of chief.old).last ≡ epoch }
    ensures done { OnOk result (HasFinished N.Net epoch cores.old cores.new (chief_of chief.old) (chief_of chief.new) tables.old tables.new net.old net.new) }
    ensures keep { KeepTables tables.old tables.new }
    // Each node that is told answers.
    ensures answers { OnOk result (UnlessFault (N.faults net.old) (N.faults net.new) ((n : ℕ) → n < length cores.old → Contains (N.fresh net.old) (commit_of n epoch) → Contains (N.fresh net.new) (finished_of n epoch))) }
    ensures letters { KeepsLetters N.Net net.old net.new }
    ensures nodes { (chief_of chief.new).nodes ≡ (chief_of chief.old).nodes }
{
    net.round()?;
    nodes_finish(alloc, net, cores, tables, epoch)?;
    chief_takes(alloc, net, chief)?;
    Ok(())
}

/// An exchange of two rounds. In the first the nodes hear the letters that were sent before, and those that are told
/// that the epoch is committed finish it; the coordinator takes the letters of both.
pub fn exchange<N: Net>(
    alloc: Global,
    net: &mut N,
    chief: &mut ChiefCore,
    cores: &mut [NodeCore],
    tables: &mut NodeTables,
    epoch: u64,
) -> Result<(), NoMemory>
    requires may { MayFinish epoch cores.old tables.old }
    requires nodes { (chief_of chief.old).nodes ≡ length cores.old }
    requires last { (chief_of chief.old).last ≡ epoch }
    ensures done { OnOk result (HasFinished N.Net epoch cores.old cores.new (chief_of chief.old) (chief_of chief.new) tables.old tables.new net.old net.new) }
    ensures keep { KeepTables tables.old tables.new }
    // An exchange without a fault, before which each node that hasn't finished was told, finishes all.
    ensures ends { OnOk result (AreReminded epoch (chief_of chief.old) (N.fresh net.old) → UnlessFault (N.faults net.old) (N.faults net.new) (HaveAllFinished (chief_of chief.new))) }
    ensures letters { KeepsLetters N.Net net.old net.new }
    ensures sent { OnOk result (AreSent (N.sent net.new) (N.waiting net.new)) }
    ensures nodes { (chief_of chief.new).nodes ≡ (chief_of chief.old).nodes }
{
    tell_round(alloc, net, chief, cores, tables, epoch)?;
    answer_round(alloc, net, chief)?;
    Ok(())
}
