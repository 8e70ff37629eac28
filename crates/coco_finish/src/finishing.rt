//! The phase in which the nodes finish a committed epoch.

ghost use Rattle.std.specs.Prelude.{◌≡◌, ◌<◌, ◌≤◌, length, IfOk, OnOk};
ghost use Rattle.std.specs.Bool.{MatchBool};
ghost use Rattle.coco_chief.specs.Shown.{chief_of};
ghost use Rattle.coco_letters.specs.Turns.{AreSent};
ghost use Rattle.coco_finish.specs.Exchanges.{AreReminded, AsksAll, HaveAllFinished, IsSilent, OneHasNot, StaysSilent, UnlessFault};
ghost use Rattle.coco_finish.specs.Finishing.{AllCanFinish, AreWhole};
ghost use Rattle.coco_finish.specs.Phase.{HasFinished, KeepTables, MayFinish};
ghost use Rattle.coco_vote.specs.Keeping.{KeepsLetters};

use crate::NodeTables;
use crate::rounds::exchange;
use coco_chief::ChiefCore;
use coco_letters::chief_reminds;
use coco_net::Net;
use coco_node::NodeCore;
use coco_types::NoMemory;
use std::alloc::Global;

/// How often nodes are told of a commit before one is given up.
const EXCHANGES: u8 = 16;

/// How often, in numbers.
pub fn limits()
    ensures { EXCHANGES ≡ 16 }
{}

/// Whether all nodes have finished what was committed last.
pub fn have_all_finished(chief: &ChiefCore, nodes: u8) -> bool
    requires { (chief_of chief.now).nodes ≡ nodes }
    ensures { MatchBool result (HaveAllFinished (chief_of chief.now)) (OneHasNot (chief_of chief.now)) }
{
    for node in 0..nodes {
        if !chief.finished(node) {
            return false;
        }
    }
    true
}

// The nodes that haven't finished are told once more, and an exchange.
fn remind_and_exchange<N: Net>(
    alloc: Global,
    net: &mut N,
    chief: &mut ChiefCore,
    cores: &mut [NodeCore],
    tables: &mut NodeTables,
    epoch: u64,
) -> Result<(), NoMemory>
    requires may { MayFinish epoch cores.old tables.old }
    requires nodes { (chief_of chief.old).nodes ≡ length cores.old }
    requires last { (chief_of chief.old).last ≡ epoch }
    ensures done { OnOk result (HasFinished N.Net epoch cores.old cores.new (chief_of chief.old) (chief_of chief.new) tables.old tables.new net.old net.new) }
    ensures keep { KeepTables tables.old tables.new }
    ensures asks { OnOk result (AsksAll epoch (chief_of chief.old) (N.sent net.old) (N.sent net.new)) }
    ensures ends { OnOk result (UnlessFault (N.faults net.old) (N.faults net.new) (HaveAllFinished (chief_of chief.new))) }
    ensures letters { KeepsLetters N.Net net.old net.new }
    ensures sent { OnOk result (AreSent (N.sent net.new) (N.waiting net.new)) }
    ensures nodes { (chief_of chief.new).nodes ≡ (chief_of chief.old).nodes }
{
    chief_reminds(alloc, net, chief)?;
    exchange(alloc, net, chief, cores, tables, epoch)?;
    Ok(())
}

// Exchanges behind the first, until all nodes have finished.
fn remind<N: Net>(
    alloc: Global,
    net: &mut N,
    chief: &mut ChiefCore,
    cores: &mut [NodeCore],
    tables: &mut NodeTables,
    epoch: u64,
) -> Result<bool, NoMemory>
    requires may { MayFinish epoch cores.old tables.old }
    requires nodes { (chief_of chief.old).nodes ≡ length cores.old }
    requires last { (chief_of chief.old).last ≡ epoch }
    requires sent { AreSent (N.sent net.old) (N.waiting net.old) }
    ensures done { OnOk result (HasFinished N.Net epoch cores.old cores.new (chief_of chief.old) (chief_of chief.new) tables.old tables.new net.old net.new) }
    ensures keep { KeepTables tables.old tables.new }
    ensures all { IfOk result (λ all. MatchBool all (HaveAllFinished (chief_of chief.new)) (StaysSilent 15 epoch (chief_of chief.new) (N.sent net.old) (N.sent net.new) (N.faults net.old) (N.faults net.new))) }
    ensures letters { KeepsLetters N.Net net.old net.new }
    ensures sent { OnOk result (AreSent (N.sent net.new) (N.waiting net.new)) }
    ensures nodes { (chief_of chief.new).nodes ≡ (chief_of chief.old).nodes }
{
    let nodes = cores.len() as u8;
    for _exchange in 1..EXCHANGES {
        if have_all_finished(chief, nodes) {
            return Ok(true);
        }
        remind_and_exchange(alloc, net, chief, cores, tables, epoch)?;
    }
    Ok(have_all_finished(chief, nodes))
}

/// The nodes finish the last committed epoch, of which each that hasn't finished is told by a letter on its way: up to
/// 16 exchanges, before each but the first of which those that haven't are told once more. True where all have finished.
pub fn finish<N: Net>(
    alloc: Global,
    net: &mut N,
    chief: &mut ChiefCore,
    cores: &mut [NodeCore],
    tables: &mut NodeTables,
    epoch: u64,
) -> Result<bool, NoMemory>
    requires few { length cores.old ≤ 8 }
    requires nodes { (chief_of chief.old).nodes ≡ length cores.old }
    requires some { 0 < epoch }
    requires last { (chief_of chief.old).last ≡ epoch }
    requires whole { AreWhole tables.old }
    requires behind { length tables.old.behind.items ≡ length cores.old }
    requires can { AllCanFinish epoch cores.old }
    requires told { AreReminded epoch (chief_of chief.old) (N.fresh net.old) }
    // What became of each node, and of the tables.
    ensures done { OnOk result (HasFinished N.Net epoch cores.old cores.new (chief_of chief.old) (chief_of chief.new) tables.old tables.new net.old net.new) }
    ensures keep { KeepTables tables.old tables.new }
    // The coordinator, and the letters.
    ensures nodes { (chief_of chief.new).nodes ≡ (chief_of chief.old).nodes }
    ensures all { IfOk result (λ all. MatchBool all (HaveAllFinished (chief_of chief.new)) (IsSilent epoch (chief_of chief.new) (N.sent net.old) (N.given net.old) (N.sent net.new) (N.given net.new) (N.faults net.old) (N.faults net.new))) }
    ensures letters { KeepsLetters N.Net net.old net.new }
    ensures sent { OnOk result (AreSent (N.sent net.new) (N.waiting net.new)) }
{
    exchange(alloc, net, chief, cores, tables, epoch)?;
    let all = remind(alloc, net, chief, cores, tables, epoch)?;
    Ok(all)
}
