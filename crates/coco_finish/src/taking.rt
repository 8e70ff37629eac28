//! What a node does with a letter that waits at it while it finishes an epoch.

ghost use Rattle.std.specs.Prelude.{◌≡◌, ◌≢◌, ℕ, ◌<◌, ◌≤◌, [], Contains, length, IfOk, OnOk};
ghost use Rattle.coco_ast.specs.Keyed.{Rows};
ghost use Rattle.coco_chief.specs.Chief.{Chief as ChiefState};
ghost use Rattle.coco_letters.specs.Turns.{AreFresh, AreSent, Counts, OnlySends};
ghost use Rattle.coco_letters.specs.Worlds.{GoesOn};
ghost use Rattle.coco_net.specs.declared.letter.Letter.{Letter as Mail};
ghost use Rattle.coco_finish.specs.Finishing.{finished_of, AllCanFinish, AreBehind, AreTold, AreWhole, CatchesUpIf, FinishesSo, HaveMap, TellsCommitted};
ghost use Rattle.coco_finish.specs.Phase.{HaveTaken, KeepTables};

use crate::NodeTables;
use crate::tables::catch_up;
use coco_letters::node_finishes;
use coco_net::{Letter, Net};
use coco_node::NodeCore;
use coco_types::NoMemory;
use std::alloc::Global;

// A node hears a letter that waited at it. The answer is whether its tables are to be promoted.
fn hear_committed<N: Net>(
    alloc: Global,
    net: &mut N,
    cores: &mut [NodeCore],
    node: u8,
    epoch: u64,
    letter: &Letter,
) -> Result<bool, NoMemory>
    requires few { length cores.old ≤ 8 }
    requires node { node < length cores.old }
    requires some { 0 < epoch }
    requires sent { Contains (N.sent net.old) (record { to = node; letter = letter.now }) }
    requires can { AllCanFinish epoch cores.old }
    ensures heard { IfOk result (λ first. FinishesSo first epoch node letter.now cores.old (N.sent net.old) cores.new (N.sent net.new)) }
    ensures world { OnOk result ((chief : ChiefState) → GoesOn (record { cores = cores.old; chief = chief; sent = N.sent net.old }) (record { cores = cores.new; chief = chief; sent = N.sent net.new })) }
    ensures sends { OnlySends N.Net net.old net.new }
{
    node_finishes(alloc, net, cores, node, epoch, letter)
}

/// A node that is to finish a committed epoch takes a letter that waited at it. Told by the coordinator that the epoch
/// is committed, it says that it has finished; the first time its tables are promoted, and it isn't behind any more.
/// The answer is whether they were.
pub fn take_committed<N: Net>(
    alloc: Global,
    net: &mut N,
    cores: &mut [NodeCore],
    tables: &mut NodeTables,
    node: u8,
    epoch: u64,
    letter: &Letter,
) -> Result<bool, NoMemory>
    requires few { length cores.old ≤ 8 }
    requires node { node < length cores.old }
    requires some { 0 < epoch }
    requires sent { Contains (N.sent net.old) (record { to = node; letter = letter.now }) }
    requires whole { AreWhole tables.old }
    requires behind { length tables.old.behind.items ≡ length cores.old }
    requires can { AllCanFinish epoch cores.old }
    ensures heard { IfOk result (λ first. FinishesSo first epoch node letter.now cores.old (N.sent net.old) cores.new (N.sent net.new)) }
    ensures tables { IfOk result (λ first. CatchesUpIf first node tables.old tables.new) }
    ensures whole { AreWhole tables.new }
    ensures map { (m : Rows) → HaveMap m tables.old → HaveMap m tables.new }
    ensures behind { length tables.new.behind.items ≡ length tables.old.behind.items }
    ensures count { OnOk result (length cores.new ≡ length cores.old) }
    ensures can { OnOk result (AllCanFinish epoch cores.new) }
    ensures are_behind { OnOk result (AreBehind epoch cores.old tables.old.behind.items → AreBehind epoch cores.new tables.new.behind.items) }
    ensures told { OnOk result (AreBehind epoch cores.old tables.old.behind.items → AreTold epoch (N.sent net.old) tables.old.behind.items → AreTold epoch (N.sent net.new) tables.new.behind.items) }
    // Told that the epoch is committed, it answers.
    ensures answers { OnOk result (TellsCommitted epoch letter.now → Contains (N.fresh net.new) (finished_of node epoch)) }
    ensures world { OnOk result ((chief : ChiefState) → GoesOn (record { cores = cores.old; chief = chief; sent = N.sent net.old }) (record { cores = cores.new; chief = chief; sent = N.sent net.new })) }
    ensures sends { OnlySends N.Net net.old net.new }
{
    let first = hear_committed(alloc, net, cores, node, epoch, letter)?;
    if first {
        catch_up(tables, node);
    }
    Ok(first)
}

/// A node that is to finish a committed epoch takes all letters that wait at it.
pub fn finish_at<N: Net>(
    alloc: Global,
    net: &mut N,
    cores: &mut [NodeCore],
    tables: &mut NodeTables,
    node: u8,
    epoch: u64,
) -> Result<(), NoMemory>
    requires few { length cores.old ≤ 8 }
    requires node { node < length cores.old }
    requires some { 0 < epoch }
    requires sent { AreSent (N.sent net.old) (N.waiting net.old) }
    requires whole { AreWhole tables.old }
    requires behind { length tables.old.behind.items ≡ length cores.old }
    requires can { AllCanFinish epoch cores.old }
    ensures done { OnOk result (HaveTaken N.Net epoch cores.old cores.new tables.old tables.new net.old net.new) }
    ensures keep { KeepTables tables.old tables.new }
    // Told that the epoch is committed, it answers.
    ensures answers { OnOk result ((l : Mail) → Contains (N.waiting net.old node) l → TellsCommitted epoch l → Contains (N.fresh net.new) (finished_of node epoch)) }
    ensures sent { OnOk result (AreSent (N.sent net.new) (N.waiting net.new)) }
    ensures taken { OnOk result (N.waiting net.new node ≡ []) }
    ensures others { (p : ℕ) → p ≢ node → N.waiting net.new p ≡ N.waiting net.old p }
    ensures fresh { AreFresh (N.sent net.old) (N.fresh net.old) (N.sent net.new) (N.fresh net.new) }
    ensures counts { Counts (N.given net.old) (N.faults net.old) (N.last_seed net.old) (N.given net.new) (N.faults net.new) (N.last_seed net.new) }
{
    while let Some(letter) = net.next(node) {
        take_committed(alloc, net, cores, tables, node, epoch, &letter)?;
    }
    Ok(())
}

/// The nodes take, one after another, all letters that wait at them.
pub fn nodes_finish<N: Net>(
    alloc: Global,
    net: &mut N,
    cores: &mut [NodeCore],
    tables: &mut NodeTables,
    epoch: u64,
) -> Result<(), NoMemory>
    requires few { length cores.old ≤ 8 }
    requires some { 0 < epoch }
    requires sent { AreSent (N.sent net.old) (N.waiting net.old) }
    requires whole { AreWhole tables.old }
    requires behind { length tables.old.behind.items ≡ length cores.old }
    requires can { AllCanFinish epoch cores.old }
    ensures done { OnOk result (HaveTaken N.Net epoch cores.old cores.new tables.old tables.new net.old net.new) }
    ensures keep { KeepTables tables.old tables.new }
    // Each that is told that the epoch is committed answers.
    ensures answers { OnOk result ((n : ℕ) (l : Mail) → n < length cores.old → Contains (N.waiting net.old n) l → TellsCommitted epoch l → Contains (N.fresh net.new) (finished_of n epoch)) }
    ensures sent { OnOk result (AreSent (N.sent net.new) (N.waiting net.new)) }
    ensures taken { OnOk result ((n : ℕ) → n < length cores.old → N.waiting net.new n ≡ []) }
    ensures others { (p : ℕ) → length cores.old ≤ p → N.waiting net.new p ≡ N.waiting net.old p }
    ensures fresh { AreFresh (N.sent net.old) (N.fresh net.old) (N.sent net.new) (N.fresh net.new) }
    ensures counts { Counts (N.given net.old) (N.faults net.old) (N.last_seed net.old) (N.given net.new) (N.faults net.new) (N.last_seed net.new) }
{
    for node in 0..cores.len() as u8 {
        finish_at(alloc, net, cores, tables, node, epoch)?;
    }
    Ok(())
}
