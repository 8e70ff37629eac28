//! An epoch is given up.

ghost use Rattle.std.specs.Prelude.{◌≡◌, ◌≢◌, ℕ, ◌<◌, ◌≤◌, Contains, IsTrue, length, OnOk};
ghost use Rattle.coco_chief.specs.Chief.{Chief as ChiefState};
ghost use Rattle.coco_chief.specs.Shown.{chief_of};
ghost use Rattle.coco_chief.specs.Table.{is_open};
ghost use Rattle.coco_chief.specs.declared.machine.Phase.TheVariants.{Rest as Still};
ghost use Rattle.coco_msg.specs.declared.message.Message.TheVariants.{Abort as Aborts};
ghost use Rattle.coco_net.specs.declared.letter.Letter.{Letter as Mail};
ghost use Rattle.coco_node.specs.declared.machine.TheConstants.{COORDINATOR as Chiefs};
ghost use Rattle.coco_letters.specs.Telling.{Adds, IsOfChief};
ghost use Rattle.coco_letters.specs.Turns.{AreFresh, AreSent, Counts, IsFrom, OnlySends};
ghost use Rattle.coco_letters.specs.Worlds.{GoesOn};
ghost use Rattle.coco_vote.specs.Ending.{GiveUp, IsOverAt};
ghost use Rattle.coco_vote.specs.Keeping.{KeepsLetters};

use crate::exchange::collect;
use coco_chief::ChiefCore;
use coco_letters::{chief_aborts, node_gives_up, waiting_letters_were_sent};
use coco_net::{Letter, Net};
use coco_node::NodeCore;
use coco_types::NoMemory;
use std::alloc::Global;

// A node hears a letter that waited at it.
fn hear_end<N: Net>(
    alloc: Global,
    net: &mut N,
    cores: &mut [NodeCore],
    node: u8,
    epoch: u64,
    letter: &Letter,
) -> Result<(), NoMemory>
    requires few { length cores.old ≤ 8 }
    requires node { node < length cores.old }
    requires some { 0 < epoch }
    requires sent { Contains (N.sent net.old) (record { to = node; letter = letter.now }) }
    ensures give_up { OnOk result (GiveUp epoch cores.old cores.new) }
    ensures told { OnOk result (IsFrom Chiefs letter.now (Aborts epoch) → IsOverAt epoch node cores.new) }
    ensures silent { OnOk result (N.sent net.new ≡ N.sent net.old) }
    ensures world { OnOk result ((chief : ChiefState) → GoesOn (record { cores = cores.old; chief = chief; sent = N.sent net.old }) (record { cores = cores.new; chief = chief; sent = N.sent net.new })) }
    ensures sends { OnlySends N.Net net.old net.new }
{
    node_gives_up(alloc, net, cores, node, epoch, letter)?;
    Ok(())
}

// A node takes all letters that wait at it.
fn take_end<N: Net>(
    alloc: Global,
    net: &mut N,
    cores: &mut [NodeCore],
    node: u8,
    epoch: u64,
) -> Result<(), NoMemory>
    requires few { length cores.old ≤ 8 }
    requires node { node < length cores.old }
    requires some { 0 < epoch }
    requires sent { AreSent (N.sent net.old) (N.waiting net.old) }
    ensures give_up { OnOk result (GiveUp epoch cores.old cores.new) }
    // Told that the epoch is aborted it knows it.
    ensures told { OnOk result ((letter : Mail) → Contains (N.waiting net.old node) letter → IsFrom Chiefs letter (Aborts epoch) → IsOverAt epoch node cores.new) }
    ensures silent { OnOk result (N.sent net.new ≡ N.sent net.old) }
    ensures world { OnOk result ((chief : ChiefState) → GoesOn (record { cores = cores.old; chief = chief; sent = N.sent net.old }) (record { cores = cores.new; chief = chief; sent = N.sent net.new })) }
    ensures sent { OnOk result (AreSent (N.sent net.new) (N.waiting net.new)) }
    ensures others { (p : ℕ) → p ≢ node → N.waiting net.new p ≡ N.waiting net.old p }
    ensures fresh { AreFresh (N.sent net.old) (N.fresh net.old) (N.sent net.new) (N.fresh net.new) }
    ensures counts { Counts (N.given net.old) (N.faults net.old) (N.last_seed net.old) (N.given net.new) (N.faults net.new) (N.last_seed net.new) }
{
    waiting_letters_were_sent();
    while let Some(letter) = net.next(node) {
        hear_end(alloc, net, cores, node, epoch, &letter)?;
    }
    Ok(())
}

// The nodes take all letters that wait at them.
fn all_take_end<N: Net>(
    alloc: Global,
    net: &mut N,
    cores: &mut [NodeCore],
    epoch: u64,
) -> Result<(), NoMemory>
    requires few { length cores.old ≤ 8 }
    requires some { 0 < epoch }
    requires sent { AreSent (N.sent net.old) (N.waiting net.old) }
    ensures give_up { OnOk result (GiveUp epoch cores.old cores.new) }
    ensures told { OnOk result ((n : ℕ) (letter : Mail) → n < length cores.old → Contains (N.waiting net.old n) letter → IsFrom Chiefs letter (Aborts epoch) → IsOverAt epoch n cores.new) }
    ensures silent { OnOk result (N.sent net.new ≡ N.sent net.old) }
    ensures world { OnOk result ((chief : ChiefState) → GoesOn (record { cores = cores.old; chief = chief; sent = N.sent net.old }) (record { cores = cores.new; chief = chief; sent = N.sent net.new })) }
    ensures sent { OnOk result (AreSent (N.sent net.new) (N.waiting net.new)) }
    ensures fresh { AreFresh (N.sent net.old) (N.fresh net.old) (N.sent net.new) (N.fresh net.new) }
    ensures counts { Counts (N.given net.old) (N.faults net.old) (N.last_seed net.old) (N.given net.new) (N.faults net.new) (N.last_seed net.new) }
{
    for node in 0..cores.len() as u8 {
        take_end(alloc, net, cores, node, epoch)?;
    }
    Ok(())
}

/// The coordinator gives up the epoch that is voting or forcing, and tells each node in one exchange. A node that isn't
/// told doesn't know what became of it, and will ask.
pub fn give_up<N: Net>(
    alloc: Global,
    net: &mut N,
    cores: &mut [NodeCore],
    chief: &mut ChiefCore,
    epoch: u64,
) -> Result<(), NoMemory>
    requires few { length cores.old ≤ 8 }
    requires nodes { (chief_of chief.old).nodes ≡ length cores.old }
    requires some { 0 < epoch }
    requires current { (chief_of chief.old).current ≡ epoch }
    requires undecided { IsTrue (is_open (chief_of chief.old).phase) }
    ensures rest { OnOk result ((chief_of chief.new).phase ≡ Still) }
    ensures current { OnOk result ((chief_of chief.new).current ≡ epoch) }
    ensures nodes { (chief_of chief.new).nodes ≡ (chief_of chief.old).nodes }
    ensures last { OnOk result ((chief_of chief.new).last ≡ (chief_of chief.old).last) }
    ensures committed { OnOk result ((chief_of chief.new).committed ≡ (chief_of chief.old).committed) }
    ensures give_up { OnOk result (GiveUp epoch cores.old cores.new) }
    // Where no letter was lost, each node knows that the epoch is aborted.
    ensures told { OnOk result (N.faults net.new ≡ N.faults net.old → (n : ℕ) → n < length cores.old → IsOverAt epoch n cores.new) }
    ensures said { OnOk result (Adds IsOfChief (N.sent net.old) (N.sent net.new)) }
    ensures letters { KeepsLetters N.Net net.old net.new }
    ensures world { OnOk result (GoesOn (record { cores = cores.old; chief = chief_of chief.old; sent = N.sent net.old }) (record { cores = cores.new; chief = chief_of chief.new; sent = N.sent net.new })) }
{
    chief_aborts(alloc, net, chief)?;
    net.round()?;
    waiting_letters_were_sent();
    all_take_end(alloc, net, cores, epoch)?;
    collect(alloc, net, chief)?;
    Ok(())
}
