//! The exchanges of the ship phase.

ghost use Rattle.std.specs.Prelude.{◌≡◌, ◌+◌, ◌*◌, ◌<◌, ◌≤◌, ℕ, ◌⊎◌, All, Contains, IfErr, ◌++◌, List, OnOk, MatchOption, length};
ghost use Rattle.std.specs.Bool.{MatchBool};
ghost use Rattle.coco_types.specs.declared.call.Piece.{Piece as Work};
ghost use Rattle.coco_ship.specs.declared.ship.ShipFault.TheVariants.{NoMemory as Spent};
ghost use Rattle.coco_ship.specs.Going.{Answered, AreTold, HasAnswered, IsDoneBy, IsGoing, IsWaitedFor, Unless};
ghost use Rattle.coco_ship.specs.Taking.{waiting_below, Brings, Hears, OfBoth, OfTables};
ghost use Rattle.coco_ship.specs.Exchanges.{AreAsked};
ghost use Rattle.coco_ship.specs.Letters.{AreInside, AreOther};
ghost use Rattle.coco_ship.specs.Lines.{AreWaiting};
ghost use Rattle.coco_ship.specs.Pieces.{AreShippable};
ghost use Rattle.coco_ship.specs.Placing.{IsRing};
ghost use Rattle.coco_ship.specs.Rounds.{FitRing, GoesOn, HasEnded, Passes, Ships};
ghost use Rattle.coco_ship.specs.There.{AreAllThere, AreRight};
ghost use Rattle.coco_ship.specs.Shipping.{news, AreBegun, ArePhase, AreWhole, GainOnly, HaveAnswered, OnSilent};

use crate::Ring;
use crate::answer::answers;
use crate::ask::asks;
use crate::line::{Line, lines_of};
use crate::mail::{send_all, take_all};
use crate::take::take_letters;
use coco_copy::CopyTable;
use coco_net::{Net, Posted};
use coco_types::{NoMemory, Piece};
use std::alloc::Global;
use std::collections::VecDeque;

/// How often primaries ask before they give up.
const EXCHANGES: u8 = 16;

/// How often, in numbers.
pub fn limits()
    ensures { EXCHANGES ≡ 16 }
{}

/// Why the copies of an epoch's pieces aren't known to be whole.
#[derive(Clone, Copy, Debug, PartialEq, Eq)]
pub enum ShipFault {
    /// The least node with a copy whose All didn't come.
    Silent { node: u8 },
    NoMemory,
}

impl From<NoMemory> for ShipFault {
    ghost from_gives = { λ _ e. e ≡ Spent };

    fn from(_error: NoMemory) -> ShipFault {
        ShipFault::NoMemory
    }
}

// What the nodes do with the letters that wait at them.
fn hand_out<N: Net>(
    alloc: Global,
    net: &mut N,
    ring: Ring,
    epoch: u64,
    lines: &mut [Line],
    copies: &mut [CopyTable],
) -> Result<(), NoMemory>
    requires fit { FitRing ring epoch lines.old copies.old }
    ensures ok { OnOk result (OfBoth ring (Hears ring epoch (waiting_below (N.waiting net.old) ring.nodes)) lines.old copies.old lines.new copies.new) }
    ensures tables { OfTables ring (Brings ring epoch (waiting_below (N.waiting net.old) ring.nodes)) copies.old copies.new }
    ensures fit { FitRing ring epoch lines.new copies.new }
    ensures given { N.given net.new ≡ N.given net.old }
    ensures sent { N.sent net.new ≡ N.sent net.old }
    ensures faults { N.faults net.new ≡ N.faults net.old }
    ensures seed { N.last_seed net.new ≡ N.last_seed net.old }
{
    for node in 0..ring.nodes {
        let letters = take_all(alloc, net, node)?;
        take_letters(alloc, ring, epoch, node, letters.as_slice(), lines, copies)?;
    }
    Ok(())
}

// A round, and what the nodes do with the letters that it gives them.
fn deliver<N: Net>(
    alloc: Global,
    net: &mut N,
    ring: Ring,
    epoch: u64,
    lines: &mut [Line],
    copies: &mut [CopyTable],
) -> Result<(), NoMemory>
    requires fit { FitRing ring epoch lines.old copies.old }
    ensures passes { Passes N.Net ring epoch net.old copies.old net.new lines.new copies.new }
    ensures heard { OnOk result (OfBoth ring (Hears ring epoch (news (N.given net.old) (N.given net.new))) lines.old copies.old lines.new copies.new) }
    ensures new_ones { OnOk result (N.faults net.new ≡ N.faults net.old → All (Contains (news (N.given net.old) (N.given net.new))) (N.fresh net.old)) }
    ensures sent { N.sent net.new ≡ N.sent net.old }
    ensures faults { OnOk result ((N.faults net.new ≡ N.faults net.old) ⊎ (N.faults net.new ≡ N.faults net.old + 1)) }
{
    net.round()?;
    hand_out(alloc, net, ring, epoch, lines, copies)
}

// Sends letters, and then a round.
fn carry<N: Net>(
    alloc: Global,
    net: &mut N,
    ring: Ring,
    epoch: u64,
    letters: VecDeque<Posted>,
    lines: &mut [Line],
    copies: &mut [CopyTable],
) -> Result<(), NoMemory>
    requires fit { FitRing ring epoch lines.old copies.old }
    requires inside { AreInside letters.items }
    requires phase { ArePhase epoch letters.items }
    ensures passes { Passes N.Net ring epoch net.old copies.old net.new lines.new copies.new }
    ensures sent { OnOk result (N.sent net.new ≡ N.sent net.old ++ letters.items) }
    ensures only { All (Contains letters.items) (news (N.sent net.old) (N.sent net.new)) }
    ensures were_sent { All (Contains (N.sent net.old ++ letters.items)) (news (N.given net.old) (N.given net.new)) }
    ensures heard { OnOk result (OfBoth ring (Hears ring epoch (news (N.given net.old) (N.given net.new))) lines.old copies.old lines.new copies.new) }
    ensures came { OnOk result (Unless (N.faults net.old) (N.faults net.new) (All (Contains (news (N.given net.old) (N.given net.new))) letters.items)) }
{
    send_all(net, letters)?;
    deliver(alloc, net, ring, epoch, lines, copies)
}

// Primaries ask, and a round.
fn ask_round<N: Net>(
    alloc: Global,
    net: &mut N,
    ring: Ring,
    epoch: u64,
    pieces: &[Piece],
    lines: &mut [Line],
    copies: &mut [CopyTable],
) -> Result<(), NoMemory>
    requires fit { FitRing ring epoch lines.old copies.old }
    requires pieces { AreShippable ring pieces.now }
    requires going { IsGoing ring epoch pieces.now (N.sent net.old) lines.old copies.old }
    ensures ships { Ships N.Net ring epoch pieces.now net.old lines.old copies.old net.new lines.new copies.new }
    ensures goes { OnOk result (GoesOn N.Net ring epoch pieces.now net.old lines.old copies.old net.new lines.new copies.new) }
    ensures asked { OnOk result (AreAsked ring epoch lines.old (news (N.sent net.old) (N.sent net.new))) }
    ensures told { OnOk result (Unless (N.faults net.old) (N.faults net.new) (AreTold ring pieces.now lines.new)) }
{
    let letters = asks(alloc, ring, epoch, pieces, lines)?;
    carry(alloc, net, ring, epoch, letters, lines, copies)
}

// Copies answer, and a round.
fn answer_round<N: Net>(
    alloc: Global,
    net: &mut N,
    ring: Ring,
    epoch: u64,
    lines: &mut [Line],
    copies: &mut [CopyTable],
) -> Result<(), NoMemory>
    requires fit { FitRing ring epoch lines.old copies.old }
    ensures passes { Passes N.Net ring epoch net.old copies.old net.new lines.new copies.new }
    ensures ships { (pieces : List Work) → IsGoing ring epoch pieces (N.sent net.old) lines.old copies.old → Ships N.Net ring epoch pieces net.old lines.old copies.old net.new lines.new copies.new }
    ensures goes { OnOk result ((pieces : List Work) → AreShippable ring pieces → IsGoing ring epoch pieces (N.sent net.old) lines.old copies.old → GoesOn N.Net ring epoch pieces net.old lines.old copies.old net.new lines.new copies.new) }
    ensures done { OnOk result (OfBoth ring (IsDoneBy ring epoch (news (N.given net.old) (N.given net.new))) lines.old copies.old lines.new copies.new) }
    ensures answered { OnOk result (Unless (N.faults net.old) (N.faults net.new) (Answered ring lines.old copies.old lines.new)) }
{
    let letters = answers(alloc, ring, epoch, lines)?;
    carry(alloc, net, ring, epoch, letters, lines, copies)
}

// An exchange of two rounds.
fn exchange<N: Net>(
    alloc: Global,
    net: &mut N,
    ring: Ring,
    epoch: u64,
    pieces: &[Piece],
    lines: &mut [Line],
    copies: &mut [CopyTable],
) -> Result<(), NoMemory>
    requires fit { FitRing ring epoch lines.old copies.old }
    requires pieces { AreShippable ring pieces.now }
    requires going { IsGoing ring epoch pieces.now (N.sent net.old) lines.old copies.old }
    ensures ships { Ships N.Net ring epoch pieces.now net.old lines.old copies.old net.new lines.new copies.new }
    ensures goes { OnOk result (GoesOn N.Net ring epoch pieces.now net.old lines.old copies.old net.new lines.new copies.new) }
    ensures asked { OnOk result (AreAsked ring epoch lines.old (news (N.sent net.old) (N.sent net.new))) }
    // An exchange without a fault ends the phase.
    ensures faults { OnOk result (Unless (N.faults net.old) (N.faults net.new) ((node : ℕ) → HasAnswered ring lines.new node)) }
{
    ask_round(alloc, net, ring, epoch, pieces, lines, copies)?;
    answer_round(alloc, net, ring, epoch, lines, copies)
}

// Whether a node has a copy whose All didn't come.
fn is_silent(ring: Ring, lines: &[Line], node: u8) -> bool
    requires ring { IsRing ring }
    requires lines { length lines.now ≡ ring.partitions * ring.copies }
    ensures { MatchBool result (IsWaitedFor ring lines.now node) (HasAnswered ring lines.now node) }
{
    for partition in 0..ring.partitions {
        for copy in 0..ring.copies {
            if ring.holder(partition, copy) == node && !lines[ring.table(partition, copy)].is_done {
                return true;
            }
        }
    }
    false
}

// The least such node.
fn silent(ring: Ring, lines: &[Line]) -> Option<u8>
    requires ring { IsRing ring }
    requires lines { length lines.now ≡ ring.partitions * ring.copies }
    ensures { MatchOption result ((node : ℕ) → HasAnswered ring lines.now node) (λ node. IsWaitedFor ring lines.now node × ((n : ℕ) → n < node → HasAnswered ring lines.now n)) }
{
    for node in 0..ring.nodes {
        if is_silent(ring, lines, node) {
            return Some(node);
        }
    }
    None
}

// Exchanges, until no copy is waited for.
fn exchanges<N: Net>(
    alloc: Global,
    net: &mut N,
    ring: Ring,
    epoch: u64,
    pieces: &[Piece],
    lines: &mut [Line],
    copies: &mut [CopyTable],
) -> Result<(), ShipFault>
    requires fit { FitRing ring epoch lines.old copies.old }
    requires pieces { AreShippable ring pieces.now }
    requires going { IsGoing ring epoch pieces.now (N.sent net.old) lines.old copies.old }
    requires waiting { AreWaiting ring lines.old }
    ensures ships { Ships N.Net ring epoch pieces.now net.old lines.old copies.old net.new lines.new copies.new }
    ensures ended { OnOk result (HasEnded N.Net ring epoch pieces.now net.old lines.old net.new copies.new) }
    ensures alone { ring.copies ≡ 0 → N.sent net.new ≡ N.sent net.old }
    ensures silent { IfErr result (OnSilent ring epoch (news (N.sent net.old) (N.sent net.new)) (news (N.given net.old) (N.given net.new)) (N.faults net.old) (N.faults net.new)) }
{
    for _exchange in 0..EXCHANGES {
        match silent(ring, lines) {
            Some(_node) => exchange(alloc, net, ring, epoch, pieces, lines, copies)?,
            None => return Ok(()),
        }
    }
    match silent(ring, lines) {
        Some(node) => Err(ShipFault::Silent { node }),
        None => Ok(()),
    }
}

/// Ships the pieces of an epoch to the copies of their partitions. After Ok each copy has the pending rows of its
/// pieces, by greatest time. After a fault a copy may have some of them.
pub fn ship_epoch<N: Net>(
    alloc: Global,
    net: &mut N,
    ring: Ring,
    epoch: u64,
    pieces: &[Piece],
    copies: &mut [CopyTable],
) -> Result<(), ShipFault>
    requires ring { IsRing ring }
    requires pieces { AreShippable ring pieces.now }
    requires tables { AreBegun ring epoch pieces.now copies.old }
    requires fresh { AreOther epoch (N.sent net.old) }
    ensures whole { OnOk result (AreWhole ring epoch pieces.now copies.new) }
    ensures answered { OnOk result (HaveAnswered ring epoch (news (N.given net.old) (N.given net.new))) }
    // After Ok each piece is there: it came early, or was given in this call.
    ensures there { OnOk result (AreAllThere ring epoch pieces.now copies.old (news (N.given net.old) (N.given net.new))) }
    // Whatever the answer, each letter says what is so, and a copy's answer names the pieces that aren't there when it
    // is sent, neither those that came early nor those that were given.
    ensures right { AreRight ring epoch pieces.now copies.old (news (N.given net.old) (N.given net.new)) (news (N.sent net.old) (N.sent net.new)) }
    // Whatever the answer, the copies have some of the pieces' rows and no others.
    ensures tables { AreBegun ring epoch pieces.now copies.new }
    ensures gains { GainOnly ring epoch (news (N.given net.old) (N.given net.new)) copies.old copies.new }
    ensures given { N.given net.new ≡ N.given net.old ++ news (N.given net.old) (N.given net.new) }
    ensures sent { N.sent net.new ≡ N.sent net.old ++ news (N.sent net.old) (N.sent net.new) }
    ensures phase { ArePhase epoch (news (N.sent net.old) (N.sent net.new)) }
    // What is given was sent.
    ensures were_sent { All (Contains (N.sent net.new)) (news (N.given net.old) (N.given net.new)) }
    // Without copies nothing is sent.
    ensures alone { ring.copies ≡ 0 → N.sent net.new ≡ N.sent net.old }
    // Silent comes only after 16 exchanges, in each of which the count of faults rose.
    ensures silent { IfErr result (OnSilent ring epoch (news (N.sent net.old) (N.sent net.new)) (news (N.given net.old) (N.given net.new)) (N.faults net.old) (N.faults net.new)) }
    // Whatever the answer, no disturbance is asked for, and the count of faults doesn't fall.
    ensures seed { N.last_seed net.new ≡ N.last_seed net.old }
    ensures faults { N.faults net.old ≤ N.faults net.new }
{
    let mut lines = lines_of(alloc, ring, pieces, copies)?;
    exchanges(alloc, net, ring, epoch, pieces, &mut lines, copies)
}
