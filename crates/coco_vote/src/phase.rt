//! The vote of all nodes on an epoch.

ghost use Rattle.std.specs.Prelude.{◌≡◌, ℕ, ◌+◌, ◌<◌, ◌≤◌, ◌≢◌, Bool, false, List, [], ◌++◌, Contains, MatchOption, length, IfOk, OnOk};
ghost use Rattle.coco_chief.specs.Chief.{Chief as ChiefState};
ghost use Rattle.coco_chief.specs.Shown.{chief_of};
ghost use Rattle.coco_chief.specs.Table.{has_voted};
ghost use Rattle.coco_chief.specs.declared.machine.Phase.TheVariants.{Rest as Still};
ghost use Rattle.coco_net.specs.declared.letter.Posted.{Posted as Sent};
ghost use Rattle.coco_node.specs.Node.{Node as NodeState};
ghost use Rattle.coco_letters.specs.Telling.{Adds, IsOfChief, IsOfVote};
ghost use Rattle.coco_letters.specs.Turns.{AreFresh, Counts, SendsMore};
ghost use Rattle.coco_letters.specs.Worlds.{GoesBetween, GoesOn};
ghost use Rattle.coco_log.specs.Faults.{CountsFault};
ghost use Rattle.coco_store.specs.Contents.{Contents};
ghost use Rattle.coco_append.specs.Gaining.{RestsOn};
ghost use Rattle.coco_vote.specs.Beginning.{AreNew, GoesOnVoted};
ghost use Rattle.coco_vote.specs.Counting.{prepare_of, HasCounted, IsAye};
ghost use Rattle.coco_vote.specs.Keeping.{KeepsRest};
ghost use Rattle.coco_vote.specs.Outcomes.{Comes, IsMissing, Settles};
ghost use Rattle.coco_vote.specs.Preparing.{have_durable, Ballot, MayForce, RestsVoted, Votes as KeepsVotes};
ghost use Rattle.coco_vote.specs.Taking.{vote_of, AreApart, AreHeld, AreMarked, AreReady, AreTold, AreVoting, HaveLogs, KeepsCores, StayWhole};
ghost use Rattle.coco_vote.specs.Voting.{PreparesOnly};

use crate::exchange::exchange;
use coco_chief::ChiefCore;
use coco_host::Host;
use coco_letters::{Voter, chief_begins, resend};
use coco_log::LogFault;
use coco_msg::Message;
use coco_net::Net;
use coco_node::{COORDINATOR, NodeCore};
use coco_power::Power;
use coco_types::{NoMemory, Piece};
use std::alloc::Global;

/// How often the coordinator asks before it gives up.
const EXCHANGES: u8 = 16;

/// What came of a vote.
#[derive(Clone, Copy, Debug, PartialEq, Eq)]
pub enum Votes {
    /// Each node has made its entry durable and has voted, and the coordinator is to force the commit entry.
    All,
    /// A node has stopped before its entry, and the epoch is lost.
    Stopped,
    /// The least node whose vote didn't come.
    Silent { node: u8 },
}

// What has come of so many exchanges: all votes, or a node whose vote is missing still. None where the coordinator is to
// ask again.
fn settle(chief: &ChiefCore, nodes: u8, counted: u8) -> Option<Votes>
    ensures { MatchOption result ((counted ≢ 16) × IsMissing nodes (chief_of chief.now)) (λ votes. Settles votes nodes counted (chief_of chief.now)) }
{
    for node in 0..nodes {
        if !chief.has_voted(node) {
            if counted == EXCHANGES {
                return Some(Votes::Silent { node });
            }
            return None;
        }
    }
    Some(Votes::All)
}

// The coordinator asks a node once more, unless it has counted its yes.
fn ask_once_more<N: Net>(
    alloc: Global,
    net: &mut N,
    chief: &ChiefCore,
    node: u8,
    epoch: u64,
) -> Result<(), NoMemory>
    requires node { node < 8 }
    requires asked { Contains (N.sent net.old) (prepare_of node epoch) }
    ensures asked { OnOk result (has_voted node (chief_of chief.now) ≡ false → Contains (N.fresh net.new) (prepare_of node epoch)) }
    ensures says { OnOk result (Adds IsOfChief (N.sent net.old) (N.sent net.new)) }
    ensures world { OnOk result ((cores : List NodeState) (core : ChiefState) → GoesOn (record { cores = cores; chief = core; sent = N.sent net.old }) (record { cores = cores; chief = core; sent = N.sent net.new })) }
    ensures fresh { AreFresh (N.sent net.old) (N.fresh net.old) (N.sent net.new) (N.fresh net.new) }
    ensures counts { Counts (N.given net.old) (N.faults net.old) (N.last_seed net.old) (N.given net.new) (N.faults net.new) (N.last_seed net.new) }
{
    if chief.has_voted(node) {
        return Ok(());
    }
    resend(alloc, net, COORDINATOR, node, &Message::Prepare { epoch })?;
    Ok(())
}

// The coordinator asks each node once more whose yes it hasn't counted.
fn ask_again<N: Net>(
    alloc: Global,
    net: &mut N,
    chief: &ChiefCore,
    nodes: u8,
    epoch: u64,
) -> Result<(), NoMemory>
    requires few { nodes ≤ 8 }
    requires asked { (n : ℕ) → n < nodes → Contains (N.sent net.old) (prepare_of n epoch) }
    ensures asked { OnOk result ((n : ℕ) → n < nodes → has_voted n (chief_of chief.now) ≡ false → Contains (N.fresh net.new) (prepare_of n epoch)) }
    ensures says { OnOk result (Adds IsOfChief (N.sent net.old) (N.sent net.new)) }
    ensures sent { SendsMore (N.sent net.old) (N.sent net.new) }
    ensures world { OnOk result ((cores : List NodeState) (core : ChiefState) → GoesOn (record { cores = cores; chief = core; sent = N.sent net.old }) (record { cores = cores; chief = core; sent = N.sent net.new })) }
    ensures counts { Counts (N.given net.old) (N.faults net.old) (N.last_seed net.old) (N.given net.new) (N.faults net.new) (N.last_seed net.new) }
{
    for node in 0..nodes {
        ask_once_more(alloc, net, chief, node, epoch)?;
    }
    Ok(())
}

// Exchanges, until the vote of each node is counted.
fn exchanges<H: Host, N: Net, P: Power>(
    host: &mut H,
    net: &mut N,
    power: &mut P,
    cores: &mut [NodeCore],
    voters: &mut [Voter],
    chief: &mut ChiefCore,
    nodes: u8,
    epoch: u64,
    pieces: &[Piece],
    body: &mut Vec<u8>,
) -> Result<Votes, LogFault>
    requires few { length cores.old ≤ 8 }
    requires voters { length voters.old ≡ length cores.old }
    requires count { nodes ≡ length cores.old }
    requires nodes { (chief_of chief.old).nodes ≡ length cores.old }
    requires some { 0 < epoch }
    requires voting { AreVoting epoch cores.old }
    requires told { AreTold epoch cores.old (N.sent net.old) (P.asked power.old) }
    requires marked { AreMarked voters.old (P.asked power.old) }
    requires ready { AreReady voters.old (H.reads host.old) (H.may_leave host.old) }
    requires apart { AreApart voters.old }
    requires counted { HasCounted epoch (IsAye epoch []) (chief_of chief.old) }
    requires asked { (n : ℕ) → n < length cores.old → Contains (N.fresh net.old) (prepare_of n epoch) }
    requires sent { (n : ℕ) → n < length cores.old → Contains (N.sent net.old) (prepare_of n epoch) }
    ensures answer { IfOk result (λ votes. (given : List Sent) → N.given net.new ≡ N.given net.old ++ given
        → Comes votes epoch cores.new (chief_of chief.new) given (N.faults net.old) (N.faults net.new) (P.early_stops power.old) (P.early_stops power.new)) }
    ensures nodes { (chief_of chief.new).nodes ≡ (chief_of chief.old).nodes }
    ensures last { OnOk result ((chief_of chief.new).last ≡ (chief_of chief.old).last) }
    ensures committed { OnOk result ((chief_of chief.new).committed ≡ (chief_of chief.old).committed) }
    ensures cores { OnOk result (KeepsCores epoch cores.old cores.new) }
    ensures told { OnOk result (AreTold epoch cores.new (N.sent net.new) (P.asked power.new)) }
    ensures marked { OnOk result (AreMarked voters.new (P.asked power.new)) }
    ensures says { OnOk result (Adds (IsOfVote epoch) (N.sent net.old) (N.sent net.new)) }
    // What was given was sent.
    ensures were_sent { OnOk result ((given : List Sent) (p : Sent) → N.given net.new ≡ N.given net.old ++ given → Contains given p → Contains (N.sent net.new) p) }
    // The files.
    ensures files { (c : Contents) (hold : ℕ → List Bool) → let b : Ballot = record { epoch = epoch; pieces = pieces.now; held = hold } in
        AreHeld hold voters.old → MayForce c b → c.setting.entry.layout.nodes ≡ length cores.old → HaveLogs c voters.old
        → RestsVoted c b (have_durable epoch cores.old) (H.reads host.old) (H.may_leave host.old)
        → KeepsVotes H.Host result c b (have_durable epoch cores.new) host.old host.new }
    ensures ready { OnOk result (AreReady voters.new (H.reads host.new) (H.may_leave host.new)) }
    ensures whole { OnOk result (StayWhole (P.stops_seen power.old) (P.stops_seen power.new) voters.old voters.new) }
    ensures rest { KeepsRest H.Host N.Net P.Power voters.old voters.new host.old host.new net.old net.new power.old power.new }
    ensures disk { CountsFault result (H.disk_faults host.old) (H.disk_faults host.new) }
    // The world.
    ensures world { OnOk result (GoesBetween (P.stopped power.old) (P.stopped power.new) (PreparesOnly epoch) (record { cores = cores.old; chief = chief_of chief.old; sent = N.sent net.old }) (record { cores = cores.new; chief = chief_of chief.new; sent = N.sent net.new })) }
{
    let mut counted = 0;
    'asking: loop {
        let stops = exchange(host, net, power, cores, voters, chief, epoch, pieces, body)?;
        if stops.is_early() {
            return Ok(Votes::Stopped);
        }
        counted += stops.exchanges();
        match settle(chief, nodes, counted) {
            Some(votes) => return Ok(votes),
            None => ask_again(*body.allocator(), net, chief, nodes, epoch)?,
        }
    }
}

/// All nodes vote on an epoch that is new to them: the coordinator begins it and asks each for its vote, up to sixteen
/// times. An exchange in which a node was told to stop isn't counted.
pub fn prepare<H: Host, N: Net, P: Power>(
    host: &mut H,
    net: &mut N,
    power: &mut P,
    cores: &mut [NodeCore],
    voters: &mut [Voter],
    chief: &mut ChiefCore,
    epoch: u64,
    pieces: &[Piece],
    body: &mut Vec<u8>,
) -> Result<Votes, LogFault>
    requires few { length cores.old ≤ 8 }
    requires some_node { 0 < length cores.old }
    requires voters { length voters.old ≡ length cores.old }
    requires nodes { (chief_of chief.old).nodes ≡ length cores.old }
    requires some { 0 < epoch }
    requires at_rest { (chief_of chief.old).phase ≡ Still }
    requires above_begun { (chief_of chief.old).current < epoch }
    requires above_committed { (chief_of chief.old).last < epoch }
    requires new { AreNew epoch cores.old }
    requires marked { AreMarked voters.old (P.asked power.old) }
    requires unsaid { (n : ℕ) (yes : Bool) → Contains (N.sent net.old) (vote_of n epoch yes) → ⊥ }
    requires ready { AreReady voters.old (H.reads host.old) (H.may_leave host.old) }
    requires apart { AreApart voters.old }
    ensures answer { IfOk result (λ votes. (given : List Sent) → N.given net.new ≡ N.given net.old ++ given
        → Comes votes epoch cores.new (chief_of chief.new) given (N.faults net.old) (N.faults net.new) (P.early_stops power.old) (P.early_stops power.new)) }
    // Each node was asked for its vote.
    ensures asked { OnOk result ((posts : List Sent) → N.sent net.new ≡ N.sent net.old ++ posts → (n : ℕ) → n < length cores.old → Contains posts (prepare_of n epoch)) }
    ensures nodes { (chief_of chief.new).nodes ≡ (chief_of chief.old).nodes }
    ensures last { OnOk result ((chief_of chief.new).last ≡ (chief_of chief.old).last) }
    ensures committed { OnOk result ((chief_of chief.new).committed ≡ (chief_of chief.old).committed) }
    ensures cores { OnOk result (KeepsCores epoch cores.old cores.new) }
    ensures told { OnOk result (AreTold epoch cores.new (N.sent net.new) (P.asked power.new)) }
    ensures marked { OnOk result (AreMarked voters.new (P.asked power.new)) }
    ensures says { OnOk result (Adds (IsOfVote epoch) (N.sent net.old) (N.sent net.new)) }
    // What was given was sent.
    ensures were_sent { OnOk result ((given : List Sent) (p : Sent) → N.given net.new ≡ N.given net.old ++ given → Contains given p → Contains (N.sent net.new) p) }
    // The files.
    ensures files { (c : Contents) (hold : ℕ → List Bool) → let b : Ballot = record { epoch = epoch; pieces = pieces.now; held = hold } in
        AreHeld hold voters.old → MayForce c b → c.setting.entry.layout.nodes ≡ length cores.old → HaveLogs c voters.old
        → RestsOn c (H.reads host.old) (H.may_leave host.old)
        → KeepsVotes H.Host result c b (have_durable epoch cores.new) host.old host.new }
    ensures ready { OnOk result (AreReady voters.new (H.reads host.new) (H.may_leave host.new)) }
    ensures whole { OnOk result (StayWhole (P.stops_seen power.old) (P.stops_seen power.new) voters.old voters.new) }
    ensures rest { KeepsRest H.Host N.Net P.Power voters.old voters.new host.old host.new net.old net.new power.old power.new }
    ensures disk { CountsFault result (H.disk_faults host.old) (H.disk_faults host.new) }
    // The world.
    ensures world { OnOk result (GoesOnVoted epoch (P.stopped power.old) (P.stopped power.new) (record { cores = cores.old; chief = chief_of chief.old; sent = N.sent net.old }) (record { cores = cores.new; chief = chief_of chief.new; sent = N.sent net.new })) }
{
    chief_begins(*body.allocator(), net, chief, epoch)?;
    let nodes = cores.len() as u8;
    let votes = exchanges(
        host, net, power, cores, voters, chief, nodes, epoch, pieces, body,
    )?;
    Ok(votes)
}
