//! What a node does with the letters that wait at it while it votes.

ghost use Rattle.std.specs.Prelude.{◌≡◌, ◌≢◌, ℕ, ◌<◌, ◌≤◌, Bool, true, false, List, [], Some, Contains, length, IfOk, OnOk};
ghost use Rattle.coco_msg.specs.declared.message.Message.TheVariants.{Prepare as Asks};
ghost use Rattle.coco_node.specs.declared.machine.TheConstants.{COORDINATOR as Chiefs};
ghost use Rattle.coco_chief.specs.Chief.{Chief as ChiefState};
ghost use Rattle.coco_letters.specs.Telling.{Adds, IsOfVote};
ghost use Rattle.coco_letters.specs.Turns.{AreFresh, AreSent, Counts, IsFrom, OnlySends};
ghost use Rattle.coco_letters.specs.Worlds.{GoesBetween, GoesOn, SameEntries};
ghost use Rattle.coco_log.specs.Faults.{CountsFault};
ghost use Rattle.coco_store.specs.Contents.{Contents};
ghost use Rattle.coco_append.specs.Gaining.{IsNodeLog, Stands};
ghost use Rattle.coco_vote.specs.Asking.{IsLater, TellsStops};
ghost use Rattle.coco_vote.specs.Keeping.{KeepsRest, WritesLog};
ghost use Rattle.coco_vote.specs.Nearing.{ahead_of, all_ahead, Nears};
ghost use Rattle.coco_vote.specs.Preparing.{durable_at, have_durable, Ballot, MayForce, RestsVoted, Votes};
ghost use Rattle.coco_vote.specs.Steps.{has_stopped, EndsVote, HasNewest, Marks};
ghost use Rattle.coco_vote.specs.Taking.{vote_of, AreApart, AreHeld, AreMarked, AreReady, AreTold, AreVoting, CountsStops, HasGiven, HaveLogs, HeardSo, IsMarked, KeepsCores, UnlessLost, StaysWhole, StayWhole};
ghost use Rattle.coco_vote.specs.Voting.{PreparesOnly};
ghost use Rattle.coco_vote.specs.declared.step.Stops.TheVariants.{Never as NoStop};

use crate::forcing::{end_vote, force_and_vote};
use crate::{Step, Stops};
use coco_host::Host;
use coco_letters::{Heard, Voter, node_votes, waiting_letters_were_sent};
use coco_log::LogFault;
use coco_net::{Letter, Net};
use coco_node::NodeCore;
use coco_power::Power;
use coco_types::{NoMemory, Piece};
use std::alloc::Global;

// A node that votes hears a letter that waited at it.
fn hear_vote<N: Net>(
    alloc: Global,
    net: &mut N,
    cores: &mut [NodeCore],
    node: u8,
    epoch: u64,
    letter: &Letter,
) -> Result<Heard, NoMemory>
    requires few { length cores.old ≤ 8 }
    requires node { node < length cores.old }
    requires some { 0 < epoch }
    requires sent { Contains (N.sent net.old) (record { to = node; letter = letter.now }) }
    requires voting { AreVoting epoch cores.old }
    ensures heard { IfOk result (λ heard. HeardSo heard node epoch letter.now cores.old (N.sent net.old) cores.new (N.sent net.new)) }
    ensures world { OnOk result ((chief : ChiefState) → GoesOn (record { cores = cores.old; chief = chief; sent = N.sent net.old }) (record { cores = cores.new; chief = chief; sent = N.sent net.new })) }
    ensures sends { OnlySends N.Net net.old net.new }
{
    node_votes(alloc, net, cores, node, epoch, letter)
}

// A node that has given its vote again is asked for a stop behind it, where it wasn't yet.
fn vote_again<N: Net, P: Power>(
    alloc: Global,
    net: &mut N,
    power: &mut P,
    cores: &mut [NodeCore],
    voter: &mut Voter,
    node: u8,
    epoch: u64,
) -> Result<Step, NoMemory>
    requires few { length cores.old ≤ 8 }
    requires node { node < length cores.old }
    requires some { 0 < epoch }
    requires newest { HasNewest epoch node cores.old }
    ensures ends { IfOk result (λ step. EndsVote step node epoch cores.old (N.sent net.old) cores.new (N.sent net.new)) }
    ensures world { OnOk result ((chief : ChiefState) → GoesBetween (P.stopped power.old) (P.stopped power.new) SameEntries (record { cores = cores.old; chief = chief; sent = N.sent net.old }) (record { cores = cores.new; chief = chief; sent = N.sent net.new })) }
    ensures marks { IfOk result (λ step. Marks step voter.old voter.new) }
    ensures log { voter.new.log ≡ voter.old.log }
    ensures held { voter.new.held ≡ voter.old.held }
    // It stops only where it wasn't asked before.
    ensures once { IfOk result (λ step. has_stopped step ≡ true → voter.old.asked_after_vote ≡ false) }
    ensures later { IsLater P.Power power.old power.new }
    ensures stops { IfOk result (λ step. TellsStops step (P.stops_seen power.old) (P.early_stops power.old) (P.stops_seen power.new) (P.early_stops power.new)) }
    ensures asked { IsMarked node voter.old (P.asked power.old) → P.asked power.new node 5 ≡ true }
    ensures sends { OnlySends N.Net net.old net.new }
{
    if voter.asked_after_vote {
        return Ok(Step::Voted);
    }
    end_vote(alloc, net, power, cores, voter, node, epoch)
}

// What a node that votes does with a letter that waited at it.
fn take_letter<H: Host, N: Net, P: Power>(
    host: &mut H,
    net: &mut N,
    power: &mut P,
    cores: &mut [NodeCore],
    voter: &mut Voter,
    node: u8,
    epoch: u64,
    pieces: &[Piece],
    body: &mut Vec<u8>,
    letter: &Letter,
) -> Result<Stops, LogFault>
    requires few { length cores.old ≤ 8 }
    requires node { node < length cores.old }
    requires some { 0 < epoch }
    requires sent { Contains (N.sent net.old) (record { to = node; letter = letter.now }) }
    requires voting { AreVoting epoch cores.old }
    requires marked { IsMarked node voter.old (P.asked power.old) }
    requires unspent { voter.old.log.spent ≡ false }
    requires stands { Stands voter.old.log (H.reads host.old) (H.may_leave host.old) }
    ensures voting { IfOk result (λ stops. UnlessLost stops (AreVoting epoch cores.new)) }
    ensures cores { OnOk result (KeepsCores epoch cores.old cores.new) }
    ensures told { OnOk result (AreTold epoch cores.old (N.sent net.old) (P.asked power.old) → AreTold epoch cores.new (N.sent net.new) (P.asked power.new)) }
    ensures marked { OnOk result (IsMarked node voter.new (P.asked power.new)) }
    ensures held { voter.new.held ≡ voter.old.held }
    ensures whole { OnOk result (StaysWhole (P.stops_seen power.old) (P.stops_seen power.new) voter.old voter.new) }
    // Asked for its vote, a node that doesn't stop gives it.
    ensures votes { IfOk result (λ stops. IsFrom Chiefs letter.now (Asks epoch) → stops ≡ NoStop → Contains (N.fresh net.new) (vote_of node epoch true)) }
    // Its entry, or being asked for a stop behind its vote, isn't ahead of it any more where it has stopped.
    ensures nears { IfOk result (λ stops. Nears stops (ahead_of epoch cores.old node voter.old) (ahead_of epoch cores.new node voter.new)) }
    ensures elsewhere { OnOk result ((m : ℕ) → m ≢ node → durable_at cores.new m ≡ durable_at cores.old m) }
    ensures says { OnOk result (Adds (IsOfVote epoch) (N.sent net.old) (N.sent net.new)) }
    // The files.
    ensures files { (c : Contents) (hold : ℕ → List Bool) → let b : Ballot = record { epoch = epoch; pieces = pieces.now; held = hold } in
        hold node ≡ voter.old.held.items → MayForce c b → node < c.setting.entry.layout.nodes → IsNodeLog c node voter.old.log
        → RestsVoted c b (have_durable epoch cores.old) (H.reads host.old) (H.may_leave host.old)
        → Votes H.Host result c b (have_durable epoch cores.new) host.old host.new }
    ensures stands { OnOk result (Stands voter.new.log (H.reads host.new) (H.may_leave host.new)) }
    ensures unspent { OnOk result (voter.new.log.spent ≡ false) }
    ensures rest { WritesLog H.Host voter.old.log voter.new.log host.old host.new }
    ensures disk { CountsFault result (H.disk_faults host.old) (H.disk_faults host.new) }
    // The world.
    ensures world { OnOk result ((chief : ChiefState) → GoesBetween (P.stopped power.old) (P.stopped power.new) (PreparesOnly epoch) (record { cores = cores.old; chief = chief; sent = N.sent net.old }) (record { cores = cores.new; chief = chief; sent = N.sent net.new })) }
    // The counts.
    ensures later { IsLater P.Power power.old power.new }
    ensures stops { IfOk result (λ stops. CountsStops stops (P.stops_seen power.old) (P.early_stops power.old) (P.stops_seen power.new) (P.early_stops power.new)) }
    ensures sends { OnlySends N.Net net.old net.new }
{
    let alloc = *body.allocator();
    match hear_vote(alloc, net, cores, node, epoch, letter)? {
        Heard::Nothing => Ok(Stops::Never),
        Heard::Voted => {
            let step = vote_again(alloc, net, power, cores, voter, node, epoch)?;
            Ok(step.stops())
        }
        Heard::Forces { epoch: _ } => {
            let step = force_and_vote(host, net, power, cores, voter, node, epoch, pieces, body)?;
            Ok(step.stops())
        }
    }
}

// What a node that votes does with the letters that wait at it. It takes all of them, unless the epoch is lost.
pub(crate) fn take_letters<H: Host, N: Net, P: Power>(
    host: &mut H,
    net: &mut N,
    power: &mut P,
    cores: &mut [NodeCore],
    voter: &mut Voter,
    node: u8,
    epoch: u64,
    pieces: &[Piece],
    body: &mut Vec<u8>,
) -> Result<Stops, LogFault>
    requires few { length cores.old ≤ 8 }
    requires node { node < length cores.old }
    requires some { 0 < epoch }
    requires sent { AreSent (N.sent net.old) (N.waiting net.old) }
    requires voting { AreVoting epoch cores.old }
    requires marked { IsMarked node voter.old (P.asked power.old) }
    requires unspent { voter.old.log.spent ≡ false }
    requires stands { Stands voter.old.log (H.reads host.old) (H.may_leave host.old) }
    ensures voting { IfOk result (λ stops. UnlessLost stops (AreVoting epoch cores.new)) }
    ensures cores { OnOk result (KeepsCores epoch cores.old cores.new) }
    ensures told { OnOk result (AreTold epoch cores.old (N.sent net.old) (P.asked power.old) → AreTold epoch cores.new (N.sent net.new) (P.asked power.new)) }
    ensures marked { OnOk result (IsMarked node voter.new (P.asked power.new)) }
    ensures held { voter.new.held ≡ voter.old.held }
    ensures whole { OnOk result (StaysWhole (P.stops_seen power.old) (P.stops_seen power.new) voter.old voter.new) }
    // Where it was asked for its vote and didn't stop, it has given it.
    ensures votes { IfOk result (λ stops. stops ≡ NoStop → HasGiven epoch node (N.waiting net.old node) (N.fresh net.new)) }
    ensures taken { IfOk result (λ stops. UnlessLost stops (N.waiting net.new node ≡ [])) }
    ensures sent { OnOk result (AreSent (N.sent net.new) (N.waiting net.new)) }
    // Its entry, or being asked for a stop behind its vote, isn't ahead of it any more where it has stopped.
    ensures nears { IfOk result (λ stops. Nears stops (ahead_of epoch cores.old node voter.old) (ahead_of epoch cores.new node voter.new)) }
    ensures elsewhere { OnOk result ((m : ℕ) → m ≢ node → durable_at cores.new m ≡ durable_at cores.old m) }
    ensures says { OnOk result (Adds (IsOfVote epoch) (N.sent net.old) (N.sent net.new)) }
    // The files.
    ensures files { (c : Contents) (hold : ℕ → List Bool) → let b : Ballot = record { epoch = epoch; pieces = pieces.now; held = hold } in
        hold node ≡ voter.old.held.items → MayForce c b → node < c.setting.entry.layout.nodes → IsNodeLog c node voter.old.log
        → RestsVoted c b (have_durable epoch cores.old) (H.reads host.old) (H.may_leave host.old)
        → Votes H.Host result c b (have_durable epoch cores.new) host.old host.new }
    ensures stands { OnOk result (Stands voter.new.log (H.reads host.new) (H.may_leave host.new)) }
    ensures unspent { OnOk result (voter.new.log.spent ≡ false) }
    ensures rest { WritesLog H.Host voter.old.log voter.new.log host.old host.new }
    ensures disk { CountsFault result (H.disk_faults host.old) (H.disk_faults host.new) }
    // The world.
    ensures world { OnOk result ((chief : ChiefState) → GoesBetween (P.stopped power.old) (P.stopped power.new) (PreparesOnly epoch) (record { cores = cores.old; chief = chief; sent = N.sent net.old }) (record { cores = cores.new; chief = chief; sent = N.sent net.new })) }
    // The counts.
    ensures later { IsLater P.Power power.old power.new }
    ensures stops { IfOk result (λ stops. CountsStops stops (P.stops_seen power.old) (P.early_stops power.old) (P.stops_seen power.new) (P.early_stops power.new)) }
    ensures fresh { AreFresh (N.sent net.old) (N.fresh net.old) (N.sent net.new) (N.fresh net.new) }
    ensures waiting { (p : ℕ) → p ≢ node → N.waiting net.new p ≡ N.waiting net.old p }
    ensures counts { Counts (N.given net.old) (N.faults net.old) (N.last_seed net.old) (N.given net.new) (N.faults net.new) (N.last_seed net.new) }
{
    waiting_letters_were_sent();
    let mut stops = Stops::Never;
    while !stops.is_early() {
        match net.next(node) {
            Some(letter) => {
                let taken = take_letter(
                    host, net, power, cores, voter, node, epoch, pieces, body, &letter,
                )?;
                stops = stops.and(taken);
            }
            None => return Ok(stops),
        }
    }
    Ok(stops)
}

// What the nodes do with the letters that wait at them, in node order. They take all of them, unless the epoch is lost.
pub(crate) fn nodes_take<H: Host, N: Net, P: Power>(
    host: &mut H,
    net: &mut N,
    power: &mut P,
    cores: &mut [NodeCore],
    voters: &mut [Voter],
    epoch: u64,
    pieces: &[Piece],
    body: &mut Vec<u8>,
) -> Result<Stops, LogFault>
    requires few { length cores.old ≤ 8 }
    requires voters { length voters.old ≡ length cores.old }
    requires some { 0 < epoch }
    requires sent { AreSent (N.sent net.old) (N.waiting net.old) }
    requires voting { AreVoting epoch cores.old }
    requires marked { AreMarked voters.old (P.asked power.old) }
    requires ready { AreReady voters.old (H.reads host.old) (H.may_leave host.old) }
    requires apart { AreApart voters.old }
    ensures voting { IfOk result (λ stops. UnlessLost stops (AreVoting epoch cores.new)) }
    ensures cores { OnOk result (KeepsCores epoch cores.old cores.new) }
    ensures told { OnOk result (AreTold epoch cores.old (N.sent net.old) (P.asked power.old) → AreTold epoch cores.new (N.sent net.new) (P.asked power.new)) }
    ensures marked { OnOk result (AreMarked voters.new (P.asked power.new)) }
    // Each that was asked for its vote has given it, where none has stopped.
    ensures votes { IfOk result (λ stops. stops ≡ NoStop → (n : ℕ) → n < length cores.old → HasGiven epoch n (N.waiting net.old n) (N.fresh net.new)) }
    ensures sent { OnOk result (AreSent (N.sent net.new) (N.waiting net.new)) }
    ensures nears { IfOk result (λ stops. Nears stops (all_ahead epoch cores.old voters.old (length cores.old)) (all_ahead epoch cores.new voters.new (length cores.old))) }
    ensures says { OnOk result (Adds (IsOfVote epoch) (N.sent net.old) (N.sent net.new)) }
    // The files.
    ensures files { (c : Contents) (hold : ℕ → List Bool) → let b : Ballot = record { epoch = epoch; pieces = pieces.now; held = hold } in
        AreHeld hold voters.old → MayForce c b → c.setting.entry.layout.nodes ≡ length cores.old → HaveLogs c voters.old
        → RestsVoted c b (have_durable epoch cores.old) (H.reads host.old) (H.may_leave host.old)
        → Votes H.Host result c b (have_durable epoch cores.new) host.old host.new }
    ensures ready { OnOk result (AreReady voters.new (H.reads host.new) (H.may_leave host.new)) }
    ensures whole { OnOk result (StayWhole (P.stops_seen power.old) (P.stops_seen power.new) voters.old voters.new) }
    ensures rest { KeepsRest H.Host N.Net P.Power voters.old voters.new host.old host.new net.old net.new power.old power.new }
    ensures disk { CountsFault result (H.disk_faults host.old) (H.disk_faults host.new) }
    // The world.
    ensures world { OnOk result ((chief : ChiefState) → GoesBetween (P.stopped power.old) (P.stopped power.new) (PreparesOnly epoch) (record { cores = cores.old; chief = chief; sent = N.sent net.old }) (record { cores = cores.new; chief = chief; sent = N.sent net.new })) }
    // The counts.
    ensures stops { IfOk result (λ stops. CountsStops stops (P.stops_seen power.old) (P.early_stops power.old) (P.stops_seen power.new) (P.early_stops power.new)) }
    ensures fresh { AreFresh (N.sent net.old) (N.fresh net.old) (N.sent net.new) (N.fresh net.new) }
    ensures waiting { (p : ℕ) → length cores.old ≤ p → N.waiting net.new p ≡ N.waiting net.old p }
    ensures counts { Counts (N.given net.old) (N.faults net.old) (N.last_seed net.old) (N.given net.new) (N.faults net.new) (N.last_seed net.new) }
{
    let mut stops = Stops::Never;
    for node in 0..cores.len() as u8 {
        if stops.is_early() {
            return Ok(stops);
        }
        let voter = &mut voters[node as usize];
        let taken = take_letters(host, net, power, cores, voter, node, epoch, pieces, body)?;
        stops = stops.and(taken);
    }
    Ok(stops)
}
