//! The vote on an epoch, or its end.

ghost use Rattle.std.specs.Prelude.{◌≡◌, ◌≢◌, ℕ, ◌<◌, ◌≤◌, Bool, false, true, List, Contains, length, map, IfOk, OnOk};
ghost use Rattle.coco_append.specs.Gaining.{RestsOn};
ghost use Rattle.coco_chief.specs.Shown.{chief_of};
ghost use Rattle.coco_chief.specs.declared.machine.Phase.TheVariants.{Rest as Still};
ghost use Rattle.coco_finish.specs.Finishing.{AllCanFinish};
ghost use Rattle.coco_letters.specs.Around.{around};
ghost use Rattle.coco_letters.specs.Telling.{Adds, IsOfVote};
ghost use Rattle.coco_log.specs.Faults.{CountsFault};
ghost use Rattle.coco_members.specs.AtRest.{scene_of};
ghost use Rattle.coco_store.specs.Contents.{Contents};
ghost use Rattle.coco_vote.specs.Beginning.{AreNew, GoesOnVoted};
ghost use Rattle.coco_vote.specs.Keeping.{KeepsRest};
ghost use Rattle.coco_vote.specs.Preparing.{have_durable, Ballot, MayForce, Votes as KeepsVotes};
ghost use Rattle.coco_vote.specs.Taking.{vote_of, AreApart, AreHeld, AreReady, HaveLogs, StayWhole};
ghost use Rattle.coco_vote.specs.declared.phase.Votes.TheVariants.{All};
ghost use Rattle.coco_trial.specs.Voting.{unmarked, ComesOf, Decided, KeepsTables, MayVote};

use coco_chief::ChiefCore;
use coco_host::Host;
use coco_letters::Voter;
use coco_log::LogFault;
use coco_members::Members;
use coco_net::Net;
use coco_node::NodeCore;
use coco_power::Power;
use coco_types::Piece;
use coco_vote::{Votes, give_up, prepare};

// In the epoch that begins, nobody was asked for a stop behind a vote yet.
fn unmark(voters: &mut [Voter])
    ensures { voters.new ≡ map unmarked voters.old }
{
    for place in 0..voters.len() {
        voters[place].asked_after_vote = false;
    }
}

// Whether all have voted.
fn is_all(votes: Votes) -> bool
    ensures all { result ≡ true → votes ≡ All }
    ensures others { result ≡ false → votes ≢ All }
{
    match votes {
        Votes::All => true,
        Votes::Stopped => false,
        Votes::Silent { .. } => false,
    }
}

// All vote, or the epoch is given up.
fn decide<H: Host, N: Net, P: Power>(
    host: &mut H,
    net: &mut N,
    power: &mut P,
    cores: &mut [NodeCore],
    voters: &mut [Voter],
    chief: &mut ChiefCore,
    epoch: u64,
    pieces: &[Piece],
    body: &mut Vec<u8>,
) -> Result<bool, LogFault>
    requires few { length cores.old ≤ 8 }
    requires some_node { 0 < length cores.old }
    requires voters { length voters.old ≡ length cores.old }
    requires nodes { (chief_of chief.old).nodes ≡ length cores.old }
    requires at_rest { (chief_of chief.old).phase ≡ Still }
    requires above_begun { (chief_of chief.old).current < epoch }
    requires above_committed { (chief_of chief.old).last < epoch }
    requires new { AreNew epoch cores.old }
    requires unsaid { (n : ℕ) (yes : Bool) → Contains (N.sent net.old) (vote_of n epoch yes) → ⊥ }
    requires ready { AreReady voters.old (H.reads host.old) (H.may_leave host.old) }
    requires apart { AreApart voters.old }
    ensures comes { IfOk result (λ all. ComesOf all epoch cores.new (chief_of chief.new)
        (around N.Net P.Power net.old power.old)
        (around N.Net P.Power net.new power.new)) }
    ensures can { OnOk result ((e : ℕ) → e < epoch → AllCanFinish e cores.old → AllCanFinish e cores.new) }
    ensures nodes { (chief_of chief.new).nodes ≡ (chief_of chief.old).nodes }
    ensures last { OnOk result ((chief_of chief.new).last ≡ (chief_of chief.old).last) }
    ensures committed { OnOk result ((chief_of chief.new).committed ≡ (chief_of chief.old).committed) }
    ensures says { OnOk result (Adds (IsOfVote epoch) (N.sent net.old) (N.sent net.new)) }
    // The files.
    ensures files { (c : Contents) (hold : ℕ → List Bool) → let b : Ballot = record { epoch = epoch; pieces = pieces.now; held = hold } in
        AreHeld hold voters.old → MayForce c b → c.setting.entry.layout.nodes ≡ length cores.old → HaveLogs c voters.old
        → RestsOn c (H.reads host.old) (H.may_leave host.old)
        → KeepsVotes H.Host result c b (have_durable epoch cores.new) host.old host.new }
    ensures ready { OnOk result (AreReady voters.new (H.reads host.new) (H.may_leave host.new)) }
    ensures whole { OnOk result (StayWhole (P.stops_seen power.old) (P.stops_seen power.new) voters.old voters.new) }
    ensures rest { KeepsRest H.Host N.Net P.Power voters.old voters.new host.old host.new net.old net.new power.old power.new }
    ensures disk { CountsFault result (H.disk_faults host.old) (H.disk_faults host.new) }
    // The world.
    ensures world { OnOk result (GoesOnVoted epoch (P.stopped power.old) (P.stopped power.new) (record { cores = cores.old; chief = chief_of chief.old; sent = N.sent net.old }) (record { cores = cores.new; chief = chief_of chief.new; sent = N.sent net.new })) }
{
    unmark(voters);
    let votes = prepare(host, net, power, cores, voters, chief, epoch, pieces, body)?;
    if is_all(votes) {
        return Ok(true);
    }
    give_up(*body.allocator(), net, cores, chief, epoch)?;
    Ok(false)
}

/// All nodes vote on an epoch that was shipped, or it is given up, and each node is told. True where all have voted:
/// then each has the entry, and the coordinator is to force the commit entry. The tables are left alone.
pub fn vote<H: Host, N: Net, P: Power>(
    host: &mut H,
    net: &mut N,
    power: &mut P,
    members: &mut Members,
    epoch: u64,
    pieces: &[Piece],
    body: &mut Vec<u8>,
) -> Result<bool, LogFault>
    requires may { MayVote epoch (N.sent net.old) members.old }
    requires ready { AreReady members.old.voters.items (H.reads host.old) (H.may_leave host.old) }
    ensures decided { IfOk result (λ all. Decided all epoch (N.sent net.new) members.old members.new) }
    ensures comes { IfOk result (λ all. ComesOf all epoch members.new.cores.items (chief_of members.new.chief)
        (around N.Net P.Power net.old power.old)
        (around N.Net P.Power net.new power.new)) }
    ensures keeps { KeepsTables members.old members.new }
    ensures whole { OnOk result (StayWhole (P.stops_seen power.old) (P.stops_seen power.new) members.old.voters.items members.new.voters.items) }
    ensures last { OnOk result ((chief_of members.new.chief).last ≡ (chief_of members.old.chief).last) }
    ensures committed { OnOk result ((chief_of members.new.chief).committed ≡ (chief_of members.old.chief).committed) }
    ensures says { OnOk result (Adds (IsOfVote epoch) (N.sent net.old) (N.sent net.new)) }
    // The files: just the nodes whose core has the epoch have its entry.
    ensures files { (c : Contents) (hold : ℕ → List Bool) → let b : Ballot = record { epoch = epoch; pieces = pieces.now; held = hold } in
        AreHeld hold members.old.voters.items → MayForce c b → c.setting.entry.layout.nodes ≡ length members.old.cores.items → HaveLogs c members.old.voters.items
        → RestsOn c (H.reads host.old) (H.may_leave host.old)
        → KeepsVotes H.Host result c b (have_durable epoch members.new.cores.items) host.old host.new }
    ensures ready { OnOk result (AreReady members.new.voters.items (H.reads host.new) (H.may_leave host.new)) }
    ensures rest { KeepsRest H.Host N.Net P.Power members.old.voters.items members.new.voters.items host.old host.new net.old net.new power.old power.new }
    ensures disk { CountsFault result (H.disk_faults host.old) (H.disk_faults host.new) }
    // The world.
    ensures world { OnOk result (GoesOnVoted epoch (P.stopped power.old) (P.stopped power.new) (scene_of members.old (N.sent net.old)) (scene_of members.new (N.sent net.new))) }
{
    let all = decide(
        host,
        net,
        power,
        members.cores.as_mut_slice(),
        members.voters.as_mut_slice(),
        &mut members.chief,
        epoch,
        pieces,
        body,
    )?;
    Ok(all)
}
