//! An exchange of two rounds while nodes vote.

ghost use Rattle.std.specs.Prelude.{◌≡◌, ◌⊎◌, ℕ, ◌<◌, ◌≤◌, ◌^◌, false, Bool, true, List, ◌++◌, Contains, length, IfOk, OnOk};
ghost use Rattle.coco_chief.specs.Shown.{chief_of};
ghost use Rattle.coco_chief.specs.Table.{is_voting};
ghost use Rattle.coco_net.specs.declared.letter.Posted.{Posted as Sent};
ghost use Rattle.coco_node.specs.Node.{Node as NodeState};
ghost use Rattle.coco_node.specs.declared.machine.TheConstants.{COORDINATOR as Chiefs};
ghost use Rattle.coco_letters.specs.Telling.{Adds, IsOfChief, IsOfVote};
ghost use Rattle.coco_letters.specs.Turns.{AreSent};
ghost use Rattle.coco_letters.specs.Worlds.{GoesBetween, GoesOn};
ghost use Rattle.coco_log.specs.Faults.{CountsFault};
ghost use Rattle.coco_store.specs.Contents.{Contents};
ghost use Rattle.coco_vote.specs.Counting.{prepare_of, HasCounted, IsAye};
ghost use Rattle.coco_vote.specs.Keeping.{KeepsLetters, KeepsRest};
ghost use Rattle.coco_vote.specs.Nearing.{all_ahead, Nears};
ghost use Rattle.coco_vote.specs.Preparing.{have_durable, Ballot, MayForce, RestsVoted, Votes};
ghost use Rattle.coco_vote.specs.Taking.{has_lost, vote_of, AreApart, AreHeld, AreMarked, AreReady, AreTold, AreVoting, CountsStops, HaveLogs, KeepsCores, UnlessLost, StayWhole};
ghost use Rattle.coco_vote.specs.Voting.{PreparesOnly};
ghost use Rattle.coco_vote.specs.declared.step.Stops.TheVariants.{Never as NoStop};

use crate::Stops;
use crate::taking::nodes_take;
use coco_chief::ChiefCore;
use coco_host::Host;
use coco_letters::{Voter, chief_takes, waiting_letters_were_sent};
use coco_log::LogFault;
use coco_net::Net;
use coco_node::NodeCore;
use coco_power::Power;
use coco_types::{NoMemory, Piece};
use std::alloc::Global;

// The coordinator takes what the first round of an exchange gave it, and what the second one gives.
pub(crate) fn collect<N: Net>(
    alloc: Global,
    net: &mut N,
    chief: &mut ChiefCore,
) -> Result<(), NoMemory>
    requires few { (chief_of chief.old).nodes ≤ 8 }
    requires sent { AreSent (N.sent net.old) (N.waiting net.old) }
    // It counts the votes among them.
    ensures counted { OnOk result ((e : ℕ) (given more : List Sent) → 0 < e → e < 2 ^ 64 → HasCounted e (IsAye e given) (chief_of chief.old) → ((n : ℕ) → Contains (N.sent net.old) (vote_of n e false) → ⊥) → N.given net.new ≡ N.given net.old ++ more
        → HasCounted e (λ n. (IsAye e given n ⊎ Contains (N.waiting net.old Chiefs) (vote_of n e true).letter) ⊎ IsAye e more n) (chief_of chief.new)) }
    ensures nodes { (chief_of chief.new).nodes ≡ (chief_of chief.old).nodes }
    ensures last { OnOk result ((chief_of chief.new).last ≡ (chief_of chief.old).last) }
    ensures committed { OnOk result ((chief_of chief.new).committed ≡ (chief_of chief.old).committed) }
    // Where it doesn't wait for votes it stays in its phase.
    ensures rests { OnOk result (is_voting (chief_of chief.old).phase ≡ false → ((chief_of chief.new).phase ≡ (chief_of chief.old).phase) × ((chief_of chief.new).current ≡ (chief_of chief.old).current)) }
    ensures says { OnOk result (Adds IsOfChief (N.sent net.old) (N.sent net.new)) }
    ensures letters { KeepsLetters N.Net net.old net.new }
    // What was fresh is given, where no letter was lost.
    ensures gives { OnOk result ((more : List Sent) (p : Sent) → N.given net.new ≡ N.given net.old ++ more → N.faults net.new ≡ N.faults net.old → Contains (N.fresh net.old) p → Contains more p) }
    ensures were_sent { OnOk result ((more : List Sent) (p : Sent) → N.given net.new ≡ N.given net.old ++ more → Contains more p → Contains (N.sent net.new) p) }
    ensures world { OnOk result ((cores : List NodeState) → GoesOn (record { cores = cores; chief = chief_of chief.old; sent = N.sent net.old }) (record { cores = cores; chief = chief_of chief.new; sent = N.sent net.new })) }
{
    chief_takes(alloc, net, chief)?;
    net.round()?;
    waiting_letters_were_sent();
    chief_takes(alloc, net, chief)?;
    Ok(())
}

// A round gives nodes what was sent to them. They take it, the coordinator takes what it has got, and once more behind
// a second round. It ends at once where the epoch is lost.
pub(crate) fn exchange<H: Host, N: Net, P: Power>(
    host: &mut H,
    net: &mut N,
    power: &mut P,
    cores: &mut [NodeCore],
    voters: &mut [Voter],
    chief: &mut ChiefCore,
    epoch: u64,
    pieces: &[Piece],
    body: &mut Vec<u8>,
) -> Result<Stops, LogFault>
    requires few { length cores.old ≤ 8 }
    requires voters { length voters.old ≡ length cores.old }
    requires nodes { (chief_of chief.old).nodes ≡ length cores.old }
    requires some { 0 < epoch }
    requires voting { AreVoting epoch cores.old }
    requires told { AreTold epoch cores.old (N.sent net.old) (P.asked power.old) }
    requires marked { AreMarked voters.old (P.asked power.old) }
    requires ready { AreReady voters.old (H.reads host.old) (H.may_leave host.old) }
    requires apart { AreApart voters.old }
    ensures voting { IfOk result (λ stops. UnlessLost stops (AreVoting epoch cores.new)) }
    ensures cores { OnOk result (KeepsCores epoch cores.old cores.new) }
    ensures told { OnOk result (AreTold epoch cores.new (N.sent net.new) (P.asked power.new)) }
    ensures marked { OnOk result (AreMarked voters.new (P.asked power.new)) }
    // The coordinator counts the votes that are given, and is as it was where the epoch is lost.
    ensures counted { IfOk result (λ stops. UnlessLost stops ((given more : List Sent) → HasCounted epoch (IsAye epoch given) (chief_of chief.old) → N.given net.new ≡ N.given net.old ++ more → HasCounted epoch (IsAye epoch (given ++ more)) (chief_of chief.new))) }
    ensures lost { IfOk result (λ stops. has_lost stops ≡ true → chief_of chief.new ≡ chief_of chief.old) }
    ensures nodes { (chief_of chief.new).nodes ≡ (chief_of chief.old).nodes }
    ensures last { OnOk result ((chief_of chief.new).last ≡ (chief_of chief.old).last) }
    ensures committed { OnOk result ((chief_of chief.new).committed ≡ (chief_of chief.old).committed) }
    // Where no node has stopped and no letter was lost, the vote of each that was asked for it is given.
    ensures votes { IfOk result (λ stops. stops ≡ NoStop → (more : List Sent) → N.given net.new ≡ N.given net.old ++ more → N.faults net.new ≡ N.faults net.old → (n : ℕ) → n < length cores.old → Contains (N.fresh net.old) (prepare_of n epoch) → IsAye epoch more n) }
    ensures were_sent { OnOk result ((more : List Sent) (p : Sent) → N.given net.new ≡ N.given net.old ++ more → Contains more p → Contains (N.sent net.new) p) }
    ensures says { OnOk result (Adds (IsOfVote epoch) (N.sent net.old) (N.sent net.new)) }
    ensures nears { IfOk result (λ stops. Nears stops (all_ahead epoch cores.old voters.old (length cores.old)) (all_ahead epoch cores.new voters.new (length cores.old))) }
    // The files.
    ensures files { (c : Contents) (hold : ℕ → List Bool) → let b : Ballot = record { epoch = epoch; pieces = pieces.now; held = hold } in
        AreHeld hold voters.old → MayForce c b → c.setting.entry.layout.nodes ≡ length cores.old → HaveLogs c voters.old
        → RestsVoted c b (have_durable epoch cores.old) (H.reads host.old) (H.may_leave host.old)
        → Votes H.Host result c b (have_durable epoch cores.new) host.old host.new }
    ensures ready { OnOk result (AreReady voters.new (H.reads host.new) (H.may_leave host.new)) }
    ensures whole { OnOk result (StayWhole (P.stops_seen power.old) (P.stops_seen power.new) voters.old voters.new) }
    ensures rest { KeepsRest H.Host N.Net P.Power voters.old voters.new host.old host.new net.old net.new power.old power.new }
    ensures disk { CountsFault result (H.disk_faults host.old) (H.disk_faults host.new) }
    // The world.
    ensures world { OnOk result (GoesBetween (P.stopped power.old) (P.stopped power.new) (PreparesOnly epoch) (record { cores = cores.old; chief = chief_of chief.old; sent = N.sent net.old }) (record { cores = cores.new; chief = chief_of chief.new; sent = N.sent net.new })) }
    // The counts.
    ensures stops { IfOk result (λ stops. CountsStops stops (P.stops_seen power.old) (P.early_stops power.old) (P.stops_seen power.new) (P.early_stops power.new)) }
{
    net.round()?;
    waiting_letters_were_sent();
    let stops = nodes_take(host, net, power, cores, voters, epoch, pieces, body)?;
    if stops.is_early() {
        return Ok(stops);
    }
    collect(*body.allocator(), net, chief)?;
    Ok(stops)
}
