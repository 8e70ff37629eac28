//! The decision on an epoch that was run: it is shipped and voted on, or given up.
ghost use Rattle.std.specs.Prelude.{◌≡◌, ◌<◌, ◌≤◌, true, false, List, ◌++◌, length, IfOk, OnOk};
ghost use Rattle.coco_ast.specs.Keyed.{Rows};
ghost use Rattle.coco_letters.specs.GivingUp.{since};
ghost use Rattle.coco_letters.specs.Worlds.{GoesBetween, GoesOn, SameEntries};
ghost use Rattle.coco_lost.specs.Stopping.{AsksFirst, CountsRise};
ghost use Rattle.coco_members.specs.AtRest.{scene_of};
ghost use Rattle.coco_net.specs.declared.letter.Posted.{Posted as Sent};
ghost use Rattle.coco_power.specs.Counting.{begun_after};
ghost use Rattle.coco_ship.specs.Pieces.{AreShippable};
ghost use Rattle.coco_ship.specs.Placing.{IsRing};
ghost use Rattle.coco_ship.specs.Shipping.{AreBegun, HaveAnswered};
ghost use Rattle.coco_trial.specs.Running.{KeepAll, SamePlaces, ring_of};
ghost use Rattle.coco_trial.specs.Voting.{MayVote};
ghost use Rattle.coco_vote.specs.Asking.{RisesIf, IsLater as StaysAsked};
ghost use Rattle.coco_vote.specs.Counting.{GivesOn};
ghost use Rattle.coco_vote.specs.Taking.{AreReady};
ghost use Rattle.coco_cluster.specs.Deciding.{HasDecided, StaysDeciding};
ghost use Rattle.coco_cluster.specs.Faults.{CountsPart};
ghost use Rattle.coco_cluster.specs.Trying.{next_if, AreQuiet, DecidesFiles, GiveIf, IsSilentSince, LoseIfTold, SameLogs};

use crate::Stop;
use coco_host::Host;
use coco_lost::stop_early;
use coco_members::Members;
use coco_net::Net;
use coco_power::Power;
use coco_ship::ShipFault;
use coco_trial::{ship, vote};
use coco_types::{NoMemory, Piece};
use std::alloc::Global;

/// Before an epoch is run or shipped each node may stop. The answer is whether one has: then it has lost its tables, and the
/// number of the epoch is used.
pub(crate) fn one_stops<P: Power>(
    alloc: Global,
    power: &mut P,
    members: &mut Members,
    point: u8,
    epoch: u64,
) -> Result<bool, NoMemory>
    requires quiet { (sent : List Sent) × AreQuiet epoch sent members.old }
    requires first { 1 ≤ point }
    requires last { point ≤ 2 }
    ensures quiet { IfOk result (λ stops. (sent : List Sent) → AreQuiet epoch sent members.old → AreQuiet (next_if stops epoch) sent members.new) }
    ensures none { IfOk result (λ stops. stops ≡ false → members.new ≡ members.old) }
    ensures stays { members.new ≡ record members.old { cores = members.new.cores; voters = members.new.voters } }
    ensures logs { OnOk result (SameLogs members.old.voters.items members.new.voters.items) }
    ensures whole { OnOk result (LoseIfTold (P.stops_seen power.old) (P.stops_seen power.new) members.old.voters.items members.new.voters.items) }
    ensures world { OnOk result ((sent : List Sent) → GoesBetween (P.stopped power.old) (P.stopped power.new) SameEntries (scene_of members.old sent) (scene_of members.new sent)) }
    ensures nodes { length members.new.cores.items ≡ length members.old.cores.items }
    // The counts, whatever the answer.
    ensures counts { CountsRise P.stops_seen P.early_stops P.stopped power.old power.new }
    ensures told { IfOk result (λ stops. RisesIf stops (P.early_stops power.old) (P.early_stops power.new)) }
    ensures asked { IfOk result (λ stops. AsksFirst stops point (length members.old.cores.items) (P.stopped power.old) (P.stopped power.new) (P.asked power.old) (P.asked power.new)) }
    ensures begun { P.begun power.new ≡ begun_after (P.begun power.old) 0 point }
    ensures power { 1 < point → StaysAsked P.Power power.old power.new }
{
    stop_early(
        alloc,
        power,
        members.cores.as_mut_slice(),
        members.voters.as_mut_slice(),
        point,
        epoch,
    )
}

/// Whether the pieces of an epoch have come to all copies. They haven't where one doesn't answer, though it was asked in
/// rounds that lost letters.
fn are_shipped<N: Net>(
    alloc: Global,
    net: &mut N,
    members: &mut Members,
    epoch: u64,
    pieces: &[Piece],
) -> Result<bool, NoMemory>
    requires quiet { AreQuiet epoch (N.sent net.old) members.old }
    requires ring { IsRing (ring_of members.old.tables.layout) }
    requires pieces { AreShippable (ring_of members.old.tables.layout) pieces.now }
    requires begun { AreBegun (ring_of members.old.tables.layout) epoch pieces.now members.old.tables.copies.items }
    ensures stays { members.new ≡ record members.old { tables = members.new.tables } }
    ensures places { SamePlaces members.old.tables members.new.tables }
    ensures shards { members.new.tables.shards ≡ members.old.tables.shards }
    ensures keep { (m : Rows) → KeepAll m members.old.tables → KeepAll m members.new.tables }
    ensures give { IfOk result (λ all. GiveIf all epoch pieces.now members.old.tables members.new.tables) }
    ensures may { OnOk result (MayVote epoch (N.sent net.new) members.new) }
    ensures answered { IfOk result (λ all. all ≡ true → HaveAnswered (ring_of members.old.tables.layout) epoch (since (N.given net.old) (N.given net.new))) }
    ensures world { OnOk result (GoesOn (scene_of members.old (N.sent net.old)) (scene_of members.new (N.sent net.new))) }
    ensures silent { IfOk result (λ all. all ≡ false → IsSilentSince (N.sent net.old) (N.given net.old) (N.faults net.old) (N.sent net.new) (N.given net.new) (N.faults net.new)) }
    // The letters, whatever the answer.
    ensures sent { (more : List Sent) × (N.sent net.new ≡ N.sent net.old ++ more) }
    ensures net { GivesOn (N.given net.old) (N.faults net.old) (N.last_seed net.old) (N.given net.new) (N.faults net.new) (N.last_seed net.new) }
{
    match ship(alloc, net, &mut members.tables, epoch, pieces) {
        Ok(()) => Ok(true),
        Err(ShipFault::Silent { .. }) => Ok(false),
        Err(ShipFault::NoMemory) => Err(NoMemory),
    }
}

/// The decision on an epoch that was run: where no node stops its pieces are shipped, and all vote for it, or it is given up.
/// True where all have voted.
pub(crate) fn decide<H: Host, N: Net, P: Power>(
    host: &mut H,
    net: &mut N,
    power: &mut P,
    members: &mut Members,
    epoch: u64,
    pieces: &[Piece],
    body: &mut Vec<u8>,
) -> Result<bool, Stop>
    requires quiet { AreQuiet epoch (N.sent net.old) members.old }
    requires ring { IsRing (ring_of members.old.tables.layout) }
    requires pieces { AreShippable (ring_of members.old.tables.layout) pieces.now }
    requires begun { AreBegun (ring_of members.old.tables.layout) epoch pieces.now members.old.tables.copies.items }
    requires ready { AreReady members.old.voters.items (H.reads host.old) (H.may_leave host.old) }
    ensures decided { IfOk result (λ all. HasDecided H.Host N.Net P.Power all 2 epoch pieces.now
        members.old members.new host.old host.new net.old net.new power.old power.new) }
    // The files.
    ensures files { DecidesFiles H.Host result epoch pieces.now members.old host.old host.new }
    ensures disk { CountsPart result (H.disk_faults host.old) (H.disk_faults host.new) }
    // What stays, whatever the answer.
    ensures rest { StaysDeciding H.Host N.Net P.Power
        members.old members.new host.old host.new net.old net.new power.old power.new }
{
    let alloc = *body.allocator();
    if one_stops(alloc, power, members, 2, epoch)? {
        return Ok(false);
    }
    ship_and_vote(host, net, power, members, epoch, pieces, body)
}

/// An epoch before which no node has stopped is shipped, and voted on once its pieces have come to all copies, or it is given
/// up. True where all have voted.
fn ship_and_vote<H: Host, N: Net, P: Power>(
    host: &mut H,
    net: &mut N,
    power: &mut P,
    members: &mut Members,
    epoch: u64,
    pieces: &[Piece],
    body: &mut Vec<u8>,
) -> Result<bool, Stop>
    requires quiet { AreQuiet epoch (N.sent net.old) members.old }
    requires ring { IsRing (ring_of members.old.tables.layout) }
    requires pieces { AreShippable (ring_of members.old.tables.layout) pieces.now }
    requires begun { AreBegun (ring_of members.old.tables.layout) epoch pieces.now members.old.tables.copies.items }
    requires ready { AreReady members.old.voters.items (H.reads host.old) (H.may_leave host.old) }
    ensures decided { IfOk result (λ all. HasDecided H.Host N.Net P.Power all 3 epoch pieces.now
        members.old members.new host.old host.new net.old net.new power.old power.new) }
    // The files.
    ensures files { DecidesFiles H.Host result epoch pieces.now members.old host.old host.new }
    ensures disk { CountsPart result (H.disk_faults host.old) (H.disk_faults host.new) }
    // What stays, whatever the answer.
    ensures rest { StaysDeciding H.Host N.Net P.Power
        members.old members.new host.old host.new net.old net.new power.old power.new }
{
    let alloc = *body.allocator();
    if !are_shipped(alloc, net, members, epoch, pieces)? {
        return Ok(false);
    }
    let all = vote(host, net, power, members, epoch, pieces, body)?;
    Ok(all)
}
