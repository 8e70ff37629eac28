//! Stops of nodes before an epoch is run or shipped.

ghost use Rattle.std.specs.Prelude.{◌≡◌, ◌+◌, ◌<◌, ◌≤◌, ℕ, Bool, List, length, IfOk, OnOk};
ghost use Rattle.coco_chief.specs.Chief.{Chief as ChiefState};
ghost use Rattle.coco_finish.specs.Exchanges.{AreInStep};
ghost use Rattle.coco_finish.specs.Finishing.{AllCanFinish};
ghost use Rattle.coco_letters.specs.Worlds.{GoesBetween, SameEntries};
ghost use Rattle.coco_net.specs.declared.letter.Posted.{Posted as Sent};
ghost use Rattle.coco_power.specs.Counting.{begun_after};
ghost use Rattle.coco_vote.specs.Asking.{IsLater, RisesIf};
ghost use Rattle.coco_vote.specs.Beginning.{AreNew};
ghost use Rattle.coco_lost.specs.Stopping.{AsksFirst, CountsRise, StopsOne};

use coco_letters::Voter;
use coco_node::NodeCore;
use coco_power::Power;
use coco_types::NoMemory;
use coco_vote::lose_rows;
use std::alloc::Global;

/// Before an epoch is run, which is point 1, or before it is shipped, which is point 2, each node in node order may
/// stop. The first that does begins anew without the rows of the epoch, its tables are lost, and no other node is asked.
/// The answer is whether one has stopped.
pub fn stop_early<P: Power>(
    alloc: Global,
    power: &mut P,
    cores: &mut [NodeCore],
    voters: &mut [Voter],
    point: u8,
    epoch: u64,
) -> Result<bool, NoMemory>
    requires some { 0 < length cores.old }
    requires few { length cores.old ≤ 8 }
    requires voters { length voters.old ≡ length cores.old }
    requires first { 1 ≤ point }
    requires last { point ≤ 2 }
    ensures stops { IfOk result (λ stops. StopsOne stops epoch (P.stopped power.old) (P.stopped power.new) cores.old voters.old cores.new voters.new) }
    // What still holds of the cores: the epoch that comes next is new to all of them.
    ensures next { OnOk result (AreNew epoch cores.old → AreNew (epoch + 1) cores.new) }
    ensures can { OnOk result ((last : ℕ) → AllCanFinish last cores.old → AllCanFinish last cores.new) }
    ensures in_step { OnOk result ((last : ℕ) (chief : ChiefState) (sent : List Sent) (marks : List Bool) → AreInStep last cores.old chief sent marks → AreInStep last cores.new chief sent marks) }
    // The world.
    ensures world { OnOk result ((chief : ChiefState) (sent : List Sent) → GoesBetween (P.stopped power.old) (P.stopped power.new) SameEntries (record { cores = cores.old; chief = chief; sent = sent }) (record { cores = cores.new; chief = chief; sent = sent })) }
    // The counts, whatever the answer; and what was asked.
    ensures counts { CountsRise P.stops_seen P.early_stops P.stopped power.old power.new }
    ensures begun { P.begun power.new ≡ begun_after (P.begun power.old) 0 point }
    ensures later { 1 < point → IsLater P.Power power.old power.new }
    ensures told { IfOk result (λ stops. RisesIf stops (P.stops_seen power.old) (P.stops_seen power.new) × RisesIf stops (P.early_stops power.old) (P.early_stops power.new)) }
    ensures asked { IfOk result (λ stops. AsksFirst stops point (length cores.old) (P.stopped power.old) (P.stopped power.new) (P.asked power.old) (P.asked power.new)) }
{
    for node in 0..cores.len() as u8 {
        if power.stops(node, point) {
            let voter = &mut voters[node as usize];
            lose_rows(alloc, cores, voter, node, epoch)?;
            return Ok(true);
        }
    }
    Ok(false)
}
