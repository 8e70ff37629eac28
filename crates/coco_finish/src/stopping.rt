//! Stops of nodes behind the commit entry, before they finish the epoch.

ghost use Rattle.std.specs.Prelude.{◌≡◌, ◌≢◌, ◌<◌, ◌≤◌, ℕ, Bool, true, List, length, OnOk};
ghost use Rattle.coco_chief.specs.Chief.{Chief as ChiefState};
ghost use Rattle.coco_letters.specs.Telling.{Adds, IsOfSettling};
ghost use Rattle.coco_letters.specs.Turns.{OnlySends};
ghost use Rattle.coco_letters.specs.Worlds.{GoesBetween, SameEntries};
ghost use Rattle.coco_vote.specs.Asking.{IsLater};
ghost use Rattle.coco_vote.specs.Taking.{StaysWhole, StayWhole};
ghost use Rattle.coco_finish.specs.Exchanges.{AreInStep};
ghost use Rattle.coco_finish.specs.Finishing.{AllCanFinish};
ghost use Rattle.coco_finish.specs.Stopping.{AllHaveNewest, StopSome, StopsHere};

use coco_letters::Voter;
use coco_net::Net;
use coco_node::NodeCore;
use coco_power::Power;
use coco_types::NoMemory;
use coco_vote::begin_anew;
use std::alloc::Global;

// A node may stop. One that does begins anew with its entries, and its tables are lost.
fn stop_here<N: Net, P: Power>(
    alloc: Global,
    net: &mut N,
    power: &mut P,
    cores: &mut [NodeCore],
    voter: &mut Voter,
    node: u8,
    epoch: u64,
) -> Result<(), NoMemory>
    requires few { length cores.old ≤ 8 }
    requires node { node < length cores.old }
    requires some { 0 < epoch }
    requires newest { AllHaveNewest epoch cores.old }
    ensures stops { OnOk result (StopsHere epoch node (P.stopped power.old) (P.stopped power.new) cores.old voter.old (N.sent net.old) cores.new voter.new (N.sent net.new)) }
    ensures whole { OnOk result (StaysWhole (P.stops_seen power.old) (P.stops_seen power.new) voter.old voter.new) }
    ensures elsewhere { (n : ℕ) → n < 8 → n ≢ node → P.stopped power.new n ≡ P.stopped power.old n }
    ensures log { voter.new.log ≡ voter.old.log }
    ensures held { voter.new.held ≡ voter.old.held }
    ensures early { P.early_stops power.new ≡ P.early_stops power.old }
    ensures later { IsLater P.Power power.old power.new }
    ensures asked { P.asked power.new node 6 ≡ true }
    ensures world { OnOk result ((chief : ChiefState) → GoesBetween (P.stopped power.old) (P.stopped power.new) SameEntries (record { cores = cores.old; chief = chief; sent = N.sent net.old }) (record { cores = cores.new; chief = chief; sent = N.sent net.new })) }
    ensures sends { OnlySends N.Net net.old net.new }
{
    if power.stops(node, 6) {
        begin_anew(alloc, net, cores, voter, node, epoch)?;
    }
    Ok(())
}

/// Behind the commit entry of an epoch each node, in node order, may stop before it finishes the epoch. One that does
/// begins anew with its entries, asks what became of the epoch, and its tables are lost.
pub fn stop_last<N: Net, P: Power>(
    alloc: Global,
    net: &mut N,
    power: &mut P,
    cores: &mut [NodeCore],
    voters: &mut [Voter],
    epoch: u64,
) -> Result<(), NoMemory>
    requires few { length cores.old ≤ 8 }
    requires voters { length voters.old ≡ length cores.old }
    requires some { 0 < epoch }
    requires newest { AllHaveNewest epoch cores.old }
    ensures stops { OnOk result (StopSome epoch (length cores.old) (P.stopped power.old) (P.stopped power.new) cores.old voters.old (N.sent net.old) cores.new voters.new (N.sent net.new)) }
    ensures whole { OnOk result (StayWhole (P.stops_seen power.old) (P.stops_seen power.new) voters.old voters.new) }
    ensures said { OnOk result (Adds (IsOfSettling epoch) (N.sent net.old) (N.sent net.new)) }
    ensures newest { OnOk result (AllHaveNewest epoch cores.new) }
    ensures can { OnOk result (AllCanFinish epoch cores.old → AllCanFinish epoch cores.new) }
    ensures in_step { OnOk result ((chief : ChiefState) (marks : List Bool) → AreInStep epoch cores.old chief (N.sent net.old) marks → AreInStep epoch cores.new chief (N.sent net.new) marks) }
    ensures early { P.early_stops power.new ≡ P.early_stops power.old }
    ensures later { IsLater P.Power power.old power.new }
    ensures asked { OnOk result ((n : ℕ) → n < length cores.old → P.asked power.new n 6 ≡ true) }
    ensures world { OnOk result ((chief : ChiefState) → GoesBetween (P.stopped power.old) (P.stopped power.new) SameEntries (record { cores = cores.old; chief = chief; sent = N.sent net.old }) (record { cores = cores.new; chief = chief; sent = N.sent net.new })) }
    ensures sends { OnlySends N.Net net.old net.new }
{
    for node in 0..cores.len() as u8 {
        let voter = &mut voters[node as usize];
        stop_here(alloc, net, power, cores, voter, node, epoch)?;
    }
    Ok(())
}
