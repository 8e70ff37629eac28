//! A node's entry of an epoch, and then its vote.

ghost use Rattle.std.specs.Prelude.{◌≡◌, ◌⊎◌, ℕ, ◌<◌, ◌≤◌, Bool, true, false, List, [], ◌∷◌, ◌++◌, None, Some, length, slice_set, IfOk, OnOk};
ghost use Rattle.std.specs.List.{slice_get};
ghost use Rattle.coco_msg.specs.declared.message.Message.TheVariants.{Query as Asking};
ghost use Rattle.coco_net.specs.declared.letter.Posted.{Posted as Sent};
ghost use Rattle.coco_node.specs.Node.{restarted, Node as NodeState};
ghost use Rattle.coco_node.specs.declared.machine.TheConstants.{COORDINATOR as Chiefs};
ghost use Rattle.coco_chief.specs.Chief.{Chief as ChiefState};
ghost use Rattle.coco_world.specs.World.{put};
ghost use Rattle.coco_letters.specs.Saying.{posted};
ghost use Rattle.coco_letters.specs.Turns.{IsForcing, OnlySends};
ghost use Rattle.coco_letters.specs.Worlds.{GoesBetween, GoesOnStopped, Prepares, SameEntries};
ghost use Rattle.coco_log.specs.Faults.{CountsFault};
ghost use Rattle.coco_store.specs.Contents.{Contents};
ghost use Rattle.coco_append.specs.Gaining.{IsNodeLog, Stands};
ghost use Rattle.coco_vote.specs.Asking.{AreAsked, IsLater, TellsStops};
ghost use Rattle.coco_vote.specs.Keeping.{WritesLog};
ghost use Rattle.coco_vote.specs.Preparing.{have_durable, AddsEntry, Ballot, MayForce, RestsVoted, Votes};
ghost use Rattle.coco_vote.specs.Steps.{is_early, EndsVote, HasNewest, Marks, Steps};
ghost use Rattle.coco_vote.specs.Voting.{PreparesOnly};

use crate::Step;
use coco_append::{add_prepared, prepared_rows};
use coco_host::Host;
use coco_letters::{Voter, node_asks, node_forced, restart};
use coco_log::{Log, LogFault};
use coco_net::Net;
use coco_node::NodeCore;
use coco_power::Power;
use coco_types::{NoMemory, Piece};
use std::alloc::Global;

// Adds a node's entry of an epoch: what was written last in the partitions that it holds.
fn prepare_entry<H: Host>(
    host: &mut H,
    log: &mut Log,
    epoch: u64,
    pieces: &[Piece],
    held: &[bool],
    body: &mut Vec<u8>,
) -> Result<(), LogFault>
    requires unspent { log.old.spent ≡ false }
    requires stands { Stands log.old (H.reads host.old) (H.may_leave host.old) }
    ensures files { (c : Contents) (hold : ℕ → List Bool) (has : ℕ → Bool) (n : ℕ) → let b : Ballot = record { epoch = epoch; pieces = pieces.now; held = hold } in
        hold n ≡ held.now → MayForce c b → n < c.setting.entry.layout.nodes → IsNodeLog c n log.old → has n ≡ false → RestsVoted c b has (H.reads host.old) (H.may_leave host.old)
        → Votes H.Host result c b (put has n true) host.old host.new }
    ensures stands { OnOk result (Stands log.new (H.reads host.new) (H.may_leave host.new)) }
    ensures unspent { OnOk result (log.new.spent ≡ false) }
    ensures entry { OnOk result (AddsEntry epoch pieces.now held.now log.old log.new) }
    ensures rest { WritesLog H.Host log.old log.new host.old host.new }
    ensures counts { CountsFault result (H.disk_faults host.old) (H.disk_faults host.new) }
{
    let rows = prepared_rows(*body.allocator(), pieces, held)?;
    add_prepared(host, log, epoch, rows.as_slice(), body)?;
    Ok(())
}

/// A node that has stopped before its entry begins anew without the rows of the epoch. Its tables are lost.
pub fn lose_rows(
    alloc: Global,
    cores: &mut [NodeCore],
    voter: &mut Voter,
    node: u8,
    epoch: u64,
) -> Result<(), NoMemory>
    requires { node < length cores.old }
    ensures core { OnOk result ((core : NodeState) × (slice_get cores.old node ≡ Some core) × (cores.new ≡ slice_set cores.old node (restarted node (core.durable ∷ []) (Some epoch)))) }
    ensures world { OnOk result ((chief : ChiefState) (sent : List Sent) → GoesOnStopped node SameEntries (record { cores = cores.old; chief = chief; sent = sent }) (record { cores = cores.new; chief = chief; sent = sent })) }
    ensures voter { OnOk result (voter.new ≡ record voter.old { is_lost = true }) }
    ensures log { voter.new.log ≡ voter.old.log }
    ensures held { voter.new.held ≡ voter.old.held }
{
    let durable = cores[node as usize].durable();
    restart(alloc, cores, node, durable, Some(epoch))?;
    voter.is_lost = true;
    Ok(())
}

/// A node that has stopped behind its entry begins anew with it, and asks what became of the epoch. Its tables are lost.
pub fn begin_anew<N: Net>(
    alloc: Global,
    net: &mut N,
    cores: &mut [NodeCore],
    voter: &mut Voter,
    node: u8,
    epoch: u64,
) -> Result<(), NoMemory>
    requires few { length cores.old ≤ 8 }
    requires node { node < length cores.old }
    requires some { 0 < epoch }
    ensures cores { OnOk result (cores.new ≡ slice_set cores.old node (restarted node (epoch ∷ []) None)) }
    ensures sent { OnOk result (N.sent net.new ≡ N.sent net.old ++ posted node Chiefs (Asking epoch) ∷ []) }
    ensures stays { OnOk result ((core : NodeState) (chief : ChiefState) → slice_get cores.old node ≡ Some core → core.durable ≡ epoch
        → GoesOnStopped node SameEntries (record { cores = cores.old; chief = chief; sent = N.sent net.old }) (record { cores = cores.new; chief = chief; sent = N.sent net.new })) }
    ensures prepares { OnOk result ((chief : ChiefState) → IsForcing epoch node cores.old
        → GoesOnStopped node (Prepares node epoch) (record { cores = cores.old; chief = chief; sent = N.sent net.old }) (record { cores = cores.new; chief = chief; sent = N.sent net.new })) }
    ensures voter { OnOk result (voter.new ≡ record voter.old { is_lost = true }) }
    ensures log { voter.new.log ≡ voter.old.log }
    ensures held { voter.new.held ≡ voter.old.held }
    ensures sends { OnlySends N.Net net.old net.new }
{
    restart(alloc, cores, node, epoch, None)?;
    node_asks(alloc, net, cores, node)?;
    voter.is_lost = true;
    Ok(())
}

// A node that has voted may stop behind that.
pub(crate) fn end_vote<N: Net, P: Power>(
    alloc: Global,
    net: &mut N,
    power: &mut P,
    cores: &mut [NodeCore],
    voter: &mut Voter,
    node: u8,
    epoch: u64,
) -> Result<Step, NoMemory>
    requires few { length cores.old ≤ 8 }
    requires node { node < length cores.old }
    requires some { 0 < epoch }
    requires newest { HasNewest epoch node cores.old }
    ensures ends { IfOk result (λ step. EndsVote step node epoch cores.old (N.sent net.old) cores.new (N.sent net.new)) }
    ensures world { OnOk result ((chief : ChiefState) → GoesBetween (P.stopped power.old) (P.stopped power.new) SameEntries (record { cores = cores.old; chief = chief; sent = N.sent net.old }) (record { cores = cores.new; chief = chief; sent = N.sent net.new })) }
    ensures marks { IfOk result (λ step. Marks step voter.old voter.new) }
    ensures log { voter.new.log ≡ voter.old.log }
    ensures held { voter.new.held ≡ voter.old.held }
    ensures later { IsLater P.Power power.old power.new }
    ensures stops { IfOk result (λ step. TellsStops step (P.stops_seen power.old) (P.early_stops power.old) (P.stops_seen power.new) (P.early_stops power.new)) }
    ensures asked { P.asked power.new node 5 ≡ true }
    ensures sends { OnlySends N.Net net.old net.new }
{
    voter.asked_after_vote = true;
    if power.stops(node, 5) {
        begin_anew(alloc, net, cores, voter, node, epoch)?;
        return Ok(Step::Restarted { voted: true });
    }
    Ok(Step::Voted)
}

// A node whose entry is durable votes, unless it stops before that.
fn vote<N: Net, P: Power>(
    alloc: Global,
    net: &mut N,
    power: &mut P,
    cores: &mut [NodeCore],
    voter: &mut Voter,
    node: u8,
    epoch: u64,
) -> Result<Step, NoMemory>
    requires few { length cores.old ≤ 8 }
    requires node { node < length cores.old }
    requires forcing { IsForcing epoch node cores.old }
    ensures steps { IfOk result (λ step. Steps step node epoch cores.old (N.sent net.old) cores.new (N.sent net.new)) }
    ensures durable { IfOk result (λ step. is_early step ≡ false) }
    ensures world { OnOk result ((chief : ChiefState) → GoesBetween (P.stopped power.old) (P.stopped power.new) (PreparesOnly epoch) (record { cores = cores.old; chief = chief; sent = N.sent net.old }) (record { cores = cores.new; chief = chief; sent = N.sent net.new })) }
    ensures marks { IfOk result (λ step. Marks step voter.old voter.new) }
    ensures log { voter.new.log ≡ voter.old.log }
    ensures held { voter.new.held ≡ voter.old.held }
    ensures later { IsLater P.Power power.old power.new }
    ensures stops { IfOk result (λ step. TellsStops step (P.stops_seen power.old) (P.early_stops power.old) (P.stops_seen power.new) (P.early_stops power.new)) }
    ensures asked { IfOk result (λ step. P.asked power.old node 3 ≡ true → AreAsked step (P.asked power.new node)) }
    ensures sends { OnlySends N.Net net.old net.new }
{
    if power.stops(node, 4) {
        begin_anew(alloc, net, cores, voter, node, epoch)?;
        return Ok(Step::Restarted { voted: false });
    }
    node_forced(alloc, net, cores, node, epoch)?;
    end_vote(alloc, net, power, cores, voter, node, epoch)
}

/// A node that was asked for its vote forces the entry of the epoch, and then votes. It is asked for a stop before its
/// entry, before its vote and behind it, up to the first at which it stops.
pub fn force_and_vote<H: Host, N: Net, P: Power>(
    host: &mut H,
    net: &mut N,
    power: &mut P,
    cores: &mut [NodeCore],
    voter: &mut Voter,
    node: u8,
    epoch: u64,
    pieces: &[Piece],
    body: &mut Vec<u8>,
) -> Result<Step, LogFault>
    requires few { length cores.old ≤ 8 }
    requires node { node < length cores.old }
    requires forcing { IsForcing epoch node cores.old }
    requires unspent { voter.old.log.spent ≡ false }
    requires stands { Stands voter.old.log (H.reads host.old) (H.may_leave host.old) }
    ensures steps { IfOk result (λ step. Steps step node epoch cores.old (N.sent net.old) cores.new (N.sent net.new)) }
    ensures marks { IfOk result (λ step. Marks step voter.old voter.new) }
    ensures held { voter.new.held ≡ voter.old.held }
    // Nothing is sent before the entry, whatever the answer.
    ensures behind { (N.sent net.new ≡ N.sent net.old) ⊎ AddsEntry epoch pieces.now voter.old.held.items voter.old.log voter.new.log }
    // The files.
    ensures files { (c : Contents) (hold : ℕ → List Bool) → let b : Ballot = record { epoch = epoch; pieces = pieces.now; held = hold } in
        hold node ≡ voter.old.held.items → MayForce c b → node < c.setting.entry.layout.nodes → IsNodeLog c node voter.old.log
        → RestsVoted c b (have_durable epoch cores.old) (H.reads host.old) (H.may_leave host.old)
        → Votes H.Host result c b (have_durable epoch cores.new) host.old host.new }
    ensures stands { OnOk result (Stands voter.new.log (H.reads host.new) (H.may_leave host.new)) }
    ensures unspent { OnOk result (voter.new.log.spent ≡ false) }
    ensures rest { WritesLog H.Host voter.old.log voter.new.log host.old host.new }
    ensures disk { CountsFault result (H.disk_faults host.old) (H.disk_faults host.new) }
    // The world.
    ensures world { OnOk result ((chief : ChiefState) → GoesBetween (P.stopped power.old) (P.stopped power.new) (PreparesOnly epoch) (record { cores = cores.old; chief = chief; sent = N.sent net.old }) (record { cores = cores.new; chief = chief; sent = N.sent net.new })) }
    // The counts.
    ensures later { IsLater P.Power power.old power.new }
    ensures stops { IfOk result (λ step. TellsStops step (P.stops_seen power.old) (P.early_stops power.old) (P.stops_seen power.new) (P.early_stops power.new)) }
    ensures asked { IfOk result (λ step. AreAsked step (P.asked power.new node)) }
    ensures sends { OnlySends N.Net net.old net.new }
{
    let alloc = *body.allocator();
    if power.stops(node, 3) {
        lose_rows(alloc, cores, voter, node, epoch)?;
        return Ok(Step::Stopped);
    }
    let held = voter.held.as_slice();
    prepare_entry(host, &mut voter.log, epoch, pieces, held, body)?;
    Ok(vote(alloc, net, power, cores, voter, node, epoch)?)
}
