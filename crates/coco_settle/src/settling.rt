//! An epoch that all nodes voted for is committed and finished.

ghost use Rattle.std.specs.Prelude.{◌≡◌, ◌≢◌, ◌⊎◌, ℕ, ◌+◌, ◌<◌, ◌≤◌, ◌^◌, true, false, [], length, replicate, OnOk};
ghost use Rattle.coco_ast.specs.Keyed.{Rows};
ghost use Rattle.coco_append.specs.Gaining.{Gains, IsChiefLog, RestsOn, Stands};
ghost use Rattle.coco_chief.specs.Shown.{chief_of};
ghost use Rattle.coco_entry.specs.Commits.{AreOf, commit_bytes, IsCommit};
ghost use Rattle.coco_entry.specs.declared.commit.Commit.{Commit};
ghost use Rattle.coco_finish.specs.Exchanges.{AreReminded};
ghost use Rattle.coco_finish.specs.Finishing.{HaveMap};
ghost use Rattle.coco_host.specs.Files.{Become, Follows};
ghost use Rattle.coco_letters.specs.Telling.{Adds, IsOfSettling};
ghost use Rattle.coco_letters.specs.Worlds.{Commits, GoesBetween, SameEntries};
ghost use Rattle.coco_log.specs.Faults.{CountsFault};
ghost use Rattle.coco_log.specs.LogState.{LogState, SameBut, with_entry};
ghost use Rattle.coco_members.specs.AtRest.{scene_of, primaries_of, AreAtRest, ShardsHaveMap};
ghost use Rattle.coco_members.specs.Voted.{HaveVoted};
ghost use Rattle.coco_standing.specs.Standing.{TablesStand, all_behind};
ghost use Rattle.coco_store.specs.Contents.{Contents};
ghost use Rattle.coco_store.specs.Laws.{MayCommit, with_commit};
ghost use Rattle.coco_vote.specs.Asking.{IsLater};
ghost use Rattle.coco_vote.specs.Taking.{AreReady, StayWhole};
ghost use Rattle.coco_settle.specs.Settling.{AreToFinish, HasCommitted, KeepsChief, MarkStops};
ghost use Rattle.coco_vote.specs.Keeping.{KeepsLetters};

use coco_finish::{commit, finish, stop_last, unfinished_nodes_are_told};
use coco_host::Host;
use coco_log::LogFault;
use coco_members::Members;
use coco_net::Net;
use coco_power::Power;
use coco_types::{Done, NoMemory};
use std::alloc::Global;

// Each node is marked.
fn mark_all(marks: &mut [bool])
    ensures { marks.new ≡ replicate (length marks.old) true }
{
    marks.fill(true);
}

// Behind the commit entry every node is behind; each may stop, and those that hear of it finish. A node that doesn't stays behind.
fn finish_committed<N: Net, P: Power>(
    alloc: Global,
    net: &mut N,
    power: &mut P,
    members: &mut Members,
    epoch: u64,
) -> Result<(), NoMemory>
    requires some { 0 < epoch }
    requires members { AreToFinish epoch (N.sent net.old) members.old }
    requires told { AreReminded epoch (chief_of members.old.chief) (N.fresh net.old) }
    ensures rest { OnOk result ((after : Rows) → TablesStand (primaries_of members.old.tables.layout) after all_behind members.old.tables.shards.items [] → AreAtRest (epoch + 1) (N.sent net.new) members.new) }
    ensures shards { OnOk result ((after : Rows) → TablesStand (primaries_of members.old.tables.layout) after all_behind members.old.tables.shards.items [] → ShardsHaveMap after members.new.tables) }
    ensures map { OnOk result ((after : Rows) → TablesStand members.old.tables.layout after all_behind members.old.tables.shards.items members.old.tables.copies.items → HaveMap after members.new.tables) }
    ensures layout { OnOk result (members.new.tables.layout ≡ members.old.tables.layout) }
    ensures chief { OnOk result (KeepsChief (chief_of members.old.chief) (chief_of members.new.chief)) }
    ensures stops { OnOk result (MarkStops (P.stopped power.old) (P.stopped power.new) members.old.voters.items members.new.voters.items) }
    ensures whole { OnOk result (StayWhole (P.stops_seen power.old) (P.stops_seen power.new) members.old.voters.items members.new.voters.items) }
    ensures log { members.new.log ≡ members.old.log }
    ensures asked { OnOk result ((n : ℕ) → n < length members.old.cores.items → P.asked power.new n 6 ≡ true) }
    ensures world { OnOk result (GoesBetween (P.stopped power.old) (P.stopped power.new) SameEntries (scene_of members.old (N.sent net.old)) (scene_of members.new (N.sent net.new))) }
    ensures early { P.early_stops power.new ≡ P.early_stops power.old }
    ensures later { IsLater P.Power power.old power.new }
    ensures says { OnOk result (Adds (IsOfSettling epoch) (N.sent net.old) (N.sent net.new)) }
    ensures letters { KeepsLetters N.Net net.old net.new }
{
    mark_all(members.tables.behind.as_mut_slice());
    stop_last(
        alloc,
        net,
        power,
        members.cores.as_mut_slice(),
        members.voters.as_mut_slice(),
        epoch,
    )?;
    let _all = finish(
        alloc,
        net,
        &mut members.chief,
        members.cores.as_mut_slice(),
        &mut members.tables,
        epoch,
    )?;
    Ok(())
}

/// An epoch that all nodes voted for is committed and finished: its entry becomes durable, then each node is told. Each
/// may stop before it finishes, and then its tables are lost. A node that doesn't hear of it is behind still.
pub fn settle<H: Host, N: Net, P: Power>(
    host: &mut H,
    net: &mut N,
    power: &mut P,
    members: &mut Members,
    epoch: u64,
    dones: &[Done],
    body: &mut Vec<u8>,
) -> Result<(), LogFault>
    requires voted { (after : Rows) × HaveVoted epoch after (N.sent net.old) members.old }
    requires unspent { members.old.log.spent ≡ false }
    requires stands { Stands members.old.log (H.reads host.old) (H.may_leave host.old) }
    requires count { length dones.now < 2 ^ 32 }
    requires epochs { AreOf epoch dones.now }
    // Nodes, coordinator and tables.
    ensures rest { OnOk result (AreAtRest (epoch + 1) (N.sent net.new) members.new) }
    ensures shards { OnOk result ((after : Rows) → HaveVoted epoch after (N.sent net.old) members.old → ShardsHaveMap after members.new.tables) }
    ensures map { OnOk result ((after : Rows) → TablesStand members.old.tables.layout after all_behind members.old.tables.shards.items members.old.tables.copies.items → HaveMap after members.new.tables) }
    ensures layout { OnOk result (members.new.tables.layout ≡ members.old.tables.layout) }
    ensures committed { OnOk result (HasCommitted epoch (chief_of members.old.chief) (chief_of members.new.chief)) }
    ensures stops { OnOk result (MarkStops (P.stopped power.old) (P.stopped power.new) members.old.voters.items members.new.voters.items) }
    ensures whole { OnOk result (StayWhole (P.stops_seen power.old) (P.stops_seen power.new) members.old.voters.items members.new.voters.items) }
    // Where the entry isn't durable, nothing was done.
    ensures behind { (members.new.log ≡ with_entry members.old.log (commit_bytes (record { epoch = epoch; dones = dones.now })))
        ⊎ ((members.new ≡ record members.old { log = members.new.log }) × (net.new ≡ net.old) × (power.new ≡ power.old)) }
    // The files.
    ensures files { (c : Contents) → let entry : Commit = record { epoch = epoch; dones = dones.now } in
        RestsOn c (H.reads host.old) (H.may_leave host.old) → IsChiefLog c members.old.log → (IsCommit entry → MayCommit c entry)
        → Gains H.Host result c (with_commit entry c) host.old host.new }
    ensures log { OnOk result (members.new.log ≡ with_entry members.old.log (commit_bytes (record { epoch = epoch; dones = dones.now }))) }
    ensures stands { OnOk result (Stands members.new.log (H.reads host.new) (H.may_leave host.new)) }
    ensures ready { OnOk result (AreReady members.old.voters.items (H.reads host.old) (H.may_leave host.old) → AreReady members.new.voters.items (H.reads host.new) (H.may_leave host.new)) }
    ensures others { (other : LogState) → other.file ≢ members.old.log.file → Stands other (H.reads host.old) (H.may_leave host.old) → Stands other (H.reads host.new) (H.may_leave host.new) }
    ensures read { Become (SameBut members.old.log.file) (H.reads host.old) (H.reads host.new) }
    ensures crash { Follows (SameBut members.old.log.file) (H.may_leave host.old) (H.may_leave host.new) }
    ensures said { H.said host.new ≡ H.said host.old }
    ensures disk { CountsFault result (H.disk_faults host.old) (H.disk_faults host.new) }
    ensures stream { H.say_faults host.new ≡ H.say_faults host.old }
    // The world.
    ensures world { OnOk result (GoesBetween (P.stopped power.old) (P.stopped power.new) (Commits epoch) (scene_of members.old (N.sent net.old)) (scene_of members.new (N.sent net.new))) }
    // The power and the counts.
    ensures asked { OnOk result ((n : ℕ) → n < length members.old.cores.items → P.asked power.new n 6 ≡ true) }
    ensures early { P.early_stops power.new ≡ P.early_stops power.old }
    ensures later { IsLater P.Power power.old power.new }
    ensures says { OnOk result (Adds (IsOfSettling epoch) (N.sent net.old) (N.sent net.new)) }
    ensures letters { KeepsLetters N.Net net.old net.new }
{
    commit(
        host,
        net,
        &mut members.chief,
        &mut members.log,
        epoch,
        dones,
        body,
    )?;
    unfinished_nodes_are_told();
    let alloc = *body.allocator();
    finish_committed(alloc, net, power, members, epoch)?;
    Ok(())
}
