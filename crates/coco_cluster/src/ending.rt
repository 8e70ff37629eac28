//! The end of an epoch: it is committed, or it was given up; and the nodes that stopped are read anew.
ghost use Rattle.std.specs.Prelude.{◌≡◌, ◌≢◌, ◌<◌, ◌≤◌, ◌+◌, ◌^◌, ◌++◌, true, false, ℕ, List, None, Err, IfOk, IsOk, OnOk, OnErr, length, Option};
ghost use Rattle.coco_append.specs.Gaining.{RestsOn, Stands};
ghost use Rattle.coco_ast.specs.Keyed.{Rows};
ghost use Rattle.coco_entry.specs.Commits.{AreOf, IsCommit};
ghost use Rattle.coco_finish.specs.Finishing.{HaveMap};
ghost use Rattle.coco_kept.specs.Holding.{MayFollow, NeverFall};
ghost use Rattle.coco_kept.specs.Keeping.{HoldsKept};
ghost use Rattle.coco_letters.specs.Around.{IsLater, around};
ghost use Rattle.coco_letters.specs.Worlds.{GoesBetween, Commits as CommitsOne};
ghost use Rattle.coco_log.specs.LogState.{IsOnlyRead, LogState};
ghost use Rattle.coco_members.specs.AtRest.{AreAtRest, AreMembers, NoneBehind, NoneLost, ShardsHaveMap, scene_of};
ghost use Rattle.coco_members.specs.Voted.{HaveVoted};
ghost use Rattle.coco_net.specs.declared.letter.Posted.{Posted as Sent};
ghost use Rattle.coco_parallel.specs.Traces.{traced};
ghost use Rattle.coco_store.specs.Contents.{Contents, map_in};
ghost use Rattle.coco_store.specs.Laws.{MayCommit};
ghost use Rattle.coco_trial.specs.Running.{GiveAll, KeepAll};
ghost use Rattle.coco_types.specs.declared.call.Done.{Done as DoneState};
ghost use Rattle.coco_vote.specs.Asking.{IsLater as StaysAsked};
ghost use Rattle.coco_vote.specs.Taking.{AreReady};
ghost use Rattle.coco_cluster.specs.Ending.{Commits, HasEnded, IsForgotten};
ghost use Rattle.coco_cluster.specs.Faults.{CountsAttempt, CountsPart};
ghost use Rattle.coco_cluster.specs.Standing.{AllStand, BelongsTo, IsSound, MayStop, Rests, StandsAt};
ghost use Rattle.coco_cluster.specs.Trying.{commit_of, AreQuiet, KeepShards, LoseIfTold};
ghost use Rattle.coco_cluster.specs.declared.stop.Stop.TheVariants as stop;

use crate::{Cluster, Stop};
use coco_host::Host;
use coco_kept::add_dones;
use coco_lost::read_lost;
use coco_net::Net;
use coco_parallel::trace::Trace;
use coco_power::Power;
use coco_settle::settle;
use coco_standing::revert_all;
use coco_types::Dones;
use coco_types::limits::EPOCHS_END;
use std::alloc::Global;

impl Cluster {
    /// Behind an epoch that was given up the tables are reverted, and its number is used.
    pub(crate) fn forget_epoch(&mut self)
        requires below { self.old.next_epoch < EPOCHS_END }
        ensures forgotten { IsForgotten self.old self.new }
        ensures rest { (sent : List Sent) (m : Rows) → AreQuiet (self.old.next_epoch + 1) sent self.old.members → NoneBehind self.old.members.tables → KeepShards m self.old.members.tables
            → AreAtRest self.new.next_epoch sent self.new.members }
        ensures shards { (m : Rows) → NoneBehind self.old.members.tables → KeepShards m self.old.members.tables → ShardsHaveMap m self.new.members.tables }
        ensures map { (m : Rows) → NoneBehind self.old.members.tables → KeepAll m self.old.members.tables → HaveMap m self.new.members.tables }
    {
        let tables = &mut self.members.tables;
        revert_all(tables.shards.as_mut_slice(), tables.copies.as_mut_slice());
        self.next_epoch += 1;
    }

    /// An epoch that all nodes voted for is committed: its entry becomes durable, the nodes that hear of it promote their
    /// tables, and its Dones are kept.
    pub(crate) fn commit_epoch<H: Host, N: Net, P: Power>(
        &mut self,
        host: &mut H,
        net: &mut N,
        power: &mut P,
        dones: Dones,
        trace: Trace,
    ) -> Result<(), Stop>
        requires below { self.old.next_epoch < EPOCHS_END }
        requires voted { (after : Rows) × HaveVoted self.old.next_epoch after (N.sent net.old) self.old.members }
        requires unspent { self.old.members.log.spent ≡ false }
        requires stands { Stands self.old.members.log (H.reads host.old) (H.may_leave host.old) }
        requires follow { MayFollow self.old.kept dones }
        requires room { length dones ≤ self.old.kept.room }
        requires count { length dones < 2 ^ 32 }
        requires epochs { AreOf self.old.next_epoch dones }
        ensures ended { OnOk result (HasEnded dones (traced trace) self.old self.new) }
        ensures procs { self.new.procs ≡ self.old.procs }
        ensures trace { OnErr result (self.new.trace ≡ self.old.trace) }
        ensures kept { OnOk result ((before : Option ℕ) (added : List DoneState) → HoldsKept self.old.kept before added → NeverFall (added ++ dones) → HoldsKept self.new.kept before (added ++ dones)) }
        ensures rest { OnOk result (AreAtRest self.new.next_epoch (N.sent net.new) self.new.members) }
        ensures map { OnOk result ((after : Rows) → GiveAll after self.old.members.tables → HaveMap after self.new.members.tables) }
        ensures asked { OnOk result ((n : ℕ) → n < length self.old.members.cores.items → P.asked power.new n 6 ≡ true) }
        ensures world { OnOk result (GoesBetween (P.stopped power.old) (P.stopped power.new) (CommitsOne self.old.next_epoch) (scene_of self.old.members (N.sent net.old)) (scene_of self.new.members (N.sent net.new))) }
        // The files.
        ensures files { (c : Contents) → RestsOn c (H.reads host.old) (H.may_leave host.old) → BelongsTo c self.old → (IsCommit (commit_of self.old.next_epoch dones) → MayCommit c (commit_of self.old.next_epoch dones))
            → Commits H.Host result c (commit_of self.old.next_epoch dones) host.old host.new }
        ensures stand { OnOk result (AreReady self.old.members.voters.items (H.reads host.old) (H.may_leave host.old) → AllStand self.new (H.reads host.new) (H.may_leave host.new)) }
        ensures said { H.said host.new ≡ H.said host.old }
        ensures disk { CountsPart result (H.disk_faults host.old) (H.disk_faults host.new) }
        ensures stream { H.say_faults host.new ≡ H.say_faults host.old }
        // The counts, whatever the answer.
        ensures seen { P.stops_seen power.old ≤ P.stops_seen power.new }
        ensures whole { OnOk result (LoseIfTold (P.stops_seen power.old) (P.stops_seen power.new) self.old.members.voters.items self.new.members.voters.items) }
        ensures early { P.early_stops power.new ≡ P.early_stops power.old }
        ensures power { StaysAsked P.Power power.old power.new }
        ensures later { IsLater
            (around N.Net P.Power net.old power.old)
            (around N.Net P.Power net.new power.new) }
    {
        settle(
            host,
            net,
            power,
            &mut self.members,
            self.next_epoch,
            dones.as_slice(),
            &mut self.body,
        )?;
        add_dones(&mut self.kept, dones);
        self.next_epoch += 1;
        self.trace = Some(trace);
        Ok(())
    }

    /// The nodes that stopped have their tables read anew.
    pub(crate) fn read_stopped<H: Host>(&mut self, alloc: Global, host: &mut H) -> Result<(), Stop>
        requires are { AreMembers self.old.members }
        requires stops { MayStop self.old.members }
        ensures members { OnOk result (self.new ≡ record self.old { members = self.new.members }) }
        ensures procs { self.new.procs ≡ self.old.procs }
        ensures untraced { OnErr result (self.new.trace ≡ None) }
        ensures layout { self.new.members.tables.layout ≡ self.old.members.tables.layout }
        ensures next { self.new.next_epoch ≡ self.old.next_epoch }
        ensures cores { self.new.members.cores ≡ self.old.members.cores }
        ensures chief { self.new.members.chief ≡ self.old.members.chief }
        ensures none { NoneLost self.old.members.voters.items → IsOk result }
        ensures untouched { OnOk result (NoneLost self.old.members.voters.items → self.new ≡ self.old) }
        ensures whole { OnOk result (NoneLost self.new.members.voters.items) }
        ensures rests { OnOk result ((sent : List Sent) → Rests self.old sent → IsSound self.new sent) }
        // The files.
        ensures files { OnOk result ((c : Contents) → RestsOn c (H.reads host.old) (H.may_leave host.old) → StandsAt c self.old → StandsAt c self.new) }
        ensures never { (file at : ℕ) (c : Contents) → RestsOn c (H.reads host.old) (H.may_leave host.old) → StandsAt c self.old → result ≢ Err (stop.NotAStore file at) }
        ensures stand { OnOk result (AllStand self.old (H.reads host.old) (H.may_leave host.old) → AllStand self.new (H.reads host.new) (H.may_leave host.new)) }
        ensures read { IsOnlyRead H.Host host.old host.new }
        ensures disk { CountsAttempt result (H.disk_faults host.old) (H.disk_faults host.new) }
    {
        // Where a file can't be read, no trace is left.
        let trace = self.trace.take();
        read_lost(
            alloc,
            host,
            &self.procs,
            self.base.as_slice(),
            &mut self.members,
        )?;
        self.trace = trace;
        Ok(())
    }
}
