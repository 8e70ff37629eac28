//! Tables of nodes that lost them, read anew.

ghost use Rattle.std.specs.Prelude.{◌≡◌, ◌≢◌, ℕ, ◌<◌, ◌≤◌, true, false, List, Some, Err, IsOk, OnOk, OnErr, length, slice_index, slice_set};
ghost use Rattle.std.specs.List.{list_any};
ghost use Rattle.coco_append.specs.Gaining.{Stands};
ghost use Rattle.coco_ast.specs.History.{RisesAbove};
ghost use Rattle.coco_chief.specs.Shown.{chief_of};
ghost use Rattle.coco_entry.specs.declared.commit.Commit.{Commit as CommitEntry};
ghost use Rattle.coco_finish.specs.Finishing.{AreWhole, HaveMap};
ghost use Rattle.coco_host.specs.Files.{Files};
ghost use Rattle.coco_load.specs.Tables.{Maps};
ghost use Rattle.coco_log.specs.LogState.{IsOnlyRead, LogState};
ghost use Rattle.coco_members.specs.AtRest.{AreAtRest, AreMembers, NoneLost};
ghost use Rattle.coco_net.specs.declared.letter.Posted.{Posted as Sent};
ghost use Rattle.coco_read.specs.declared.fault.OpenFault.TheVariants as fault;
ghost use Rattle.coco_read.specs.Faults.{Counts};
ghost use Rattle.coco_recover.specs.Lost.{AreKnown};
ghost use Rattle.coco_standing.specs.Standing.{AreCounted, NodeIsFrom, OthersStay};
ghost use Rattle.coco_store.specs.Contents.{Contents, Holds, IsGoodStore, map_in};
ghost use Rattle.coco_store.specs.Refusals.{IsFirst, IsNodeRefused};
ghost use Rattle.coco_store.specs.Rules.{Setting, commit_epochs};
ghost use Rattle.coco_vote.specs.Taking.{HaveLogs};
ghost use Rattle.coco_lost.specs.Reading.{AllStand, AreInFiles, AreOf, CanBeRead, HaveMaps, IsLostFile, IsLostRefused, IsOf, KnowsCommitted, KnowsEpochs, ReadsAnew, ReadsLost, ReadsOne};

use coco_ast::Checked;
use coco_finish::NodeTables;
use coco_host::Host;
use coco_letters::Voter;
use coco_load::{PackedRows, Tables};
use coco_members::Members;
use coco_read::OpenFault;
use coco_recover::read_node;
use coco_standing::take_tables;
use std::alloc::Global;

/// Each node that lost its tables, in node order, has them read anew from its file: over the rows of the base what it
/// prepared for the epochs that the coordinator knows as committed. Its log is the one that was read, and it isn't
/// behind. Where no node is lost nothing is read.
pub fn read_lost<H: Host>(
    alloc: Global,
    host: &mut H,
    procs: &Checked,
    base: &[PackedRows],
    members: &mut Members,
) -> Result<(), OpenFault>
    requires are { AreMembers members.old }
    requires can { CanBeRead members.old }
    ensures none { OnOk result (NoneLost members.new.voters.items) }
    ensures untouched { NoneLost members.old.voters.items → IsOk result × (host.new ≡ host.old) × (members.new ≡ members.old) }
    // The members, whatever the answer.
    ensures reads { ReadsLost members.old.voters.items members.old.tables members.new.voters.items members.new.tables }
    ensures chief { members.new.chief ≡ members.old.chief }
    ensures log { members.new.log ≡ members.old.log }
    ensures cores { members.new.cores ≡ members.old.cores }
    ensures are { AreInFiles members.old.tables.layout members.old.voters.items → AreMembers members.new }
    ensures maps { (maps : Maps) → HaveMaps maps members.old.tables → (after : Maps) × HaveMaps after members.new.tables }
    ensures rest { (next : ℕ) (sent : List Sent) → AreInFiles members.old.tables.layout members.old.voters.items → AreAtRest next sent members.old → AreAtRest next sent members.new }
    // The files.
    ensures files { OnOk result ((files : Files) (c : Contents) → H.reads host.old ≡ Some files → IsGoodStore files c → AreKnown c members.old.tables.layout procs.now (commit_epochs c.commits) base.now
        → KnowsCommitted c (chief_of members.old.chief) → AreOf c members.old.voters.items members.old.tables → HaveMap (map_in c) members.new.tables × HaveLogs c members.new.voters.items) }
    ensures stand { AllStand members.old.voters.items (H.reads host.old) (H.may_leave host.old) → AllStand members.new.voters.items (H.reads host.new) (H.may_leave host.new) }
    ensures others { (log : LogState) → Stands log (H.reads host.old) (H.may_leave host.old) → Stands log (H.reads host.new) (H.may_leave host.new) }
    ensures here { (file at : ℕ) → result ≡ Err (fault.NotAStore file at) → IsLostFile members.old.tables.layout members.old.voters.items file }
    ensures refused { (file at : ℕ) (files : Files) (s : Setting) (commits : List CommitEntry) → result ≡ Err (fault.NotAStore file at) → H.reads host.old ≡ Some files → s.entry.layout ≡ members.old.tables.layout → s.tree ≡ procs.now
        → RisesAbove members.old.tables.layout.base_epoch (commit_epochs commits) → KnowsEpochs (commit_epochs commits) (chief_of members.old.chief) → IsLostRefused members.old.tables.layout members.old.voters.items s commits file (files file) at }
    ensures kept { (file at : ℕ) (files : Files) (c : Contents) → H.reads host.old ≡ Some files → Holds files c → AreKnown c members.old.tables.layout procs.now (commit_epochs c.commits) base.now
        → KnowsCommitted c (chief_of members.old.chief) → result ≢ Err (fault.NotAStore file at) }
    ensures read { IsOnlyRead H.Host host.old host.new }
    ensures counts { Counts result (H.disk_faults host.old) (H.disk_faults host.new) }
{
    if !one_is_lost(members.voters.as_slice()) {
        return Ok(());
    }
    let epochs = members.chief.epochs(alloc)?;
    read_each(
        alloc,
        host,
        procs,
        epochs.as_slice(),
        base,
        members.voters.as_mut_slice(),
        &mut members.tables,
    )
}

// Whether a node has lost its tables.
fn one_is_lost(voters: &[Voter]) -> bool
    ensures { result ≡ list_any (λ voter. voter.is_lost) voters.now }
{
    voters.iter().any(|voter| voter.is_lost)
}

// Reads the file of each node that lost its tables.
fn read_each<H: Host>(
    alloc: Global,
    host: &mut H,
    procs: &Checked,
    epochs: &[u64],
    base: &[PackedRows],
    voters: &mut [Voter],
    tables: &mut NodeTables,
) -> Result<(), OpenFault>
    requires few { length voters.old ≤ 8 }
    requires nodes { length voters.old ≡ tables.old.layout.nodes }
    requires whole { AreWhole tables.old }
    requires marks { length tables.old.behind.items ≡ tables.old.layout.nodes }
    requires files { length tables.old.layout.node_files ≡ tables.old.layout.nodes }
    requires rises { RisesAbove tables.old.layout.base_epoch epochs.now }
    ensures none { OnOk result (NoneLost voters.new) }
    ensures reads { ReadsLost voters.old tables.old voters.new tables.new }
    ensures files { OnOk result ((files : Files) (c : Contents) → H.reads host.old ≡ Some files → IsGoodStore files c → AreKnown c tables.old.layout procs.now epochs.now base.now
        → AreOf c voters.old tables.old → AreOf c voters.new tables.new) }
    ensures stand { AllStand voters.old (H.reads host.old) (H.may_leave host.old) → AllStand voters.new (H.reads host.new) (H.may_leave host.new) }
    ensures here { (file at : ℕ) → result ≡ Err (fault.NotAStore file at) → IsLostFile tables.old.layout voters.old file }
    ensures refused { (file at : ℕ) (files : Files) (s : Setting) (commits : List CommitEntry) → result ≡ Err (fault.NotAStore file at) → H.reads host.old ≡ Some files → s.entry.layout ≡ tables.old.layout → s.tree ≡ procs.now
        → commit_epochs commits ≡ epochs.now → IsLostRefused tables.old.layout voters.old s commits file (files file) at }
    ensures kept { (file at : ℕ) (files : Files) (c : Contents) → H.reads host.old ≡ Some files → Holds files c → AreKnown c tables.old.layout procs.now epochs.now base.now
        → result ≢ Err (fault.NotAStore file at) }
    ensures read { IsOnlyRead H.Host host.old host.new }
    ensures counts { Counts result (H.disk_faults host.old) (H.disk_faults host.new) }
{
    for node in 0..voters.len() as u8 {
        let voter = &mut voters[node as usize];
        read_one(alloc, host, procs, epochs, base, voter, tables, node)?;
    }
    Ok(())
}

// Reads the file of a node, if it lost its tables.
fn read_one<H: Host>(
    alloc: Global,
    host: &mut H,
    procs: &Checked,
    epochs: &[u64],
    base: &[PackedRows],
    voter: &mut Voter,
    tables: &mut NodeTables,
    node: u8,
) -> Result<(), OpenFault>
    requires node { node < tables.old.layout.nodes }
    requires whole { AreWhole tables.old }
    requires marks { length tables.old.behind.items ≡ tables.old.layout.nodes }
    requires files { length tables.old.layout.node_files ≡ tables.old.layout.nodes }
    requires rises { RisesAbove tables.old.layout.base_epoch epochs.now }
    ensures one { ReadsOne node voter.old tables.old voter.new tables.new }
    ensures none { OnOk result (voter.new.is_lost ≡ false) }
    ensures files { OnOk result ((files : Files) (c : Contents) → H.reads host.old ≡ Some files → IsGoodStore files c → AreKnown c tables.old.layout procs.now epochs.now base.now
        → (voter.old.is_lost ≡ false → IsOf c node voter.old tables.old) → IsOf c node voter.new tables.new) }
    ensures stand { Stands voter.old.log (H.reads host.old) (H.may_leave host.old) → Stands voter.new.log (H.reads host.new) (H.may_leave host.new) }
    ensures here { (file at : ℕ) → result ≡ Err (fault.NotAStore file at) → (voter.old.is_lost ≡ true) × (file ≡ slice_index tables.old.layout.node_files node) }
    ensures refused { (file at : ℕ) (files : Files) (s : Setting) (commits : List CommitEntry) → result ≡ Err (fault.NotAStore file at) → H.reads host.old ≡ Some files → s.entry.layout ≡ tables.old.layout → s.tree ≡ procs.now
        → commit_epochs commits ≡ epochs.now → IsFirst (IsNodeRefused s commits node (files file)) at }
    ensures kept { (file at : ℕ) (files : Files) (c : Contents) → H.reads host.old ≡ Some files → Holds files c → AreKnown c tables.old.layout procs.now epochs.now base.now
        → result ≢ Err (fault.NotAStore file at) }
    ensures read { IsOnlyRead H.Host host.old host.new }
    ensures counts { Counts result (H.disk_faults host.old) (H.disk_faults host.new) }
{
    if !voter.is_lost {
        return Ok(());
    }
    read_anew(alloc, host, procs, epochs, base, voter, tables, node)
}

// Reads the file of a node, and puts its tables and its log in the place of those that are there.
fn read_anew<H: Host>(
    alloc: Global,
    host: &mut H,
    procs: &Checked,
    epochs: &[u64],
    base: &[PackedRows],
    voter: &mut Voter,
    tables: &mut NodeTables,
    node: u8,
) -> Result<(), OpenFault>
    requires node { node < tables.old.layout.nodes }
    requires whole { AreWhole tables.old }
    requires marks { length tables.old.behind.items ≡ tables.old.layout.nodes }
    requires files { length tables.old.layout.node_files ≡ tables.old.layout.nodes }
    requires rises { RisesAbove tables.old.layout.base_epoch epochs.now }
    ensures anew { OnOk result (ReadsAnew node voter.old tables.old voter.new tables.new) }
    ensures err { OnErr result ((voter.new ≡ voter.old) × (tables.new ≡ tables.old)) }
    ensures files { OnOk result ((files : Files) (c : Contents) → H.reads host.old ≡ Some files → IsGoodStore files c → AreKnown c tables.old.layout procs.now epochs.now base.now
        → IsOf c node voter.new tables.new) }
    ensures stand { OnOk result (Stands voter.new.log (H.reads host.new) (H.may_leave host.new)) }
    ensures here { (file at : ℕ) → result ≡ Err (fault.NotAStore file at) → file ≡ slice_index tables.old.layout.node_files node }
    ensures refused { (file at : ℕ) (files : Files) (s : Setting) (commits : List CommitEntry) → result ≡ Err (fault.NotAStore file at) → H.reads host.old ≡ Some files → s.entry.layout ≡ tables.old.layout → s.tree ≡ procs.now
        → commit_epochs commits ≡ epochs.now → IsFirst (IsNodeRefused s commits node (files file)) at }
    ensures kept { (file at : ℕ) (files : Files) (c : Contents) → H.reads host.old ≡ Some files → Holds files c → AreKnown c tables.old.layout procs.now epochs.now base.now
        → result ≢ Err (fault.NotAStore file at) }
    ensures read { IsOnlyRead H.Host host.old host.new }
    ensures counts { Counts result (H.disk_faults host.old) (H.disk_faults host.new) }
{
    let (from, log) = read_node(alloc, host, &tables.layout, procs, epochs, base, node)?;
    put_tables(tables, node, from);
    voter.log = log;
    voter.is_lost = false;
    Ok(())
}

// Puts tables that were read in the place of a node's, which isn't behind any more.
fn put_tables(tables: &mut NodeTables, node: u8, from: Tables)
    requires whole { AreWhole tables.old }
    requires node { node < length tables.old.behind.items }
    requires from { AreCounted tables.old.layout from.shards.items from.copies.items }
    ensures layout { tables.new.layout ≡ tables.old.layout }
    ensures whole { AreWhole tables.new }
    ensures taken { NodeIsFrom tables.old.layout node from.shards.items from.copies.items tables.new.shards.items tables.new.copies.items }
    ensures others { OthersStay tables.old.layout node tables.old.shards.items tables.old.copies.items tables.new.shards.items tables.new.copies.items }
    ensures behind { tables.new.behind.items ≡ slice_set tables.old.behind.items node false }
{
    take_tables(
        &tables.layout,
        node,
        from,
        tables.shards.as_mut_slice(),
        tables.copies.as_mut_slice(),
    );
    tables.behind[node as usize] = false;
}
