//! The file of a lost node, written as one draft out of those of others.

ghost use Rattle.std.specs.Prelude.{◌≡◌, ℕ, ◌<◌, false, true, nat_eq, List, [], ◌∷◌, ◌++◌, Some, Err, length, OnOk};
ghost use Rattle.std.specs.Set.{is_member};
ghost use Rattle.coco_ast.specs.History.{RisesAbove};
ghost use Rattle.coco_entry.specs.Layouts.{is_named};
ghost use Rattle.coco_host.specs.Files.{Files};
ghost use Rattle.coco_log.specs.Changes.{ChangesOnly};
ghost use Rattle.coco_log.specs.Drafts.{Drafts};
ghost use Rattle.coco_read.specs.Faults.{Counts};
ghost use Rattle.coco_read.specs.declared.fault.OpenFault.TheVariants as fault;
ghost use Rattle.coco_store.specs.Contents.{Contents};
ghost use Rattle.coco_rebuild.specs.Rebuilding.{IsRebuilt};
ghost use Rattle.coco_rebuild.specs.Sources.{AreOthers, AreReadUpTo, AreSources, HasAdded, HasNode};

use crate::fault::answer_to;
use crate::merging::merged;
use crate::sources::Sources;
use coco_entry::{Layout, put_prepared};
use coco_host::Host;
use coco_log::{Draft, MOST_ENTRY_BYTES};
use coco_read::OpenFault;
use coco_store::kinds::PREPARED;
use std::alloc::Global;

// The greatest length of an entry's body.
const MOST_BYTES: usize = MOST_ENTRY_BYTES as usize;

// An entry has fewer rows.
const MOST_ROWS: usize = 4_294_967_296;

/// Writes the file of a lost node: for each of these epochs an entry, with the rows that the next holders of the node's
/// partitions have for it.
pub fn write_node<H: Host>(
    alloc: Global,
    host: &mut H,
    layout: &Layout,
    node: u8,
    epochs: &[u64],
    file: u32,
) -> Result<(), OpenFault>
    requires node { node < layout.now.nodes }
    requires around { layout.now.copies < layout.now.nodes }
    requires some { 0 < layout.now.partitions }
    requires count { length layout.now.node_files ≡ layout.now.nodes }
    requires apart { is_named layout.now.node_files file ≡ false }
    requires rise { RisesAbove layout.now.base_epoch epochs.now }
    ensures made { OnOk result ((files : Files) (c : Contents) → H.reads host.old ≡ Some files → AreOthers layout.now node epochs.now files c
        → HasNode node c file (H.reads host.new) (H.may_leave host.new)) }
    ensures kept { (other at : ℕ) (files : Files) (c : Contents) → H.reads host.old ≡ Some files → AreOthers layout.now node epochs.now files c
        → ¬ (result ≡ Err (fault.NotAStore other at)) }
    ensures changes { ChangesOnly H.Host (file ∷ []) host.old host.new }
    ensures counts { Counts result (H.disk_faults host.old) (H.disk_faults host.new) }
    ensures stream { H.say_faults host.new ≡ H.say_faults host.old }
{
    let mut sources = Sources::open(alloc, host, layout, node)?;
    let mut draft = Draft::make(alloc, file, PREPARED)?;
    let mut body = Vec::new(alloc);
    for epoch in epochs {
        add_epoch(
            alloc,
            host,
            layout,
            node,
            &mut sources,
            &mut draft,
            &mut body,
            *epoch,
        )?;
    }
    answer_to(draft.finish(host))
}

// Adds the node's entry of an epoch. Its body is made in a buffer that is used again.
fn add_epoch<H: Host>(
    alloc: Global,
    host: &mut H,
    layout: &Layout,
    node: u8,
    sources: &mut Sources,
    draft: &mut Draft,
    body: &mut Vec<u8>,
    epoch: u64,
) -> Result<(), OpenFault>
    requires node { node < layout.now.nodes }
    requires around { layout.now.copies < layout.now.nodes }
    requires some { 0 < layout.now.partitions }
    requires count { length layout.now.node_files ≡ layout.now.nodes }
    requires sources { AreSources layout.now node sources.old }
    requires apart { is_named layout.now.node_files draft.old.file ≡ false }
    requires drafts { (bodies : List (List ℕ)) × Drafts draft.old bodies (H.reads host.old) }
    ensures sources { AreSources layout.now node sources.new }
    ensures added { OnOk result ((bodies : List (List ℕ)) → Drafts draft.old bodies (H.reads host.old)
        → HasAdded layout.now node epoch bodies draft.new (H.reads host.new) (λ entry. (last : ℕ) (epochs : List ℕ) (files : Files) (c : Contents) → H.reads host.old ≡ Some files
        → AreOthers layout.now node epochs files c → AreReadUpTo layout.now node c sources.old last files → last < epoch → is_member nat_eq epochs epoch ≡ true
        → IsRebuilt node c entry × AreReadUpTo layout.now node c sources.new epoch files)) }
    ensures kept { (other at last : ℕ) (epochs : List ℕ) (files : Files) (c : Contents) → H.reads host.old ≡ Some files → AreOthers layout.now node epochs files c
        → AreReadUpTo layout.now node c sources.old last files → last < epoch → is_member nat_eq epochs epoch ≡ true → ¬ (result ≡ Err (fault.NotAStore other at)) }
    ensures of { OnOk result ((draft.new.file ≡ draft.old.file) × (draft.new.kind ≡ draft.old.kind)) }
    ensures changes { ChangesOnly H.Host (draft.old.file ∷ []) host.old host.new }
    ensures counts { Counts result (H.disk_faults host.old) (H.disk_faults host.new) }
    ensures stream { H.say_faults host.new ≡ H.say_faults host.old }
{
    let (rows, others) = sources.rows_at(alloc, host, layout, node, epoch)?;
    let rows = merged(alloc, rows, others)?;
    if rows.len() >= MOST_ROWS {
        return Err(OpenFault::NoMemory);
    }
    body.clear();
    put_prepared(body, epoch, rows.as_slice())?;
    add_entry(host, draft, body.as_slice())
}

// Adds an entry of this body to a draft. One that is too long is want of memory.
fn add_entry<H: Host>(host: &mut H, draft: &mut Draft, body: &[u8]) -> Result<(), OpenFault>
    requires { (bodies : List (List ℕ)) × Drafts draft.old bodies (H.reads host.old) }
    ensures drafts { OnOk result ((bodies : List (List ℕ)) → Drafts draft.old bodies (H.reads host.old) → Drafts draft.new (bodies ++ body.now ∷ []) (H.reads host.new)) }
    ensures kept { (other at : ℕ) → ¬ (result ≡ Err (fault.NotAStore other at)) }
    ensures of { OnOk result ((draft.new.file ≡ draft.old.file) × (draft.new.kind ≡ draft.old.kind)) }
    ensures changes { ChangesOnly H.Host (draft.old.file ∷ []) host.old host.new }
    ensures counts { Counts result (H.disk_faults host.old) (H.disk_faults host.new) }
    ensures stream { H.say_faults host.new ≡ H.say_faults host.old }
{
    if body.len() > MOST_BYTES {
        return Err(OpenFault::NoMemory);
    }
    answer_to(draft.add(host, body))
}
