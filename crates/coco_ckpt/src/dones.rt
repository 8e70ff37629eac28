//! The kept Dones in a draft of a base file, so many to an entry as may be.

ghost use Rattle.std.specs.Prelude.{◌≡◌, ℕ, ◌<◌, None, List, [], ◌∷◌, ◌++◌, length, OnOk};
ghost use Rattle.coco_types.specs.declared.call.Done.{Done};
ghost use Rattle.coco_ast.specs.History.{IsRising};
ghost use Rattle.coco_bytes.specs.Lists.{FitInTurn};
ghost use Rattle.coco_entry.specs.Bases.{AreItems, DoneRises};
ghost use Rattle.coco_entry.specs.declared.base.TheConstants.{MOST_ITEMS};
ghost use Rattle.coco_log.specs.Changes.{ChangesOnly};
ghost use Rattle.coco_log.specs.Drafts.{Drafts};
ghost use Rattle.coco_log.specs.Faults.{CountsFault};
ghost use Rattle.coco_store.specs.Entries.{Dones, IsBaseEntry, base_bytes};
ghost use Rattle.coco_ckpt.specs.Writing.{HasAdded, HasPut};

use crate::base::add_entry;
use coco_entry::{MOST_ITEMS, put_base_dones};
use coco_host::Host;
use coco_kept::Kept;
use coco_log::{Draft, LogFault};
use coco_types::Done;
use std::alloc::Global;

// The most Dones of an entry.
const MOST: usize = MOST_ITEMS as usize;

/// Adds the kept Dones to a draft. The entries' bodies are made in a buffer that is used again.
pub fn write_dones<H: Host>(
    alloc: Global,
    host: &mut H,
    draft: &mut Draft,
    body: &mut Vec<u8>,
    kept: &Kept,
) -> Result<(), LogFault>
    requires rising { IsRising kept.now.dones }
    requires drafts { (bodies : List (List ℕ)) × Drafts draft.old bodies (H.reads host.old) }
    ensures dones { OnOk result ((bodies : List (List ℕ)) → Drafts draft.old bodies (H.reads host.old) → HasAdded Dones kept.now.dones bodies draft.new (H.reads host.new)) }
    ensures of { OnOk result ((draft.new.file ≡ draft.old.file) × (draft.new.kind ≡ draft.old.kind)) }
    ensures changes { ChangesOnly H.Host (draft.old.file ∷ []) host.old host.new }
    ensures counts { CountsFault result (H.disk_faults host.old) (H.disk_faults host.new) }
{
    let mut batch = Vec::new(alloc);
    for done in kept.iter() {
        put_done(host, draft, body, &mut batch, done)?;
    }
    end_dones(host, draft, body, batch.as_slice())
}

// Puts a Done to those of the next entry, and adds that once it is full.
fn put_done<H: Host>(
    host: &mut H,
    draft: &mut Draft,
    body: &mut Vec<u8>,
    batch: &mut Vec<Done>,
    done: &Done,
) -> Result<(), LogFault>
    requires few { length batch.old.items < MOST_ITEMS }
    requires rise { FitInTurn DoneRises None (batch.old.items ++ done.now ∷ []) }
    requires drafts { (bodies : List (List ℕ)) × Drafts draft.old bodies (H.reads host.old) }
    ensures few { OnOk result (length batch.new.items < MOST_ITEMS) }
    ensures put { OnOk result ((items rest : List Done) (bodies : List (List ℕ)) → HasPut Dones items (batch.old.items ++ done.now ∷ rest) bodies draft.old (H.reads host.old)
        → HasPut Dones items (batch.new.items ++ rest) bodies draft.new (H.reads host.new)) }
    ensures of { OnOk result ((draft.new.file ≡ draft.old.file) × (draft.new.kind ≡ draft.old.kind)) }
    ensures changes { ChangesOnly H.Host (draft.old.file ∷ []) host.old host.new }
    ensures counts { CountsFault result (H.disk_faults host.old) (H.disk_faults host.new) }
{
    batch.push(done.try_clone()?)?;
    if batch.len() < MOST {
        return Ok(());
    }
    add_dones(host, draft, body, batch.as_slice())?;
    batch.clear();
    Ok(())
}

// Adds the last entry, if there are Dones for one.
fn end_dones<H: Host>(
    host: &mut H,
    draft: &mut Draft,
    body: &mut Vec<u8>,
    dones: &[Done],
) -> Result<(), LogFault>
    requires few { length dones.now < MOST_ITEMS }
    requires rise { FitInTurn DoneRises None dones.now }
    requires drafts { (bodies : List (List ℕ)) × Drafts draft.old bodies (H.reads host.old) }
    ensures added { OnOk result ((items : List Done) (bodies : List (List ℕ)) → HasPut Dones items dones.now bodies draft.old (H.reads host.old) → HasAdded Dones items bodies draft.new (H.reads host.new)) }
    ensures of { OnOk result ((draft.new.file ≡ draft.old.file) × (draft.new.kind ≡ draft.old.kind)) }
    ensures changes { ChangesOnly H.Host (draft.old.file ∷ []) host.old host.new }
    ensures counts { CountsFault result (H.disk_faults host.old) (H.disk_faults host.new) }
{
    if dones.is_empty() {
        return Ok(());
    }
    add_dones(host, draft, body, dones)
}

// Adds an entry of these Dones.
fn add_dones<H: Host>(
    host: &mut H,
    draft: &mut Draft,
    body: &mut Vec<u8>,
    dones: &[Done],
) -> Result<(), LogFault>
    requires count { AreItems (length dones.now) }
    requires rise { FitInTurn DoneRises None dones.now }
    requires drafts { (bodies : List (List ℕ)) × Drafts draft.old bodies (H.reads host.old) }
    ensures drafts { OnOk result ((bodies : List (List ℕ)) → Drafts draft.old bodies (H.reads host.old) → Drafts draft.new (bodies ++ base_bytes (Dones dones.now) ∷ []) (H.reads host.new)) }
    ensures is { OnOk result (IsBaseEntry (Dones dones.now)) }
    ensures of { OnOk result ((draft.new.file ≡ draft.old.file) × (draft.new.kind ≡ draft.old.kind)) }
    ensures changes { ChangesOnly H.Host (draft.old.file ∷ []) host.old host.new }
    ensures counts { CountsFault result (H.disk_faults host.old) (H.disk_faults host.new) }
{
    body.clear();
    put_base_dones(body, dones)?;
    add_entry(host, draft, body.as_slice())
}
