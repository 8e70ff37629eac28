//! The rows of a map in a draft of a base file, by key, so many to an entry as may be.

ghost use Rattle.std.specs.Prelude.{◌≡◌, ℕ, ◌<◌, None, List, [], ◌∷◌, ◌++◌, length, OnOk};
ghost use Rattle.std.specs.FinMap.{entries};
ghost use Rattle.coco_types.specs.RowKey.{RowKey};
ghost use Rattle.coco_types.specs.declared.value.Value.{Value};
ghost use Rattle.coco_load.specs.RowMaps.{lent_map};
ghost use Rattle.coco_bytes.specs.Lists.{FitInTurn};
ghost use Rattle.coco_entry.specs.Bases.{AreItems, BaseRowRises};
ghost use Rattle.coco_entry.specs.declared.base.TheConstants.{MOST_ITEMS};
ghost use Rattle.coco_log.specs.Changes.{ChangesOnly};
ghost use Rattle.coco_log.specs.Drafts.{Drafts};
ghost use Rattle.coco_log.specs.Faults.{CountsFault};
ghost use Rattle.coco_store.specs.Entries.{IsBaseEntry, Values, base_bytes};
ghost use Rattle.coco_ckpt.specs.Writing.{HasAdded, HasPut};

use crate::base::add_entry;
use coco_entry::{MOST_ITEMS, put_base_rows};
use coco_host::Host;
use coco_load::LentMap;
use coco_log::{Draft, LogFault};
use coco_types::{Key, Value};
use std::alloc::Global;

// The most rows of an entry.
const MOST: usize = MOST_ITEMS as usize;

/// Adds the rows of a map to a draft. The entries' bodies are made in a buffer that is used again.
pub fn write_rows<H: Host>(
    alloc: Global,
    host: &mut H,
    draft: &mut Draft,
    body: &mut Vec<u8>,
    rows: &LentMap<'_>,
) -> Result<(), LogFault>
    requires drafts { (bodies : List (List ℕ)) × Drafts draft.old bodies (H.reads host.old) }
    ensures rows { OnOk result ((bodies : List (List ℕ)) → Drafts draft.old bodies (H.reads host.old) → HasAdded Values (entries (lent_map rows.now)) bodies draft.new (H.reads host.new)) }
    ensures of { OnOk result ((draft.new.file ≡ draft.old.file) × (draft.new.kind ≡ draft.old.kind)) }
    ensures changes { ChangesOnly H.Host (draft.old.file ∷ []) host.old host.new }
    ensures counts { CountsFault result (H.disk_faults host.old) (H.disk_faults host.new) }
{
    let mut batch = Vec::new(alloc);
    for (key, value) in rows {
        put_row(host, draft, body, &mut batch, (*key, **value))?;
    }
    end_rows(host, draft, body, batch.as_slice())
}

// Puts a row to those of the next entry, and adds that once it is full.
fn put_row<H: Host>(
    host: &mut H,
    draft: &mut Draft,
    body: &mut Vec<u8>,
    batch: &mut Vec<(Key, Value)>,
    row: (Key, Value),
) -> Result<(), LogFault>
    requires few { length batch.old.items < MOST_ITEMS }
    requires rise { FitInTurn BaseRowRises None (batch.old.items ++ row ∷ []) }
    requires drafts { (bodies : List (List ℕ)) × Drafts draft.old bodies (H.reads host.old) }
    ensures few { OnOk result (length batch.new.items < MOST_ITEMS) }
    ensures put { OnOk result ((items rest : List (RowKey × Value)) (bodies : List (List ℕ)) → HasPut Values items (batch.old.items ++ row ∷ rest) bodies draft.old (H.reads host.old)
        → HasPut Values items (batch.new.items ++ rest) bodies draft.new (H.reads host.new)) }
    ensures of { OnOk result ((draft.new.file ≡ draft.old.file) × (draft.new.kind ≡ draft.old.kind)) }
    ensures changes { ChangesOnly H.Host (draft.old.file ∷ []) host.old host.new }
    ensures counts { CountsFault result (H.disk_faults host.old) (H.disk_faults host.new) }
{
    batch.push(row)?;
    if batch.len() < MOST {
        return Ok(());
    }
    add_rows(host, draft, body, batch.as_slice())?;
    batch.clear();
    Ok(())
}

// Adds the last entry, if there are rows for one.
fn end_rows<H: Host>(
    host: &mut H,
    draft: &mut Draft,
    body: &mut Vec<u8>,
    rows: &[(Key, Value)],
) -> Result<(), LogFault>
    requires few { length rows.now < MOST_ITEMS }
    requires rise { FitInTurn BaseRowRises None rows.now }
    requires drafts { (bodies : List (List ℕ)) × Drafts draft.old bodies (H.reads host.old) }
    ensures added { OnOk result ((items : List (RowKey × Value)) (bodies : List (List ℕ)) → HasPut Values items rows.now bodies draft.old (H.reads host.old) → HasAdded Values items bodies draft.new (H.reads host.new)) }
    ensures of { OnOk result ((draft.new.file ≡ draft.old.file) × (draft.new.kind ≡ draft.old.kind)) }
    ensures changes { ChangesOnly H.Host (draft.old.file ∷ []) host.old host.new }
    ensures counts { CountsFault result (H.disk_faults host.old) (H.disk_faults host.new) }
{
    if rows.is_empty() {
        return Ok(());
    }
    add_rows(host, draft, body, rows)
}

// Adds an entry of these rows.
fn add_rows<H: Host>(
    host: &mut H,
    draft: &mut Draft,
    body: &mut Vec<u8>,
    rows: &[(Key, Value)],
) -> Result<(), LogFault>
    requires count { AreItems (length rows.now) }
    requires rise { FitInTurn BaseRowRises None rows.now }
    requires drafts { (bodies : List (List ℕ)) × Drafts draft.old bodies (H.reads host.old) }
    ensures drafts { OnOk result ((bodies : List (List ℕ)) → Drafts draft.old bodies (H.reads host.old) → Drafts draft.new (bodies ++ base_bytes (Values rows.now) ∷ []) (H.reads host.new)) }
    ensures is { OnOk result (IsBaseEntry (Values rows.now)) }
    ensures of { OnOk result ((draft.new.file ≡ draft.old.file) × (draft.new.kind ≡ draft.old.kind)) }
    ensures changes { ChangesOnly H.Host (draft.old.file ∷ []) host.old host.new }
    ensures counts { CountsFault result (H.disk_faults host.old) (H.disk_faults host.new) }
{
    body.clear();
    put_base_rows(body, rows)?;
    add_entry(host, draft, body.as_slice())
}
