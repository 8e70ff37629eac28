//! The base file of a compacted store, written as one draft: its head, then Dones, then rows.

ghost use Rattle.std.specs.Prelude.{◌≡◌, ℕ, List, [], ◌∷◌, ◌++◌, OnOk};
ghost use Rattle.std.specs.FinMap.{entries};
ghost use Rattle.coco_ast.specs.History.{IsRising};
ghost use Rattle.coco_load.specs.RowMaps.{lent_map};
ghost use Rattle.coco_log.specs.Changes.{ChangesOnly};
ghost use Rattle.coco_log.specs.Drafts.{Drafts};
ghost use Rattle.coco_log.specs.Faults.{CountsFault};
ghost use Rattle.coco_store.specs.Entries.{Head, IsBaseEntry, base_bytes};
ghost use Rattle.coco_ckpt.specs.Writing.{DraftsBase, HasBase, HasItems};

use crate::dones::write_dones;
use crate::rows::write_rows;
use coco_entry::{BaseHead, put_head};
use coco_host::Host;
use coco_kept::Kept;
use coco_load::LentMap;
use coco_log::{Draft, LogFault, MOST_ENTRY_BYTES};
use coco_store::kinds::BASE;
use std::alloc::Global;

// The greatest length of an entry's body.
const MOST_BYTES: usize = MOST_ENTRY_BYTES as usize;

/// Writes the base of this epoch with these kept Dones and these rows into a file, with one sync.
pub fn write_base<H: Host>(
    alloc: Global,
    host: &mut H,
    file: u32,
    epoch: u64,
    kept: &Kept,
    rows: &LentMap<'_>,
) -> Result<(), LogFault>
    requires { IsRising kept.now.dones }
    ensures base { OnOk result (HasBase epoch kept.now.floor kept.now.dones (entries (lent_map rows.now)) file (H.reads host.new) (H.may_leave host.new)) }
    ensures changes { ChangesOnly H.Host (file ∷ []) host.old host.new }
    ensures counts { CountsFault result (H.disk_faults host.old) (H.disk_faults host.new) }
{
    let mut draft = Draft::make(alloc, file, BASE)?;
    fill(alloc, host, &mut draft, epoch, kept, rows)?;
    draft.finish(host)
}

// Adds all entries of the base to a draft that has none.
fn fill<H: Host>(
    alloc: Global,
    host: &mut H,
    draft: &mut Draft,
    epoch: u64,
    kept: &Kept,
    rows: &LentMap<'_>,
) -> Result<(), LogFault>
    requires rising { IsRising kept.now.dones }
    requires drafts { Drafts draft.old [] (H.reads host.old) }
    ensures drafts { OnOk result (DraftsBase epoch kept.now.floor kept.now.dones (entries (lent_map rows.now)) draft.new (H.reads host.new)) }
    ensures of { OnOk result ((draft.new.file ≡ draft.old.file) × (draft.new.kind ≡ draft.old.kind)) }
    ensures changes { ChangesOnly H.Host (draft.old.file ∷ []) host.old host.new }
    ensures counts { CountsFault result (H.disk_faults host.old) (H.disk_faults host.new) }
{
    let head = BaseHead {
        epoch,
        floor: kept.floor(),
        dones: kept.len(),
        rows: rows.len() as u64,
    };
    add_head(alloc, host, draft, &head)?;
    add_items(alloc, host, draft, kept, rows)
}

// Adds the entry that comes first.
fn add_head<H: Host>(
    alloc: Global,
    host: &mut H,
    draft: &mut Draft,
    head: &BaseHead,
) -> Result<(), LogFault>
    requires { (bodies : List (List ℕ)) × Drafts draft.old bodies (H.reads host.old) }
    ensures drafts { OnOk result ((bodies : List (List ℕ)) → Drafts draft.old bodies (H.reads host.old) → Drafts draft.new (bodies ++ base_bytes (Head head.now) ∷ []) (H.reads host.new)) }
    ensures is { OnOk result (IsBaseEntry (Head head.now)) }
    ensures of { OnOk result ((draft.new.file ≡ draft.old.file) × (draft.new.kind ≡ draft.old.kind)) }
    ensures changes { ChangesOnly H.Host (draft.old.file ∷ []) host.old host.new }
    ensures counts { CountsFault result (H.disk_faults host.old) (H.disk_faults host.new) }
{
    let mut body = Vec::new(alloc);
    put_head(&mut body, head)?;
    add_entry(host, draft, body.as_slice())
}

// Adds the entries of the Dones, and then those of the rows.
fn add_items<H: Host>(
    alloc: Global,
    host: &mut H,
    draft: &mut Draft,
    kept: &Kept,
    rows: &LentMap<'_>,
) -> Result<(), LogFault>
    requires rising { IsRising kept.now.dones }
    requires drafts { (bodies : List (List ℕ)) × Drafts draft.old bodies (H.reads host.old) }
    ensures items { OnOk result ((bodies : List (List ℕ)) → Drafts draft.old bodies (H.reads host.old) → HasItems kept.now.dones (entries (lent_map rows.now)) bodies draft.new (H.reads host.new)) }
    ensures of { OnOk result ((draft.new.file ≡ draft.old.file) × (draft.new.kind ≡ draft.old.kind)) }
    ensures changes { ChangesOnly H.Host (draft.old.file ∷ []) host.old host.new }
    ensures counts { CountsFault result (H.disk_faults host.old) (H.disk_faults host.new) }
{
    let mut body = Vec::new(alloc);
    write_dones(alloc, host, draft, &mut body, kept)?;
    write_rows(alloc, host, draft, &mut body, rows)
}

/// Adds an entry of this body to a draft. One that is too long is want of memory.
pub fn add_entry<H: Host>(host: &mut H, draft: &mut Draft, body: &[u8]) -> Result<(), LogFault>
    requires { (bodies : List (List ℕ)) × Drafts draft.old bodies (H.reads host.old) }
    ensures drafts { OnOk result ((bodies : List (List ℕ)) → Drafts draft.old bodies (H.reads host.old) → Drafts draft.new (bodies ++ body.now ∷ []) (H.reads host.new)) }
    ensures of { OnOk result ((draft.new.file ≡ draft.old.file) × (draft.new.kind ≡ draft.old.kind)) }
    ensures changes { ChangesOnly H.Host (draft.old.file ∷ []) host.old host.new }
    ensures counts { CountsFault result (H.disk_faults host.old) (H.disk_faults host.new) }
{
    if body.len() > MOST_BYTES {
        return Err(LogFault::NoMemory);
    }
    draft.add(host, body)
}
