//! The entries that a store gains while it runs, one append each.

ghost use Rattle.std.specs.Prelude.{◌≡◌, ◌≢◌, ◌⊎◌, None, ℕ, ◌<◌, ◌^◌, true, false, length, OnOk, OnErr};
ghost use Rattle.coco_host.specs.Files.{Become, Follows};
ghost use Rattle.coco_entry.specs.Commits.{AreOf, commit_bytes, IsCommit};
ghost use Rattle.coco_entry.specs.Rows.{RowRises, prepared_bytes, IsPrepared};
ghost use Rattle.coco_entry.specs.declared.commit.Commit.{Commit};
ghost use Rattle.coco_entry.specs.declared.prepared.Prepared.{Prepared};
ghost use Rattle.coco_bytes.specs.Lists.{FitInTurn};
ghost use Rattle.coco_log.specs.LogState.{LogState, SameBut, with_entry};
ghost use Rattle.coco_store.specs.Contents.{Contents};
ghost use Rattle.coco_store.specs.Laws.{MayCommit, MayPrepare, with_commit, with_prepared};
ghost use Rattle.coco_append.specs.Adding.{CountsAdd, RefusesLong};
ghost use Rattle.coco_append.specs.Gaining.{Gains, Grows, IsChiefLog, IsNodeLog, RestsOn, Stands};

use crate::AddFault;
use coco_entry::{Row, put_commit, put_prepared};
use coco_host::Host;
use coco_log::{Log, MOST_ENTRY_BYTES};
use coco_types::Done;

// The greatest length of an entry's body.
const MOST: usize = MOST_ENTRY_BYTES as usize;

/// Adds a prepared entry to a node's log. At each moment all that a crash may leave is a good store with the same
/// history. The body is made in a buffer that may be used again; one that is too long for an entry is refused.
pub fn add_prepared<H: Host>(
    host: &mut H,
    log: &mut Log,
    epoch: u64,
    rows: &[Row],
    body: &mut Vec<u8>,
) -> Result<(), AddFault>
    requires unspent { log.old.spent ≡ false }
    requires stands { Stands log.old (H.reads host.old) (H.may_leave host.old) }
    requires count { length rows.now < 2 ^ 32 }
    requires rise { FitInTurn RowRises None rows.now }
    ensures gains { (c : Contents) (n : ℕ) → let entry : Prepared = record { epoch = epoch; rows = rows.now } in
        RestsOn c (H.reads host.old) (H.may_leave host.old) → IsNodeLog c n log.old → (IsPrepared entry → MayPrepare c n entry)
        → Gains H.Host result c (with_prepared n entry c) host.old host.new }
    ensures long { RefusesLong result (length (prepared_bytes (record { epoch = epoch; rows = rows.now }))) ((host.new ≡ host.old) × (log.new ≡ log.old)) }
    ensures log { OnOk result (log.new ≡ with_entry log.old (prepared_bytes (record { epoch = epoch; rows = rows.now }))) }
    ensures stands { OnOk result (Stands log.new (H.reads host.new) (H.may_leave host.new)) }
    ensures err { OnErr result (((host.new ≡ host.old) × (log.new ≡ log.old)) ⊎ (log.new ≡ record log.old { spent = true })) }
    ensures others { (other : LogState) → other.file ≢ log.old.file → Stands other (H.reads host.old) (H.may_leave host.old) → Stands other (H.reads host.new) (H.may_leave host.new) }
    ensures files { Become (SameBut log.old.file) (H.reads host.old) (H.reads host.new) }
    ensures crash { Follows (SameBut log.old.file) (H.may_leave host.old) (H.may_leave host.new) }
    ensures said { H.said host.new ≡ H.said host.old }
    ensures counts { CountsAdd result (H.disk_faults host.old) (H.disk_faults host.new) }
    ensures stream { H.say_faults host.new ≡ H.say_faults host.old }
{
    body.clear();
    put_prepared(body, epoch, rows)?;
    add(host, log, body.as_slice())
}

/// Adds a commit entry to the coordinator's log. At each moment all that a crash may leave is a good store with the
/// old history, or with the epoch behind it. The body is made as in `add_prepared`.
pub fn add_commit<H: Host>(
    host: &mut H,
    log: &mut Log,
    epoch: u64,
    dones: &[Done],
    body: &mut Vec<u8>,
) -> Result<(), AddFault>
    requires unspent { log.old.spent ≡ false }
    requires stands { Stands log.old (H.reads host.old) (H.may_leave host.old) }
    requires count { length dones.now < 2 ^ 32 }
    requires epochs { AreOf epoch dones.now }
    ensures gains { (c : Contents) → let commit : Commit = record { epoch = epoch; dones = dones.now } in
        RestsOn c (H.reads host.old) (H.may_leave host.old) → IsChiefLog c log.old → (IsCommit commit → MayCommit c commit)
        → Gains H.Host result c (with_commit commit c) host.old host.new }
    ensures long { RefusesLong result (length (commit_bytes (record { epoch = epoch; dones = dones.now }))) ((host.new ≡ host.old) × (log.new ≡ log.old)) }
    ensures log { OnOk result (log.new ≡ with_entry log.old (commit_bytes (record { epoch = epoch; dones = dones.now }))) }
    ensures stands { OnOk result (Stands log.new (H.reads host.new) (H.may_leave host.new)) }
    ensures err { OnErr result (((host.new ≡ host.old) × (log.new ≡ log.old)) ⊎ (log.new ≡ record log.old { spent = true })) }
    ensures others { (other : LogState) → other.file ≢ log.old.file → Stands other (H.reads host.old) (H.may_leave host.old) → Stands other (H.reads host.new) (H.may_leave host.new) }
    ensures files { Become (SameBut log.old.file) (H.reads host.old) (H.reads host.new) }
    ensures crash { Follows (SameBut log.old.file) (H.may_leave host.old) (H.may_leave host.new) }
    ensures said { H.said host.new ≡ H.said host.old }
    ensures counts { CountsAdd result (H.disk_faults host.old) (H.disk_faults host.new) }
    ensures stream { H.say_faults host.new ≡ H.say_faults host.old }
{
    body.clear();
    put_commit(body, epoch, dones)?;
    add(host, log, body.as_slice())
}

// Adds an entry of this body, unless it is too long for one.
fn add<H: Host>(host: &mut H, log: &mut Log, body: &[u8]) -> Result<(), AddFault>
    requires unspent { log.old.spent ≡ false }
    requires stands { Stands log.old (H.reads host.old) (H.may_leave host.old) }
    ensures gains { (c d : Contents) → RestsOn c (H.reads host.old) (H.may_leave host.old) → Grows c d log.old.file log.old.kind body.now
        → Gains H.Host result c d host.old host.new }
    ensures long { RefusesLong result (length body.now) ((host.new ≡ host.old) × (log.new ≡ log.old)) }
    ensures log { OnOk result (log.new ≡ with_entry log.old body.now) }
    ensures stands { OnOk result (Stands log.new (H.reads host.new) (H.may_leave host.new)) }
    ensures err { OnErr result (((host.new ≡ host.old) × (log.new ≡ log.old)) ⊎ (log.new ≡ record log.old { spent = true })) }
    ensures others { (other : LogState) → other.file ≢ log.old.file → Stands other (H.reads host.old) (H.may_leave host.old) → Stands other (H.reads host.new) (H.may_leave host.new) }
    ensures files { Become (SameBut log.old.file) (H.reads host.old) (H.reads host.new) }
    ensures crash { Follows (SameBut log.old.file) (H.may_leave host.old) (H.may_leave host.new) }
    ensures said { H.said host.new ≡ H.said host.old }
    ensures counts { CountsAdd result (H.disk_faults host.old) (H.disk_faults host.new) }
    ensures stream { H.say_faults host.new ≡ H.say_faults host.old }
{
    if body.len() > MOST {
        return Err(AddFault::TooLong);
    }
    Ok(log.append(host, body)?)
}
