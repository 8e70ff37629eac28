//! Bytes that are written and synced, and the two steps of an append.
ghost use Rattle.std.specs.Prelude.{◌≡◌, ◌≢◌, ℕ, ◌+◌, ◌<◌, ◌≤◌, List, Some, [], ◌∷◌, ◌++◌, length, IfSome, OnOk};
ghost use Rattle.coco_types.specs.Limits.{files_end};
ghost use Rattle.coco_host.specs.Files.{Files, Become, Follows, IsDurable, TornIn, put_into};
ghost use Rattle.coco_host.specs.Moments.{SeesOnly};
ghost use Rattle.coco_log.specs.Faults.{CountsFault};
ghost use Rattle.coco_log.specs.Grammar.{IsPiece};
ghost use Rattle.coco_log.specs.LogState.{IsReady, IsBeforeOrAfter, ChangesOne, SameBut, IsWritten};
ghost use Rattle.coco_log.specs.Making.{TearsOne};

use crate::LogFault;
use coco_host::Host;

/// Writes bytes at a place of a file, and syncs it.
pub fn write_and_sync<H: Host>(
    host: &mut H,
    file: u32,
    at: u64,
    bytes: &[u8],
) -> Result<(), LogFault>
    requires { IfSome (H.reads host.old) (λ files. at ≤ length (files file)) }
    ensures moments { SeesOnly H.moment H.observed host.old host.new (TearsOne file at (length bytes.now) (H.may_leave host.old) (H.said host.old)) }
    ensures written { OnOk result (Become (λ old new. new ≡ put_into file at bytes.now old) (H.reads host.old) (H.reads host.new)) }
    ensures durable { OnOk result (IsDurable file (H.reads host.new) (H.may_leave host.new)) }
    ensures files { Become (SameBut file) (H.reads host.old) (H.reads host.new) }
    ensures crash { Follows (TornIn file at (length bytes.now)) (H.may_leave host.old) (H.may_leave host.new) }
    ensures said { H.said host.new ≡ H.said host.old }
    ensures small { OnOk result (at + length bytes.now < files_end) }
    ensures counts { CountsFault result (H.disk_faults host.old) (H.disk_faults host.new) }
    ensures others { H.say_faults host.new ≡ H.say_faults host.old }
{
    host.write_at(file, at, bytes)?;
    host.sync(file)?;
    Ok(())
}

/// Writes what belongs behind a closed gate, syncs it, and then opens the gate.
pub fn write_entry<H: Host>(
    host: &mut H,
    file: u32,
    gate: u64,
    piece: &[u8],
) -> Result<(), LogFault>
    requires small { gate < files_end }
    requires room { IfSome (H.reads host.old) (λ files. gate + 1 ≤ length (files file)) }
    ensures moments { (files : Files) (kind : ℕ) (bodies : List (List ℕ)) (body : List ℕ) → H.reads host.old ≡ Some files → IsReady file kind gate bodies files (H.may_leave host.old) → IsPiece body piece.now
        → SeesOnly H.moment H.observed host.old host.new (ChangesOne file (IsBeforeOrAfter kind bodies body) (H.may_leave host.old) (H.said host.old)) }
    ensures ok { OnOk result ((files : Files) (kind : ℕ) (bodies : List (List ℕ)) (body : List ℕ) → H.reads host.old ≡ Some files → IsReady file kind gate bodies files (H.may_leave host.old) → IsPiece body piece.now
        → IsWritten file kind gate bodies body files (H.reads host.new) (H.may_leave host.new)) }
    ensures files { Become (SameBut file) (H.reads host.old) (H.reads host.new) }
    ensures crash { Follows (SameBut file) (H.may_leave host.old) (H.may_leave host.new) }
    ensures said { H.said host.new ≡ H.said host.old }
    ensures small { OnOk result (gate + 1 + length piece.now < files_end) }
    ensures counts { CountsFault result (H.disk_faults host.old) (H.disk_faults host.new) }
    ensures others { H.say_faults host.new ≡ H.say_faults host.old }
{
    write_and_sync(host, file, gate + 1, piece)?;
    write_and_sync(host, file, gate, &[1])?;
    Ok(())
}
