//! A log that is open.
ghost use Rattle.std.specs.Prelude.{◌≡◌, ◌≢◌, ℕ, ◌+◌, ◌<◌, ◌≤◌, List, Some, false, true, [], ◌∷◌, ◌++◌, length, vec_len, vec_capacity, IfSome, IfOk, OnOk, OnErr, Err, slice_index, slice_index_or};
ghost use Rattle.coco_types.specs.Limits.{files_end};
ghost use Rattle.coco_host.specs.Files.{Files, Become, Follows};
ghost use Rattle.coco_host.specs.Moments.{SeesOnly};
ghost use Rattle.coco_log.specs.declared.fault.LogFault.TheVariants as fault;
ghost use Rattle.coco_log.specs.Faults.{CountsFault, CountsOpen, CountsRead};
ghost use Rattle.coco_log.specs.Grammar.{most_entry_bytes, counted, FitsNoLog};
ghost use Rattle.coco_log.specs.LogState.{without_entries, with_entry, gates, IsAtRest, IsBeforeOrAfter, ChangesOne, SameBut, IsAppended, IsMade, IsOnlyRead, IsFresh, IsOpened, Holds, HasEntry};
ghost use Rattle.coco_log.specs.Making.{MakesLog};

use crate::writing::{write_and_sync, write_entry};
use crate::{Entries, LogFault};
use coco_bytes::put_u32;
use coco_host::Host;
use coco_types::NoMemory;
use std::alloc::Global;
use std::marker::Model;

/// A log in a file of a host. It knows where its entries stand.
#[derive(Drop)]
pub struct Log {
    file: u32,
    kind: u8,
    places: Vec<u64>,
    end: u64,
    is_spent: bool,
    piece: Vec<u8>,
}

impl Model for Log {
    ghost use Rattle.std.specs.Prelude.{◌<◌};
    ghost use Rattle.coco_types.specs.Limits.{files_end};
    ghost use Rattle.coco_log.specs.LogState.{LogState};

    ghost Value = { LogState };

    ghost view = { λ l. record { file = l.file; kind = l.kind; places = l.places.items; end = l.end; spent = l.is_spent } };

    ghost invariant = { λ l. l.end < files_end };
}

impl Log {
    /// Makes a log without entries: its header and a closed gate, at the file's front. Old bytes may stand behind.
    pub fn make<H: Host>(alloc: Global, host: &mut H, file: u32, kind: u8) -> Result<Log, LogFault>
        ensures log { IfOk result (λ log. log ≡ without_entries file kind) }
        ensures ok { IfOk result (λ log. (files : Files) → H.reads host.old ≡ Some files → IsMade log file kind files (H.reads host.new) (H.may_leave host.new)) }
        ensures moments { SeesOnly H.moment H.observed host.old host.new (MakesLog file (H.may_leave host.old) (H.said host.old)) }
        ensures files { Become (SameBut file) (H.reads host.old) (H.reads host.new) }
        ensures crash { Follows (SameBut file) (H.may_leave host.old) (H.may_leave host.new) }
        ensures said { H.said host.new ≡ H.said host.old }
        ensures counts { CountsFault result (H.disk_faults host.old) (H.disk_faults host.new) }
        ensures others { H.say_faults host.new ≡ H.say_faults host.old }
    {
        write_and_sync(
            host,
            file,
            0,
            &[b'C', b'O', b'C', b'O', b'L', b'O', b'G', kind, 0],
        )?;
        Ok(Log {
            file,
            kind,
            places: Vec::new(alloc),
            end: 8,
            is_spent: false,
            piece: Vec::new(alloc),
        })
    }

    /// Opens the log of this kind in a file, which stays as it is. The file is synced first, so that a crash
    /// leaves what was read.
    pub fn reopen<H: Host>(
        alloc: Global,
        host: &mut H,
        file: u32,
        kind: u8,
    ) -> Result<Log, LogFault>
        ensures log { IfOk result (λ log. IsFresh log file kind) }
        ensures ok { IfOk result (λ log. (files : Files) → H.reads host.old ≡ Some files → IsOpened log files (H.may_leave host.new)) }
        ensures refused { (at : ℕ) (files : Files) → result ≡ Err (fault.NotALog at) → H.reads host.old ≡ Some files → FitsNoLog kind (files file) at }
        ensures long { (files : Files) → result ≡ Err fault.TooLong → H.reads host.old ≡ Some files → files_end ≤ length (files file) }
        ensures read { IsOnlyRead H.Host host.old host.new }
        ensures counts { CountsOpen result (H.disk_faults host.old) (H.disk_faults host.new) }
    {
        let mut entries = Entries::open(alloc, host, file, kind)?;
        while entries.next(host)? {}
        Ok(entries.into_log())
    }

    // A log whose entries were found at these places.
    pub(crate) fn found(file: u32, kind: u8, places: Vec<u64>, end: u64, piece: Vec<u8>) -> Log
        requires { end < files_end }
        ensures { result ≡ record { file = file; kind = kind; places = places.items; end = end; spent = false } }
    {
        Log {
            file,
            kind,
            places,
            end,
            is_spent: false,
            piece,
        }
    }

    /// The body of an entry, counted from 0. It is no log any more where the file ends within the entry.
    pub fn entry<H: Host>(
        &mut self,
        alloc: Global,
        host: &mut H,
        number: u64,
    ) -> Result<Vec<u8>, LogFault>
        requires { number < length self.old.places }
        ensures ok { IfOk result (λ body. (files : Files) (bodies : List (List ℕ)) → H.reads host.old ≡ Some files → Holds self.old bodies (files self.old.file)
            → body.items ≡ slice_index_or bodies number []) }
        ensures refused { (at : ℕ) → result ≡ Err (fault.NotALog at) → (at ≡ slice_index (gates self.old) number)
            × ((files : Files) (body : List ℕ) → H.reads host.old ≡ Some files → HasEntry self.old number body (files self.old.file) → ⊥) }
        ensures same { self.new ≡ self.old }
        ensures read { IsOnlyRead H.Host host.old host.new }
        ensures counts { CountsRead result (H.disk_faults host.old) (H.disk_faults host.new) }
    {
        let number = number as usize;
        let gate = self.gate(number);
        let next = self.gate(number + 1);
        let length = next.saturating_sub(gate).saturating_sub(5);
        let mut body = vec![in alloc; 0; length as usize]?;
        if host.read_at(self.file, next - length, &mut body)? < body.len() {
            return Err(LogFault::NotALog { at: gate });
        }
        Ok(body)
    }

    // The place of a gate, counted from 0: that of an entry, or the last one.
    fn gate(&self, number: usize) -> u64
        requires { number ≤ length self.now.places }
        ensures { result ≡ slice_index (gates self.now) number }
    {
        if number < self.places.len() {
            self.places[number]
        } else {
            self.end
        }
    }

    /// How many entries the log has.
    pub fn count(&self) -> u64
        ensures { result ≡ length self.now.places }
    {
        self.places.len() as u64
    }

    /// Whether a fault of `append` ended the log's use.
    pub fn spent(&self) -> bool
        ensures { result ≡ self.now.spent }
    {
        self.is_spent
    }

    /// Adds an entry behind all others, in two writes and two syncs. A fault leaves the log spent: a crash, and
    /// what the file reads as, then have the entries from before, or these and the new one.
    pub fn append<H: Host>(&mut self, host: &mut H, body: &[u8]) -> Result<(), LogFault>
        requires fresh { self.old.spent ≡ false }
        requires short { length body.now ≤ most_entry_bytes }
        requires rest { IfSome (H.reads host.old) (λ files. (bodies : List (List ℕ)) × IsAtRest self.old bodies files (H.may_leave host.old)) }
        ensures moments { (files : Files) (bodies : List (List ℕ)) → H.reads host.old ≡ Some files → IsAtRest self.old bodies files (H.may_leave host.old)
            → SeesOnly H.moment H.observed host.old host.new (ChangesOne self.old.file (IsBeforeOrAfter self.old.kind bodies body.now) (H.may_leave host.old) (H.said host.old)) }
        ensures ok { OnOk result ((files : Files) (bodies : List (List ℕ)) → H.reads host.old ≡ Some files → IsAtRest self.old bodies files (H.may_leave host.old)
            → IsAppended self.old self.new bodies body.now files (H.reads host.new) (H.may_leave host.new)) }
        ensures log { OnOk result (self.new ≡ with_entry self.old body.now) }
        ensures spent { OnErr result (self.new ≡ record self.old { spent = true }) }
        ensures files { Become (SameBut self.old.file) (H.reads host.old) (H.reads host.new) }
        ensures crash { Follows (SameBut self.old.file) (H.may_leave host.old) (H.may_leave host.new) }
        ensures said { H.said host.new ≡ H.said host.old }
        ensures counts { CountsFault result (H.disk_faults host.old) (H.disk_faults host.new) }
        ensures others { H.say_faults host.new ≡ H.say_faults host.old }
    {
        self.is_spent = true;
        stage(&mut self.piece, &mut self.places, body)?;
        write_entry(host, self.file, self.end, &self.piece)?;
        let _ = self.places.push(self.end);
        self.end += 5 + body.len() as u64;
        self.is_spent = false;
        Ok(())
    }
}

// Makes what belongs behind the gate of an entry, and room for one more place.
fn stage(piece: &mut Vec<u8>, places: &mut Vec<u64>, body: &[u8]) -> Result<(), NoMemory>
    requires { length body.now ≤ most_entry_bytes }
    ensures piece { OnOk result (piece.new.items ≡ counted body.now ++ 0 ∷ []) }
    ensures places { places.new.items ≡ places.old.items }
    ensures room { OnOk result (vec_len places.new < vec_capacity places.new) }
{
    places.reserve(1)?;
    piece.clear();
    put_u32(piece, body.len() as u32)?;
    piece.extend_from_slice(body)?;
    piece.push(0)?;
    Ok(())
}
