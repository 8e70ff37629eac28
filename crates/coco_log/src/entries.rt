//! A log's file read once from its front, entry by entry.
ghost use Rattle.std.specs.Prelude.{◌≡◌, ℕ, ◌+◌, ◌<◌, ◌≤◌, List, Some, true, [], Ok, Err, length, take, drop, vec_len, IfOk};
ghost use Rattle.coco_types.specs.Limits.{files_end};
ghost use Rattle.coco_host.specs.Files.{Files};
ghost use Rattle.coco_log.specs.declared.fault.LogFault.TheVariants as fault;
ghost use Rattle.coco_log.specs.Faults.{CountsOpen, CountsRead};
ghost use Rattle.coco_log.specs.Grammar.{IsNoHeader};
ghost use Rattle.coco_log.specs.LogState.{IsOnlyRead};
ghost use Rattle.coco_log.specs.Reading.{IsReading, IsBegun, IsNext, IsOf, log_of};

use crate::gates::{next_gate, read_header};
use crate::window::Window;
use crate::{Log, LogFault};
use coco_host::Host;
use coco_types::limits::FILES_END;
use std::alloc::Global;
use std::marker::Model;

/// The entries of a log's file, read one by one through a window of large reads.
#[derive(Drop)]
pub struct Entries {
    window: Window,
    kind: u8,
    places: Vec<u64>,
    at: u64,
    end: u64,
    start: usize,
    length: usize,
}

impl Model for Entries {
    ghost use Rattle.std.specs.Prelude.{◌+◌, ◌<◌, ◌≤◌, take, drop, vec_len};
    ghost use Rattle.coco_types.specs.Limits.{files_end};
    ghost use Rattle.coco_log.specs.Reading.{Reading};

    ghost Value = { Reading };

    ghost view = { λ e. record { file = e.window.file; kind = e.kind; places = e.places.items; at = e.at; end = e.end; from = e.window.from; count = e.window.count; bytes = e.window.bytes.items; body = take e.length (drop e.start e.window.bytes.items) } };

    ghost invariant = { λ e. (e.at < files_end) × (e.end < files_end) × (e.start + e.length ≤ vec_len e.window.bytes) × (e.length ≤ e.at) };
}

impl Entries {
    /// Begins to read the log of this kind in a file. The file is synced first, so that a crash leaves what is read.
    pub fn open<H: Host>(
        alloc: Global,
        host: &mut H,
        file: u32,
        kind: u8,
    ) -> Result<Entries, LogFault>
        ensures of { IfOk result (λ reading. IsOf file kind reading) }
        ensures ok { IfOk result (λ reading. (files : Files) → H.reads host.old ≡ Some files → IsBegun reading files (H.may_leave host.new)) }
        ensures refused { (at : ℕ) (files : Files) → result ≡ Err (fault.NotALog at) → H.reads host.old ≡ Some files → IsNoHeader kind (files file) at }
        ensures long { (files : Files) → result ≡ Err fault.TooLong → H.reads host.old ≡ Some files → files_end ≤ length (files file) }
        ensures read { IsOnlyRead H.Host host.old host.new }
        ensures counts { CountsOpen result (H.disk_faults host.old) (H.disk_faults host.new) }
    {
        host.sync(file)?;
        let mut window = Window::new(alloc, file)?;
        read_header(host, &mut window, kind)?;
        let end = host.len(file)?;
        if end >= FILES_END {
            return Err(LogFault::TooLong);
        }
        Ok(Entries {
            window,
            kind,
            places: Vec::new(alloc),
            at: 8,
            end,
            start: 0,
            length: 0,
        })
    }

    /// Goes on to the next entry, whose body is then there, and answers whether there is one. After a fault it
    /// stands where it stood.
    pub fn next<H: Host>(&mut self, host: &mut H) -> Result<bool, LogFault>
        ensures of { IsOf self.old.file self.old.kind self.new }
        ensures next { (files : Files) (bodies : List (List ℕ)) → H.reads host.old ≡ Some files → IsReading self.old bodies (files self.old.file)
            → IsNext result self.old self.new bodies (files self.old.file) }
        ensures end { self.new.end ≡ self.old.end }
        ensures on { result ≡ Ok true → (self.old.at < self.new.at) × (self.new.at < self.new.end) }
        ensures read { IsOnlyRead H.Host host.old host.new }
        ensures counts { CountsRead result (H.disk_faults host.old) (H.disk_faults host.new) }
    {
        self.length = 0;
        self.start = 0;
        let gate = self.at;
        let Some(next) = next_gate(host, &mut self.window, gate, self.end)? else {
            return Ok(false);
        };
        let far = (next - gate) as usize;
        let skip = self.window.reach(host, gate, far)?;
        // The file may have become shorter since it was opened.
        if self.window.count - skip < far {
            return Err(LogFault::NotALog { at: gate });
        }
        self.places.push(gate)?;
        self.start = skip + 5;
        self.length = far - 5;
        self.at = next;
        Ok(true)
    }

    /// The body of the entry that `next` went on to.
    pub fn body(&self) -> &[u8]
        ensures { result.now ≡ self.now.body }
    {
        &self.window.bytes[self.start..self.start + self.length]
    }

    /// Where that body begins in the file.
    pub fn place(&self) -> u64
        ensures { result + length self.now.body ≡ self.now.at }
    {
        self.at - self.length as u64
    }

    /// Where the next gate stands, which is the last one where there is no next entry.
    pub fn gate(&self) -> u64
        ensures { result ≡ self.now.at }
    {
        self.at
    }

    /// The log, once there is no next entry.
    pub fn into_log(self) -> Log
        ensures { result ≡ log_of self }
    {
        let Entries {
            window,
            kind,
            places,
            at,
            end: _,
            start: _,
            length: _,
        } = self;
        let Window {
            file,
            from: _,
            count: _,
            bytes,
        } = window;
        Log::found(file, kind, places, at, bytes)
    }
}
