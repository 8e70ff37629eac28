//! Sources and sinks over streams of the library's, the process's own among them.
ghost use Rattle.std.specs.Prelude.{◌≡◌, ◌≤◌, ◌<◌, [], ◌++◌, length, take, false, refl, IfOk, OnErr};
ghost use Rattle.std.specs.Result.{result_ok};
ghost use Rattle.std.specs.Io.KnownBytes.{append_known, prepend_known, IsAtEnd};
ghost use Rattle.coco_io.specs.Counts.{CountsRead, CountsWrite};
ghost use Rattle.coco_io.specs.Giving.{ReadGives, ReadMeetsEnd};
ghost use Rattle.coco_io.specs.Outcomes.{Tried};

use crate::calls::Calls;
use crate::source::is_at_end;
use crate::stream::{SteadyRead, SteadyWrite, read_some, write_some};
use crate::told::Told;
use crate::{Sink, Source};
use coco_types::{Failed, OutFault};
use std::io::{Stderr, Stdin, Stdout};

/// A source over a reader.
#[derive(Drop)]
pub struct ReaderSource<R> {
    reader: R,
    given: Told<u8>,
    calls: Calls,
    at_end: bool,
    faults: u64,
}

impl<R> ReaderSource<R> {
    /// Gives what the reader gives.
    pub fn over(reader: R) -> Self
        ensures reader { result.reader ≡ reader }
        ensures given { result.given.items ≡ [] }
        ensures at_end { result.at_end ≡ false }
        ensures faults { result.faults ≡ 0 }
    {
        ReaderSource {
            reader,
            given: Told::new(),
            calls: Calls::new(),
            at_end: false,
            faults: 0,
        }
    }
}

impl<R: SteadyRead> Source for ReaderSource<R> {
    ghost remaining = { λ s. R.remaining s.reader };

    ghost given = { λ s. s.given.items };

    ghost at_end = { λ s. s.at_end };

    ghost faults = { λ s. s.faults };

    fn read(&mut self, into: &mut [u8]) -> Result<usize, Failed>
        ensures count { IfOk result (λ k. k ≤ length into.new) }
        ensures bytes { IfOk result (λ k. R.remaining self.old.reader
            ≡ prepend_known (take k into.new) (R.remaining self.new.reader)) }
        ensures end { IfOk result (λ k. k ≡ 0 → 0 < length into.new → IsAtEnd (R.remaining self.new.reader)) }
        ensures err { OnErr result (R.remaining self.new.reader ≡ R.remaining self.old.reader) }
        ensures gives { ReadGives result into.new self.old.given.items self.new.given.items }
        ensures meets { ReadMeetsEnd result into.new self.old.at_end self.new.at_end }
        ensures counts { CountsRead result self.old.faults self.new.faults }
        ensures tried { Tried (result_ok result) self.old.calls self.new.calls }
    {
        match read_some(&mut self.calls, &mut self.reader, into) {
            Some(count) => {
                self.given.add(&into[..count]);
                self.at_end = is_at_end(self.at_end, into.len(), count);
                Ok(count)
            }
            None => {
                self.faults = self.faults.saturating_add(1);
                Err(Failed)
            }
        }
    }

    fn faults(&self) -> u64 {
        self.faults
    }
}

/// A sink over a writer.
#[derive(Drop)]
pub struct WriterSink<W> {
    writer: W,
    calls: Calls,
    faults: u64,
}

impl<W> WriterSink<W> {
    /// Hands on to the writer what is written.
    pub fn over(writer: W) -> Self
        ensures writer { result.writer ≡ writer }
        ensures faults { result.faults ≡ 0 }
    {
        WriterSink {
            writer,
            calls: Calls::new(),
            faults: 0,
        }
    }

    /// The writer.
    pub fn into_inner(self) -> W
        ensures { result ≡ self.writer }
    {
        let WriterSink {
            writer,
            calls: _,
            faults: _,
        } = self;
        writer
    }
}

impl<W: SteadyWrite> Sink for WriterSink<W> {
    ghost contents = { λ s. W.contents s.writer };

    ghost faults = { λ s. s.faults };

    fn write(&mut self, from: &[u8]) -> Result<usize, OutFault>
        ensures count { IfOk result (λ k. k ≤ length from.now) }
        ensures some { IfOk result (λ k. 0 < length from.now → 0 < k) }
        ensures bytes { IfOk result (λ k. W.contents self.new.writer
            ≡ append_known (W.contents self.old.writer) (take k from.now)) }
        ensures err { OnErr result (W.contents self.new.writer ≡ W.contents self.old.writer) }
        ensures counts { CountsWrite result self.old.faults self.new.faults }
        ensures tried { Tried (result_ok result) self.old.calls self.new.calls }
    {
        match write_some(&mut self.calls, &mut self.writer, from) {
            Some(count) => Ok(count),
            None => {
                self.faults = self.faults.saturating_add(1);
                Err(OutFault::Failed)
            }
        }
    }

    fn faults(&self) -> u64 {
        self.faults
    }
}

impl SteadyRead for Stdin {
    ghost steady = { λ _ _. refl };
}

impl SteadyWrite for Stdout {
    ghost steady = { λ _ _. refl };
}

impl SteadyWrite for Stderr {
    ghost steady = { λ _ _. refl };
}

/// The standard input. It doesn't tell what is left of it.
pub type StdSource = ReaderSource<Stdin>;

impl ReaderSource<Stdin> {
    pub fn new(rt: HostRuntime) -> Self
        ensures given { result.given.items ≡ [] }
        ensures at_end { result.at_end ≡ false }
        ensures faults { result.faults ≡ 0 }
    {
        ReaderSource::over(rt.stdin())
    }
}

/// The standard error stream. It doesn't tell its bytes.
pub type StdSink = WriterSink<Stderr>;

impl WriterSink<Stderr> {
    pub fn new(rt: HostRuntime) -> Self
        ensures { result.faults ≡ 0 }
    {
        WriterSink::over(rt.stderr())
    }
}
