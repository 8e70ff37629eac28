//! Sources and sinks in memory, and over a stream of the test's own that is short, interrupted or broken.
ghost use Rattle.std.specs.Prelude.{◌≤◌, ◌<◌, IfOk, refl};

use coco_io::stream::{SteadyRead, SteadyWrite};
use coco_io::{
    MemorySink, MemorySource, ReaderSource, Sink, Source, StdSink, StdSource, WriterSink, write_all,
};
use coco_types::{Failed, OutFault};
use std::alloc::{AllocError, Global};
use std::io::{self, ErrorKind, Read, Write};
use std::test::Fail;

// What a stream of a test does at a call.
#[derive(Clone, Copy)]
enum Turn {
    // At most so many bytes pass.
    Pass(usize),
    // A signal cuts the call short.
    Interrupt,
    // The stream breaks.
    Break,
}

use Turn::{Break, Interrupt, Pass};

// A stream that plays its turns, and lets everything pass behind them.
#[derive(Drop)]
struct Played {
    turns: Vec<Turn>,
    at: usize,
    bytes: Vec<u8>,
    given: usize,
}

impl Played {
    fn new(alloc: Global, turns: &[Turn], bytes: &[u8]) -> Result<Played, AllocError> {
        Ok(Played {
            turns: Vec::from_slice(alloc, turns)?,
            at: 0,
            bytes: Vec::from_slice(alloc, bytes)?,
            given: 0,
        })
    }

    // How many of so many bytes pass at the next turn.
    fn next_count(&mut self, most: usize) -> io::Result<usize>
        ensures { IfOk result (λ k. k ≤ most) }
    {
        let turn = self.turns.get(self.at).copied();
        self.at = self.at.saturating_add(1);
        match turn {
            Some(Pass(count)) => Ok(count.min(most)),
            Some(Interrupt) => Err(ErrorKind::Interrupted.into()),
            Some(Break) => Err(ErrorKind::BrokenPipe.into()),
            None => Ok(most),
        }
    }
}

impl Read for Played {
    fn read(&mut self, into: &mut [u8]) -> io::Result<usize> {
        let most = self.bytes.len().saturating_sub(self.given).min(into.len());
        let count = self.next_count(most)?;
        for place in into[..count].iter_mut() {
            *place = self.bytes.get(self.given).copied().unwrap_or(0);
            self.given = self.given.saturating_add(1);
        }
        Ok(count)
    }
}

impl Write for Played {
    fn write(&mut self, from: &[u8]) -> io::Result<usize> {
        let count = self.next_count(from.len())?;
        self.bytes.extend_from_slice(&from[..count])?;
        Ok(count)
    }

    fn flush(&mut self) -> io::Result<()> {
        Ok(())
    }
}

impl SteadyRead for Played {
    ghost steady = { λ _ _. refl };
}

impl SteadyWrite for Played {
    ghost steady = { λ _ _. refl };
}

// Reads to the end: the bytes, and how many reads failed on the way.
fn read_to_end<S: Source>(alloc: Global, source: &mut S) -> Result<(Vec<u8>, u32), AllocError> {
    let mut bytes = Vec::new(alloc);
    let mut failed = 0u32;
    for _ in 0..100 {
        let mut buffer = [0u8; 4];
        match source.read(&mut buffer) {
            Ok(0) => break,
            Ok(count) => bytes.extend_from_slice(&buffer[..count])?,
            Err(Failed) => failed = failed.saturating_add(1),
        }
    }
    Ok((bytes, failed))
}

// Whether a source gives "abcde" in all, and fails one read on the way.
fn fails_once<S: Source>(alloc: Global, source: &mut S) -> Result<bool, AllocError> {
    let (bytes, failed) = read_to_end(alloc, source)?;
    Ok(bytes.as_slice() == b"abcde".as_slice() && failed == 1 && source.faults() == 1)
}

// A source of "abcde" that gives so many bytes a read, and fails this call.
fn short_source(alloc: Global, most: usize, fails: u64) -> Result<MemorySource, AllocError>
    requires { 0 < most }
{
    let text = Vec::from_slice(alloc, b"abcde")?;
    let mut source = MemorySource::new(text, vec![in alloc; fails]?);
    source.short_reads(most);
    Ok(source)
}

#[test]
fn a_source_gives_each_byte_once_and_fails_the_listed_call(rt: HostRuntime) -> Result<(), Fail> {
    for (most, fails) in [(1, 0), (1, 5), (3, 1), (100, 2)] {
        let mut source = short_source(rt.alloc(), most, fails)?;
        let is_well = fails_once(rt.alloc(), &mut source)?;
        assert!(rt; is_well, "{most} bytes a read, call {fails} fails");
    }
    Ok(())
}

// Whether a sink whose second write fails takes what the others hand on.
fn takes_the_others(sink: &mut MemorySink) -> bool {
    let first = write_all(sink, b"ab");
    let second = sink.write(b"cd");
    let third = sink.write(b"ef");
    let are_answered = first == Ok(()) && second == Err(OutFault::Failed) && third == Ok(2);
    are_answered && sink.bytes() == b"abef".as_slice() && sink.faults() == 1
}

#[test]
fn a_sink_takes_what_does_not_fail(rt: HostRuntime) -> Result<(), Fail> {
    let mut sink = MemorySink::new(rt.alloc(), vec![in rt.alloc(); 1]?);
    assert!(rt; takes_the_others(&mut sink));
    Ok(())
}

#[test]
fn a_reader_is_read_on_after_an_interruption_and_an_error(rt: HostRuntime) -> Result<(), Fail> {
    let turns = [
        Interrupt,
        Pass(1),
        Break,
        Pass(2),
        Interrupt,
        Interrupt,
        Pass(4),
    ];
    let mut source = ReaderSource::over(Played::new(rt.alloc(), &turns, b"abcde")?);
    assert!(rt; fails_once(rt.alloc(), &mut source)?);
    Ok(())
}

// Whether a writer with these turns takes the whole of a piece.
fn takes_all(alloc: Global, turns: &[Turn]) -> Result<bool, AllocError> {
    let mut sink = WriterSink::over(Played::new(alloc, turns, b"")?);
    let is_taken = write_all(&mut sink, b"answer") == Ok(()) && sink.faults() == 0;
    let writer = sink.into_inner();
    Ok(is_taken && writer.bytes.as_slice() == b"answer".as_slice())
}

#[test]
fn a_writer_takes_a_piece_however_it_is_cut(rt: HostRuntime) -> Result<(), Fail> {
    let turns = [Pass(1), Interrupt, Pass(2), Interrupt, Interrupt, Pass(2)];
    assert!(rt; takes_all(rt.alloc(), &turns)?);
    Ok(())
}

// Whether a writer takes three bytes of a piece, and this turn is a fault.
fn is_fault(alloc: Global, turn: Turn) -> Result<bool, AllocError> {
    let mut sink = WriterSink::over(Played::new(alloc, &[Pass(3), turn], b"")?);
    let has_failed = write_all(&mut sink, b"answer") == Err(OutFault::Failed);
    let nothing_passes = sink.write(b"") == Ok(0);
    let faults = sink.faults();
    let writer = sink.into_inner();
    Ok(has_failed && nothing_passes && faults == 1 && writer.bytes.as_slice() == b"ans".as_slice())
}

#[test]
fn a_writer_that_breaks_or_takes_nothing_is_a_fault(rt: HostRuntime) -> Result<(), Fail> {
    for (turn, name) in [(Break, "broken"), (Pass(0), "nothing taken")] {
        assert!(rt; is_fault(rt.alloc(), turn)?, "{name}");
    }
    Ok(())
}

// A stream of these bytes that is interrupted so often.
fn interrupted(alloc: Global, count: usize, bytes: &[u8]) -> Result<Played, AllocError> {
    let turns = vec![in alloc; Interrupt; count]?;
    Played::new(alloc, turns.as_slice(), bytes)
}

// What a read of two bytes and a write of two come to behind so many interruptions.
fn read_and_written(
    alloc: Global,
    count: usize,
) -> Result<(Result<usize, Failed>, Result<usize, OutFault>), AllocError> {
    let mut source = ReaderSource::over(interrupted(alloc, count, b"ab")?);
    let mut sink = WriterSink::over(interrupted(alloc, count, b"")?);
    Ok((source.read(&mut [0u8; 4]), sink.write(b"ab")))
}

#[test]
fn a_call_is_made_64_times_at_most(rt: HostRuntime) -> Result<(), Fail> {
    for (count, read, written) in [(63, Ok(2), Ok(2)), (64, Err(Failed), Err(OutFault::Failed))] {
        let is_well = read_and_written(rt.alloc(), count)? == (read, written);
        assert!(rt; is_well, "{count} interruptions");
    }
    Ok(())
}

// Whether a source has nothing for a buffer without room.
fn reads_nothing<S: Source>(source: &mut S) -> bool {
    source.read(&mut []) == Ok(0) && source.faults() == 0
}

// Whether a sink takes a line.
fn takes_a_line<S: Sink>(sink: &mut S) -> bool {
    write_all(sink, b"a line of the standard error stream\n") == Ok(()) && sink.faults() == 0
}

#[test]
fn the_standard_streams_answer(rt: HostRuntime) {
    assert!(rt; reads_nothing(&mut StdSource::new(rt)));
    assert!(rt; takes_a_line(&mut StdSink::new(rt)));
}
