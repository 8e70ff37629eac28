//! The lines of a source, one by one.

ghost use Rattle.std.specs.Prelude.{◌≡◌, ◌≢◌, ◌⊎◌, ◌+◌, ◌≤◌, ◌<◌, ℕ, List, [], ◌∷◌, length, ◌==◌, true, false, Some, None, Ok, Err, IfOk, IfErr, IsErr, OnOk, OnErr, IsTrue, if◌then◌else◌};
ghost use Rattle.coco_lines.specs.Reads.{HasNoFeed, Gives, IsSpent, IsSameMoment, body_of, Reads, Numbers, MustRead, Stops, Counts, source_moment};
ghost use Rattle.coco_lines.specs.Gathering.{Extends, Cuts, Gathering, Halts, reads_left};

use crate::LineFault;
use crate::held::Held;
use coco_io::Source;
use coco_types::limits::{MOST_INPUT_BYTES, MOST_LINE_BYTES};
use coco_types::{Bytes, NoMemory};
use memchr::memchr;
use std::alloc::Global;
use std::marker::Model;

/// The bytes of a line without its line feed, where there aren't too many of them.
#[derive(Debug, Drop)]
pub enum Body {
    Long,
    Whole(Bytes),
}

/// A line and its number, counted from 1.
#[derive(Debug, Drop)]
pub struct Line {
    pub number: u64,
    pub body: Body,
}

/// Gives the lines of a source one by one, however the source cuts them. It reads from one source
/// alone, at most 2^62 bytes, and holds at most a buffer and a line.
#[derive(Debug, Drop)]
pub struct Reader {
    alloc: Global,
    held: Held,
    ended: bool,
    taken: u64,
    given: u64,
}

impl Model for Reader {
    ghost use Rattle.coco_lines.specs.ReaderState.{ReaderState, IsReaderState};

    ghost Value = { ReaderState };

    ghost view = { λ r. record { pending = r.held; ended = r.ended; taken = r.taken; given = r.given } };

    ghost invariant = { λ r. IsReaderState (record { pending = r.held; ended = r.ended; taken = r.taken; given = r.given }) };
}

impl Reader {
    ghost use Rattle.coco_lines.specs.ReaderState.{IsReaderState};

    pub fn new(alloc: Global) -> Self
        ensures { result ≡ record { pending = []; ended = false; taken = 0; given = 0 } }
    {
        Reader {
            alloc,
            held: Held::new(alloc),
            ended: false,
            taken: 0,
            given: 0,
        }
    }

    /// The next line, or none at the end of the input. After a fault the reader isn't used again.
    pub fn next<S: Source>(&mut self, source: &mut S) -> Result<Option<Line>, LineFault>
        ensures reads { Reads self.old self.new (source_moment S.Source source.old) (source_moment S.Source source.new) result }
        ensures numbers { IfOk result (λ o. Numbers o self.old self.new) }

        // The reader stands at the source's end, once it has met it.
        ensures end { (self.old.ended ≡ true → IsSpent (source_moment S.Source source.old))
            → self.new.ended ≡ true → IsSpent (source_moment S.Source source.new) }

        // Where it has to read and the limit is reached, there is no line and no end.
        ensures too_much { self.old.taken ≡ MOST_INPUT_BYTES → MustRead self.old → IsErr result }
        ensures met { self.old.ended ≡ false → self.new.ended ≡ true → self.new.taken < MOST_INPUT_BYTES }

        ensures stops { IfErr result (λ e. Stops e self.old self.new) }
        ensures limit { self.new.taken ≤ MOST_INPUT_BYTES }
        ensures few { self.new.given ≤ self.new.taken }
        ensures counts { Counts result (S.faults source.old) (S.faults source.new) }
    {
        let (body, fed) = self.gather(source)?;
        if !fed && is_empty(&body) {
            return Ok(None);
        }
        self.given += 1;
        Ok(Some(Line {
            number: self.given,
            body,
        }))
    }

    // The bytes up to the next line feed or the end of the input. The feed is left out; true where there was one.
    fn gather<S: Source>(&mut self, source: &mut S) -> Result<(Body, bool), LineFault>
        ensures fed { IfOk result (λ r. r.1 ≡ true → Gathering self.old self.new
            (source_moment S.Source source.old) (source_moment S.Source source.new) r.0 (10 ∷ self.new.pending)) }
        ensures end { IfOk result (λ r. r.1 ≡ false → Gathering self.old self.new
            (source_moment S.Source source.old) (source_moment S.Source source.new) r.0 [] × (self.new.pending ≡ []) × (self.new.ended ≡ true)) }
        ensures err { OnErr result ((body : Body) × Gathering self.old self.new
            (source_moment S.Source source.old) (source_moment S.Source source.new) body self.new.pending) }
        ensures stops { IfErr result (λ e. Halts e self.new) }
        ensures counts { Counts result (S.faults source.old) (S.faults source.new) }
        ensures is_state { IsReaderState self.old × IsReaderState self.new }
    {
        let mut body = Body::Whole(Bytes::new(self.alloc));
        loop {
            let (longer, fed) = self.cut(body)?;
            body = longer;
            if fed || self.ended {
                return Ok((body, fed));
            }
            self.fill(source)?;
        }
    }

    // Moves the bytes that are held, up to the next line feed, to the body of a line. The feed is
    // left out; true where there was one.
    fn cut(&mut self, body: Body) -> Result<(Body, bool), NoMemory>
        ensures ok { IfOk result (λ r. Cuts self.old.pending self.new.pending body r.0 r.1) }
        ensures err { OnErr result (self.new ≡ self.old) }
        ensures same { self.new ≡ record self.old { pending = self.new.pending } }
        ensures state { IsReaderState self.new }
    {
        let held = self.held.as_slice();
        let count = held.len();
        match memchr(b'\n', held) {
            Some(at) => {
                let longer = extended(body, &held[..at])?;
                self.held.skip(at + 1);
                Ok((longer, true))
            }
            None => {
                let longer = extended(body, held)?;
                self.held.skip(count);
                Ok((longer, false))
            }
        }
    }

    // Takes more bytes where none are held.
    fn fill<S: Source>(&mut self, source: &mut S) -> Result<(), LineFault>
        requires none { self.old.pending ≡ [] }
        requires open { self.old.ended ≡ false }
        ensures gives { OnOk result (Gives (source_moment S.Source source.old) (source_moment S.Source source.new) self.new.pending) }
        ensures taken { OnOk result (self.new.taken ≡ self.old.taken + length self.new.pending) }
        ensures end { OnOk result (self.new.ended ≡ true
            → IsSpent (source_moment S.Source source.new) × (self.new.taken < MOST_INPUT_BYTES)) }
        ensures fewer { OnOk result (reads_left self.new < reads_left self.old) }
        ensures given { self.new.given ≡ self.old.given }
        ensures err { OnErr result (self.new ≡ self.old) }
        ensures same { OnErr result (IsSameMoment (source_moment S.Source source.old) (source_moment S.Source source.new)) }
        ensures counts { Counts result (S.faults source.old) (S.faults source.new) }
        ensures failed { result ≡ Err LineFault.Failed → self.new.taken < MOST_INPUT_BYTES }
        ensures too_much { result ≡ Err LineFault.TooMuch → self.new.taken ≡ MOST_INPUT_BYTES }
        ensures state { IsReaderState self.new }
    {
        if self.taken == MOST_INPUT_BYTES {
            return Err(LineFault::TooMuch);
        }
        let count = self.held.refill(source, MOST_INPUT_BYTES - self.taken)?;
        self.taken += count as u64;
        self.ended = count == 0;
        Ok(())
    }
}

// The body with more bytes, which are dropped once they are too many.
fn extended(body: Body, piece: &[u8]) -> Result<Body, NoMemory>
    ensures { IfOk result (λ longer. Extends body longer piece.now) }
{
    match body {
        Body::Long => Ok(Body::Long),
        Body::Whole(bytes) => {
            let mut bytes = bytes.into_vec();
            if bytes.len().saturating_add(piece.len()) > MOST_LINE_BYTES {
                return Ok(Body::Long);
            }
            bytes.extend_from_slice(piece)?;
            Ok(Body::Whole(Bytes::from_vec(bytes)))
        }
    }
}

fn is_empty(body: &Body) -> bool
    ensures { (bytes : List ℕ) → body.now ≡ body_of bytes → result ≡ (length bytes == 0) }
{
    match body {
        Body::Long => false,
        Body::Whole(bytes) => bytes.is_empty(),
    }
}
