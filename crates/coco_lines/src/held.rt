//! The part of a buffer that is read but not given yet.

ghost use Rattle.std.specs.Prelude.{◌≡◌, ◌≢◌, ◌≤◌, ◌<◌, [], Err, length, take, drop, OnOk, OnErr, IfOk, IfErr};
ghost use Rattle.coco_lines.specs.Reads.{Counts, Gives, IsSameMoment, IsSpent, source_moment};

use crate::LineFault;
use coco_io::Source;
use coco_types::{Failed, NoMemory};
use std::alloc::Global;
use std::marker::Model;

/// How many bytes are asked of a source at once.
const BUFFER_BYTES: usize = 65_536;

/// Bytes of a source that aren't given yet, as a part of a buffer. Contracts see these bytes.
#[derive(Debug, Drop)]
pub struct Held {
    buffer: Vec<u8>,
    start: usize,
    end: usize,
}

impl Model for Held {
    ghost use Rattle.std.specs.Prelude.{List, ℕ, ◌-◌, ◌≤◌, length, take, drop};

    ghost Value = { List ℕ };

    ghost view = { λ h. take (h.end - h.start) (drop h.start h.buffer.items) };

    ghost invariant = { λ h. (h.start ≤ h.end) × (h.end ≤ length h.buffer.items) };
}

impl Held {
    pub fn new(alloc: Global) -> Self
        ensures { result ≡ [] }
    {
        Held {
            buffer: Vec::new(alloc),
            start: 0,
            end: 0,
        }
    }

    pub fn as_slice(&self) -> &[u8]
        ensures { result.now ≡ self.now }
    {
        let buffer = self.buffer.as_slice();
        &buffer[self.start..self.end]
    }

    /// Leaves the first bytes out.
    pub fn skip(&mut self, count: usize)
        requires { count ≤ length self.old }
        ensures { self.new ≡ drop count self.old }
    {
        self.start += count;
    }

    /// Takes the source's next bytes in place of those held, at least one but at the end of the input.
    pub fn refill<S: Source>(&mut self, source: &mut S, most: u64) -> Result<usize, LineFault>
        requires some { 0 < most }
        requires none { self.old ≡ [] }
        ensures count { IfOk result (λ n. n ≡ length self.new) }
        ensures most { OnOk result (length self.new ≤ most) }
        ensures gives { OnOk result (Gives (source_moment S.Source source.old) (source_moment S.Source source.new) self.new) }
        ensures end { IfOk result (λ n. n ≡ 0 → IsSpent (source_moment S.Source source.new)) }
        ensures err { OnErr result (self.new ≡ []) }
        ensures same { OnErr result (IsSameMoment (source_moment S.Source source.old) (source_moment S.Source source.new)) }
        ensures counts { Counts result (S.faults source.old) (S.faults source.new) }
        ensures too_much { result ≢ Err LineFault.TooMuch }
    {
        if self.buffer.is_empty() {
            self.buffer = fresh_buffer(*self.buffer.allocator())?;
        }
        self.start = 0;
        self.end = 0;
        let room = most.min(self.buffer.len() as u64) as usize;
        let count = read_front(source, self.buffer.as_mut_slice(), room)?;
        self.end = count;
        Ok(count)
    }
}

fn fresh_buffer(alloc: Global) -> Result<Vec<u8>, NoMemory>
    ensures { IfOk result (λ buffer. 0 < length buffer.items) }
{
    Ok(vec![in alloc; 0; BUFFER_BYTES]?)
}

// Reads into the front of a buffer alone.
fn read_front<S: Source>(source: &mut S, into: &mut [u8], most: usize) -> Result<usize, LineFault>
    requires some { 0 < most }
    requires fits { most ≤ length into.old }
    ensures count { IfOk result (λ n. n ≤ most) }
    ensures gives { IfOk result (λ n. Gives (source_moment S.Source source.old) (source_moment S.Source source.new) (take n into.new)) }
    ensures end { IfOk result (λ n. n ≡ 0 → IsSpent (source_moment S.Source source.new)) }
    ensures same { OnErr result (IsSameMoment (source_moment S.Source source.old) (source_moment S.Source source.new)) }
    ensures counts { Counts result (S.faults source.old) (S.faults source.new) }
    ensures failed { IfErr result (λ e. e ≡ LineFault.Failed) }
{
    let (front, _) = into.split_at_mut(most);
    match source.read(front) {
        Ok(count) => Ok(count),
        Err(Failed) => Err(LineFault::Failed),
    }
}
