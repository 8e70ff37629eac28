//! Where bytes are read from: the trait, and bytes in memory.
ghost use Rattle.std.specs.Prelude.{◌≡◌, ℕ, ◌<◌, ◌≤◌, List, Bool, false, [], Option, Some, ◌++◌, length, take, drop, IfOk, OnErr, is_err, ◌==◌, if◌then◌else◌};
ghost use Rattle.std.specs.Io.KnownBytes.{prepend_known, IsAtEnd};
ghost use Rattle.coco_io.specs.Counts.{CountsRead};
ghost use Rattle.coco_io.specs.Giving.{ReadGives, ReadMeetsEnd};
ghost use Rattle.coco_io.specs.Plan.{next_fails, after_call};
ghost use Rattle.coco_io.specs.SourceState.{count_given};

use crate::FaultPlan;
use coco_types::Failed;
use coco_types::padding::put_front;
use std::marker::Model;

/// Where bytes are read from.
pub trait Source {
    /// The bytes that are left, none where the source doesn't tell them.
    ghost remaining: { Self → Option (List ℕ) };

    /// The bytes that it gave so far. Every source tells them.
    ghost given: { Self → List ℕ };

    /// Whether the last read that had room, and didn't fail, found the end of the input.
    ghost at_end: { Self → Bool };

    /// How many reads failed. It never falls, and stands still at the end of 64 bits.
    ghost faults: { Self → ℕ };

    /// Reads the next bytes into the front of the buffer, and says how many. None into a buffer that
    /// isn't empty is the end of the input. A read that fails takes nothing.
    fn read(&mut self, into: &mut [u8]) -> Result<usize, Failed>
        ensures count { IfOk result (λ k. k ≤ length into.new) }
        ensures bytes { IfOk result (λ k. remaining self.old ≡ prepend_known (take k into.new) (remaining self.new)) }
        ensures end { IfOk result (λ k. k ≡ 0 → 0 < length into.new → IsAtEnd (remaining self.new)) }
        ensures err { OnErr result (remaining self.new ≡ remaining self.old) }
        ensures gives { ReadGives result into.new (given self.old) (given self.new) }
        ensures meets { ReadMeetsEnd result into.new (at_end self.old) (at_end self.new) }
        ensures counts { CountsRead result (faults self.old) (faults self.new) };

    fn faults(&self) -> u64
        ensures { result ≡ faults self.now };
}

/// Bytes in memory, with the calls that fail.
#[derive(Debug, Drop)]
pub struct MemorySource {
    bytes: Vec<u8>,
    at: usize,
    most: usize,
    at_end: bool,
    plan: FaultPlan,
}

impl Model for MemorySource {
    ghost use Rattle.std.specs.Prelude.{◌≤◌, ◌<◌, length, take, drop};
    ghost use Rattle.coco_io.specs.SourceState.{SourceState};

    ghost Value = { SourceState };

    ghost view = { λ s. record { given = take s.at s.bytes.items; left = drop s.at s.bytes.items; at_end = s.at_end; most = s.most; plan = s.plan } };

    ghost invariant = { λ s. (s.at ≤ length s.bytes.items) × (0 < s.most) };
}

impl MemorySource {
    /// Gives the bytes. The calls with the numbers in `fails` will fail, counted from 0.
    pub fn new(bytes: Vec<u8>, fails: Vec<u64>) -> Self
        ensures { result ≡ record { given = []; left = bytes.items; at_end = false; most = usize.MAX; plan = record { fails = fails.items; calls = 0; faults = 0 } } }
    {
        MemorySource {
            bytes,
            at: 0,
            most: usize::MAX,
            at_end: false,
            plan: FaultPlan::new(fails),
        }
    }

    /// From here on a read gives at most so many bytes.
    pub fn short_reads(&mut self, most: usize)
        requires { 0 < most }
        ensures { self.new ≡ record self.old { most = most } }
    {
        self.most = most;
    }
}

impl Source for MemorySource {
    ghost remaining = { λ s. Some s.left };

    ghost given = { λ s. s.given };

    ghost at_end = { λ s. s.at_end };

    ghost faults = { λ s. s.plan.faults };

    fn read(&mut self, into: &mut [u8]) -> Result<usize, Failed>
        ensures count { IfOk result (λ k. k ≤ length into.new) }
        ensures bytes { IfOk result (λ k. self.old.left ≡ take k into.new ++ self.new.left) }
        ensures end { IfOk result (λ k. k ≡ 0 → 0 < length into.new → IsAtEnd (Some self.new.left)) }
        ensures counts { CountsRead result self.old.plan.faults self.new.plan.faults }
        ensures fails { is_err result ≡ next_fails self.old.plan }
        ensures as_many { IfOk result (λ k. k ≡ count_given self.old (length into.new)) }
        ensures gives { ReadGives result into.new self.old.given self.new.given }
        ensures meets { ReadMeetsEnd result into.new self.old.at_end self.new.at_end }
        ensures ok { IfOk result (λ k. self.new ≡ record self.old {
          given = self.new.given;
          left = drop k self.old.left;
          at_end = self.new.at_end;
          plan = after_call self.old.plan;
        }) }
        ensures err { OnErr result (self.new ≡ record self.old { plan = after_call self.old.plan }) }
    {
        if self.plan.next_call() {
            return Err(Failed);
        }
        let bytes = self.bytes.as_slice();
        let left = &bytes[self.at..];
        let count = left.len().min(into.len()).min(self.most);
        put_front(into, &left[..count]);
        self.at += count;
        self.at_end = is_at_end(self.at_end, into.len(), count);
        Ok(count)
    }

    fn faults(&self) -> u64 {
        self.plan.faults()
    }
}

/// Whether a source is at its end after a read that gave so many bytes into a buffer of this length.
pub(crate) fn is_at_end(was: bool, room: usize, count: usize) -> bool
    ensures { result ≡ (if room == 0 then was else count == 0) }
{
    if room == 0 { was } else { count == 0 }
}
