//! Where bytes are written to: the trait, bytes in memory, and the writing of a whole piece.
ghost use Rattle.std.specs.Prelude.{◌≡◌, ℕ, ◌<◌, ◌≤◌, List, Option, Some, None, [], ◌++◌, length, take, IfOk, OnErr, OnOk};
ghost use Rattle.std.specs.Io.KnownBytes.{append_known};
ghost use Rattle.coco_io.specs.Counts.{CountsWrite};
ghost use Rattle.coco_io.specs.Plan.{next_fails, after_call};
ghost use Rattle.coco_io.specs.SinkState.{WritesByPlan};

use crate::FaultPlan;
use coco_types::OutFault;
use std::alloc::Global;
use std::marker::Model;

/// Where bytes are written to.
pub trait Sink {
    /// The bytes that were taken, none where the sink doesn't tell them.
    ghost contents: { Self → Option (List ℕ) };

    /// How many writes failed. It never falls, and stands still at the end of 64 bits.
    ghost faults: { Self → ℕ };

    /// Takes bytes from the front of the piece, and says how many: at least one of a piece that isn't
    /// empty. A write that fails, or for which there is no memory, takes nothing.
    fn write(&mut self, from: &[u8]) -> Result<usize, OutFault>
        ensures count { IfOk result (λ k. k ≤ length from.now) }
        ensures some { IfOk result (λ k. 0 < length from.now → 0 < k) }
        ensures bytes { IfOk result (λ k. contents self.new ≡ append_known (contents self.old) (take k from.now)) }
        ensures err { OnErr result (contents self.new ≡ contents self.old) }
        ensures counts { CountsWrite result (faults self.old) (faults self.new) };

    fn faults(&self) -> u64
        ensures { result ≡ faults self.now };
}

/// Bytes in memory, with the calls that fail. A write takes the whole piece.
#[derive(Debug, Drop)]
pub struct MemorySink {
    bytes: Vec<u8>,
    plan: FaultPlan,
}

impl Model for MemorySink {
    ghost use Rattle.coco_io.specs.SinkState.{SinkState};

    ghost Value = { SinkState };

    ghost view = { λ s. record { bytes = s.bytes.items; plan = s.plan } };
}

impl MemorySink {
    /// The calls with the numbers in `fails` will fail, counted from 0.
    pub fn new(alloc: Global, fails: Vec<u64>) -> Self
        ensures { result ≡ record { bytes = []; plan = record { fails = fails.items; calls = 0; faults = 0 } } }
    {
        MemorySink {
            bytes: Vec::new(alloc),
            plan: FaultPlan::new(fails),
        }
    }

    /// The bytes that it took.
    pub fn bytes(&self) -> &[u8]
        ensures { result.now ≡ self.now.bytes }
    {
        self.bytes.as_slice()
    }
}

impl Sink for MemorySink {
    ghost contents = { λ s. Some s.bytes };

    ghost faults = { λ s. s.plan.faults };

    // Want of memory is no call of the plan.
    fn write(&mut self, from: &[u8]) -> Result<usize, OutFault>
        ensures count { IfOk result (λ k. k ≤ length from.now) }
        ensures some { IfOk result (λ k. 0 < length from.now → 0 < k) }
        ensures counts { CountsWrite result self.old.plan.faults self.new.plan.faults }
        ensures plan { WritesByPlan result (length from.now) self.old self.new }
        ensures bytes { IfOk result (λ k. self.new.bytes ≡ self.old.bytes ++ take k from.now) }
        ensures err { OnErr result (self.new.bytes ≡ self.old.bytes) }
    {
        let before = self.bytes.len();
        if self.bytes.extend_from_slice(from).is_err() {
            return Err(OutFault::NoMemory);
        }
        if self.plan.next_call() {
            self.bytes.truncate(before);
            return Err(OutFault::Failed);
        }
        Ok(from.len())
    }

    fn faults(&self) -> u64 {
        self.plan.faults()
    }
}

/// Writes the whole piece. After an error the sink took the front of it, maybe nothing.
pub fn write_all<E: Sink>(to: &mut E, piece: &[u8]) -> Result<(), OutFault>
    ensures ok { OnOk result (E.contents to.new ≡ append_known (E.contents to.old) piece.now) }
    ensures err { OnErr result ((k : ℕ) × (k ≤ length piece.now) × (E.contents to.new ≡ append_known (E.contents to.old) (take k piece.now))) }
    ensures counts { CountsWrite result (E.faults to.old) (E.faults to.new) }
{
    let mut done = 0;
    while done < piece.len() {
        done += to.write(&piece[done..])?;
    }
    Ok(())
}
