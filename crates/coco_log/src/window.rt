//! The piece of a file that was read last.
ghost use Rattle.std.specs.Prelude.{◌≡◌, ◌⊎◌, ℕ, ◌+◌, ◌-◌, ◌<◌, ◌≤◌, ◌^◌, List, Some, length, drop, vec_len, IfOk};
ghost use Rattle.coco_types.specs.Limits.{files_end};
ghost use Rattle.coco_host.specs.Files.{Files};
ghost use Rattle.coco_log.specs.Faults.{CountsFault};
ghost use Rattle.coco_log.specs.Gates.{IsPart};
ghost use Rattle.coco_log.specs.LogState.{IsOnlyRead};

use crate::LogFault;
use coco_host::Host;
use coco_types::NoMemory;
use std::alloc::Global;

// How many bytes one read asks for at least. Once a buffer of this size was given back, the C library's allocator keeps
// as much at hand, so that the epochs that follow touch no fresh pages.
const PIECE: usize = 1_048_576;

/// A piece of a file, as it was read last, in a buffer that grows with what is wanted at once.
#[derive(Drop)]
pub struct Window {
    pub file: u32,
    pub from: u64,
    pub count: usize,
    pub bytes: Vec<u8>,
    ghost fits: { count ≤ vec_len bytes },
    ghost early: { from < files_end },
}

impl Window {
    /// A window on a file, of which nothing was read yet.
    pub fn new(alloc: Global, file: u32) -> Result<Window, NoMemory>
        ensures file { IfOk result (λ w. w.file ≡ file) }
        ensures part { IfOk result (λ w. (bytes : List ℕ) → IsPart w.from w.count w.bytes.items bytes) }
    {
        Ok(Window {
            file,
            from: 0,
            count: 0,
            bytes: vec![in alloc; 0; PIECE]?,
        })
    }

    /// Brings as many bytes as are wanted at a place, or all that are there, into the window, and answers where
    /// in it they begin.
    pub fn reach<H: Host>(
        &mut self,
        host: &mut H,
        at: u64,
        wanted: usize,
    ) -> Result<usize, LogFault>
        requires small { at < files_end }
        requires few { wanted < 2 ^ 32 }
        ensures file { self.new.file ≡ self.old.file }
        ensures part { (files : Files) → H.reads host.old ≡ Some files → IsPart self.old.from self.old.count self.old.bytes.items (files self.old.file)
            → IsPart self.new.from self.new.count self.new.bytes.items (files self.old.file) }
        ensures place { IfOk result (λ skip. self.new.from + skip ≡ at) }
        ensures within { IfOk result (λ skip. skip ≤ self.new.count) }
        ensures enough { IfOk result (λ skip. (files : Files) → H.reads host.old ≡ Some files
            → (wanted ≤ self.new.count - skip) ⊎ (length (drop at (files self.old.file)) ≤ self.new.count - skip)) }
        ensures read { IsOnlyRead H.Host host.old host.new }
        ensures counts { CountsFault result (H.disk_faults host.old) (H.disk_faults host.new) }
    {
        if self.from <= at && at - self.from + wanted as u64 <= self.count as u64 {
            return Ok((at - self.from) as usize);
        }
        if self.bytes.len() < wanted {
            self.bytes.resize(wanted, 0)?;
        }
        self.from = at;
        self.count = 0;
        self.count = host.read_at(self.file, at, &mut self.bytes)?;
        Ok(0)
    }
}
