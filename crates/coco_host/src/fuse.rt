//! A host in memory that stops after so many writes and syncs.
ghost use Rattle.std.specs.Prelude.{◌≡◌, refl, Some, length};
ghost use Rattle.coco_host.specs.Record.{said_of, files_of, MayLeave, SeenSince, seen_now, only_now, reads_left};

use crate::{Host, MemoryHost};
use coco_types::{Failed, OutFault};

/// A host in memory that lets so many writes and syncs pass, and then fails every call.
#[derive(Drop)]
pub struct FuseHost {
    inner: MemoryHost,
    passes: u64,
}

impl FuseHost {
    /// Lets so many writes and syncs of the host pass.
    pub fn new(inner: MemoryHost, passes: u64) -> Self
        ensures { result ≡ record { inner = inner; passes = passes } }
    {
        FuseHost { inner, passes }
    }

    /// The host inside.
    pub fn inner(self) -> MemoryHost
        ensures { result ≡ self.inner }
    {
        let FuseHost { inner, passes: _ } = self;
        inner
    }
}

impl Host for FuseHost {
    ghost said = { λ h. Some (said_of h.inner.events) };

    ghost say_faults = { λ h. h.inner.say_faults };

    ghost disk_faults = { λ h. h.inner.disk_faults };

    ghost reads = { λ h. Some (files_of h.inner.events) };

    ghost may_leave = { λ h. MayLeave h.inner.events };

    ghost moment = { λ h. length h.inner.events };

    ghost observed = { λ h. SeenSince h.inner.events };

    ghost seen_now = { λ h t seen le image said. seen_now h.inner.events t seen le image said };

    ghost only_now = { λ h seen since. only_now h.inner.events seen since };

    ghost reads_left = { λ h files are. reads_left h.inner.events files are };

    ghost tells_both = { λ _ _ _. refl };

    fn len(&mut self, file: u32) -> Result<u64, Failed> {
        if self.passes == 0 {
            self.inner.refuse_disk();
            return Err(Failed);
        }
        self.inner.len(file)
    }

    fn read_at(&mut self, file: u32, at: u64, into: &mut [u8]) -> Result<usize, Failed> {
        if self.passes == 0 {
            self.inner.refuse_disk();
            return Err(Failed);
        }
        self.inner.read_at(file, at, into)
    }

    fn write_at(&mut self, file: u32, at: u64, from: &[u8]) -> Result<(), OutFault> {
        if self.passes == 0 {
            self.inner.refuse_disk();
            return Err(OutFault::Failed);
        }
        self.passes -= 1;
        self.inner.write_at(file, at, from)
    }

    fn sync(&mut self, file: u32) -> Result<(), Failed> {
        if self.passes == 0 {
            self.inner.refuse_disk();
            return Err(Failed);
        }
        self.passes -= 1;
        self.inner.sync(file)
    }

    fn say(&mut self, from: &[u8]) -> Result<usize, OutFault> {
        if self.passes == 0 {
            self.inner.refuse_say();
            return Err(OutFault::Failed);
        }
        self.inner.say(from)
    }

    fn say_faults(&self) -> u64 {
        self.inner.say_faults()
    }

    fn disk_faults(&self) -> u64 {
        self.inner.disk_faults()
    }
}
