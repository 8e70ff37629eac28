//! A host in memory.
ghost use Rattle.std.specs.Prelude.{◌≡◌, refl, ◌⊎◌, ℕ, ◌+◌, ◌-◌, ◌<◌, ◌≤◌, min, Some, Option, [], ◌++◌, length, take, drop, MatchBool, IfOk, IfSome, OnOk, OnErr};
ghost use Rattle.coco_io.specs.Counts.{Rose, CountsWrite};
ghost use Rattle.coco_host.specs.Files.{Files, NoMore};
ghost use Rattle.coco_host.specs.Moments.{Observation, IsNew, Elapses};
ghost use Rattle.coco_host.specs.Record.{Event, said_of, files_of, MayLeave, SeenSince, seen_now, only_now, reads_left};
ghost use Rattle.coco_host.specs.HostState.{CountsDiskCall, SaysByPlan, IsAfterCrash, CutsFile};

use crate::Host;
use crate::recorded::Recorded;
use coco_io::FaultPlan;
use coco_types::limits::FILES_END;
use coco_types::{Failed, NoMemory, OutFault};
use std::alloc::Global;
use std::marker::Model;

/// A host in memory, with the calls that fail, and the record of its writes, syncs and says.
#[derive(Drop)]
pub struct MemoryHost {
    alloc: Global,
    past: Recorded,
    most: usize,
    plan: FaultPlan,
    disk_faults: u64,
    say_faults: u64,
}

impl Model for MemoryHost {
    ghost use Rattle.std.specs.Prelude.{◌<◌};
    ghost use Rattle.coco_host.specs.HostState.{HostState};

    ghost Value = { HostState };

    ghost view = { λ h. record { events = h.past; most = h.most; plan = h.plan; disk_faults = h.disk_faults; say_faults = h.say_faults } };

    ghost invariant = { λ h. 0 < h.most };
}

// A count that rose, or stands at its end.
pub fn raised(count: u64) -> u64
    ensures { Rose count result }
{
    count.saturating_add(1)
}

impl MemoryHost {
    /// The calls with the numbers in `fails` will fail, counted from 0 over all calls of the host.
    pub fn new(alloc: Global, fails: Vec<u64>) -> Self
        ensures { result ≡ record { events = []; most = usize.MAX; plan = record { fails = fails.items; calls = 0; faults = 0 }; disk_faults = 0; say_faults = 0 } }
    {
        MemoryHost {
            alloc,
            past: Recorded::new(alloc),
            most: usize::MAX,
            plan: FaultPlan::new(fails),
            disk_faults: 0,
            say_faults: 0,
        }
    }

    /// From here on a call of `say` says at most so many bytes.
    pub fn short_says(&mut self, most: u32)
        requires { 0 < most }
        ensures { self.new ≡ record self.old { most = most } }
    {
        self.most = most as usize;
    }

    /// The bytes said so far.
    pub fn said(&self) -> &[u8]
        ensures { result.now ≡ said_of self.now.events }
    {
        self.past.said()
    }

    /// Shortens a file while no call runs, as if that had been synced. Nothing changes where it isn't longer.
    pub fn cut(&mut self, file: u32, len: u64)
        ensures short { length (files_of self.old.events file) ≤ len → self.new ≡ self.old }
        ensures cut { len < length (files_of self.old.events file) → CutsFile file len self.old self.new }
    {
        if len < self.past.bytes(file).len() as u64 {
            self.past.cut(file, len as usize);
        }
    }

    /// One of the images that a crash at this moment may leave, as a host that has said nothing and whose calls
    /// don't fail. The digits of the pick to base 8, the last one first, say what becomes of one unsynced write after
    /// another, file by file:
    ///
    /// - 0: it is there; 1: it isn't; 7: all but its last byte is
    /// - 2: its range has zeroes; 3: its range has the byte 255
    /// - 4: its front half is there; 5: its back half is
    /// - 6: its bytes are in turn what was written, what stood before, 0 and 255
    ///
    /// Where nothing stood before that is 0, and of a write that was refused what stood before is there. A file
    /// ends where the last of these bytes stands.
    pub fn crash(self, pick: u64) -> Result<MemoryHost, NoMemory>
        ensures { IfOk result (λ host. IsAfterCrash self host) }
    {
        let past = self.past.crash(self.alloc, pick)?;
        let mut host = MemoryHost::new(self.alloc, Vec::new(self.alloc));
        host.past = past;
        Ok(host)
    }

    // Counts a call on files, and says whether it fails.
    fn disk_call_fails(&mut self) -> bool
        ensures { CountsDiskCall result self.old self.new }
    {
        let fails = self.plan.next_call();
        if fails {
            self.disk_faults = raised(self.disk_faults);
        }
        fails
    }

    // Fails a call on files, with nothing done.
    pub(crate) fn refuse_disk(&mut self)
        ensures faults { Rose self.old.disk_faults self.new.disk_faults }
        ensures rest { self.new ≡ record self.old { disk_faults = self.new.disk_faults } }
    {
        self.disk_faults = raised(self.disk_faults);
    }

    // Fails a say, with nothing said.
    pub(crate) fn refuse_say(&mut self)
        ensures faults { Rose self.old.say_faults self.new.say_faults }
        ensures rest { self.new ≡ record self.old { say_faults = self.new.say_faults } }
    {
        self.say_faults = raised(self.say_faults);
    }
}

impl Host for MemoryHost {
    ghost said = { λ h. Some (said_of h.events) };

    ghost say_faults = { λ h. h.say_faults };

    ghost disk_faults = { λ h. h.disk_faults };

    ghost reads = { λ h. Some (files_of h.events) };

    ghost may_leave = { λ h. MayLeave h.events };

    ghost moment = { λ h. length h.events };

    ghost observed = { λ h. SeenSince h.events };

    ghost seen_now = { λ h t seen le image said. seen_now h.events t seen le image said };

    ghost only_now = { λ h seen since. only_now h.events seen since };

    ghost reads_left = { λ h files are. reads_left h.events files are };

    ghost tells_both = { λ _ _ _. refl };

    fn len(&mut self, file: u32) -> Result<u64, Failed> {
        if self.disk_call_fails() {
            return Err(Failed);
        }
        Ok(self.past.bytes(file).len() as u64)
    }

    fn read_at(&mut self, file: u32, at: u64, into: &mut [u8]) -> Result<usize, Failed> {
        if self.disk_call_fails() {
            return Err(Failed);
        }
        Ok(copy_from(self.past.bytes(file), at, into))
    }

    // A call that fails may have torn what is there.
    fn write_at(&mut self, file: u32, at: u64, from: &[u8]) -> Result<(), OutFault> {
        if at >= FILES_END || FILES_END - at <= from.len() as u64 {
            return Err(OutFault::NoMemory);
        }
        if self.disk_call_fails() {
            self.past.tear(self.alloc, file, at as usize, from.len());
            return Err(OutFault::Failed);
        }
        let Ok(()) = self
            .past
            .write(self.alloc, file, at as usize, from.len(), from)
        else {
            return Err(OutFault::NoMemory);
        };
        Ok(())
    }

    fn sync(&mut self, file: u32) -> Result<(), Failed> {
        if self.disk_call_fails() {
            return Err(Failed);
        }
        self.past.sync(file);
        Ok(())
    }

    fn say(&mut self, from: &[u8]) -> Result<usize, OutFault>
        requires { 0 < length from.now }
        ensures count { IfOk result (λ k. k ≤ length from.now) }
        ensures some { IfOk result (λ k. 0 < k) }
        ensures bytes { IfOk result (λ k. said_of self.new.events ≡ said_of self.old.events ++ take k from.now) }
        ensures err { OnErr result (said_of self.new.events ≡ said_of self.old.events) }
        ensures same { files_of self.new.events ≡ files_of self.old.events }
        ensures crash { NoMore (MayLeave self.old.events) (MayLeave self.new.events) }
        ensures time { Elapses (length self.old.events) (length self.new.events) (SeenSince self.old.events) (SeenSince self.new.events) (IsNew (MayLeave self.new.events) (Some (said_of self.old.events)) (Some (said_of self.new.events))) }
        ensures counts { CountsWrite result self.old.say_faults self.new.say_faults }
        ensures others { self.new.disk_faults ≡ self.old.disk_faults }
        ensures plan { SaysByPlan result (length from.now) self.old self.new }
    {
        let count = from.len().min(self.most);
        if self.plan.next_call() {
            self.say_faults = raised(self.say_faults);
            return Err(OutFault::Failed);
        }
        let Ok(()) = self.past.say(self.alloc, &from[..count]) else {
            return Err(OutFault::NoMemory);
        };
        Ok(count)
    }

    fn say_faults(&self) -> u64 {
        self.say_faults
    }

    fn disk_faults(&self) -> u64 {
        self.disk_faults
    }
}

// Copies from a place of the bytes on as many as fit and are there.
fn copy_from(bytes: &[u8], at: u64, into: &mut [u8]) -> usize
    ensures count { result ≡ min (length into.old) (length bytes.now - at) }
    ensures copied { take result into.new ≡ take result (drop at bytes.now) }
{
    let start = at.min(bytes.len() as u64) as usize;
    let rest = &bytes[start..];
    let count = rest.len().min(into.len());
    into[..count].copy_from_slice(&rest[..count]);
    count
}
