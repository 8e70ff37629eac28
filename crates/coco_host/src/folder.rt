//! The host over a folder of the machine, with a writer as its reply stream.
ghost use Rattle.std.specs.Prelude.{◌≡◌, ◌<◌, ◌≤◌, length, None, Ok, IfOk, OnOk};
ghost use Rattle.coco_io.specs.Counts.{CountsRead};
ghost use Rattle.std.proofs.Common.{subst};
ghost use Rattle.coco_host.specs.FileCalls.{IsReadBy, IsSyncedBy};
ghost use Rattle.coco_host.specs.Moments.{IsUntold};
ghost use Rattle.coco_types.specs.Limits.{files_end};

use crate::Host;
use crate::files::{Folder, Purpose};
use crate::memory::raised;
use coco_io::stream::SteadyWrite;
use coco_io::{Sink, WriterSink};
use coco_types::{Failed, NoMemory, OutFault};
use std::io;

/// A store's folder, with a writer as the stream that its replies leave by, the standard output say. File n is
/// `n.coco` in it. It doesn't tell what its files hold; what was said is what the writer holds, where that tells it.
#[derive(Drop)]
pub struct FolderHost<W> {
    folder: Folder,
    replies: WriterSink<W>,
    disk_faults: u64,
}

impl<W: SteadyWrite + Drop> FolderHost<W> {
    /// The host over the folder of this name, which says its replies to this writer. Where the folder is only to be
    /// read, each write fails.
    pub fn new(
        rt: HostRuntime,
        folder: &str,
        purpose: Purpose,
        replies: W,
    ) -> Result<FolderHost<W>, NoMemory>
        ensures folder { IfOk result (λ host. host.folder.name ≡ folder.now) }
        ensures purpose { IfOk result (λ host. host.folder.purpose ≡ purpose) }
        ensures said { IfOk result (λ host. ⟦<FolderHost<W> as Host>⟧.said host ≡ W.contents replies) }
        ensures say_faults { IfOk result (λ host. ⟦<FolderHost<W> as Host>⟧.say_faults host ≡ 0) }
        ensures disk_faults { IfOk result (λ host. ⟦<FolderHost<W> as Host>⟧.disk_faults host ≡ 0) }
    {
        Ok(FolderHost {
            folder: Folder::new(rt, String::from_str(rt.alloc(), folder)?, purpose),
            replies: WriterSink::over(replies),
            disk_faults: 0,
        })
    }

    // Counts a call on files that failed.
    fn counted<T: Drop>(&mut self, answer: io::Result<T>) -> Result<T, Failed>
        ensures counts { CountsRead result self.old.disk_faults self.new.disk_faults }
        ensures rest { self.new ≡ record self.old { disk_faults = self.new.disk_faults } }
        ensures same { IfOk result (λ x. answer ≡ Ok x) }
    {
        match answer {
            Ok(x) => Ok(x),
            Err(_) => {
                self.disk_faults = raised(self.disk_faults);
                Err(Failed)
            }
        }
    }
}

impl<W: SteadyWrite + Drop> Host for FolderHost<W> {
    ghost said = { λ h. W.contents h.replies.writer };

    ghost say_faults = { λ h. h.replies.faults };

    ghost disk_faults = { λ h. h.disk_faults };

    ghost reads = { λ _. None };

    ghost may_leave = { λ _ _. ⊥ };

    ghost moment = { λ _. 0 };

    ghost observed = { λ _ _ _. ⊥ };

    ghost seen_now = { λ _ _ _ _ image _. image };

    ghost only_now = { λ _ _ since. absurd since };

    ghost reads_left = { λ _ _ is. subst IsUntold is tt };

    ghost tells_both = { λ _ _ is. absurd (subst IsUntold is tt) };

    fn len(&mut self, file: u32) -> Result<u64, Failed> {
        let answer = self.folder.len(file);
        self.counted(answer)
    }

    fn read_at(&mut self, file: u32, at: u64, into: &mut [u8]) -> Result<usize, Failed>
        ensures count { IfOk result (λ k. k ≤ length into.old) }
        ensures counts { CountsRead result self.old.disk_faults self.new.disk_faults }
        ensures rest { self.new ≡ record self.old { folder = self.new.folder; disk_faults = self.new.disk_faults } }
        ensures end { IfOk result (λ k. at < files_end → IsReadBy file at (length into.old) k self.old.folder.calls self.new.folder.calls) }
    {
        let answer = self.folder.read_at(file, at, into);
        self.counted(answer)
    }

    fn write_at(&mut self, file: u32, at: u64, from: &[u8]) -> Result<(), OutFault> {
        let answer = self.folder.write_at(file, at, from);
        match self.counted(answer) {
            Ok(()) => Ok(()),
            Err(Failed) => Err(OutFault::Failed),
        }
    }

    fn sync(&mut self, file: u32) -> Result<(), Failed>
        ensures counts { CountsRead result self.old.disk_faults self.new.disk_faults }
        ensures rest { self.new ≡ record self.old { folder = self.new.folder; disk_faults = self.new.disk_faults } }
        ensures synced { OnOk result (IsSyncedBy file self.old.folder.calls self.new.folder.calls) }
    {
        let answer = self.folder.sync(file);
        self.counted(answer)
    }

    fn say(&mut self, from: &[u8]) -> Result<usize, OutFault> {
        self.replies.write(from)
    }

    fn say_faults(&self) -> u64 {
        self.replies.faults()
    }

    fn disk_faults(&self) -> u64 {
        self.disk_faults
    }
}
