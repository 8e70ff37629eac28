//! An open file of a folder, and what came of the calls that answers rest on.
ghost use Rattle.std.specs.Prelude.{◌≡◌, ◌<◌, ◌≤◌, length, IfOk, IfSome};
ghost use Rattle.coco_types.specs.Limits.{files_end};
ghost use Rattle.coco_host.specs.FileCalls.{IsPlaceOf, Notes, NotesEnd, ReadsUpTo};
ghost use Rattle.coco_host.specs.declared.opened.FileCall.TheVariants.{Synced};

use coco_io::told::Told;
use std::fs::File;
use std::io::{self, ErrorKind};
use std::os::unix::fs::FileExt;

/// What came of a call on a folder's files, where an answer rests on it.
#[derive(Clone, Copy, Debug, PartialEq, Eq)]
pub enum FileCall {
    /// There was no file of this number.
    Absent(u32),
    /// A read of this file from this place on, with room, found no byte.
    Ended(u32, u64),
    /// The bytes of this file were synced.
    Synced(u32),
    /// This file's entry in the folder was synced, and the folder's own in the one above.
    Entered(u32),
}

/// An open file, and whether its entry in the folder is known to be durable.
#[derive(Drop)]
pub struct Opened {
    pub number: u32,
    pub file: File,
    pub is_entered: bool,
}

impl Opened {
    /// Reads from a place on until the buffer is full or the file ends. Short reads go on.
    pub fn read_all(
        &self,
        calls: &mut Told<FileCall>,
        at: u64,
        into: &mut [u8],
    ) -> io::Result<usize>
        requires { at < files_end }
        ensures count { IfOk result (λ k. k ≤ length into.old) }
        ensures read { ReadsUpTo self.now.number at (length into.old) result calls.old.items calls.new.items }
    {
        let mut done = 0;
        for _turn in 0..u64::MAX {
            if done >= into.len() {
                return Ok(done);
            }
            match self.read_once(calls, at + done as u64, &mut into[done..]) {
                Ok(0) => return Ok(done),
                Ok(count) => done += count,
                Err(error) if error.kind() == ErrorKind::Interrupted => {}
                Err(error) => return Err(error),
            }
        }
        Err(ErrorKind::Interrupted.into())
    }

    // One read into a buffer with room.
    fn read_once(&self, calls: &mut Told<FileCall>, at: u64, into: &mut [u8]) -> io::Result<usize>
        ensures count { IfOk result (λ k. k ≤ length into.old) }
        ensures same { length into.new ≡ length into.old }
        ensures noted { NotesEnd self.now.number at result calls.old.items calls.new.items }
    {
        let count = self.file.read_at(into, at)?;
        if count == 0 {
            calls.add(&[FileCall::Ended(self.number, at)]);
        }
        Ok(count)
    }

    /// Syncs the file's bytes.
    pub fn sync(&self, calls: &mut Told<FileCall>) -> io::Result<()>
        ensures { Notes (Synced self.now.number) result calls.old.items calls.new.items }
    {
        sync_all(&self.file)?;
        calls.add(&[FileCall::Synced(self.number)]);
        Ok(())
    }
}

/// The place of a file among those that are open.
pub fn place_of(files: &[Opened], number: u32) -> Option<usize>
    ensures { IfSome result (λ place. IsPlaceOf number place files.now) }
{
    for (place, opened) in files.iter().enumerate() {
        if opened.number == number {
            return Some(place);
        }
    }
    None
}

/// Syncs a file. A call that a signal cut short is made again.
pub fn sync_all(file: &File) -> io::Result<()> {
    for _turn in 0..u64::MAX {
        match file.sync_all() {
            Err(error) if error.kind() == ErrorKind::Interrupted => {}
            answer => return answer,
        }
    }
    Err(ErrorKind::Interrupted.into())
}
