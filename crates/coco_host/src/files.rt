//! The files of a folder of the machine.
ghost use Rattle.std.specs.Prelude.{◌≡◌, ◌+◌, ◌<◌, ◌≤◌, [], length, string_bytes, IfOk, OnOk};
ghost use Rattle.coco_types.specs.Limits.{files_end};
ghost use Rattle.coco_host.specs.FileCalls.{Finds, IsReadBy, IsSyncedBy, Makes, Notes};
ghost use Rattle.coco_host.specs.declared.opened.FileCall.TheVariants.{Entered};
ghost use Rattle.coco_host.specs.declared.files.Purpose.TheVariants.{Writing};

use crate::limit::most_file_bytes;
use crate::opened::{FileCall, Opened, place_of, sync_all};
use coco_io::told::Told;
use coco_types::limits::FILES_END;
use std::fs::{self, File, Metadata, OpenFile, OpenOptions};
use std::io::{self, ErrorKind};
use std::marker::Model;
use std::os::fd::AsRawFd;
use std::os::unix::fs::{FileExt, MetadataExt};

/// What a folder's files are wanted for.
#[derive(Clone, Copy, Debug, PartialEq, Eq)]
pub enum Purpose {
    /// To be read alone, by others too.
    Reading,
    /// To be read and written, by nobody else.
    Writing,
}

/// A folder of the machine and its open files. The folder is locked from the first use of a file on, or
/// from the moment that it is made: against all others where it is written, and else against those that write. A
/// folder that another program makes in between, or in its place, is left alone.
#[derive(Drop)]
pub struct Folder {
    rt: HostRuntime,
    name: String,
    purpose: Purpose,
    held: Option<File>,
    was_absent: bool,
    most_file_bytes: u64,
    files: Vec<Opened>,
    calls: Told<FileCall>,
}

impl Model for Folder {
    ghost use Rattle.std.specs.Prelude.{string_bytes};
    ghost use Rattle.coco_host.specs.FileCalls.{FolderState, HaveEntered};

    ghost Value = { FolderState };

    ghost view = { λ f. record { name = string_bytes f.name; purpose = f.purpose; files = f.files.items; calls = f.calls.items } };

    ghost invariant = { λ f. HaveEntered f.calls.items f.files.items };
}

impl Folder {
    /// The folder of this name. Nothing is opened yet.
    pub fn new(rt: HostRuntime, name: String, purpose: Purpose) -> Folder
        ensures { result ≡ record { name = string_bytes name; purpose = purpose; files = []; calls = [] } }
    {
        Folder {
            rt,
            name,
            purpose,
            held: None,
            was_absent: false,
            most_file_bytes: FILES_END,
            files: Vec::new(rt.alloc()),
            calls: Told::new(),
        }
    }

    /// The length of a file, 0 where it isn't there.
    pub fn len(&mut self, number: u32) -> io::Result<u64> {
        match self.find(number)? {
            Some(place) => Ok(self.files[place].file.metadata()?.len()),
            None => Ok(0),
        }
    }

    /// Reads as many bytes as fit and are there.
    pub fn read_at(&mut self, number: u32, at: u64, into: &mut [u8]) -> io::Result<usize>
        ensures count { IfOk result (λ k. k ≤ length into.old) }
        ensures end { IfOk result (λ k. at < files_end → IsReadBy number at (length into.old) k self.old.calls self.new.calls) }
    {
        match self.find(number)? {
            Some(place) if at < FILES_END => {
                self.files[place].read_all(&mut self.calls, at, into)
            }
            _ => Ok(0),
        }
    }

    /// Writes the whole piece into a file, which is made where it isn't there.
    pub fn write_at(&mut self, number: u32, at: u64, from: &[u8]) -> io::Result<()>
        ensures end { OnOk result (at + length from.now < FILES_END) }
        ensures purpose { OnOk result (self.old.purpose ≡ Writing) }
    {
        if self.purpose == Purpose::Reading {
            return Err(ErrorKind::PermissionDenied.into());
        }
        if at >= FILES_END || FILES_END - at <= from.len() as u64 {
            return Err(ErrorKind::InvalidInput.into());
        }
        let place = match self.find(number)? {
            Some(place) => place,
            None => self.make(number)?,
        };
        if self.most_file_bytes < at + from.len() as u64 {
            return Err(ErrorKind::FileTooLarge.into());
        }
        self.files[place].file.write_all_at(from, at)
    }

    /// Syncs a file, and before the first time the folder's entry for it and the folder's own.
    pub fn sync(&mut self, number: u32) -> io::Result<()>
        ensures { OnOk result (IsSyncedBy number self.old.calls self.new.calls) }
    {
        let Some(place) = self.find(number)? else {
            return Ok(());
        };
        self.files[place].sync(&mut self.calls)?;
        if !self.files[place].is_entered {
            self.enter(number)?;
            self.files[place].is_entered = true;
        }
        Ok(())
    }

    // The place of a file among those that are open, none where it isn't there.
    fn find(&mut self, number: u32) -> io::Result<Option<usize>>
        ensures { Finds number result self.old self.new }
    {
        if let Some(place) = place_of(&self.files, number) {
            return Ok(Some(place));
        }
        if !self.hold()? {
            self.calls.add(&[FileCall::Absent(number)]);
            return Ok(None);
        }
        let path = format!(in self.rt.alloc(); "{}/{number}.coco", self.name.as_str())?;
        match OpenOptions::new()
            .read(true)
            .write(self.purpose == Purpose::Writing)
            .open(&self.rt, path.as_str())
        {
            Ok(file) => Ok(Some(self.keep(number, file)?)),
            Err(error) if error.kind() == ErrorKind::NotFound => {
                self.calls.add(&[FileCall::Absent(number)]);
                Ok(None)
            }
            Err(error) => Err(error),
        }
    }

    // Makes a file, and the folder where it isn't there.
    fn make(&mut self, number: u32) -> io::Result<usize>
        ensures { Makes number result self.old self.new }
    {
        if !self.hold()? {
            fs::create_dir(&self.rt, self.name.as_str())?;
            let folder = File::open(&self.rt, self.name.as_str())?;
            self.lock(folder)?;
        }
        let path = format!(in self.rt.alloc(); "{}/{number}.coco", self.name.as_str())?;
        // A new file alone: another program may have had the new folder before it was locked.
        let file = OpenOptions::new()
            .read(true)
            .write(true)
            .create_new(true)
            .open(&self.rt, path.as_str())?;
        self.keep(number, file)
    }

    // Locks the folder, and says whether it is there.
    fn hold(&mut self) -> io::Result<bool>
        ensures { self.new ≡ self.old }
    {
        if self.held.is_some() {
            return Ok(true);
        }
        match File::open(&self.rt, self.name.as_str()) {
            // A caller was told that no file has a byte, and may rest on it.
            Ok(_) if self.was_absent => Err(ErrorKind::AlreadyExists.into()),
            Ok(folder) => {
                self.lock(folder)?;
                Ok(true)
            }
            Err(error) if error.kind() == ErrorKind::NotFound => {
                self.was_absent = true;
                Ok(false)
            }
            Err(error) => Err(error),
        }
    }

    // Locks the folder for as long as this value lives.
    fn lock(&mut self, folder: File) -> io::Result<()>
        ensures { self.new ≡ self.old }
    {
        let folder = above_streams(folder)?;
        match self.purpose {
            Purpose::Reading => folder.try_lock_shared()?,
            Purpose::Writing => {
                folder.try_lock()?;
                self.most_file_bytes = most_file_bytes(self.rt)?.unwrap_or(FILES_END);
            }
        }
        self.held = Some(folder);
        Ok(())
    }

    // Keeps an open file, and answers its place.
    fn keep(&mut self, number: u32, file: File) -> io::Result<usize>
        ensures { Makes number result self.old self.new }
    {
        self.expect_same()?;
        let place = self.files.len();
        self.files.push(Opened {
            number,
            file: above_streams(file)?,
            is_entered: false,
        })?;
        Ok(place)
    }

    // The name is still that of the folder that is locked. A file that was opened by it is then in that one.
    fn expect_same(&self) -> io::Result<()> {
        let there = fs::metadata(&self.rt, self.name.as_str())?;
        match &self.held {
            Some(folder) if is_same(&folder.metadata()?, &there) => Ok(()),
            _ => Err(ErrorKind::NotFound.into()),
        }
    }

    // Makes the entries of the folder durable, and its own in the folder above, for this file's sake.
    fn enter(&mut self, number: u32) -> io::Result<()>
        ensures files { self.new.files ≡ self.old.files }
        ensures noted { Notes (Entered number) result self.old.calls self.new.calls }
    {
        if let Some(folder) = &self.held {
            sync_all(folder)?;
        }
        let above = format!(in self.rt.alloc(); "{}/..", self.name.as_str())?;
        sync_all(&File::open(&self.rt, above.as_str())?)?;
        self.calls.add(&[FileCall::Entered(number)]);
        Ok(())
    }
}

fn is_same(one: &Metadata, other: &Metadata) -> bool {
    one.dev() == other.dev() && one.ino() == other.ino()
}

// What is meant for a standard stream that was closed must not land in a file.
fn above_streams(file: File) -> io::Result<File> {
    if file.as_raw_fd() <= 2 {
        file.try_clone()
    } else {
        Ok(file)
    }
}
