//! The files and the stream of a host in memory, with the record of what happened to them.
ghost use Rattle.std.specs.Prelude.{◌≡◌, ◌≢◌, ◌⊎◌, ◌+◌, ◌≤◌, ◌<◌, List, ℕ, [], ◌∷◌, ◌++◌, length, map, take, IfOk, OnOk, OnErr};
ghost use Rattle.coco_host.specs.Files.{put};
ghost use Rattle.coco_host.specs.Record.{Write, Event, Stored, content, stored, said_of, files_of, MayLeave};
ghost use Rattle.coco_host.specs.Record.Event.{Wrote, Synced, Said};
ghost use Rattle.coco_host.specs.Recorded.{event_of, cut_event};

use crate::crash::image_of;
use crate::held::{self, MemoryFile};
use std::alloc::{AllocError, Global};
use std::marker::Model;

/// What happened to the files or to the stream.
#[derive(Drop)]
pub enum Happening {
    Wrote {
        file: u32,
        at: usize,
        count: usize,
        bytes: Vec<u8>,
    },
    Synced(u32),
    Said(Vec<u8>),
}

/// Files and a stream of replies, with all that happened to them.
#[derive(Drop)]
pub struct Recorded {
    happened: Vec<Happening>,
    files: Vec<MemoryFile>,
    said: Vec<u8>,
}

impl Model for Recorded {
    ghost use Rattle.std.specs.Prelude.{List, map};
    ghost use Rattle.coco_host.specs.Record.{Event};
    ghost use Rattle.coco_host.specs.Recorded.{event_of, IsRecorded};

    ghost Value = { List Event };

    ghost view = { λ r. map event_of r.happened.items };

    ghost invariant = { λ r. IsRecorded r.happened r.files.items r.said.items };
}

impl Recorded {
    /// Empty files, and nothing said.
    pub fn new(alloc: Global) -> Self
        ensures { result ≡ [] }
    {
        Recorded {
            happened: Vec::new(alloc),
            files: Vec::new(alloc),
            said: Vec::new(alloc),
        }
    }

    /// The bytes said so far.
    pub fn said(&self) -> &[u8]
        ensures { result.now ≡ said_of self.now }
    {
        self.said.as_slice()
    }

    /// A file as it reads.
    pub fn bytes(&self, file: u32) -> &[u8]
        ensures { result.now ≡ content (stored self.now file) }
    {
        held::bytes_of(&self.files, file)
    }

    /// Writes bytes into the front of a range.
    pub fn write(
        &mut self,
        alloc: Global,
        file: u32,
        at: usize,
        count: usize,
        bytes: &[u8],
    ) -> Result<(), AllocError>
        requires { at ≤ length (content (stored self.old file)) }
        ensures ok { OnOk result (self.new ≡ self.old ++ Wrote (record { file = file; at = at; count = count; bytes = bytes.now }) ∷ []) }
        ensures err { OnErr result (self.new ≡ self.old) }
    {
        let place = held::place_for(&mut self.files, alloc, file)?;
        self.happened.reserve(self.files.len() + 1)?;
        let copy = bytes.to_vec(alloc)?;
        held::take(&mut self.files, place, at, bytes)?;
        let _ = self.happened.push(Happening::Wrote {
            file,
            at,
            count,
            bytes: copy,
        });
        Ok(())
    }

    /// A write that is cut short: the range counts as written, where the record has memory for it.
    pub fn tear(&mut self, alloc: Global, file: u32, at: usize, count: usize)
        requires { at ≤ length (content (stored self.old file)) }
        ensures { (self.new ≡ self.old ++ Wrote (record { file = file; at = at; count = count; bytes = [] }) ∷ []) ⊎ (self.new ≡ self.old) }
    {
        let _ = self.write(alloc, file, at, count, &[]);
    }

    /// Syncs a file. Nothing happens where it has no write to be synced.
    pub fn sync(&mut self, file: u32)
        ensures { (self.new ≡ self.old ++ Synced file ∷ []) ⊎ ((self.new ≡ self.old) × ((stored self.old file).unsynced ≡ [])) }
    {
        if held::settle(&mut self.files, file) {
            let _ = self.happened.push(Happening::Synced(file));
        }
    }

    /// Says bytes.
    pub fn say(&mut self, alloc: Global, bytes: &[u8]) -> Result<(), AllocError>
        ensures ok { OnOk result (self.new ≡ self.old ++ Said bytes.now ∷ []) }
        ensures err { OnErr result (self.new ≡ self.old) }
    {
        let copy = bytes.to_vec(alloc)?;
        self.happened.reserve(self.files.len() + 1)?;
        self.said.extend_from_slice(bytes)?;
        let _ = self.happened.push(Happening::Said(copy));
        Ok(())
    }

    /// Shortens a file that is longer, as if it had never been, and syncs it.
    pub fn cut(&mut self, file: u32, len: usize)
        requires { len < length (content (stored self.old file)) }
        ensures cut { stored self.new file ≡ (record { synced = take len (content (stored self.old file)); unsynced = [] }) }
        ensures elsewhere { (n : ℕ) → n ≢ file → stored self.new n ≡ stored self.old n }
        ensures said { said_of self.new ≡ said_of self.old }
    {
        cut_all(&mut self.happened, file, len);
        held::shorten(&mut self.files, file, len);
        self.sync(file);
    }

    /// The files as a crash leaves them, by a pick, with nothing said.
    pub fn crash(&self, alloc: Global, mut pick: u64) -> Result<Recorded, AllocError>
        ensures image { IfOk result (λ left. MayLeave self.now (files_of left)) }
        ensures durable { IfOk result (λ left. (n : ℕ) → (stored left n).unsynced ≡ []) }
        ensures silent { IfOk result (λ left. said_of left ≡ []) }
    {
        let mut left = Recorded::new(alloc);
        for file in &self.files {
            // What is there already came from the first file of this number.
            if left.bytes(file.number).is_empty() {
                let bytes = image_of(alloc, &self.happened, file.number, &mut pick)?;
                left.fill(alloc, file.number, &bytes)?;
            }
        }
        Ok(left)
    }

    // Gives a file that has none its bytes, synced.
    fn fill(&mut self, alloc: Global, file: u32, bytes: &[u8]) -> Result<(), AllocError>
        requires { content (stored self.old file) ≡ [] }
        ensures filled { OnOk result (stored self.new file ≡ (record { synced = bytes.now; unsynced = [] })) }
        ensures elsewhere { OnOk result ((n : ℕ) → n ≢ file → stored self.new n ≡ stored self.old n) }
        ensures said { OnOk result (said_of self.new ≡ said_of self.old) }
    {
        self.write(alloc, file, 0, bytes.len(), bytes)?;
        self.sync(file);
        Ok(())
    }
}

// Makes the writes to a file what they were had it never been longer.
fn cut_all(happened: &mut [Happening], file: u32, len: usize)
    ensures { map event_of happened.new ≡ map (cut_event file len) (map event_of happened.old) }
{
    for event in happened.iter_mut() {
        cut_write(event, file, len);
    }
}

// The same of one event.
fn cut_write(event: &mut Happening, file: u32, len: usize)
    ensures { event_of event.new ≡ cut_event file len (event_of event.old) }
{
    if let Happening::Wrote {
        file: number,
        at,
        bytes,
        count: _,
    } = event
    {
        if file == *number {
            bytes.truncate(len.saturating_sub(*at));
            *at = len.min(*at);
        }
    }
}
