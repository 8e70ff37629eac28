//! The files that a host in memory holds.
ghost use Rattle.std.specs.Prelude.{◌≡◌, ◌<◌, ◌≤◌, ℕ, length, IfOk, OnOk, OnErr, nat_eq};
ghost use Rattle.std.specs.List.{position_or_len};
ghost use Rattle.coco_host.specs.Files.{put};
ghost use Rattle.coco_host.specs.Recorded.{bytes_in, Same, Takes, Settles, Shortens};

use std::alloc::{AllocError, Global};

/// A file as it reads, and whether it has writes that weren't synced.
#[derive(Drop)]
pub struct MemoryFile {
    pub number: u32,
    pub bytes: Vec<u8>,
    pub unsynced: bool,
}

/// Puts bytes into a file, at a place that isn't behind its end.
pub fn put_bytes(file: &mut Vec<u8>, at: usize, bytes: &[u8]) -> Result<(), AllocError>
    requires { at ≤ length file.old.items }
    ensures ok { OnOk result (file.new.items ≡ put at bytes.now file.old.items) }
    ensures err { OnErr result (file.new.items ≡ file.old.items) }
{
    let inside = bytes.len().min(file.len() - at);
    file.extend_from_slice(&bytes[inside..])?;
    file[at..at + inside].copy_from_slice(&bytes[..inside]);
    Ok(())
}

/// The place of a file, behind all others where it isn't there.
fn place_of(files: &[MemoryFile], number: u32) -> usize
    ensures { result ≡ position_or_len (λ f. nat_eq f.number number) files.now }
{
    for (place, file) in files.iter().enumerate() {
        if file.number == number {
            return place;
        }
    }
    files.len()
}

/// The bytes of a file, none of one that was never written.
pub fn bytes_of(files: &[MemoryFile], number: u32) -> &[u8]
    ensures { result.now ≡ bytes_in number files.now }
{
    let place = place_of(files, number);
    if place < files.len() {
        files[place].bytes.as_slice()
    } else {
        &[]
    }
}

/// The place of a file, which is made where it isn't there.
pub fn place_for(
    files: &mut Vec<MemoryFile>,
    alloc: Global,
    number: u32,
) -> Result<usize, AllocError>
    ensures place { IfOk result (λ i. i ≡ position_or_len (λ f. nat_eq f.number number) files.new.items) }
    ensures within { IfOk result (λ i. i < length files.new.items) }
    ensures same { Same files.old.items files.new.items }
{
    let place = place_of(files, number);
    if place == files.len() {
        files.push(MemoryFile {
            number,
            bytes: Vec::new(alloc),
            unsynced: false,
        })?;
    }
    Ok(place)
}

/// Puts bytes into the file at a place, which has a write more to be synced.
pub fn take(
    files: &mut [MemoryFile],
    place: usize,
    at: usize,
    bytes: &[u8],
) -> Result<(), AllocError>
    requires within { place < length files.old }
    requires at { (number : ℕ) × (place ≡ position_or_len (λ f. nat_eq f.number number) files.old) × (at ≤ length (bytes_in number files.old)) }
    ensures ok { OnOk result ((number : ℕ) → place ≡ position_or_len (λ f. nat_eq f.number number) files.old
        → Takes number (put at bytes.now (bytes_in number files.old)) files.old files.new) }
    ensures err { OnErr result (Same files.old files.new) }
{
    let file = &mut files[place];
    put_bytes(&mut file.bytes, at, bytes)?;
    file.unsynced = true;
    Ok(())
}

/// Settles a file: its writes need no sync any more. Says whether it had such.
pub fn settle(files: &mut [MemoryFile], number: u32) -> bool
    ensures { Settles number result files.old files.new }
{
    let place = place_of(files, number);
    if place >= files.len() {
        return false;
    }
    let file = &mut files[place];
    let had = file.unsynced;
    file.unsynced = false;
    had
}

/// Lets a file have at most so many bytes.
pub fn shorten(files: &mut [MemoryFile], number: u32, len: usize)
    ensures { Shortens number len files.old files.new }
{
    let place = place_of(files, number);
    if place >= files.len() {
        return;
    }
    let file = &mut files[place];
    file.bytes.truncate(len);
}
