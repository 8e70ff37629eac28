//! What a crash makes of the writes to a file that weren't synced.
ghost use Rattle.std.specs.Prelude.{◌≡◌, ℕ, ◌<◌, ◌≤◌, false, List, [], length, map, IfOk, OnOk, slice_index_or};
ghost use Rattle.coco_host.specs.Record.{Event, Stored, content, stored, IsImage};
ghost use Rattle.coco_host.specs.Recorded.{event_of, BeginsWithin, IsPlaced};
ghost use Rattle.coco_host.specs.Crash.{is_sync, read_after, IsLastSync, IsTornBy, IsTornFrom};

use crate::held::put_bytes;
use crate::recorded::Happening;
use std::alloc::{AllocError, Global};

// What a crash makes of a write.
#[derive(Clone, Copy)]
enum Fate {
    Whole,
    Lost,
    Zeroed,
    Strange,
    FrontHalf,
    BackHalf,
    InTurns,
    AllButLast,
}

/// A file as a crash leaves it, by the digits of the pick, as `MemoryHost::crash` tells.
pub fn image_of(
    alloc: Global,
    happened: &[Happening],
    file: u32,
    pick: &mut u64,
) -> Result<Vec<u8>, AllocError>
    requires { IsPlaced file (record { synced = []; unsynced = [] }) (map event_of happened.now) }
    ensures { IfOk result (λ v. IsImage (stored (map event_of happened.now) file) v.items) }
{
    let synced = last_sync(happened, file);
    let mut bytes = reading(alloc, &happened[..synced], file)?;
    tear_all(alloc, &mut bytes, &happened[synced..], file, pick)?;
    Ok(bytes)
}

// How many events there were when the file was last synced.
fn last_sync(happened: &[Happening], file: u32) -> usize
    ensures { IsLastSync file (map event_of happened.now) result }
{
    let mut last = 0;
    for (place, event) in happened.iter().enumerate() {
        if is_sync_of(event, file) {
            last = place + 1;
        }
    }
    last
}

fn is_sync_of(event: &Happening, file: u32) -> bool
    ensures { result ≡ is_sync file (event_of event.now) }
{
    match event {
        Happening::Synced(number) => file == *number,
        _ => false,
    }
}

// A file as it reads after these events.
fn reading(alloc: Global, happened: &[Happening], file: u32) -> Result<Vec<u8>, AllocError>
    requires { IsPlaced file (record { synced = []; unsynced = [] }) (map event_of happened.now) }
    ensures { IfOk result (λ v. v.items ≡ content (stored (map event_of happened.now) file)) }
{
    let mut bytes = Vec::new(alloc);
    for event in happened {
        write_again(&mut bytes, event, file)?;
    }
    Ok(bytes)
}

// Makes a write to the file again.
fn write_again(bytes: &mut Vec<u8>, event: &Happening, file: u32) -> Result<(), AllocError>
    requires { BeginsWithin file bytes.old.items (event_of event.now) }
    ensures { OnOk result (bytes.new.items ≡ read_after file (event_of event.now) bytes.old.items) }
{
    match event {
        Happening::Wrote {
            file: number,
            at,
            count: _,
            bytes: written,
        } => {
            if file != *number {
                return Ok(());
            }
            put_bytes(bytes, *at, written)
        }
        _ => Ok(()),
    }
}

// Cuts short each write to the file in these events, of which none syncs it.
fn tear_all(
    alloc: Global,
    bytes: &mut Vec<u8>,
    happened: &[Happening],
    file: u32,
    pick: &mut u64,
) -> Result<(), AllocError>
    requires { (k : ℕ) (e : Event) → k < length happened.now → is_sync file (slice_index_or (map event_of happened.now) k e) ≡ false }
    ensures { OnOk result (IsTornFrom file bytes.old.items (map event_of happened.now) bytes.new.items) }
{
    for event in happened {
        tear(alloc, bytes, event, file, pick)?;
    }
    Ok(())
}

// Cuts a write to the file short. Nothing of it is there where it began behind the end of what is left.
fn tear(
    alloc: Global,
    bytes: &mut Vec<u8>,
    event: &Happening,
    file: u32,
    pick: &mut u64,
) -> Result<(), AllocError>
    ensures { OnOk result (IsTornBy file (event_of event.now) bytes.old.items bytes.new.items) }
{
    match event {
        Happening::Wrote {
            file: number,
            at,
            count,
            bytes: written,
        } => {
            if file != *number || *at > bytes.len() {
                return Ok(());
            }
            let torn = torn_bytes(alloc, fate_of(*pick), *count, written, &bytes[*at..])?;
            *pick /= 8;
            put_bytes(bytes, *at, &torn)
        }
        _ => Ok(()),
    }
}

// What the last digit to base 8 says.
fn fate_of(pick: u64) -> Fate {
    match pick % 8 {
        0 => Fate::Whole,
        1 => Fate::Lost,
        2 => Fate::Zeroed,
        3 => Fate::Strange,
        4 => Fate::FrontHalf,
        5 => Fate::BackHalf,
        6 => Fate::InTurns,
        _ => Fate::AllButLast,
    }
}

// What stands in the range of a write afterwards, as far as it got, from what was written and what stood there.
fn torn_bytes(
    alloc: Global,
    fate: Fate,
    count: usize,
    written: &[u8],
    before: &[u8],
) -> Result<Vec<u8>, AllocError>
    ensures { IfOk result (λ v. length v.items ≤ count) }
{
    let mut torn = Vec::new(alloc);
    let reach = reach_of(fate, count);
    for place in 0..reach {
        let was = byte_at(before, place, 0);
        let wrote = byte_at(written, place, was);
        torn.push(byte_of(fate, place, count / 2, was, wrote))?;
    }
    Ok(torn)
}

// How far a write got.
fn reach_of(fate: Fate, count: usize) -> usize
    ensures { result ≤ count }
{
    match fate {
        Fate::Lost => 0,
        Fate::FrontHalf => count / 2,
        Fate::AllButLast => count.saturating_sub(1),
        _ => count,
    }
}

// A byte of the range.
fn byte_of(fate: Fate, place: usize, half: usize, was: u8, wrote: u8) -> u8 {
    match fate {
        Fate::Zeroed => 0,
        Fate::Strange => u8::MAX,
        Fate::BackHalf if place < half => was,
        Fate::InTurns => match place % 4 {
            0 => wrote,
            1 => was,
            2 => 0,
            _ => u8::MAX,
        },
        _ => wrote,
    }
}

// The byte at a place, or another where there is none.
fn byte_at(bytes: &[u8], place: usize, other: u8) -> u8 {
    bytes.get(place).copied().unwrap_or(other)
}
