//! A log's bytes as they are written and read.

use crate::made::{has_bytes, host_with};
use coco_host::MemoryHost;
use coco_log::{Entries, Log, LogFault};
use std::alloc::Global;
use std::test::Fail;

// A log of kind 1 with the entries `ab` and an empty one.
const TWO_ENTRIES: [u8; 21] = *b"COCOLOG\x01\x01\x00\x00\x00\x02ab\x01\x00\x00\x00\x00\x00";

// Makes such a log.
fn append_two(alloc: Global, host: &mut MemoryHost) -> Result<Log, LogFault> {
    let mut log = Log::make(alloc, host, 2, 1)?;
    log.append(host, b"ab")?;
    log.append(host, b"")?;
    Ok(log)
}

fn is_appended(alloc: Global) -> Result<bool, LogFault> {
    let mut host = MemoryHost::new(alloc, Vec::new(alloc));
    let log = append_two(alloc, &mut host)?;
    Ok(log.count() == 2 && !log.spent() && has_bytes(&mut host, 2, &TWO_ENTRIES))
}

#[test]
fn entries_stand_behind_open_gates(rt: HostRuntime) -> Result<(), Fail> {
    assert!(rt; is_appended(rt.alloc())?);
    Ok(())
}

// Whether there is a next entry, with this body at this place.
fn is_next(
    host: &mut MemoryHost,
    entries: &mut Entries,
    body: &[u8],
    place: u64,
) -> Result<bool, LogFault> {
    Ok(entries.next(host)? && entries.body() == body && entries.place() == place)
}

// Whether there is no next entry behind these two.
fn is_end(host: &mut MemoryHost, mut entries: Entries) -> Result<bool, LogFault> {
    let is_end = !entries.next(host)? && entries.gate() == 20;
    Ok(entries.into_log().count() == 2 && is_end)
}

fn are_read(alloc: Global, host: &mut MemoryHost) -> Result<bool, LogFault> {
    let mut entries = Entries::open(alloc, host, 2, 1)?;
    let is_first = is_next(host, &mut entries, b"ab", 13)?;
    let is_second = is_next(host, &mut entries, b"", 20)?;
    Ok(is_end(host, entries)? && is_first && is_second)
}

#[test]
fn entries_are_read_in_order(rt: HostRuntime) -> Result<(), Fail> {
    let mut host = host_with(rt.alloc(), &[(2, &TWO_ENTRIES)])?;
    assert!(rt; are_read(rt.alloc(), &mut host)?);
    Ok(())
}

// Opens a log and appends an entry.
fn go_on(alloc: Global, host: &mut MemoryHost) -> Result<Log, LogFault> {
    let mut log = Log::reopen(alloc, host, 0, 1)?;
    log.append(host, b"c")?;
    Ok(log)
}

// Whether a log has an entry of this number, and with this body.
fn has_entry(
    alloc: Global,
    host: &mut MemoryHost,
    log: &mut Log,
    number: u64,
    body: &[u8],
) -> Result<bool, LogFault> {
    if number < log.count() {
        Ok(log.entry(alloc, host, number)?.as_slice() == body)
    } else {
        Ok(false)
    }
}

// Whether an entry is appended behind the one that is there.
fn goes_on(alloc: Global, host: &mut MemoryHost) -> Result<bool, LogFault> {
    let mut log = go_on(alloc, host)?;
    let is_first = has_entry(alloc, host, &mut log, 0, b"ab")?;
    let is_second = has_entry(alloc, host, &mut log, 1, b"c")?;
    Ok(log.count() == 2 && is_first && is_second)
}

#[test]
fn a_log_is_opened_whatever_stands_behind_its_last_gate(rt: HostRuntime) -> Result<(), Fail> {
    let bytes = b"COCOLOG\x01\x01\x00\x00\x00\x02ab\x02\x01\x00\x09";
    let mut host = host_with(rt.alloc(), &[(0, bytes)])?;
    assert!(rt; goes_on(rt.alloc(), &mut host)?);
    Ok(())
}

// Whether a log's first entry can't be had of this host.
fn lacks_first(alloc: Global, host: &mut MemoryHost, log: &mut Log, fault: LogFault) -> bool {
    log.count() > 0 && log.entry(alloc, host, 0).err() == Some(fault)
}

// The file has been cut since the log was opened, or can't be read any more.
#[test]
fn an_entry_that_is_gone_is_told_at_its_gate(rt: HostRuntime) -> Result<(), Fail> {
    let mut host = host_with(rt.alloc(), &[(2, &TWO_ENTRIES)])?;
    let mut log = Log::reopen(rt.alloc(), &mut host, 2, 1)?;
    let mut cut = host_with(rt.alloc(), &[(2, &TWO_ENTRIES[..14])])?;
    let mut failing = MemoryHost::new(rt.alloc(), Vec::from_slice(rt.alloc(), &[0])?);
    let is_cut = lacks_first(rt.alloc(), &mut cut, &mut log, LogFault::NotALog { at: 8 });
    let is_failing = lacks_first(rt.alloc(), &mut failing, &mut log, LogFault::Disk);
    assert!(rt; is_cut && is_failing);
    Ok(())
}
