//! Hosts say pieces however they are cut, and keep files.
ghost use Rattle.std.specs.Prelude.{◌<◌};

use coco_host::{FolderHost, FuseHost, Host, MemoryHost, Purpose, say_all};
use coco_types::{Failed, NoMemory, OutFault};
use std::alloc::Global;
use std::fs;
use std::io::Stdout;
use std::test::Fail;

// A call of a host: a file's front is written, it is synced, it has this length or these bytes from a place on up to its
// end, at most ten, or a piece is said.
#[derive(Clone, Copy)]
enum Call<'a> {
    Writes(u32, &'a [u8]),
    Syncs(u32),
    Measures(u32, u64),
    Reads(u32, u64, &'a [u8]),
    Says(&'a [u8]),
}

use Call::{Measures, Reads, Says, Syncs, Writes};

fn holds<H: Host>(host: &mut H, file: u32, at: u64, bytes: &[u8]) -> bool {
    let mut into = [0; 10];
    host.read_at(file, at, &mut into) == Ok(bytes.len()) && into.starts_with(bytes)
}

// Whether a call is answered, and so.
fn does<H: Host>(host: &mut H, call: &Call<'_>) -> bool {
    match call {
        Writes(file, bytes) => host.write_at(*file, 0, bytes) == Ok(()),
        Syncs(file) => host.sync(*file) == Ok(()),
        Measures(file, len) => host.len(*file) == Ok(*len),
        Reads(file, at, bytes) => holds(host, *file, *at, bytes),
        Says(piece) => say_all(host, piece) == Ok(()),
    }
}

// Whether all of these calls are answered so, or none is.
fn does_all<H: Host>(host: &mut H, calls: &[Call<'_>], answered: bool) -> bool {
    for call in calls {
        if does(host, call) != answered {
            return false;
        }
    }
    true
}

// Whether so many calls failed on the stream of replies and on files.
fn has_failed<H: Host>(host: &H, says: u64, files: u64) -> bool {
    host.say_faults() == says && host.disk_faults() == files
}

fn in_memory(alloc: Global, failing: &[u64]) -> Result<MemoryHost, NoMemory> {
    Ok(MemoryHost::new(alloc, Vec::from_slice(alloc, failing)?))
}

// Whether a host in memory that says so many bytes a call says a piece.
fn says_shortly(alloc: Global, most: u32) -> bool
    requires { 0 < most }
{
    let mut host = MemoryHost::new(alloc, Vec::new(alloc));
    host.short_says(most);
    does(&mut host, &Says(b"answer")) && host.said() == b"answer".as_slice()
}

#[test]
fn a_host_says_a_piece_however_it_is_cut(rt: HostRuntime) {
    for most in [1, 3, 100] {
        assert!(rt; says_shortly(rt.alloc(), most), "{most} bytes a call");
    }
}

#[test]
fn a_file_reads_as_it_was_written(rt: HostRuntime) -> Result<(), Fail> {
    let calls = [
        Measures(7, 0),
        Writes(7, b"a number"),
        Writes(7, b"letters"),
        Syncs(7),
        Measures(7, 8),
        Reads(7, 2, b"ttersr"),
        Reads(7, 6, b"sr"),
    ];
    let mut host = in_memory(rt.alloc(), &[])?;
    assert!(rt; does_all(&mut host, &calls, true));
    Ok(())
}

#[test]
fn a_listed_call_fails(rt: HostRuntime) -> Result<(), Fail> {
    let mut host = in_memory(rt.alloc(), &[1, 2, 3, 4])?;
    let is_first = does(&mut host, &Writes(0, b"abc"));
    let others = [Writes(0, b"def"), Syncs(0), Measures(0, 3), Says(b"x")];
    let are_failed = does_all(&mut host, &others, false);
    assert!(rt; is_first && are_failed && has_failed(&host, 1, 3) && host.said().is_empty());
    Ok(())
}

type Folder = FolderHost<Stdout>;

fn folder(rt: HostRuntime, name: &str) -> Result<Folder, NoMemory> {
    FolderHost::new(rt, name, Purpose::Writing, rt.stdout())
}

fn shelf(rt: HostRuntime, name: &str) -> Result<Folder, NoMemory> {
    FolderHost::new(rt, name, Purpose::Reading, rt.stdout())
}

#[test]
fn a_folder_says_to_the_standard_output(rt: HostRuntime) -> Result<(), Fail> {
    let mut host = folder(rt, ".")?;
    let is_said = does(&mut host, &Says(b"a line of the standard output\n"));
    assert!(rt; is_said && has_failed(&host, 0, 0));
    Ok(())
}

// Whether a file is made and changed in its midst, and a write too far behind it is a fault.
fn is_kept(host: &mut Folder) -> bool {
    let calls = [Measures(1, 0), Syncs(1), Writes(1, b"letters"), Syncs(1)];
    let is_made = does_all(host, &calls, true);
    let is_changed = host.write_at(1, 3, b"ting") == Ok(());
    let is_refused = host.write_at(1, u64::MAX, b"x") == Err(OutFault::Failed);
    is_made && is_changed && is_refused && does(host, &Reads(1, 1, b"etting"))
}

// Whether a second host can't use the folder.
fn is_shut_out(rt: HostRuntime) -> Result<bool, NoMemory> {
    let mut other = folder(rt, "a_store")?;
    Ok(other.len(1) == Err(Failed) && has_failed(&other, 0, 1))
}

#[test]
fn a_folder_keeps_files_and_is_one_hosts_alone(rt: HostRuntime) -> Result<(), Fail> {
    let mut host = folder(rt, "a_store")?;
    let is_well = is_kept(&mut host) && has_failed(&host, 0, 1) && is_shut_out(rt)?;
    fs::remove_dir_all(&rt, "a_store")?;
    assert!(rt; is_well);
    Ok(())
}

// Whether two hosts that only read have what a folder keeps, write nothing into it, and leave no other to write there.
fn is_read_by_two(rt: HostRuntime, name: &str) -> Result<bool, NoMemory> {
    let mut first = shelf(rt, name)?;
    let mut second = shelf(rt, name)?;
    let is_read = does(&mut first, &Reads(0, 0, b"letters"))
        && does(&mut second, &Reads(0, 0, b"letters"));
    let is_refused = does_all(&mut second, &LATE, false) && has_failed(&second, 0, 2);
    let mut writer = folder(rt, name)?;
    Ok(is_read && is_refused && has_failed(&first, 0, 0) && writer.len(0) == Err(Failed))
}

#[test]
fn a_folder_is_read_by_several_hosts_and_written_by_none_of_them(
    rt: HostRuntime,
) -> Result<(), Fail> {
    let is_there = is_filled(rt, "a_shelf")?;
    let is_well = is_read_by_two(rt, "a_shelf")? && is_filled(rt, "a_shelf")?;
    fs::remove_dir_all(&rt, "a_shelf")?;
    assert!(rt; is_there && is_well);
    Ok(())
}

// Whether a host that is done then makes the folder and a file.
fn is_filled(rt: HostRuntime, name: &str) -> Result<bool, NoMemory> {
    let mut host = folder(rt, name)?;
    Ok(does(&mut host, &Writes(0, b"letters")))
}

const LATE: [Call<'static>; 2] = [Writes(0, b"late"), Writes(1, b"late")];

#[test]
fn a_folder_that_was_made_since_is_left_alone(rt: HostRuntime) -> Result<(), Fail> {
    let mut late = folder(rt, "a_late_store")?;
    let was_absent = does(&mut late, &Measures(0, 0)) && is_filled(rt, "a_late_store")?;
    let is_refused = does_all(&mut late, &LATE, false) && has_failed(&late, 0, 2);
    fs::remove_dir_all(&rt, "a_late_store")?;
    assert!(rt; was_absent && is_refused);
    Ok(())
}

#[test]
fn a_folder_in_the_place_of_the_one_that_was_there_is_left_alone(
    rt: HostRuntime,
) -> Result<(), Fail> {
    fs::create_dir(&rt, "a_store_again")?;
    let mut late = folder(rt, "a_store_again")?;
    let was_empty = does(&mut late, &Measures(0, 0));
    fs::remove_dir(&rt, "a_store_again")?;
    let is_there = is_filled(rt, "a_store_again")?;
    let is_refused = does_all(&mut late, &LATE, false) && has_failed(&late, 0, 2);
    fs::remove_dir_all(&rt, "a_store_again")?;
    assert!(rt; was_empty && is_there && is_refused);
    Ok(())
}

#[test]
fn a_fuse_lets_writes_and_syncs_pass_and_then_fails_every_call(
    rt: HostRuntime,
) -> Result<(), Fail> {
    let mut host = FuseHost::new(in_memory(rt.alloc(), &[])?, 2);
    let passes = does_all(
        &mut host,
        &[Writes(0, b"ab"), Measures(0, 2), Syncs(0)],
        true,
    );
    let is_blown = does_all(
        &mut host,
        &[Says(b"c"), Writes(0, b"cd"), Measures(0, 2)],
        false,
    );
    let are_counted = has_failed(&host, 1, 2);
    let mut left = host.inner().crash(1)?;
    assert!(rt; passes && is_blown && are_counted && does(&mut left, &Measures(0, 2)));
    Ok(())
}

const WRITTEN_OVER: [Call<'static>; 3] = [Writes(0, b"abcdef"), Syncs(0), Writes(0, b"12345678")];

// Whether a crash by this pick leaves these bytes of a file that is written over.
fn leaves(alloc: Global, pick: u64, left: &[u8]) -> Result<bool, NoMemory> {
    let mut host = in_memory(alloc, &[])?;
    let is_written = does_all(&mut host, &WRITTEN_OVER, true);
    let mut host = host.crash(pick)?;
    Ok(is_written && does(&mut host, &Reads(0, 0, left)))
}

#[test]
fn a_crash_tears_an_unsynced_write_by_its_pick(rt: HostRuntime) -> Result<(), Fail> {
    for (pick, left) in [
        (0, b"12345678".as_slice()),
        (1, b"abcdef".as_slice()),
        (2, b"\0\0\0\0\0\0\0\0".as_slice()),
        (3, b"\xff\xff\xff\xff\xff\xff\xff\xff".as_slice()),
        (4, b"1234ef".as_slice()),
        (5, b"abcd5678".as_slice()),
        (6, b"1b\0\xff5f\0\xff".as_slice()),
        (7, b"1234567".as_slice()),
    ] {
        assert!(rt; leaves(rt.alloc(), pick, left)?, "pick {pick}");
    }
    Ok(())
}

#[test]
fn a_file_that_is_cut_stays_so(rt: HostRuntime) -> Result<(), Fail> {
    let mut host = in_memory(rt.alloc(), &[])?;
    let is_written = does(&mut host, &Writes(0, b"abcdef"));
    host.cut(0, 6);
    let is_whole = does(&mut host, &Measures(0, 6));
    host.cut(0, 2);
    let mut host = host.crash(0)?;
    assert!(rt; is_written && is_whole && does(&mut host, &Measures(0, 2)));
    Ok(())
}
