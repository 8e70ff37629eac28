//! The entry of a layout.

ghost use Rattle.std.specs.Prelude.{◌≡◌, ◌≤◌, ◌<◌, ◌^◌, ◌∷◌, [], ◌++◌, length, IfOk, OnOk, OnErr};
ghost use Rattle.std.specs.List.{flat_map};
ghost use Rattle.coco_bytes.specs.Fields.{u32_bytes};
ghost use Rattle.coco_entry.specs.Grammar.{bytes32, bytes32_at, Answers, ReadsExactly};
ghost use Rattle.coco_entry.specs.Layouts.{file_at, files_at, named_by, sizes_bytes, fields_bytes, HasFields, sizes_at, layout_fields_at, version_of, keep_number, keep_of, later_bytes, HasLater, later_at, layout_bytes, IsLayout, version_at, layout_at, layout_in};

use crate::EntryFault;
use crate::fields::{emptied, get_tag, whole};
use coco_bytes::{
    FieldFault, get_u8, get_u16, get_u32, get_u64, put_u8, put_u16, put_u32, put_u64,
};
use coco_types::{Bytes, NoMemory, Sequence};
use std::alloc::Global;

/// The number of each node's file.
pub type Files = Sequence<u32>;

/// How a store is laid out: its sizes, its files, the epoch of its base, and the text of its procedures.
#[derive(Debug, Drop)]
pub struct Layout {
    pub nodes: u8,
    pub partitions: u8,
    pub copies: u8,
    pub chief_file: u32,
    pub node_files: Files,
    pub base_epoch: u64,
    pub text: Bytes,
}

/// A layout, with its keep number and its base file where it has them.
#[derive(Debug, Drop)]
pub struct LayoutEntry {
    pub layout: Layout,
    pub keep: Option<u16>,
    pub base_file: Option<u32>,
}

fn put_files(out: &mut Vec<u8>, files: &[u32]) -> Result<(), NoMemory>
    ensures { OnOk result (out.new.items ≡ out.old.items ++ flat_map u32_bytes files.now) }
{
    for file in files {
        put_u32(out, *file)?;
    }
    Ok(())
}

fn put_bytes32(out: &mut Vec<u8>, bytes: &[u8]) -> Result<(), NoMemory>
    requires { length bytes.now < 2 ^ 32 }
    ensures { OnOk result (out.new.items ≡ out.old.items ++ bytes32 bytes.now) }
{
    put_u32(out, bytes.len() as u32)?;
    out.extend_from_slice(bytes)?;
    Ok(())
}

fn put_sizes(out: &mut Vec<u8>, layout: &Layout) -> Result<(), NoMemory>
    ensures { OnOk result (out.new.items ≡ out.old.items ++ sizes_bytes layout.now.nodes layout.now.partitions layout.now.copies layout.now.chief_file) }
{
    put_u8(out, layout.nodes)?;
    put_u8(out, layout.partitions)?;
    put_u8(out, layout.copies)?;
    put_u32(out, layout.chief_file)
}

fn put_fields(out: &mut Vec<u8>, layout: &Layout) -> Result<(), NoMemory>
    requires { length layout.now.text < 2 ^ 32 }
    ensures { OnOk result (out.new.items ≡ out.old.items ++ fields_bytes layout.now) }
{
    put_sizes(out, layout)?;
    put_files(out, layout.node_files.as_slice())?;
    put_u64(out, layout.base_epoch)?;
    put_bytes32(out, layout.text.as_slice())?;
    Ok(())
}

fn version(keep: Option<u16>, base_file: Option<u32>) -> u8
    ensures { result ≡ version_of keep base_file }
{
    match base_file {
        Some(_) => 3,
        None => match keep {
            Some(_) => 2,
            None => 1,
        },
    }
}

// Beside a base file 0 stands for no keep number.
fn number_of_keep(keep: Option<u16>) -> u16
    ensures { result ≡ keep_number keep }
{
    match keep {
        Some(keep) => keep,
        None => 0,
    }
}

fn put_later(out: &mut Vec<u8>, keep: Option<u16>, base_file: Option<u32>) -> Result<(), NoMemory>
    ensures { OnOk result (out.new.items ≡ out.old.items ++ later_bytes keep base_file) }
{
    match base_file {
        Some(file) => {
            put_u16(out, number_of_keep(keep))?;
            put_u32(out, file)
        }
        None => match keep {
            Some(keep) => put_u16(out, keep),
            None => Ok(()),
        },
    }
}

// The file at a place, which is to be none of those named; it is named then.
#[tactic(auto, unfolding(crate::specs::Layouts::file_at))]
fn get_file(from: &[u8], at: usize, named: &[u32]) -> Result<(u32, usize), FieldFault>
    requires { at ≤ length from.now }
    ensures read { result ≡ file_at named.now from.now at }
    ensures within { IfOk result (λ r. r.1 ≤ length from.now) }
{
    let (file, end) = get_u32(from, at)?;
    if named.contains(&file) {
        Err(FieldFault::Bad { at })
    } else {
        Ok((file, end))
    }
}

// So many files, one behind another; each is named once it is read.
fn get_files(
    alloc: Global,
    from: &[u8],
    at: usize,
    count: u8,
    named: &mut Files,
) -> Result<(Files, usize), EntryFault>
    requires { at ≤ length from.now }
    ensures read { Answers result (files_at named.old count from.now at) }
    ensures named { IfOk result (λ r. named.new ≡ named.old ++ r.0) }
    ensures within { IfOk result (λ r. r.1 ≤ length from.now) }
{
    let mut files = Sequence::new(alloc);
    let mut end = at;
    for _ in 0..count {
        let (file, after) = get_file(from, end, named.as_slice())?;
        files.push(file)?;
        named.push(file)?;
        end = after;
    }
    Ok((files, end))
}

fn copied(alloc: Global, bytes: &[u8]) -> Result<Bytes, NoMemory>
    ensures { IfOk result (λ copy. copy ≡ bytes.now) }
{
    Ok(Sequence::from_vec(Vec::from_slice(alloc, bytes)?))
}

#[tactic(auto, unfolding(crate::specs::Grammar::bytes32_at))]
fn get_bytes32(alloc: Global, from: &[u8], at: usize) -> Result<(Bytes, usize), EntryFault>
    requires { at ≤ length from.now }
    ensures read { Answers result (bytes32_at from.now at) }
    ensures within { IfOk result (λ r. r.1 ≤ length from.now) }
{
    let (len, start) = get_u32(from, at)?;
    let len = len as usize;
    if from.len() - start < len {
        return Err(EntryFault::Bad { at });
    }
    let end = start + len;
    Ok((copied(alloc, &from[start..end])?, end))
}

/// How many nodes, partitions and copies, and the coordinator's file.
#[derive(Clone, Copy)]
struct Sizes {
    nodes: u8,
    partitions: u8,
    copies: u8,
    chief_file: u32,
}

#[tactic(auto, unfolding(crate::specs::Layouts::sizes_at))]
fn get_sizes(from: &[u8], at: usize) -> Result<(Sizes, usize), FieldFault>
    requires { at ≤ length from.now }
    ensures read { result ≡ sizes_at from.now at }
    ensures within { IfOk result (λ r. r.1 ≤ length from.now) }
{
    let (nodes, at) = get_u8(from, at)?;
    let (partitions, at) = get_u8(from, at)?;
    let (copies, at) = get_u8(from, at)?;
    let (chief_file, end) = get_file(from, at, &[0])?;
    let sizes = Sizes {
        nodes,
        partitions,
        copies,
        chief_file,
    };
    Ok((sizes, end))
}

// The fields of every version, and the files that they name.
#[tactic(auto, unfolding(crate::specs::Layouts::layout_fields_at))]
fn get_fields(
    alloc: Global,
    from: &[u8],
    at: usize,
    named: &mut Files,
) -> Result<(Layout, usize), EntryFault>
    requires start { at ≤ length from.now }
    requires own { named.old ≡ 0 ∷ [] }
    ensures read { Answers result (layout_fields_at from.now at) }
    ensures named { IfOk result (λ r. named.new ≡ named_by r.0) }
    ensures within { IfOk result (λ r. r.1 ≤ length from.now) }
{
    let (sizes, at) = get_sizes(from, at)?;
    named.push(sizes.chief_file)?;
    let (node_files, at) = get_files(alloc, from, at, sizes.nodes, named)?;
    let (base_epoch, at) = get_u64(from, at)?;
    let (text, end) = get_bytes32(alloc, from, at)?;
    let layout = Layout {
        nodes: sizes.nodes,
        partitions: sizes.partitions,
        copies: sizes.copies,
        chief_file: sizes.chief_file,
        node_files,
        base_epoch,
        text,
    };
    Ok((layout, end))
}

fn keep_of_number(number: u16) -> Option<u16>
    ensures { result ≡ keep_of number }
{
    if number == 0 { None } else { Some(number) }
}

// What a version has behind the fields of every version.
#[tactic(auto, unfolding(crate::specs::Layouts::later_at))]
fn get_later(
    from: &[u8],
    at: usize,
    version: u8,
    named: &[u32],
) -> Result<((Option<u16>, Option<u32>), usize), FieldFault>
    requires { at ≤ length from.now }
    ensures read { result ≡ later_at named.now version from.now at }
    ensures within { IfOk result (λ r. r.1 ≤ length from.now) }
{
    match version {
        0 => Err(FieldFault::Bad { at }),
        1 => Ok(((None, None), at)),
        2 => {
            let (keep, end) = get_u16(from, at)?;
            Ok(((Some(keep), None), end))
        }
        _ => {
            let (keep, at) = get_u16(from, at)?;
            let (file, end) = get_file(from, at, named)?;
            Ok(((keep_of_number(keep), Some(file)), end))
        }
    }
}

#[tactic(auto, unfolding(crate::specs::Layouts::version_at))]
fn get_version(from: &[u8], at: usize) -> Result<(u8, usize), FieldFault>
    requires { at ≤ length from.now }
    ensures read { result ≡ version_at from.now at }
    ensures within { IfOk result (λ r. r.1 ≤ length from.now) }
{
    let (version, end) = get_u8(from, at)?;
    if 1 <= version && version <= 3 {
        Ok((version, end))
    } else {
        Err(FieldFault::Bad { at })
    }
}

#[tactic(auto, unfolding(crate::specs::Layouts::layout_at))]
fn get_layout(alloc: Global, from: &[u8], at: usize) -> Result<(LayoutEntry, usize), EntryFault>
    requires { at ≤ length from.now }
    ensures read { Answers result (layout_at from.now at) }
    ensures within { IfOk result (λ r. r.1 ≤ length from.now) }
{
    let mut named = Sequence::new(alloc);
    named.push(0)?;
    let (version, at) = get_version(from, at)?;
    let (layout, at) = get_fields(alloc, from, at, &mut named)?;
    let ((keep, base_file), end) = get_later(from, at, version, named.as_slice())?;
    let entry = LayoutEntry {
        layout,
        keep,
        base_file,
    };
    Ok((entry, end))
}

#[tactic(auto, unfolding(crate::specs::Grammar::tagged))]
fn get_whole(alloc: Global, body: &[u8]) -> Result<LayoutEntry, EntryFault>
    ensures { Answers result (layout_in body.now) }
{
    let (_tag, at) = get_tag(body, 1)?;
    let (entry, end) = get_layout(alloc, body, at)?;
    whole(body, entry, end)
}

/// The layout that the body is, or the first field that can't stand.
pub fn read_layout(alloc: Global, body: &[u8]) -> Result<LayoutEntry, EntryFault>
    ensures { ReadsExactly body.now result (layout_in body.now) layout_bytes IsLayout }
{
    get_whole(alloc, body)
}

fn put_whole(
    out: &mut Vec<u8>,
    layout: &Layout,
    keep: Option<u16>,
    base_file: Option<u32>,
) -> Result<(), NoMemory>
    requires { length layout.now.text < 2 ^ 32 }
    ensures { OnOk result (out.new.items ≡ out.old.items ++ layout_bytes (record { layout = layout.now; keep = keep; base_file = base_file })) }
{
    put_u8(out, 1)?;
    put_u8(out, version(keep, base_file))?;
    put_fields(out, layout)?;
    put_later(out, keep, base_file)
}

/// Puts the entry of a layout behind the bytes: of version 1 without a keep number and a base file, of version 3 with a base file, else of version 2. Out of memory no bytes are left.
pub fn put_layout(
    out: &mut Vec<u8>,
    layout: &Layout,
    keep: Option<u16>,
    base_file: Option<u32>,
) -> Result<(), NoMemory>
    requires fields { HasFields layout.now }
    requires later { HasLater (named_by layout.now) keep base_file }
    ensures ok { OnOk result (out.new.items ≡ out.old.items ++ layout_bytes (record { layout = layout.now; keep = keep; base_file = base_file })) }
    ensures err { OnErr result (out.new.items ≡ []) }
{
    let put = put_whole(out, layout, keep, base_file);
    emptied(out, put)
}
