//! The entry of a committed epoch.

ghost use Rattle.std.specs.Prelude.{◌≡◌, None, ◌≤◌, ◌<◌, ◌^◌, [], ◌++◌, length, IfOk, OnOk, OnErr, All};
ghost use Rattle.coco_bytes.specs.Lists.{counted, items_at};
ghost use Rattle.coco_entry.specs.Grammar.{Answers, ReadsExactly};
ghost use Rattle.coco_entry.specs.Calls.{done_bytes, IsDone, done_at};
ghost use Rattle.coco_entry.specs.Commits.{commit_bytes, AreOf, IsCommit, commit_at, commit_in};

use crate::EntryFault;
use crate::calls::{get_done, put_done};
use crate::fields::{emptied, get_tag, whole};
use coco_bytes::{get_u32, get_u64, put_u8, put_u32, put_u64};
use coco_types::{Done, Dones, NoMemory, Sequence};
use std::alloc::Global;

/// A committed epoch and its Dones.
#[derive(Debug, Drop)]
pub struct Commit {
    pub epoch: u64,
    pub dones: Dones,
}

fn put_dones(out: &mut Vec<u8>, dones: &[Done]) -> Result<(), NoMemory>
    requires { length dones.now < 2 ^ 32 }
    ensures ok { OnOk result (out.new.items ≡ out.old.items ++ counted done_bytes dones.now) }
    ensures fit { OnOk result (All IsDone dones.now) }
{
    put_u32(out, dones.len() as u32)?;
    for done in dones {
        put_done(out, done)?;
    }
    Ok(())
}

// So many Dones of an epoch, one behind another.
fn get_each_done(
    alloc: Global,
    from: &[u8],
    at: usize,
    epoch: u64,
    count: u32,
) -> Result<(Dones, usize), EntryFault>
    requires { at ≤ length from.now }
    ensures read { Answers result (items_at (λ _. done_at epoch) None count from.now at) }
    ensures within { IfOk result (λ r. r.1 ≤ length from.now) }
{
    let mut dones = Sequence::new(alloc);
    let mut end = at;
    for _ in 0..count {
        let (done, after) = get_done(alloc, from, end, epoch)?;
        dones.push(done)?;
        end = after;
    }
    Ok((dones, end))
}

#[tactic(auto, unfolding(crate::specs::Commits::commit_at))]
fn get_commit(alloc: Global, from: &[u8], at: usize) -> Result<(Commit, usize), EntryFault>
    requires { at ≤ length from.now }
    ensures read { Answers result (commit_at from.now at) }
    ensures within { IfOk result (λ r. r.1 ≤ length from.now) }
{
    let (epoch, at) = get_u64(from, at)?;
    let (count, at) = get_u32(from, at)?;
    let (dones, end) = get_each_done(alloc, from, at, epoch, count)?;
    Ok((Commit { epoch, dones }, end))
}

#[tactic(auto, unfolding(crate::specs::Grammar::tagged))]
fn get_whole(alloc: Global, body: &[u8]) -> Result<Commit, EntryFault>
    ensures { Answers result (commit_in body.now) }
{
    let (_tag, at) = get_tag(body, 2)?;
    let (commit, end) = get_commit(alloc, body, at)?;
    whole(body, commit, end)
}

/// The committed epoch that the body is, or the first field that can't stand.
pub fn read_commit(alloc: Global, body: &[u8]) -> Result<Commit, EntryFault>
    ensures { ReadsExactly body.now result (commit_in body.now) commit_bytes IsCommit }
{
    get_whole(alloc, body)
}

fn put_whole(out: &mut Vec<u8>, epoch: u64, dones: &[Done]) -> Result<(), NoMemory>
    requires count { length dones.now < 2 ^ 32 }
    requires epochs { AreOf epoch dones.now }
    ensures ok { OnOk result (out.new.items ≡ out.old.items ++ commit_bytes (record { epoch = epoch; dones = dones.now })) }
    ensures entry { OnOk result (IsCommit (record { epoch = epoch; dones = dones.now })) }
{
    put_u8(out, 2)?;
    put_u64(out, epoch)?;
    put_dones(out, dones)
}

/// Puts the entry of a committed epoch behind the bytes. Out of memory no bytes are left.
pub fn put_commit(out: &mut Vec<u8>, epoch: u64, dones: &[Done]) -> Result<(), NoMemory>
    requires count { length dones.now < 2 ^ 32 }
    requires epochs { AreOf epoch dones.now }
    ensures ok { OnOk result (out.new.items ≡ out.old.items ++ commit_bytes (record { epoch = epoch; dones = dones.now })) }
    // It is read again.
    ensures entry { OnOk result (IsCommit (record { epoch = epoch; dones = dones.now })) }
    ensures err { OnErr result (out.new.items ≡ []) }
{
    let put = put_whole(out, epoch, dones);
    emptied(out, put)
}
