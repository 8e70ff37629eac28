//! The dump of a store, piece by piece.

ghost use Rattle.std.specs.Prelude.{◌≡◌, ◌++◌, [], length, IfOk, OnOk};
ghost use Rattle.coco_ast.specs.Keyed.{Rows};
ghost use Rattle.coco_audit.specs.Dumping.{AreKeys, HasKeys, HaveValues, IsPiece, PutsLine, key_line, stable_in, text_of};
ghost use Rattle.coco_audit.specs.Texts.{dump_text};

use crate::dump::{write_dump_done, write_dump_row};
use coco_ast::Checked;
use coco_kept::Kept;
use coco_shard::Shard;
use coco_types::{Done, Key, NoMemory, Value};
use std::alloc::Global;
use std::collections::vec_deque::Iter;
use std::marker::Model;
use std::vec::IntoIter;

/// A piece has at least so many bytes, but for the last one.
pub const PIECE_BYTES: usize = 65_536;

/// The dump of a store, which is given piece by piece: a line for each Done, in order of commit, and then one for each
/// row, by table and row. It holds the keys of the rows alone: a value is looked up when its line comes. Contracts see
/// the lines that are still to come.
#[derive(Drop)]
pub struct Dump<'a> {
    procs: &'a Checked,
    shards: &'a [Shard],
    dones: Iter<'a, Done>,
    keys: IntoIter<Key>,
}

impl<'a> Model for Dump<'a> {
    ghost use Rattle.std.specs.Prelude.{ℕ, List};
    ghost use Rattle.std.specs.Vec.Iter.{into_iter_items};
    ghost use Rattle.std.specs.VecDeque.Iter.{deque_iter_rest};
    ghost use Rattle.coco_audit.specs.Dumping.{lines_of};

    ghost Value = { List (List ℕ) };

    ghost view = { λ d. lines_of d.procs.now d.shards.now (deque_iter_rest d.dones) (into_iter_items d.keys) };
}

impl<'a> Dump<'a> {
    /// The whole dump of these Dones, and of the rows that the shards have, each in that of its partition.
    pub fn new(
        alloc: Global,
        procs: &'a Checked,
        kept: &'a Kept,
        shards: &'a [Shard],
    ) -> Result<Dump<'a>, NoMemory>
        ensures { IfOk result (λ dump. (m : Rows) → HaveValues m shards.now → text_of dump ≡ dump_text procs.now kept.now.dones m) }
    {
        let keys = keys_of(alloc, shards)?;
        Ok(Dump {
            procs,
            shards,
            dones: kept.iter(),
            keys: keys.into_iter(),
        })
    }

    /// Gives the next piece, in place of what the buffer holds: whole lines, as many as make `PIECE_BYTES` or more, or all
    /// that are left. There are none only at the end.
    /// Out of memory the dump is given up.
    pub fn next(&mut self, piece: &mut Vec<u8>) -> Result<(), NoMemory>
        ensures given { OnOk result (text_of self.old ≡ piece.new.items ++ text_of self.new) }
        ensures end { OnOk result (piece.new.items ≡ [] → self.new ≡ []) }
        ensures piece { OnOk result (IsPiece self.old self.new piece.new.items) }
    {
        piece.clear();
        while piece.len() < PIECE_BYTES {
            if !self.put_line(piece)? {
                return Ok(());
            }
        }
        Ok(())
    }

    // Puts the next line at the end of a piece, and says whether there was one.
    fn put_line(&mut self, piece: &mut Vec<u8>) -> Result<bool, NoMemory>
        ensures { IfOk result (λ put. PutsLine put self.old self.new piece.old.items piece.new.items) }
    {
        if let Some(done) = self.dones.next() {
            write_dump_done(piece, self.procs, done)?;
            return Ok(true);
        }
        match self.keys.next() {
            Some(key) => {
                write_key(piece, self.procs, key, &stable_in(self.shards, key))?;
                Ok(true)
            }
            None => Ok(false),
        }
    }
}

// Puts the line of a key at the end of a buffer, where it has a value.
fn write_key(
    out: &mut Vec<u8>,
    procs: &Checked,
    key: Key,
    value: &Option<Value>,
) -> Result<(), NoMemory>
    ensures { OnOk result (out.new.items ≡ out.old.items ++ key_line procs.now key value.now) }
{
    match value {
        Some(value) => write_dump_row(out, procs, key, value),
        None => Ok(()),
    }
}

// The stable value of a key in the shard of its partition.
fn stable_in(shards: &[Shard], key: Key) -> Option<Value>
    ensures { result ≡ stable_in shards.now key }
{
    if shards.is_empty() {
        return None;
    }
    shards[key.partition(shards.len())].stable(key)
}

// The keys of the shards' rows, rising.
fn keys_of(alloc: Global, shards: &[Shard]) -> Result<Vec<Key>, NoMemory>
    ensures { IfOk result (λ keys. AreKeys shards.now keys.items) }
{
    let mut keys = gathered(alloc, shards)?;
    keys.sort_unstable();
    keys.dedup();
    Ok(keys)
}

// The keys of each shard's rows, behind those of the shards before it.
fn gathered(alloc: Global, shards: &[Shard]) -> Result<Vec<Key>, NoMemory>
    ensures { IfOk result (λ keys. HasKeys shards.now (length shards.now) keys.items) }
{
    let mut keys = Vec::new(alloc);
    for shard in shards {
        shard.add_keys(&mut keys)?;
    }
    Ok(keys)
}
