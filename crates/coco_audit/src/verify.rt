//! Whether the kept replies are those of one executor on one map.

ghost use Rattle.std.specs.Prelude.{◌≡◌, ◌≢◌, ◌++◌, ◌∷◌, [], ◌<◌, drop, length, map, slice_get, Some, true, false, IfOk, IfNone, IfSome, OnOk, OnErr};
ghost use Rattle.json.specs.Token.{key};
ghost use Rattle.json.specs.Tree.{json_tokens};
ghost use Rattle.serde_json.specs.Written.{outline};
ghost use Rattle.coco_ast.specs.History.{RepliesAreRuns};
ghost use Rattle.coco_ast.specs.Keyed.{put_over};
ghost use Rattle.coco_load.specs.RowMaps.{as_write, joined, map_with};
ghost use Rattle.coco_audit.specs.Differing.{AllFit, IsFirstUnlike};
ghost use Rattle.coco_audit.specs.Texts.{reply_object, not_serial_json, not_serial_text, serial_text};

use crate::writing::{ended, put_count, put_reply, writer_over};
use coco_ast::Checked;
use coco_kept::Kept;
use coco_load::{PackedRow, PackedRows};
use coco_serial::Executor;
use coco_types::{Done, KeptReply, NoMemory, Reply};
use json::Writer;
use std::alloc::{AllocError, Global};

/// A Done whose kept reply isn't the computed one. Places count from 1.
#[derive(Clone, Copy, Debug, PartialEq, Eq)]
pub struct NotSerial {
    pub place: u64,
    pub id: u64,
    pub kept: Reply,
    pub computed: Reply,
}

/// Runs the calls of the Dones from a place on, in order, from the map that the base's lists of rows make together, and
/// answers the first whose kept reply isn't that of its run. None is answered exactly where all replies are their runs'.
pub fn verify_of(
    alloc: Global,
    procs: &Checked,
    base: &[PackedRows],
    kept: &Kept,
    first: u64,
) -> Result<Option<NotSerial>, NoMemory>
    requires { AllFit procs.now (drop first kept.now.dones) }
    ensures serial { IfOk result (λ found.
        IfNone found (RepliesAreRuns procs.now (map_with (joined base.now)) (drop first kept.now.dones))) }
    ensures unlike { IfOk result (λ found.
        IfSome found (IsFirstUnlike procs.now (map_with (joined base.now)) (drop first kept.now.dones))) }
{
    let mut executor = executor_on(alloc, base)?;
    for place in first..kept.len() {
        let done = done_at(kept, place);
        let computed = executor.apply(procs, &done.call)?;
        if differs(&done.reply, &computed) {
            return Ok(Some(NotSerial {
                place: place - first + 1,
                id: done.id,
                kept: done.reply.get(),
                computed,
            }));
        }
    }
    Ok(None)
}

/// Puts the line of a reply that isn't its run's at the end of a buffer, whole or not at all.
pub fn write_not_serial(out: &mut Vec<u8>, found: &NotSerial) -> Result<(), NoMemory>
    ensures ok { OnOk result (out.new.items ≡ out.old.items ++ not_serial_text found.now) }
    ensures err { OnErr result (out.new.items ≡ out.old.items) }
{
    let alloc = *out.allocator();
    let before = out.len();
    let mut writer = writer_over(out);
    let put = put_not_serial(alloc, &mut writer, found);
    *out = writer.into_inner();
    ended(out, before, put)
}

/// Puts the line that says that so many replies are their runs' at the end of a buffer, whole or not at all.
pub fn write_serial(out: &mut Vec<u8>, count: u64) -> Result<(), NoMemory>
    ensures ok { OnOk result (out.new.items ≡ out.old.items ++ serial_text count) }
    ensures err { OnErr result (out.new.items ≡ out.old.items) }
{
    let alloc = *out.allocator();
    let line = format!(in alloc; "serial {count}\n")?;
    out.extend_from_slice(line.as_bytes())?;
    Ok(())
}

// An executor on the map that these lists of rows make together.
fn executor_on(alloc: Global, lists: &[PackedRows]) -> Result<Executor, NoMemory>
    ensures { IfOk result (λ executor. executor.rows ≡ map_with (joined lists.now)) }
{
    let mut executor = Executor::new(alloc);
    for list in lists {
        load_rows(&mut executor, list.as_slice())?;
    }
    Ok(executor)
}

// Puts rows over those that the executor has.
fn load_rows(executor: &mut Executor, rows: &[PackedRow]) -> Result<(), NoMemory>
    ensures { OnOk result (executor.new.rows ≡ put_over executor.old.rows (map as_write rows.now)) }
{
    for row in rows {
        executor.load(row.key(), row.value())?;
    }
    Ok(())
}

fn done_at(kept: &Kept, place: u64) -> &Done
    requires { place < length kept.now.dones }
    ensures { slice_get kept.now.dones place ≡ Some result.now }
{
    kept.nth(place).unwrap()
}

// Whether the kept reply isn't this one.
fn differs(kept: &KeptReply, reply: &Reply) -> bool
    ensures other { result ≡ true → kept.now ≢ reply.now }
    ensures same { result ≡ false → kept.now ≡ reply.now }
{
    kept.get() != *reply
}

fn put_not_serial(alloc: Global, writer: &mut Writer, found: &NotSerial) -> Result<(), AllocError>
    ensures ok { OnOk result (writer.new.tokens
        ≡ writer.old.tokens ++ json_tokens (outline (not_serial_json found.now))) }
    ensures before { writer.new.before ≡ writer.old.before }
{
    writer.begin_object()?;
    put_member(alloc, writer, "computed", &found.computed)?;
    put_count(writer, "id", found.id)?;
    put_member(alloc, writer, "kept", &found.kept)?;
    put_count(writer, "place", found.place)?;
    writer.end_object()
}

// A reply as an object of its own, under this name.
fn put_member(
    alloc: Global,
    writer: &mut Writer,
    name: &str,
    reply: &Reply,
) -> Result<(), AllocError>
    ensures ok { OnOk result (writer.new.tokens
        ≡ writer.old.tokens ++ key name.now ∷ json_tokens (outline (reply_object reply.now))) }
    ensures before { writer.new.before ≡ writer.old.before }
{
    writer.key(name)?;
    writer.begin_object()?;
    put_reply(alloc, writer, reply)?;
    writer.end_object()
}
