//! The lines of a dump: that of a Done, and that of a row.

ghost use Rattle.std.specs.Prelude.{◌≡◌, ◌<◌, ◌++◌, ◌∷◌, [], codes, length, slice_get, Some, OnOk, OnErr};
ghost use Rattle.json.specs.Token.{key, string};
ghost use Rattle.json.specs.Tree.{json_tokens};
ghost use Rattle.serde_json.specs.Data.{array};
ghost use Rattle.serde_json.specs.Written.{outline};
ghost use Rattle.coco_lines.specs.Texts.{reply_key, reply_json};
ghost use Rattle.coco_audit.specs.Texts.{args_json, dump_done_json, dump_row_json, dump_done_text, dump_row_text, proc_name, table_name};

use crate::writing::{ended, put_answer, put_count, put_reply, put_text, put_value, writer_over};
use coco_ast::Checked;
use coco_types::{Args, Done, KeptReply, Key, NoMemory, Value};
use json::Writer;
use std::alloc::{AllocError, Global};

/// Puts the line of a Done at the end of a buffer, whole or not at all.
pub fn write_dump_done(out: &mut Vec<u8>, procs: &Checked, done: &Done) -> Result<(), NoMemory>
    ensures ok { OnOk result (out.new.items ≡ out.old.items ++ dump_done_text procs.now done.now) }
    ensures err { OnErr result (out.new.items ≡ out.old.items) }
{
    let alloc = *out.allocator();
    let before = out.len();
    let mut writer = writer_over(out);
    let put = put_done(alloc, &mut writer, procs, done);
    *out = writer.into_inner();
    ended(out, before, put)
}

/// Puts the line of a row at the end of a buffer, whole or not at all.
pub fn write_dump_row(
    out: &mut Vec<u8>,
    procs: &Checked,
    key: Key,
    value: &Value,
) -> Result<(), NoMemory>
    ensures ok { OnOk result (out.new.items ≡ out.old.items ++ dump_row_text procs.now (key, value.now)) }
    ensures err { OnErr result (out.new.items ≡ out.old.items) }
{
    let before = out.len();
    let mut writer = writer_over(out);
    let put = put_row(&mut writer, procs, key, value);
    *out = writer.into_inner();
    ended(out, before, put)
}

fn put_done(
    alloc: Global,
    writer: &mut Writer,
    procs: &Checked,
    done: &Done,
) -> Result<(), AllocError>
    ensures ok { OnOk result (writer.new.tokens
        ≡ writer.old.tokens ++ json_tokens (outline (dump_done_json procs.now done.now))) }
    ensures before { writer.new.before ≡ writer.old.before }
{
    writer.begin_object()?;
    writer.key("args")?;
    put_args(writer, &done.call.args)?;
    put_proc(writer, procs, done.call.proc_no)?;
    put_count(writer, "epoch", done.epoch)?;
    put_count(writer, "id", done.id)?;
    put_kept(alloc, writer, &done.reply)?;
    writer.key("snapshot")?;
    writer.boolean(done.call.snapshot)?;
    put_count(writer, "time", done.time)?;
    writer.end_object()
}

fn put_row(writer: &mut Writer, procs: &Checked, at: Key, value: &Value) -> Result<(), AllocError>
    ensures ok { OnOk result (writer.new.tokens
        ≡ writer.old.tokens ++ json_tokens (outline (dump_row_json procs.now (at, value.now)))) }
    ensures before { writer.new.before ≡ writer.old.before }
{
    writer.begin_object()?;
    put_count(writer, "row", at.row)?;
    put_table(writer, procs, at.table)?;
    writer.key("value")?;
    put_value(writer, value)?;
    writer.end_object()
}

fn put_args(writer: &mut Writer, args: &Args) -> Result<(), AllocError>
    ensures ok { OnOk result (writer.new.tokens
        ≡ writer.old.tokens ++ json_tokens (outline (array (args_json args.now)))) }
    ensures before { writer.new.before ≡ writer.old.before }
{
    writer.begin_array()?;
    for place in 0..args.len() {
        put_answer(writer, &argument_at(args, place))?;
    }
    writer.end_array()
}

fn argument_at(args: &Args, place: usize) -> Option<Value>
    requires { place < length args.now }
    ensures { slice_get args.now place ≡ Some result }
{
    args.get(place).unwrap()
}

// The procedure's name.
fn put_proc(writer: &mut Writer, procs: &Checked, proc_no: u16) -> Result<(), AllocError>
    ensures ok { OnOk result (writer.new.tokens
        ≡ writer.old.tokens ++ key (codes "call") ∷ string (proc_name procs.now proc_no) ∷ []) }
    ensures before { writer.new.before ≡ writer.old.before }
{
    match procs.proc_name(proc_no) {
        Some(name) => put_text(writer, "call", name),
        None => put_text(writer, "call", ""),
    }
}

// The table's name.
fn put_table(writer: &mut Writer, procs: &Checked, table: u16) -> Result<(), AllocError>
    ensures ok { OnOk result (writer.new.tokens
        ≡ writer.old.tokens ++ key (codes "table") ∷ string (table_name procs.now table) ∷ []) }
    ensures before { writer.new.before ≡ writer.old.before }
{
    match procs.table_name(table) {
        Some(name) => put_text(writer, "table", name),
        None => put_text(writer, "table", ""),
    }
}

fn put_kept(alloc: Global, writer: &mut Writer, reply: &KeptReply) -> Result<(), AllocError>
    ensures ok { OnOk result (writer.new.tokens
        ≡ writer.old.tokens ++ key (reply_key reply.now) ∷ json_tokens (outline (reply_json reply.now))) }
    ensures before { writer.new.before ≡ writer.old.before }
{
    put_reply(alloc, writer, &reply.get())
}
