//! The parts of a line of JSON that several lines have.

ghost use Rattle.std.specs.Prelude.{◌≡◌, ◌++◌, ◌∷◌, [], decimal, take, Option, OnOk, OnErr, IsOk};
ghost use Rattle.json.specs.Token.{key, string, number};
ghost use Rattle.json.specs.Tree.{json_tokens};
ghost use Rattle.serde_json.specs.Written.{outline};
ghost use Rattle.coco_lines.specs.Texts.{value_json, cause_word, reply_key, reply_json};

use coco_lines::cause_word;
use coco_types::{Cause, NoMemory, Reply, Value};
use json::Writer;
use std::alloc::{AllocError, Global};
use std::mem;

// A writer behind what the buffer holds, which is taken out of it.
pub fn writer_over(out: &mut Vec<u8>) -> Writer
    ensures before { result.before ≡ out.old.items }
    ensures tokens { result.tokens ≡ [] }
{
    let empty = Vec::new(*out.allocator());
    Writer::new(mem::replace(out, empty))
}

// Ends a whole text with a line feed, and cuts one that isn't whole off again.
pub fn ended(out: &mut Vec<u8>, before: usize, put: Result<(), AllocError>) -> Result<(), NoMemory>
    ensures whole { OnOk result (IsOk put) }
    ensures ok { OnOk result (out.new.items ≡ out.old.items ++ 10 ∷ []) }
    ensures err { OnErr result (out.new.items ≡ take before out.old.items) }
{
    if let Ok(()) = put {
        if let Ok(()) = out.push(b'\n') {
            return Ok(());
        }
    }
    out.truncate(before);
    Err(NoMemory)
}

pub fn put_count(writer: &mut Writer, name: &str, count: u64) -> Result<(), AllocError>
    ensures ok { OnOk result (writer.new.tokens
        ≡ writer.old.tokens ++ key name.now ∷ number (decimal count) ∷ []) }
    ensures before { writer.new.before ≡ writer.old.before }
{
    writer.key(name)?;
    writer.u64(count)
}

pub fn put_text(writer: &mut Writer, name: &str, text: &str) -> Result<(), AllocError>
    ensures ok { OnOk result (writer.new.tokens
        ≡ writer.old.tokens ++ key name.now ∷ string text.now ∷ []) }
    ensures before { writer.new.before ≡ writer.old.before }
{
    writer.key(name)?;
    writer.string(text)
}

pub fn put_reply(alloc: Global, writer: &mut Writer, reply: &Reply) -> Result<(), AllocError>
    ensures ok { OnOk result (writer.new.tokens
        ≡ writer.old.tokens ++ key (reply_key reply.now) ∷ json_tokens (outline (reply_json reply.now))) }
    ensures before { writer.new.before ≡ writer.old.before }
{
    match reply {
        Reply::Ok(value) => {
            writer.key("ok")?;
            put_answer(writer, value)
        }
        Reply::Refused(cause) => {
            writer.key("refused")?;
            put_cause(alloc, writer, *cause)
        }
    }
}

pub fn put_answer(writer: &mut Writer, value: &Option<Value>) -> Result<(), AllocError>
    ensures ok { OnOk result (writer.new.tokens
        ≡ writer.old.tokens ++ json_tokens (outline (value_json value.now))) }
    ensures before { writer.new.before ≡ writer.old.before }
{
    match value {
        None => writer.null(),
        Some(value) => put_value(writer, value),
    }
}

pub fn put_value(writer: &mut Writer, value: &Value) -> Result<(), AllocError>
    ensures ok { OnOk result (writer.new.tokens
        ≡ writer.old.tokens ++ json_tokens (outline (value_json (Option.Some value.now)))) }
    ensures before { writer.new.before ≡ writer.old.before }
{
    match value {
        Value::Int(number) => writer.i64(*number),
        Value::Text(text) => writer.string(text.as_str()),
    }
}

fn put_cause(alloc: Global, writer: &mut Writer, cause: Cause) -> Result<(), AllocError>
    ensures ok { OnOk result (writer.new.tokens ≡ writer.old.tokens ++ string (cause_word cause) ∷ []) }
    ensures before { writer.new.before ≡ writer.old.before }
{
    let word = cause_word(alloc, cause)?;
    writer.string(word.as_str())
}
