//! The texts of answers.

ghost use Rattle.std.specs.Prelude.{◌≡◌, ◌++◌, ◌∷◌, [], decimal, string_bytes, IfOk, OnOk, OnErr};
ghost use Rattle.std.specs.Fmt.{signed_decimal};
ghost use Rattle.json.specs.Print.{quoted};
ghost use Rattle.serde_json.specs.Written.{compact_text};
ghost use Rattle.coco_lines.specs.Texts.{Grew, value_json, cause_word, reply_text, error_word, done_text, error_text};

use crate::LineError;
use coco_types::{Cause, Done, KeptReply, Lent, NoMemory, Packed};
use itoa::Buffer;
use json::Writer;
use std::alloc::{AllocError, Global};

/// The text that is said for a Done.
pub fn done_text(alloc: Global, done: &Done) -> Result<Vec<u8>, NoMemory>
    ensures { IfOk result (λ text. text.items ≡ done_text done.now) }
{
    let mut out = Vec::new(alloc);
    write_done(&mut out, done)?;
    Ok(out)
}

/// The text that is said for a line that is refused, with the line's number.
pub fn error_text(alloc: Global, error: LineError, number: u64) -> Result<Vec<u8>, NoMemory>
    ensures { IfOk result (λ text. text.items ≡ error_text error number) }
{
    let mut out = Vec::new(alloc);
    write_error(&mut out, error, number)?;
    Ok(out)
}

/// Puts the text of a Done at the end of a buffer, whole or not at all.
pub fn write_done(out: &mut Vec<u8>, done: &Done) -> Result<(), NoMemory>
    ensures ok { OnOk result (out.new.items ≡ out.old.items ++ done_text done.now) }
    ensures err { OnErr result (out.new.items ≡ out.old.items) }
{
    let len = out.len();
    let put = put_done(out, done);
    if put.is_err() {
        out.truncate(len);
    }
    put
}

/// Puts the text of a refused line at the end of a buffer, whole or not at all.
pub fn write_error(out: &mut Vec<u8>, error: LineError, number: u64) -> Result<(), NoMemory>
    ensures ok { OnOk result (out.new.items ≡ out.old.items ++ error_text error number) }
    ensures err { OnErr result (out.new.items ≡ out.old.items) }
{
    let len = out.len();
    let put = put_error(out, error, number);
    if put.is_err() {
        out.truncate(len);
    }
    put
}

// The names of members need no escape, so they stand here as they are written.
fn put_done(out: &mut Vec<u8>, done: &Done) -> Result<(), NoMemory>
    ensures ok { OnOk result (out.new.items ≡ out.old.items ++ done_text done.now) }
    ensures err { OnErr result (Grew out.old.items out.new.items) }
{
    put_count(out, b"{\"epoch\":", done.epoch)?;
    put_count(out, b",\"id\":", done.id)?;
    put_reply(out, &done.reply)?;
    put_count(out, b",\"time\":", done.time)?;
    put(out, b"}\n")
}

fn put_error(out: &mut Vec<u8>, error: LineError, line: u64) -> Result<(), NoMemory>
    ensures ok { OnOk result (out.new.items ≡ out.old.items ++ error_text error line) }
    ensures err { OnErr result (Grew out.old.items out.new.items) }
{
    put(out, b"{\"error\":")?;
    put_string(out, word_of(error))?;
    put_count(out, b",\"line\":", line)?;
    put(out, b"}\n")
}

fn put(out: &mut Vec<u8>, text: &[u8]) -> Result<(), NoMemory>
    ensures ok { OnOk result (out.new.items ≡ out.old.items ++ text.now) }
    ensures err { OnErr result (out.new.items ≡ out.old.items) }
{
    out.extend_from_slice(text)?;
    Ok(())
}

// A count, with the text before it.
fn put_count(out: &mut Vec<u8>, before: &[u8], count: u64) -> Result<(), NoMemory>
    ensures ok { OnOk result (out.new.items ≡ out.old.items ++ (before.now ++ decimal count)) }
    ensures err { OnErr result (Grew out.old.items out.new.items) }
{
    put(out, before)?;
    let mut digits = Buffer::new();
    put(out, digits.format(count).as_bytes())
}

fn put_int(out: &mut Vec<u8>, number: i64) -> Result<(), NoMemory>
    ensures ok { OnOk result (out.new.items ≡ out.old.items ++ signed_decimal number) }
    ensures err { OnErr result (out.new.items ≡ out.old.items) }
{
    let mut digits = Buffer::new();
    put(out, digits.format(number).as_bytes())
}

// A text in quotes, with escapes where it has to have them.
fn put_string(out: &mut Vec<u8>, text: &str) -> Result<(), NoMemory>
    ensures ok { OnOk result (out.new.items ≡ out.old.items ++ quoted text.now) }
    ensures err { OnErr result (out.new.items ≡ out.old.items) }
{
    let mut writer = Writer::new(Vec::new(*out.allocator()));
    writer.string(text)?;
    put(out, writer.into_inner().as_slice())
}

fn put_reply(out: &mut Vec<u8>, reply: &KeptReply) -> Result<(), NoMemory>
    ensures ok { OnOk result (out.new.items ≡ out.old.items ++ reply_text reply.now) }
    ensures err { OnErr result (Grew out.old.items out.new.items) }
{
    match reply.answer() {
        Ok(value) => {
            put(out, b",\"ok\":")?;
            put_value(out, value)
        }
        Err(cause) => {
            put(out, b",\"refused\":")?;
            put_cause(out, cause)
        }
    }
}

fn put_value(out: &mut Vec<u8>, value: &Packed) -> Result<(), NoMemory>
    ensures ok { OnOk result (out.new.items ≡ out.old.items ++ compact_text (value_json value.now)) }
    ensures err { OnErr result (out.new.items ≡ out.old.items) }
{
    match value.lend() {
        None => put(out, b"null"),
        Some(Lent::Int(number)) => put_int(out, number),
        Some(Lent::Text(text)) => put_string(out, text.as_str()),
    }
}

fn put_cause(out: &mut Vec<u8>, cause: Cause) -> Result<(), NoMemory>
    ensures ok { OnOk result (out.new.items ≡ out.old.items ++ quoted (cause_word cause)) }
    ensures err { OnErr result (out.new.items ≡ out.old.items) }
{
    let word = cause_word(*out.allocator(), cause)?;
    put_string(out, word.as_str())
}

/// The word of a cause of refusal.
pub fn cause_word(alloc: Global, cause: Cause) -> Result<String, AllocError>
    ensures { IfOk result (λ word. string_bytes word ≡ cause_word cause) }
{
    match cause {
        Cause::User(number) => format!(in alloc; "user {number}"),
        Cause::Overflow => format!(in alloc; "overflow"),
        Cause::ZeroDivide => format!(in alloc; "zero divide"),
        Cause::Kind => format!(in alloc; "kind"),
        Cause::BadRow => format!(in alloc; "bad row"),
    }
}

fn word_of(error: LineError) -> &'static str
    ensures { result.now ≡ error_word error }
{
    match error {
        LineError::Long => "long",
        LineError::Json => "json",
        LineError::Shape => "shape",
        LineError::Name => "name",
        LineError::Args => "args",
        LineError::Snapshot => "snapshot",
        LineError::Reused => "reused",
        LineError::Full => "full",
        LineError::Old => "old",
    }
}
