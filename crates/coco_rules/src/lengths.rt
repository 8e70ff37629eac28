//! How many bytes the items of an entry are.

ghost use Rattle.std.specs.Prelude.{◌≡◌, ◌*◌, ◌<◌, ◌≤◌, ◌^◌, length, Some};
ghost use Rattle.std.specs.List.{sum_by};
ghost use Rattle.coco_bytes.specs.Values.{value_bytes};
ghost use Rattle.coco_entry.specs.Bases.{base_done_bytes, base_row_bytes};
ghost use Rattle.coco_entry.specs.Calls.{args_bytes, call_bytes, cause_bytes, done_bytes, reply_bytes};
ghost use Rattle.coco_entry.specs.Rows.{row_bytes};

use coco_entry::Row;
use coco_types::{Args, Call, Cause, Done, Key, Reply, Value};

fn value_len(value: &Option<Value>) -> usize
    ensures is { result ≡ length (value_bytes value.now) }
    ensures few { result ≤ 259 }
{
    match value {
        None => 1,
        Some(Value::Int(_)) => 9,
        Some(Value::Text(text)) => 3 + text.as_bytes().len(),
    }
}

fn args_len(args: &Args) -> usize
    ensures is { result ≡ length (args_bytes args.now) }
    ensures few { result ≤ 4145 }
{
    let mut len = 1;
    for place in 0..args.len() {
        let value = args.get(place).unwrap_or(None);
        len += value_len(&value);
    }
    len
}

fn call_len(call: &Call) -> usize
    ensures is { result ≡ length (call_bytes call.now) }
    ensures few { result ≤ 4148 }
{
    3 + args_len(&call.args)
}

fn cause_len(cause: Cause) -> usize
    ensures is { result ≡ length (cause_bytes cause) }
    ensures few { result ≤ 3 }
{
    match cause {
        Cause::User(_) => 3,
        Cause::Overflow | Cause::ZeroDivide | Cause::Kind | Cause::BadRow => 1,
    }
}

fn reply_len(reply: &Reply) -> usize
    ensures is { result ≡ length (reply_bytes reply.now) }
    ensures few { result ≤ 260 }
{
    match reply {
        Reply::Ok(value) => 1 + value_len(value),
        Reply::Refused(cause) => 1 + cause_len(*cause),
    }
}

fn done_len(done: &Done) -> usize
    ensures is { result ≡ length (done_bytes done.now) }
    ensures few { result ≤ 4424 }
{
    16 + call_len(&done.call) + reply_len(&done.reply.get())
}

fn base_done_len(done: &Done) -> usize
    ensures { result ≡ length (base_done_bytes done.now) }
{
    8 + done_len(done)
}

fn row_len(row: &Row) -> usize
    ensures { result ≡ length (row_bytes row.now) }
{
    18 + value_len(&row.value.get())
}

fn base_row_len(row: &(Key, Value)) -> usize
    ensures { result ≡ length (base_row_bytes row.now) }
{
    10 + value_len(&Some(row.1))
}

/// The bytes of Dones of an epoch, one behind another.
pub(crate) fn dones_len(dones: &[Done]) -> usize
    requires { sum_by (λ x. length (done_bytes x)) dones.now < 2 ^ 64 }
    ensures { result ≡ sum_by (λ x. length (done_bytes x)) dones.now }
{
    dones.iter().map(|done| done_len(done)).sum()
}

/// The bytes of kept Dones, one behind another.
pub(crate) fn base_dones_len(dones: &[Done]) -> usize
    requires { sum_by (λ x. length (base_done_bytes x)) dones.now < 2 ^ 64 }
    ensures { result ≡ sum_by (λ x. length (base_done_bytes x)) dones.now }
{
    dones.iter().map(|done| base_done_len(done)).sum()
}

/// The bytes of the rows of a prepared epoch, one behind another.
pub(crate) fn rows_len(rows: &[Row]) -> usize
    requires { sum_by (λ x. length (row_bytes x)) rows.now < 2 ^ 64 }
    ensures { result ≡ sum_by (λ x. length (row_bytes x)) rows.now }
{
    rows.iter().map(|row| row_len(row)).sum()
}

/// The bytes of the rows of a map, one behind another.
pub(crate) fn base_rows_len(rows: &[(Key, Value)]) -> usize
    requires { sum_by (λ x. length (base_row_bytes x)) rows.now < 2 ^ 64 }
    ensures { result ≡ sum_by (λ x. length (base_row_bytes x)) rows.now }
{
    rows.iter().map(|row| base_row_len(row)).sum()
}
