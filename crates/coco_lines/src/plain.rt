//! The usual line, read token by token with no tree. Only a request is decided here; what isn't plain is left to
//! the full reading.

ghost use Rattle.std.specs.Prelude.{◌≡◌, ◌<◌, ◌≤◌, ◌++◌, ◌∷◌, ◌==◌, [], length, slice_index, IsTrue, Option, true, false, Some, None, Ok, IfSome, option_and_then, codes};
ghost use Rattle.fast_float.specs.Text.{scan};
ghost use Rattle.json.specs.Json.{value, items, members};
ghost use Rattle.serde_json.specs.Data.{Data, Members, no_members, object, unsigned, negative};
ghost use Rattle.serde_json.specs.Find.{as_i64};
ghost use Rattle.serde_json.specs.Read.{of_json, of_items, of_members, converted, number_from, number_of, read};
ghost use Rattle.coco_types.specs.Limits.{most_text_bytes};
ghost use Rattle.coco_types.specs.declared.value.Value.{Value as Datum};
ghost use Rattle.coco_types.specs.declared.value.Value.TheVariants as datum;
ghost use Rattle.coco_lines.specs.Reading.{arg_of, args_of, request_in};
ghost use Rattle.coco_lines.specs.Plain.{Holds, Taken};

use crate::requests::named;
use coco_ast::Checked;
use coco_types::limits::MOST_ARGUMENTS;
use coco_types::{Args, Call, Request, Text, Value};
use fast_float::Numeral;
use json::{Reader, Scratch, Token};
use std::alloc::Global;

// How many arguments there is room for before any is read.
const USUAL_ARGUMENTS: usize = 3;

// The request that a plain line asks for. None says nothing of the line.
pub(crate) fn plain_request(
    alloc: Global,
    scratch: &mut Scratch,
    procs: &Checked,
    text: &str,
) -> Option<Request>
    ensures { IfSome result (λ request. request_in procs.now (read text.now) ≡ Some request) }
{
    let mut reader = Reader::new(text, scratch).ok()?;
    let parts = object_parts(alloc, &mut reader)?;
    if reader.next().is_some() {
        return None;
    }
    parts.request(procs)
}

// The parts of an object.
fn object_parts<'a>(alloc: Global, reader: &mut Reader<'a>) -> Option<Parts<'a>>
    ensures { IfSome result (λ parts. (ms : Members)
        × (converted of_json (value 127 reader.old) ≡ Some (object ms, reader.new)) × Holds parts ms) }
{
    let token = reader.next()?;
    match token {
        Token::BeginObject => parts_of(alloc, reader),
        _ => None,
    }
}

// What the members so far have said. The last of two members of one name counts.
#[derive(Drop)]
struct Parts<'a> {
    args: Option<Args>,
    count: usize,
    call: Option<&'a str>,
    id: Option<u64>,
    snapshot: bool,
}

// The parts that the members of an object say, up to the brace that closes it.
fn parts_of<'a>(alloc: Global, reader: &mut Reader<'a>) -> Option<Parts<'a>>
    ensures { IfSome result (λ parts. (ms : Members)
        × (converted (λ all. of_members all no_members) (members (value 126) (length reader.old) reader.old) ≡ Some (ms, reader.new))
        × Holds parts ms) }
{
    let mut parts = Parts {
        args: None,
        count: 0,
        call: None,
        id: None,
        snapshot: false,
    };
    'members: while let Some(name) = reader.next_key().ok()? {
        parts.take(alloc, reader, name)?;
    }
    Some(parts)
}

impl<'a> Parts<'a> {
    fn take(&mut self, alloc: Global, reader: &mut Reader<'a>, name: &str) -> Option<()>
        ensures { IfSome result (λ _. Taken self.old name.now reader.old self.new reader.new) }
    {
        match name {
            "args" => self.take_args(alloc, reader),
            "call" => self.take_call(reader),
            "id" => self.take_id(reader),
            "snapshot" => self.take_snapshot(reader),
            _ => None,
        }
    }

    fn take_args(&mut self, alloc: Global, reader: &mut Reader<'a>) -> Option<()>
        ensures { IfSome result (λ _. Taken self.old (codes "args") reader.old self.new reader.new) }
    {
        let token = reader.next()?;
        let Token::BeginArray = token else {
            return None;
        };
        let args = args_of(alloc, reader)?;
        self.count = args.len();
        self.args = Some(args);
        Some(())
    }

    fn take_call(&mut self, reader: &mut Reader<'a>) -> Option<()>
        ensures { IfSome result (λ _. Taken self.old (codes "call") reader.old self.new reader.new) }
    {
        let token = reader.next()?;
        let Token::String(text) = token else {
            return None;
        };
        self.call = Some(text);
        Some(())
    }

    fn take_id(&mut self, reader: &mut Reader<'a>) -> Option<()>
        ensures { IfSome result (λ _. Taken self.old (codes "id") reader.old self.new reader.new) }
    {
        let token = reader.next()?;
        let Token::Number(text) = token else {
            return None;
        };
        self.id = Some(not_signed(text)?);
        Some(())
    }

    fn take_snapshot(&mut self, reader: &mut Reader<'a>) -> Option<()>
        ensures { IfSome result (λ _. Taken self.old (codes "snapshot") reader.old self.new reader.new) }
    {
        let token = reader.next()?;
        let Token::Bool(asked) = token else {
            return None;
        };
        self.snapshot = asked;
        Some(())
    }

    // The request, where all its parts are there and fit a procedure.
    fn request(self, procs: &Checked) -> Option<Request>
        ensures { IfSome result (λ request. (ms : Members) → Holds self.entry ms → request_in procs.now (Some (object ms)) ≡ Some request) }
    {
        let found = named(procs, self.call?)?;
        if self.count != found.params {
            return None;
        }
        Some(Request {
            id: self.id?,
            call: Call {
                proc_no: found.proc_no,
                args: self.args?,
                snapshot: self.snapshot,
            },
        })
    }
}

// The items of an array as arguments, up to the bracket that closes it.
fn args_of(alloc: Global, reader: &mut Reader<'_>) -> Option<Args>
    ensures { IfSome result (λ args. converted args_of (converted of_items (items (value 125) (length reader.old) reader.old)) ≡ Some (args, reader.new)) }
{
    let mut args = Args::with_room(alloc, USUAL_ARGUMENTS).ok()?;
    'items: while !reader.take_end_array() {
        if args.len() == MOST_ARGUMENTS {
            return None;
        }
        push_arg(&mut args, reader)?;
    }
    Some(args)
}

fn push_arg(args: &mut Args, reader: &mut Reader<'_>) -> Option<()>
    requires { length args.old < MOST_ARGUMENTS }
    ensures { IfSome result (λ _. (arg : Option Datum)
        × (converted arg_of (converted of_json (value 125 reader.old)) ≡ Some (arg, reader.new))
        × (args.new ≡ args.old ++ arg ∷ [])) }
{
    let token = reader.next()?;
    match token {
        Token::Null => push_none(args),
        Token::Number(text) => push_int(args, signed(text)?),
        Token::String(text) => push_text(args, text),
        _ => None,
    }
}

fn push_none(args: &mut Args) -> Option<()>
    requires { length args.old < MOST_ARGUMENTS }
    ensures { IfSome result (λ _. args.new ≡ args.old ++ None ∷ []) }
{
    args.push(None).ok()
}

fn push_int(args: &mut Args, n: i64) -> Option<()>
    requires { length args.old < MOST_ARGUMENTS }
    ensures { IfSome result (λ _. args.new ≡ args.old ++ Some (datum.Int n) ∷ []) }
{
    args.push(Some(Value::Int(n))).ok()
}

fn push_text(args: &mut Args, text: &str) -> Option<()>
    requires { length args.old < MOST_ARGUMENTS }
    ensures { IfSome result (λ _. (length text.now ≤ most_text_bytes) × (args.new ≡ args.old ++ Some (datum.Text text.now) ∷ [])) }
{
    args.push(Some(Value::Text(Text::of(text)?))).ok()
}

// A whole number of 64 bits without a sign.
fn not_signed(text: &str) -> Option<u64>
    ensures { IfSome result (λ n. number_of text.now ≡ Some (unsigned n)) }
{
    let digits = text.as_bytes();
    if has_minus(digits) {
        return None;
    }
    Numeral::scan(digits).to_u64()
}

// A whole number of 64 bits with a sign. `-0` is none.
fn signed(text: &str) -> Option<i64>
    ensures { IfSome result (λ n. option_and_then as_i64 (number_of text.now) ≡ Some n) }
{
    let digits = text.as_bytes();
    if has_minus(digits) {
        below_zero(&digits[1..])
    } else {
        not_below_zero(digits)
    }
}

fn has_minus(text: &[u8]) -> bool
    ensures value { result ≡ (slice_index text.now 0 == 45) }
    ensures len { IsTrue result → 0 < length text.now }
{
    matches!(text, [b'-', ..])
}

fn below_zero(digits: &[u8]) -> Option<i64>
    ensures { IfSome result (λ n. number_from true (scan digits.now) ≡ Some (negative n)) }
{
    let n = Numeral::scan(digits).to_i64(true)?;
    if n < 0 { Some(n) } else { None }
}

fn not_below_zero(digits: &[u8]) -> Option<i64>
    ensures { IfSome result (λ n. option_and_then as_i64 (number_from false (scan digits.now)) ≡ Some n) }
{
    Numeral::scan(digits).to_i64(false)
}
