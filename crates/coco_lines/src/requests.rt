//! What a line asks of the procedures: its request, or the first error that it has.

ghost use Rattle.std.specs.Prelude.{◌≡◌, ◌≤◌, ℕ, Bool, Option, Some, None, Ok, Err, length, option_map, option_and_then, string_bytes, IfOk, IfSome};
ghost use Rattle.std.specs.BTreeMap.{keys};
ghost use Rattle.std.specs.List.{list_all};
ghost use Rattle.serde_json.specs.Find.{get, as_array, as_number, as_str, as_u64};
ghost use Rattle.serde_json.specs.Read.{read};
ghost use Rattle.serde_json.specs.View.{view, items_view, members_view};
ghost use Rattle.coco_types.specs.Limits.{most_arguments};
ghost use Rattle.coco_ast.specs.Fitting.{Fits};
ghost use Rattle.coco_ast.specs.Meaning.{procedure_at};
ghost use Rattle.coco_lines.specs.Reading.{is_member, only_members, snapshot_of, asked_of, find_named, arg_of, args_of, fitting_args, request_of, request_in, has_writes, first_that_fits, asking_tests, request_on, asking_error, reading_error};

use crate::plain::plain_request;
use crate::{LineError, RequestFault};
use coco_ast::Checked;
use coco_types::{Args, Call, NoMemory, Request, Text, Value};
use json::Scratch;
use serde_json::{Category, Map, Value as Json};
use std::alloc::Global;

/// The request that a line asks for. A line that is no request is refused by the first class that it falls into.
///
/// The scratch is the memory that reading takes, kept from line to line.
pub fn request(
    alloc: Global,
    scratch: &mut Scratch,
    procs: &Checked,
    line: &[u8],
) -> Result<Request, RequestFault>
    ensures ok { IfOk result (λ request. request_on procs.now line.now ≡ Some request) }
    ensures sound { IfOk result (λ _. reading_error procs.now line.now ≡ None) }
    ensures fits { IfOk result (λ request. Fits procs.now request.call) }
    ensures line { (e : LineError) → result ≡ Err (RequestFault.Line e) → reading_error procs.now line.now ≡ Some e }
{
    let request = asked_request(alloc, scratch, procs, line)?;
    if request.call.snapshot && writes(procs, request.call.proc_no) {
        return Err(RequestFault::Line(LineError::Snapshot));
    }
    Ok(request)
}

/// The same, but that a snapshot call may be of any procedure.
pub fn asked_request(
    alloc: Global,
    scratch: &mut Scratch,
    procs: &Checked,
    line: &[u8],
) -> Result<Request, RequestFault>
    ensures ok { IfOk result (λ request. request_on procs.now line.now ≡ Some request) }
    ensures line { (e : LineError) → result ≡ Err (RequestFault.Line e) → asking_error procs.now line.now ≡ Some e }
{
    let Ok(text) = str::from_utf8(line) else {
        return Err(RequestFault::Line(LineError::Json));
    };
    match plain_request(alloc, scratch, procs, text) {
        Some(request) => Ok(request),
        None => any_request(alloc, procs, text),
    }
}

// Whether a procedure contains `put` or `delete`.
fn writes(procs: &Checked, proc_no: u16) -> bool
    ensures { result ≡ has_writes (procedure_at procs.now.procs proc_no) }
{
    match procs.writes(proc_no) {
        Some(writes) => writes,
        None => false,
    }
}

// What a line has to know of a procedure.
#[derive(Clone, Copy)]
pub(crate) struct Known {
    pub(crate) proc_no: u16,
    pub(crate) params: usize,
}

// The procedure of this name, where there is one.
pub(crate) fn named(procs: &Checked, name: &str) -> Option<Known>
    ensures number { option_map (λ n. n.proc_no) result ≡ option_map (λ f. f.0) (find_named procs.now name.now) }
    ensures params { option_map (λ n. n.params) result ≡ option_map (λ f. length f.1.params) (find_named procs.now name.now) }
    ensures few { IfSome result (λ n. n.params ≤ most_arguments) }
{
    let Some(proc_no) = procs.proc_no(name) else {
        return None;
    };
    let Some(params) = procs.params(proc_no) else {
        return None;
    };
    Some(Known {
        proc_no,
        params: params as usize,
    })
}

// It isn't inlined, for its frame is large.
#[inline(never)]
fn any_request(alloc: Global, procs: &Checked, text: &str) -> Result<Request, RequestFault>
    ensures ok { IfOk result (λ request. request_in procs.now (read text.now) ≡ Some request) }
    ensures line { (e : LineError) → result ≡ Err (RequestFault.Line e) → first_that_fits (asking_tests procs.now (read text.now)) ≡ Some e }
{
    let value = json_of(alloc, text)?;
    request_of(alloc, procs, &value)
}

fn json_of(alloc: Global, text: &str) -> Result<Json, RequestFault>
    ensures ok { IfOk result (λ value. read text.now ≡ Some (view value)) }
    ensures line { (e : LineError) → result ≡ Err (RequestFault.Line e) → (e ≡ LineError.Json) × (read text.now ≡ None) }
{
    match Json::from_str(alloc, text) {
        Ok(value) => Ok(value),
        Err(error) => match error.classify() {
            Category::Memory => Err(RequestFault::NoMemory),
            _ => Err(RequestFault::Line(LineError::Json)),
        },
    }
}

fn request_of(alloc: Global, procs: &Checked, value: &Json) -> Result<Request, RequestFault>
    ensures ok { IfOk result (λ request. request_in procs.now (Some (view value.now)) ≡ Some request) }
    ensures line { (e : LineError) → result ≡ Err (RequestFault.Line e) → first_that_fits (asking_tests procs.now (Some (view value.now))) ≡ Some e }
{
    let Some(asked) = asked_of(value) else {
        return Err(RequestFault::Line(LineError::Shape));
    };
    let Some(found) = named(procs, asked.call) else {
        return Err(RequestFault::Line(LineError::Name));
    };
    let Some(args) = fitting_args(alloc, found.params, asked.args)? else {
        return Err(RequestFault::Line(LineError::Args));
    };
    Ok(Request {
        id: asked.id,
        call: Call {
            proc_no: found.proc_no,
            args,
            snapshot: asked.snapshot,
        },
    })
}

// The members of a request.
#[derive(Clone, Copy)]
struct Asked<'a> {
    args: &'a [Json],
    call: &'a str,
    id: u64,
    snapshot: bool,
}

fn asked_of(value: &Json) -> Option<Asked<'_>>
    ensures { option_map (λ asked. record { args = items_view asked.args.now; call = asked.call.now; id = asked.id; snapshot = asked.snapshot }) result
        ≡ asked_of (view value.now) }
{
    let members = value.as_object()?;
    if !only_members(members) {
        return None;
    }
    let args = array_at(value, "args")?;
    let call = text_at(value, "call")?;
    let id = number_at(value, "id")?;
    let snapshot = snapshot_of(value.get("snapshot"))?;
    Some(Asked {
        args: args.as_slice(),
        call,
        id,
        snapshot,
    })
}

fn array_at<'a>(value: &'a Json, name: &str) -> Option<&'a Vec<Json>>
    ensures { option_map (λ v. items_view v.now.items) result
        ≡ option_and_then as_array (get name.now (view value.now)) }
{
    value.get(name).and_then(Json::as_array)
}

fn text_at<'a>(value: &'a Json, name: &str) -> Option<&'a str>
    ensures { option_map (λ s. s.now) result
        ≡ option_and_then as_str (get name.now (view value.now)) }
{
    value.get(name).and_then(Json::as_str)
}

fn number_at(value: &Json, name: &str) -> Option<u64>
    ensures { result
        ≡ option_and_then as_u64 (option_and_then as_number (get name.now (view value.now))) }
{
    value.get(name).and_then(Json::as_u64)
}

fn only_members(members: &Map<String, Json>) -> bool
    ensures { result ≡ list_all (λ key. is_member (string_bytes key)) (keys members.now) }
{
    members.keys().all(|key| is_member(key.as_str()))
}

fn is_member(key: &str) -> bool
    ensures { result ≡ is_member key.now }
{
    key == "args" || key == "call" || key == "id" || key == "snapshot"
}

fn snapshot_of(member: Option<&Json>) -> Option<bool>
    ensures { result ≡ snapshot_of (option_map (λ v. view v.now) member.entry) }
{
    match member {
        None => Some(false),
        Some(value) => value.as_bool(),
    }
}

fn fitting_args(alloc: Global, params: usize, items: &[Json]) -> Result<Option<Args>, NoMemory>
    requires { params ≤ most_arguments }
    ensures { IfOk result (λ args. args ≡ fitting_args params (items_view items.now)) }
{
    if items.len() != params {
        return Ok(None);
    }
    args_of(alloc, items)
}

fn args_of(alloc: Global, items: &[Json]) -> Result<Option<Args>, NoMemory>
    requires { length items.now ≤ most_arguments }
    ensures { IfOk result (λ args. args ≡ args_of (items_view items.now)) }
{
    let mut args = Args::with_room(alloc, items.len())?;
    for item in items {
        let Some(arg) = arg_of(item) else {
            return Ok(None);
        };
        args.push(arg)?;
    }
    Ok(Some(args))
}

fn arg_of(item: &Json) -> Option<Option<Value>>
    ensures { result ≡ arg_of (view item.now) }
{
    match item {
        Json::Null => Some(None),
        Json::Number(number) => match number.as_i64() {
            Some(n) => Some(Some(Value::Int(n))),
            None => None,
        },
        Json::String(text) => match Text::of(text.as_str()) {
            Some(text) => Some(Some(Value::Text(text))),
            None => None,
        },
        Json::Bool(_) | Json::Array(_) | Json::Object(_) => None,
    }
}
