//! The class of a line, by the kept Dones and the new requests of its batch before it.

ghost use Rattle.std.specs.Prelude.{◌≡◌, ◌+◌, ℕ, List, length, None, IfOk};
ghost use Rattle.coco_ast.specs.Fitting.{Fits};
ghost use Rattle.coco_ast.specs.History.{done_of, is_up_to};
ghost use Rattle.coco_ast.specs.Tree.{Procedures};
ghost use Rattle.coco_lines.specs.Classes.{IsClass, request_tests};
ghost use Rattle.coco_lines.specs.Reading.{first_that_fits};
ghost use Rattle.coco_lines.specs.Reads.{body_of};
ghost use Rattle.coco_batches.specs.Asking.{AreNew, CanRun, IsNewTo, known_of};

use crate::new_requests::NewRequests;
use coco_ast::Checked;
use coco_kept::{Found, Kept};
use coco_lines::{Body, Class, LineError, RequestFault, Scratch, request};
use coco_types::limits::MOST_KEPT;
use coco_types::{NoMemory, Request};
use std::alloc::Global;

/// The class of a line. The scratch is the memory that reading takes, kept from line to line.
pub fn class_of(
    alloc: Global,
    scratch: &mut Scratch,
    procs: &Checked,
    kept: &Kept,
    fresh: &NewRequests,
    body: &Body,
) -> Result<Class, NoMemory>
    requires { AreNew kept.now fresh.now }
    ensures class { (line : List ℕ) → body.now ≡ body_of line → IfOk result (IsClass procs.now (known_of kept.now fresh.now) line) }
    ensures new { IfOk result (IsNewTo kept.now fresh.now) }
    ensures runs { IfOk result (CanRun procs.now) }
{
    let bytes = match body {
        Body::Long => return Ok(Class::Refused(LineError::Long)),
        Body::Whole(bytes) => bytes,
    };
    match request(alloc, scratch, procs, bytes.as_slice()) {
        Ok(request) => Ok(class_of_request(kept, fresh, request)),
        Err(RequestFault::Line(error)) => Ok(Class::Refused(error)),
        Err(RequestFault::NoMemory) => Err(NoMemory),
    }
}

/// The class of a request that was read: the first that fits of those from same on.
pub fn class_of_request(kept: &Kept, fresh: &NewRequests, request: Request) -> Class
    requires { AreNew kept.now fresh.now }
    ensures class { first_that_fits (request_tests (known_of kept.now fresh.now) (Some request)) ≡ Some result }
    ensures new { IsNewTo kept.now fresh.now result }
    ensures runs { (procs : Procedures) → Fits procs request.call → CanRun procs result }
{
    // It tells that the ids of what is held are distinct.
    let _held = kept.len();
    match kept.find(request.id, &request.call) {
        Found::Same => Class::Same(request.id),
        Found::Reused => Class::Refused(LineError::Reused),
        Found::Old => class_of_unkept(kept, fresh, request, true),
        Found::New => class_of_unkept(kept, fresh, request, false),
    }
}

// The class of a request whose id isn't kept; it may be one that was forgotten.
fn class_of_unkept(kept: &Kept, fresh: &NewRequests, request: Request, old: bool) -> Class
    requires new { AreNew kept.now fresh.now }
    requires unkept { done_of request.id kept.now.dones ≡ None }
    requires old { is_up_to kept.now.floor request.id ≡ old }
    ensures class { first_that_fits (request_tests (known_of kept.now fresh.now) (Some request)) ≡ Some result }
    ensures new { IsNewTo kept.now fresh.now result }
    ensures runs { (procs : Procedures) → Fits procs request.call → CanRun procs result }
{
    let held = kept.len();
    match fresh.call_of(request.id) {
        Some(call) if *call == request.call => Class::Same(request.id),
        Some(_) => Class::Refused(LineError::Reused),
        None if old => Class::Refused(LineError::Old),
        None if fresh.len() as u64 >= MOST_KEPT - held => Class::Refused(LineError::Full),
        None => Class::New(request),
    }
}
