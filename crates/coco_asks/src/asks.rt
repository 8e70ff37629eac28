//! What the lines of a batch ask: the refusals of some, and the requests of the others.

ghost use Rattle.std.specs.Prelude.{◌≡◌, ◌++◌, ◌∷◌, ◌≤◌, [], ℕ, List, None, Some, Err, length, IfOk, OnOk};
ghost use Rattle.std.specs.List.{AllByRecursion};
ghost use Rattle.coco_ast.specs.Fitting.{Fits};
ghost use Rattle.coco_lines.specs.Reading.{request_on};
ghost use Rattle.coco_lines.specs.Reads.{body_of};
ghost use Rattle.coco_lines.specs.declared.reader.Line.{Line as Given};
ghost use Rattle.coco_asks.specs.Asking.{ask_error};
ghost use Rattle.coco_asks.specs.Sorting.{AreSorted};

use coco_ast::Checked;
use coco_lines::{Body, Line, LineError, RequestFault, Scratch, asked_request};
use coco_types::{NoMemory, Request};
use std::alloc::Global;

/// Why a line is refused, with its number.
#[derive(Clone, Copy, Debug, PartialEq, Eq)]
pub struct Refusal {
    pub error: LineError,
    pub number: u64,
}

/// What lines ask: for each its refusal, or none, and in turn the requests of those without one.
#[derive(Drop)]
pub struct Asks {
    pub refusals: Vec<Option<Refusal>>,
    pub requests: Vec<Request>,
}

impl Asks {
    fn new(alloc: Global) -> Asks
        ensures refusals { result.refusals.items ≡ [] }
        ensures requests { result.requests.items ≡ [] }
    {
        Asks {
            refusals: Vec::new(alloc),
            requests: Vec::new(alloc),
        }
    }

    // Takes a line in by what it asks.
    fn take(
        &mut self,
        alloc: Global,
        scratch: &mut Scratch,
        procs: &Checked,
        line: Line,
    ) -> Result<(), NoMemory>
        requires { AllByRecursion (λ r. Fits procs.now r.call) self.old.requests.items }
        ensures sorted { (before : List Given) → AreSorted procs.now before self.old.refusals.items self.old.requests.items
            → OnOk result (AreSorted procs.now (before ++ line ∷ []) self.new.refusals.items self.new.requests.items) }
        ensures fit { OnOk result (AllByRecursion (λ r. Fits procs.now r.call) self.new.requests.items) }
    {
        match ask_of(alloc, scratch, procs, &line.body) {
            Ok(request) => self.ask(request),
            Err(RequestFault::Line(error)) => self.refuse(Refusal {
                error,
                number: line.number,
            }),
            Err(RequestFault::NoMemory) => Err(NoMemory),
        }
    }

    // One line more, which is this request.
    fn ask(&mut self, request: Request) -> Result<(), NoMemory>
        ensures refusals { OnOk result (self.new.refusals.items ≡ self.old.refusals.items ++ None ∷ []) }
        ensures requests { OnOk result (self.new.requests.items ≡ self.old.requests.items ++ request ∷ []) }
    {
        self.refusals.push(None)?;
        self.requests.push(request)?;
        Ok(())
    }

    // One line more, which is refused so.
    fn refuse(&mut self, refusal: Refusal) -> Result<(), NoMemory>
        ensures refusals { OnOk result (self.new.refusals.items ≡ self.old.refusals.items ++ Some refusal ∷ []) }
        ensures requests { self.new.requests.items ≡ self.old.requests.items }
    {
        self.refusals.push(Some(refusal))?;
        Ok(())
    }
}

/// What these lines ask. The scratch is the memory that reading takes, kept from line to line.
pub fn asks_of(
    alloc: Global,
    scratch: &mut Scratch,
    procs: &Checked,
    lines: Vec<Line>,
) -> Result<Asks, NoMemory>
    ensures sorted { IfOk result (λ asks. AreSorted procs.now lines.items asks.refusals.items asks.requests.items) }
    ensures fit { IfOk result (λ asks. AllByRecursion (λ r. Fits procs.now r.call) asks.requests.items) }
{
    let mut asks = Asks::new(alloc);
    for line in lines {
        asks.take(alloc, scratch, procs, line)?;
    }
    Ok(asks)
}

// The request of a line whose procedure only reads, or the first error that the line has.
fn ask_of(
    alloc: Global,
    scratch: &mut Scratch,
    procs: &Checked,
    body: &Body,
) -> Result<Request, RequestFault>
    ensures ok { (line : List ℕ) → body.now ≡ body_of line → IfOk result (λ request. (ask_error procs.now line ≡ None) × (request_on procs.now line ≡ Some request)) }
    ensures line { (line : List ℕ) (e : LineError) → body.now ≡ body_of line → result ≡ Err (RequestFault.Line e) → ask_error procs.now line ≡ Some e }
    ensures fits { IfOk result (λ request. Fits procs.now request.call) }
{
    let bytes = match body {
        Body::Long => return Err(RequestFault::Line(LineError::Long)),
        Body::Whole(bytes) => bytes,
    };
    let request = asked_request(alloc, scratch, procs, bytes.as_slice())?;
    if procs.writes(request.call.proc_no).unwrap_or(false) {
        return Err(RequestFault::Line(LineError::Snapshot));
    }
    Ok(request)
}
