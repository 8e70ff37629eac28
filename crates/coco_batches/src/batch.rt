//! The lines of a batch, read and taken in by their classes.

ghost use Rattle.std.specs.Prelude.{◌≡◌, ◌+◌, ◌≤◌, ◌<◌, ◌++◌, ◌∷◌, [], ℕ, List, Some, Err, length, true, IfOk, IfErr, OnOk};
ghost use Rattle.coco_types.specs.Limits.{most_input_bytes, most_kept};
ghost use Rattle.coco_lines.specs.Classes.{IsClass, new_in};
ghost use Rattle.coco_lines.specs.Reads.{IsSpent, body_of, Counts, source_moment};
ghost use Rattle.coco_lines.specs.declared.class.Class.{Class as LineClass};
ghost use Rattle.coco_batches.specs.Answering.{answer_of};
ghost use Rattle.coco_batches.specs.Asking.{MayCommit, known_of};
ghost use Rattle.coco_batches.specs.BatchReading.{BreaksOff, ReadsBatch};

use crate::answer::{LineAnswer, reply_to};
use crate::classify::class_of;
use crate::new_requests::NewRequests;
use coco_ast::Checked;
use coco_io::Source;
use coco_kept::Kept;
use coco_lines::{Class, Line, LineFault, Reader, Scratch};
use coco_types::NoMemory;
use std::alloc::Global;

/// A batch of lines: what each is answered with, and the new requests among them.
#[derive(Drop)]
pub struct Batch {
    pub answers: Vec<LineAnswer>,
    pub fresh: NewRequests,
}

impl Batch {
    /// A batch without lines, with room for so many.
    pub fn with_room(alloc: Global, size: usize) -> Result<Batch, NoMemory>
        ensures answers { IfOk result (λ batch. batch.answers.items ≡ []) }
        ensures fresh { IfOk result (λ batch. batch.fresh ≡ []) }
    {
        Ok(Batch {
            answers: Vec::with_capacity(alloc, size)?,
            fresh: NewRequests::with_room(alloc, size)?,
        })
    }

    /// Takes a line in by its class.
    fn take(
        &mut self,
        alloc: Global,
        scratch: &mut Scratch,
        procs: &Checked,
        kept: &Kept,
        line: Line,
    ) -> Result<(), NoMemory>
        requires new { MayCommit procs.now kept.now self.old.fresh }
        ensures line { (bytes : List ℕ) → line.body ≡ body_of bytes → OnOk result ((c : LineClass)
            × IsClass procs.now (known_of kept.now self.old.fresh) bytes c
            × (self.new.answers.items ≡ self.old.answers.items ++ answer_of kept.now.dones line.number c ∷ [])
            × (self.new.fresh ≡ self.old.fresh ++ new_in c)) }
        ensures one { OnOk result (length self.new.answers.items ≡ length self.old.answers.items + 1) }
        ensures new { OnOk result (MayCommit procs.now kept.now self.new.fresh) }
    {
        let answer = match class_of(alloc, scratch, procs, kept, &self.fresh, &line.body)? {
            Class::Refused(error) => LineAnswer::Error {
                error,
                number: line.number,
            },
            Class::Same(id) => reply_to(alloc, kept, id)?,
            Class::New(request) => {
                let id = request.id;
                self.fresh.push(request)?;
                LineAnswer::New(id)
            }
        };
        self.answers.push(answer)?;
        Ok(())
    }
}

/// Reads lines, at most so many, and takes them in by their classes. Fewer are read only where the input ends.
pub fn read_batch<S: Source>(
    alloc: Global,
    scratch: &mut Scratch,
    procs: &Checked,
    reader: &mut Reader,
    source: &mut S,
    kept: &Kept,
    size: u32,
) -> Result<Batch, LineFault>
    requires few { length kept.now.dones ≤ most_kept }
    requires given { reader.old.given ≤ most_input_bytes }
    ensures batch { IfOk result (ReadsBatch procs.now kept.now reader.old reader.new
        (source_moment S.Source source.old) (source_moment S.Source source.new) size) }
    ensures breaks { IfErr result (BreaksOff reader.old reader.new
        (source_moment S.Source source.old) (source_moment S.Source source.new) size) }
    ensures new { IfOk result (λ batch. MayCommit procs.now kept.now batch.fresh) }
    ensures given { IfOk result (λ batch. reader.new.given ≡ reader.old.given + length batch.answers.items) }
    ensures within { IfOk result (λ _. reader.new.given ≤ most_input_bytes) }
    ensures end { (reader.old.ended ≡ true → IsSpent (source_moment S.Source source.old))
        → reader.new.ended ≡ true → IsSpent (source_moment S.Source source.new) }
    ensures counts { Counts result (S.faults source.old) (S.faults source.new) }
    ensures too_much { result ≡ Err LineFault.TooMuch → reader.new.taken ≡ most_input_bytes }
{
    let mut batch = Batch::with_room(alloc, size as usize)?;
    for _place in 0..size {
        match reader.next(source)? {
            Some(line) => batch.take(alloc, scratch, procs, kept, line)?,
            None => return Ok(batch),
        }
    }
    Ok(batch)
}
