//! What lines are answered with, and the texts of their answers.

ghost use Rattle.std.specs.Prelude.{◌≡◌, ◌++◌, IfOk, OnOk};
ghost use Rattle.coco_ast.specs.History.{done_of};
ghost use Rattle.coco_lines.specs.Texts.{done_text};
ghost use Rattle.coco_batches.specs.Answering.{held_text, held_texts, reply_to};

use coco_kept::Kept;
use coco_lines::{LineError, done_text, write_done, write_error};
use coco_types::{Done, NoMemory};
use std::alloc::Global;
use std::marker::Model;

/// What a line is answered with, from when it is read: that it is refused, the text of a Done that was kept by then,
/// which its own batch may make the store forget, or the reply to a new request, by its id.
#[derive(Drop)]
pub enum LineAnswer {
    Error { error: LineError, number: u64 },
    Kept(DoneText),
    New(u64),
}

/// The text of a Done. Contracts see its bytes.
#[derive(Drop)]
pub struct DoneText {
    bytes: Vec<u8>,
}

impl Model for DoneText {
    ghost use Rattle.std.specs.Prelude.{ℕ, List};

    ghost Value = { List ℕ };

    ghost view = { λ t. t.bytes.items };
}

impl DoneText {
    fn of(alloc: Global, done: &Done) -> Result<DoneText, NoMemory>
        ensures { IfOk result (λ text. text ≡ done_text done.now) }
    {
        let bytes = done_text(alloc, done)?;
        Ok(DoneText { bytes })
    }

    fn as_slice(&self) -> &[u8]
        ensures { result.now ≡ self.now }
    {
        self.bytes.as_slice()
    }
}

/// What a request of this id is answered with, by what is kept before its batch is committed.
pub fn reply_to(alloc: Global, kept: &Kept, id: u64) -> Result<LineAnswer, NoMemory>
    ensures { IfOk result (λ answer. answer ≡ reply_to id (done_of id kept.now.dones)) }
{
    match kept.get(id) {
        Some(done) => Ok(LineAnswer::Kept(DoneText::of(alloc, done)?)),
        None => Ok(LineAnswer::New(id)),
    }
}

/// The texts of answers, one behind another, by what is kept once their batch is committed.
pub fn texts_of(alloc: Global, kept: &Kept, answers: &[LineAnswer]) -> Result<Vec<u8>, NoMemory>
    ensures { IfOk result (λ texts. texts.items ≡ held_texts kept.now.dones answers.now) }
{
    let mut texts = Vec::new(alloc);
    for answer in answers {
        write_answer(&mut texts, kept, answer)?;
    }
    Ok(texts)
}

fn write_answer(out: &mut Vec<u8>, kept: &Kept, answer: &LineAnswer) -> Result<(), NoMemory>
    ensures { OnOk result (out.new.items ≡ out.old.items ++ held_text kept.now.dones answer.now) }
{
    match answer {
        LineAnswer::Error { error, number } => write_error(out, *error, *number),
        LineAnswer::Kept(text) => {
            out.extend_from_slice(text.as_slice())?;
            Ok(())
        }
        LineAnswer::New(id) => match kept.get(*id) {
            Some(done) => write_done(out, done),
            None => Ok(()),
        },
    }
}
