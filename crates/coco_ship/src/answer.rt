//! What copies answer.

ghost use Rattle.std.specs.Prelude.{◌≡◌, ◌*◌, ◌<◌, ℕ, false, is_some, Some, ◌&&◌, length, IfOk, IfSome, OnOk};
ghost use Rattle.std.specs.List.{slice_get};
ghost use Rattle.coco_msg.specs.Bytes.{IsMessage};
ghost use Rattle.coco_ship.specs.Placing.{table_of, IsCopy, IsRing};
ghost use Rattle.std.specs.Option.{option_map};
ghost use Rattle.coco_ship.specs.Lines.{answered, AreAnswered};
ghost use Rattle.coco_ship.specs.Sending.{answer_of, Answers, AnswersOf, AreAnswers, GivesAnswer};

use crate::Ring;
use crate::line::Line;
use crate::mail::write_letter;
use crate::places::{PlaceSet, missing};
use coco_msg::{Message, Places};
use coco_net::Posted;
use coco_types::NoMemory;
use std::alloc::Global;
use std::collections::VecDeque;

// All where nothing is missing, else what is missing.
fn answer(alloc: Global, epoch: u64, partition: u8, missing: &PlaceSet) -> Result<Message, NoMemory>
    ensures same { IfOk result (λ m. m ≡ answer_of epoch partition missing.now) }
    ensures readable { IfOk result (λ m. IsMessage m) }
{
    if missing.is_empty() {
        return Ok(Message::All { epoch, partition });
    }
    let places = Places::from_vec(missing.listed(alloc)?);
    Ok(Message::Missing {
        epoch,
        partition,
        places,
    })
}

// What a copy that has the Total and was told anything answers.
fn answer_line(
    alloc: Global,
    epoch: u64,
    partition: u8,
    line: &Line,
) -> Result<Option<Message>, NoMemory>
    ensures some { IfOk result (λ answer. IfSome answer (GivesAnswer epoch partition line.now)) }
    ensures none { IfOk result (λ answer. is_some answer ≡ (is_some line.now.total && line.now.is_asked)) }
{
    match &line.total {
        Some(total) if line.is_asked => {
            let missing = missing(alloc, line.there.as_slice(), total.as_slice())?;
            Ok(Some(answer(alloc, epoch, partition, &missing)?))
        }
        _ => Ok(None),
    }
}

// Writes the letter of such an answer.
fn post_answer(
    alloc: Global,
    ring: Ring,
    epoch: u64,
    partition: u8,
    copy: u8,
    line: &Line,
    letters: &mut VecDeque<Posted>,
) -> Result<(), NoMemory>
    requires { IsRing ring }
    ensures { OnOk result (Answers ring epoch partition copy line.now letters.old.items letters.new.items) }
{
    if let Some(message) = answer_line(alloc, epoch, partition, line)? {
        let from = ring.holder(partition, copy);
        write_letter(alloc, letters, from, ring.primary(partition), &message)?;
    }
    Ok(())
}

// What the copies of a partition answer.
fn answers_of(
    alloc: Global,
    ring: Ring,
    epoch: u64,
    partition: u8,
    lines: &mut [Line],
    letters: &mut VecDeque<Posted>,
) -> Result<(), NoMemory>
    requires ring { IsRing ring }
    requires partition { partition < ring.partitions }
    requires lines { length lines.old ≡ ring.partitions * ring.copies }
    ensures letters { OnOk result (AnswersOf ring epoch partition lines.old ring.copies letters.old.items letters.new.items) }
    ensures lines { OnOk result ((p j : ℕ) → IsCopy ring p j → AreAnswered p partition (slice_get lines.old (table_of ring p j)) (slice_get lines.new (table_of ring p j))) }
{
    for copy in 0..ring.copies {
        let line = &mut lines[ring.table(partition, copy)];
        post_answer(alloc, ring, epoch, partition, copy, line, letters)?;
        line.is_asked = false;
    }
    Ok(())
}

// All that copies answer in an exchange.
pub(crate) fn answers(
    alloc: Global,
    ring: Ring,
    epoch: u64,
    lines: &mut [Line],
) -> Result<VecDeque<Posted>, NoMemory>
    requires ring { IsRing ring }
    requires lines { length lines.old ≡ ring.partitions * ring.copies }
    ensures letters { IfOk result (λ letters. AreAnswers ring epoch lines.old letters.items) }
    ensures lines { OnOk result ((p j : ℕ) → IsCopy ring p j → slice_get lines.new (table_of ring p j) ≡ option_map answered (slice_get lines.old (table_of ring p j))) }
{
    let mut letters = VecDeque::new(alloc);
    for partition in 0..ring.partitions {
        answers_of(alloc, ring, epoch, partition, lines, &mut letters)?;
    }
    Ok(letters)
}
