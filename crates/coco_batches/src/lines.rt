//! The lines of a batch as they are read, before any is judged.

ghost use Rattle.std.specs.Prelude.{◌≡◌, ◌≤◌, ◌+◌, ◌++◌, ◌∷◌, [], length, true, Err, IfOk, IfErr, OnOk};
ghost use Rattle.coco_types.specs.Limits.{most_input_bytes};
ghost use Rattle.coco_lines.specs.Reads.{IsSpent, Counts, source_moment};
ghost use Rattle.coco_batches.specs.BatchReading.{BreaksOff, ReadsLines};

use coco_io::Source;
use coco_lines::{Line, LineFault, Reader};
use coco_types::NoMemory;
use std::alloc::Global;

/// Reads lines, at most so many, and holds them. Fewer are read only where the input ends.
pub fn read_lines<S: Source>(
    alloc: Global,
    reader: &mut Reader,
    source: &mut S,
    size: u32,
) -> Result<Vec<Line>, LineFault>
    requires given { reader.old.given ≤ most_input_bytes }
    ensures lines { IfOk result (λ lines. ReadsLines reader.old reader.new
        (source_moment S.Source source.old) (source_moment S.Source source.new) size lines.items) }
    ensures breaks { IfErr result (BreaksOff reader.old reader.new
        (source_moment S.Source source.old) (source_moment S.Source source.new) size) }
    ensures given { IfOk result (λ lines. reader.new.given ≡ reader.old.given + length lines.items) }
    ensures within { IfOk result (λ _. reader.new.given ≤ most_input_bytes) }
    ensures end { (reader.old.ended ≡ true → IsSpent (source_moment S.Source source.old))
        → reader.new.ended ≡ true → IsSpent (source_moment S.Source source.new) }
    ensures counts { Counts result (S.faults source.old) (S.faults source.new) }
    ensures too_much { result ≡ Err LineFault.TooMuch → reader.new.taken ≡ most_input_bytes }
{
    let mut lines = Vec::new(alloc);
    for _place in 0..size {
        match reader.next(source)? {
            Some(line) => add(&mut lines, line)?,
            None => return Ok(lines),
        }
    }
    Ok(lines)
}

fn add(lines: &mut Vec<Line>, line: Line) -> Result<(), NoMemory>
    ensures { OnOk result (lines.new.items ≡ lines.old.items ++ line ∷ []) }
{
    lines.push(line)?;
    Ok(())
}
