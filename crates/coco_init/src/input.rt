//! The input as one text.

ghost use Rattle.std.specs.Prelude.{◌≡◌, ◌≤◌, ◌<◌, ℕ, List, length, take, IfOk, IfErr};
ghost use Rattle.coco_lines.specs.Reads.{Gives, IsSpent, source_moment};
ghost use Rattle.coco_init.specs.Counts.{CountsReads};
ghost use Rattle.coco_init.specs.Reading.{Takes};

use coco_ending::{Ending, TextError};
use coco_io::Source;
use coco_types::limits::MOST_PROCEDURE_BYTES;
use coco_types::{Bytes, Failed};
use std::alloc::Global;

/// The whole input, where it isn't longer than a text of procedures may be.
pub fn read_text<S: Source>(alloc: Global, input: &mut S) -> Result<Bytes, Ending>
    ensures takes { Takes (source_moment S.Source input.old) (source_moment S.Source input.new) result }
    ensures counts { CountsReads result (S.faults input.old) (S.faults input.new) }
{
    // A byte more than a text may have shows that the input is too long.
    let mut bytes = vec![in alloc; 0; MOST_PROCEDURE_BYTES + 1]?;
    let count = fill(input, bytes.as_mut_slice())?;
    if count > MOST_PROCEDURE_BYTES {
        return Err(Ending::Refused(TextError::Long));
    }
    bytes.truncate(count);
    Ok(Bytes::from_vec(bytes))
}

// Reads into a buffer from its front on: fewer bytes than fit only where the input has ended.
fn fill<S: Source>(input: &mut S, into: &mut [u8]) -> Result<usize, Ending>
    ensures count { IfOk result (λ n. n ≤ length into.new) }
    ensures gives { IfOk result (λ n. Gives (source_moment S.Source input.old) (source_moment S.Source input.new) (take n into.new)) }
    ensures end { IfOk result (λ n. n < length into.new → IsSpent (source_moment S.Source input.new)) }
    ensures err { IfErr result (λ ending. (ending ≡ Ending.ReadFault)
        × ((bytes : List ℕ) × Gives (source_moment S.Source input.old) (source_moment S.Source input.new) bytes)) }
    ensures counts { CountsReads result (S.faults input.old) (S.faults input.new) }
{
    let mut count = 0;
    'reads: while count < into.len() {
        match input.read(&mut into[count..]) {
            Ok(0) => return Ok(count),
            Ok(more) => count += more,
            Err(Failed) => return Err(Ending::ReadFault),
        }
    }
    Ok(count)
}
