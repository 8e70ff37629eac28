//! Request lines answered batch by batch, to the end of the input.

ghost use Rattle.std.specs.Prelude.{◌≡◌, ◌<◌, length};
ghost use Rattle.coco_asks.specs.Answering.{Answers};
ghost use Rattle.coco_lines.specs.Reads.{source_moment};

use crate::batch::answer_batch;
use crate::ending::Asked;
use coco_ast::Checked;
use coco_batches::read_lines;
use coco_gate::Gate;
use coco_host::{Host, say_all};
use coco_io::Source;
use coco_lines::{LineFault, Reader, Scratch};
use coco_query::Frozen;
use coco_types::OutFault;
use coco_types::limits::MOST_BATCH_LINES;
use std::alloc::Global;
use std::sync::Wait;
use std::thread::Threads;

/// Whose rows lines are answered by, those at the end of this epoch, and how many readers run their calls.
#[derive(Clone, Copy, Debug, PartialEq, Eq)]
pub struct QueryBounds {
    pub epoch: u64,
    pub readers: u8,
}

/// Reads request lines to the end of the input, and answers each by the rows of an epoch, which these tables hold. Lines
/// are read in batches, each of which is answered before the next one is read.
pub fn answer_asks<R: Threads + Wait + Sync, H: Host, S: Source, G: Gate + Sync>(
    rt: &R,
    alloc: Global,
    host: &mut H,
    input: &mut S,
    mut tables: Vec<Frozen>,
    procs: &Checked,
    bounds: QueryBounds,
    gate: &G,
) -> Asked
    requires some { 0 < length tables.items }
    requires readers { 0 < bounds.readers }
    ensures answers { Answers H.Host procs.now tables.items bounds.epoch
        (record { source = source_moment S.Source input.old; source_faults = S.faults input.old; say_faults = H.say_faults host.old })
        (record { source = source_moment S.Source input.new; source_faults = S.faults input.new; say_faults = H.say_faults host.new })
        result host.old host.new }
    ensures disk { H.disk_faults host.new ≡ H.disk_faults host.old }
{
    let mut reader = Reader::new(alloc);
    let mut scratch = Scratch::new(alloc);
    'batches: loop {
        let lines = match read_lines(alloc, &mut reader, input, MOST_BATCH_LINES as u32) {
            Ok(lines) => lines,
            Err(LineFault::NoMemory) => return Asked::NoMemory,
            Err(LineFault::Failed) => return Asked::ReadFault,
            Err(LineFault::TooMuch) => return Asked::ReadFault,
        };
        let count = lines.len();
        let answered = answer_batch(rt, alloc, &mut scratch, tables, procs, lines, bounds, gate);
        let Ok((back, texts)) = answered else {
            return Asked::NoMemory;
        };
        tables = back;
        match say_all(host, texts.as_slice()) {
            Ok(()) => {}
            Err(OutFault::Failed) => return Asked::SayFault,
            Err(OutFault::NoMemory) => return Asked::NoMemory,
        }
        if count < MOST_BATCH_LINES {
            return Asked::Finished;
        }
    }
}
