//! One batch of lines answered.

ghost use Rattle.std.specs.Prelude.{◌≡◌, ◌<◌, ◌^◌, ℕ, List, length, IfOk};
ghost use Rattle.coco_ast.specs.Keyed.{Rows};
ghost use Rattle.coco_batches.specs.BatchReading.{numbered};
ghost use Rattle.coco_lines.specs.Lines.{Line as Bytes};
ghost use Rattle.coco_query.specs.Frozen.{HoldsFrozen};
ghost use Rattle.coco_asks.specs.Asking.{answers_from};

use crate::asks::{Asks, asks_of};
use crate::input::QueryBounds;
use crate::texts::{dones_of, texts_of};
use coco_ast::Checked;
use coco_gate::Gate;
use coco_lines::{Line, Scratch};
use coco_query::{Answered, Frozen, answers, replies_are_runs};
use coco_types::NoMemory;
use std::alloc::Global;
use std::sync::Wait;
use std::thread::Threads;

/// The texts that lines are answered with on these tables, which come back as they were.
pub fn answer_batch<R: Threads + Wait + Sync, G: Gate + Sync>(
    rt: &R,
    alloc: Global,
    scratch: &mut Scratch,
    tables: Vec<Frozen>,
    procs: &Checked,
    lines: Vec<Line>,
    bounds: QueryBounds,
    gate: &G,
) -> Result<(Vec<Frozen>, Vec<u8>), NoMemory>
    requires some { 0 < length tables.items }
    requires readers { 0 < bounds.readers }
    requires few { length lines.items < 2 ^ 32 }
    ensures back { IfOk result (λ r. r.0.items ≡ tables.items) }
    ensures texts { IfOk result (λ r. (m : Rows) (n : ℕ) (of : List Bytes) → HoldsFrozen m tables.items → lines.items ≡ numbered n of
        → r.1.items ≡ answers_from (record { procs = procs.now; rows = m; epoch = bounds.epoch }) n of) }
{
    let Asks { refusals, requests } = asks_of(alloc, scratch, procs, lines)?;
    let answered = answers(
        rt,
        alloc,
        tables,
        procs,
        requests.as_slice(),
        bounds.readers,
        gate,
    );
    let Ok(answered) = answered else {
        return Err(NoMemory);
    };
    replies_are_runs();
    let Answered {
        tables,
        replies,
        ..
    } = answered;
    let dones = dones_of(alloc, requests, replies, bounds.epoch)?;
    let texts = texts_of(alloc, refusals.as_slice(), dones.as_slice())?;
    Ok((tables, texts))
}
