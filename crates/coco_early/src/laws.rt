//! What holds of every run of an epoch, of its pieces and of its copies.

ghost use Rattle.coco_early.specs.Laws.{EarlyRowsAreOfPieces, OfEachRun, PendingIsLast, PiecesAreShippable};

use coco_order::laws::{
    installs_are_apart_in_time, marks_are_own, outcomes_are_epochs, tail_writes_are_runs,
    write_times_rise, writes_are_runs,
};

/// A partition has one piece of a request, and at one time one write of a key.
pub fn pieces_are_shippable()
    ensures { OfEachRun PiecesAreShippable }
{
    installs_are_apart_in_time();
    marks_are_own();
    outcomes_are_epochs();
    tail_writes_are_runs();
    write_times_rise();
    writes_are_runs();
}

/// Where the pieces of a partition are there, the greatest time is that of the last write of a key.
pub fn pending_is_last()
    ensures { OfEachRun PendingIsLast }
{
    pieces_are_shippable();
    outcomes_are_epochs();
}

/// What early deliveries brought is of pieces: an entry of a copy's journal is a write of a commit, the commit has a
/// Done, and the Done's pieces have the write.
pub fn early_rows_are_of_pieces()
    ensures { OfEachRun EarlyRowsAreOfPieces }
{
    writes_are_runs();
}
