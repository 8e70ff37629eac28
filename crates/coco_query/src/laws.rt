//! What holds of the epochs that a store has tables of, and of the answers that readers give by them.

ghost use Rattle.coco_query.specs.Answers.{RepliesAreRuns};
ghost use Rattle.coco_query.specs.Tables.{RangesAreHistories};

/// They begin with the base's epoch, and end with the last one of the history.
pub fn ranges_are_histories()
    ensures { RangesAreHistories }
{}

/// Where tables hold a map, the replies that readers leave are those of the calls' runs on it.
pub fn replies_are_runs()
    ensures { RepliesAreRuns }
{}
