//! What holds of each epoch that workers ran side by side.

ghost use Rattle.coco_parallel.specs.Laws.{AtEachEnd, AreAnExecution, ShardsHaveRows, TailMayRun, DonesAreItsOutcome};
ghost use Rattle.coco_parallel.specs.Copies.{CopiesAreOfCommits};
ghost use Rattle.coco_parallel.specs.Ends.{EndsAreSerial, TailMayBegin};
ghost use Rattle.coco_parallel.specs.PieceOrder.{PiecesAreOfDones};
ghost use Rattle.coco_parallel.specs.Running.{RunsEnd};
ghost use Rattle.coco_parallel.specs.Tails.{TailsAreLeft};

use coco_order::laws::{
    closed_journals_are_lawful, commits_are_once, commits_are_serial, marks_are_own,
    outcomes_are_epochs, outcomes_are_serial, reads_are_few, scripts_are_few, tail_writes_are_runs,
    tails_conflicted, times_are_few, writes_are_runs,
};

/// What the workers tried and what the locks of the shards closed with is an execution, and the shards have the rows
/// that its journals say.
pub fn workers_make_an_execution()
    ensures execution { AtEachEnd AreAnExecution }
    ensures rows { AtEachEnd ShardsHaveRows }
{
    closed_journals_are_lawful();
}

/// When all locks are closed, the shards are ready for the tail: their newest values are the map that the commits
/// leave, the stable ones are those of the start, and no mark stands. The commits with the tail's Dones, by time and
/// id, are the outcome of the execution.
pub fn ends_have_outcomes()
    ensures ready { AtEachEnd TailMayRun }
    ensures outcome { AtEachEnd DonesAreItsOutcome }
{
    workers_make_an_execution();
    closed_journals_are_lawful();
    marks_are_own();
    commits_are_serial();
}

/// What the calls of an epoch hand on to each other, from the start of its locks to their end, is what holds at its
/// end.
pub fn runs_end()
    ensures { RunsEnd }
{}

/// What a worker's pass has in the journal of a copy table are the writes of its commits there, where the net carries
/// them.
pub fn copies_are_of_commits()
    ensures { CopiesAreOfCommits }
{}

/// Where no two requests have one id, the workers' pieces and the tail's, in order, are those of the Dones.
pub fn pieces_are_of_dones()
    ensures { AtEachEnd PiecesAreOfDones }
{
    closed_journals_are_lawful();
    commits_are_serial();
    outcomes_are_epochs();
    writes_are_runs();
    tail_writes_are_runs();
}

/// When all locks are closed, the tail may begin; and with a tail behind the workers the epoch is an execution with its
/// outcome, and serial.
pub fn ends_are_serial()
    ensures begins { AtEachEnd TailMayBegin }
    ensures serial { AtEachEnd EndsAreSerial }
{
    closed_journals_are_lawful();
    marks_are_own();
    commits_are_once();
    commits_are_serial();
    outcomes_are_serial();
    times_are_few();
    reads_are_few();
    scripts_are_few();
    outcomes_are_epochs();
    pieces_are_of_dones();
}

/// In every execution of an epoch's size each entry of the tail is a request that no attempt committed, with the ends of
/// as many attempts as are allowed, each of them a conflict that a journal shows; and no attempt is over time.
pub fn tails_are_left()
    ensures { TailsAreLeft }
{
    tails_conflicted();
    scripts_are_few();
    times_are_few();
}
