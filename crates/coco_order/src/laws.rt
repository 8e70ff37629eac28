//! What holds of every execution, and before that of every journal on each key by itself.

ghost use Rattle.coco_order.specs.OneKey.{OnEachKey, MarksAreOwn, WriteTimesRise, ValidatedReadsAreLast};
ghost use Rattle.coco_order.specs.Conflicts.{TailsConflicted, TriesAreScripts};
ghost use Rattle.coco_order.specs.Execution.{InEachExecution};
ghost use Rattle.coco_order.specs.ExecutionExamples.{ReadIsLeftToTheTail, ReadIsTriedAgain};
ghost use Rattle.coco_order.specs.Laws.{OnEachKeyOfEach, StepsAreMine, ApartInTime, TimesAreFew, CommitsAreOnce, CommitsAreSerial, OutcomesAreSerial, ClosedIsLawful, AnswersFit, ReadsAreFew, ScriptsAreFew, WritesAreRuns, TailWritesAreRuns, OutcomesAreEpochs, IdleWorkersFit};

/// A journaled shard closes with a journal that is lawful from what the shard held at its start, and with the rows
/// that the law says; and each answer of a lawful journal fits its ask.
pub fn closed_journals_are_lawful()
    ensures lawful { ClosedIsLawful }
    ensures fits { AnswersFit }
{}

/// On each key a mark belongs to the attempt that locked, no install and no release is answered `NotMine`, and no
/// mark stands at the end.
pub fn marks_are_own()
    ensures key { OnEachKey (λ opening k journal. MarksAreOwn k journal) }
    ensures execution { OnEachKeyOfEach (λ opening k journal. MarksAreOwn k journal) }
    ensures whole { InEachExecution StepsAreMine }
{}

/// On each key write times rise, each above the read time that stood before it.
pub fn write_times_rise()
    ensures key { OnEachKey (λ opening k journal. WriteTimesRise k journal) }
    ensures execution { OnEachKeyOfEach (λ opening k journal. WriteTimesRise k journal) }
{}

/// On each key a validated read finds the last install below its time.
pub fn validated_reads_are_last()
    ensures key { OnEachKey ValidatedReadsAreLast }
    ensures execution { OnEachKeyOfEach ValidatedReadsAreLast }
{}

/// No two installs on one key have one time.
pub fn installs_are_apart_in_time()
    ensures { OnEachKeyOfEach (λ opening k journal. ApartInTime k journal) }
{}

/// No time is above the number of scripts, so with fewer scripts than the greatest time none is over time.
pub fn times_are_few()
    ensures { InEachExecution TimesAreFew }
{}

/// No request commits twice.
pub fn commits_are_once()
    ensures { InEachExecution CommitsAreOnce }
{}

/// The commits, by time and id, are a serial run from the opening map, and the newest values are its map.
pub fn commits_are_serial()
    ensures { InEachExecution CommitsAreSerial }
{}

/// With the tail behind the commits, the Dones of an epoch are a serial run from the opening map.
pub fn outcomes_are_serial()
    ensures { InEachExecution OutcomesAreSerial }
{}

/// A read between another attempt's lock and install conflicts and is tried again; the commits are in the order of times.
pub fn worked_execution()
    ensures { ReadIsTriedAgain }
{}

/// No read time at the journals' ends is above the number of scripts.
pub fn reads_are_few()
    ensures { InEachExecution ReadsAreFew }
{}

/// The scripts are at most the allowed attempts for each request.
pub fn scripts_are_few()
    ensures { InEachExecution ScriptsAreFew }
{}

/// Where no two requests have one id, what a script that committed wrote is what its call's run writes at the place of
/// its Done in the serial run.
pub fn writes_are_runs()
    ensures { InEachExecution WritesAreRuns }
{}

/// So is what the tail's run of a request wrote.
pub fn tail_writes_are_runs()
    ensures { InEachExecution TailWritesAreRuns }
{}

/// Where each request has an id of its own, the Dones of an outcome are an epoch of the requests: one for each, with
/// the epoch's number, rising by time and id.
pub fn outcomes_are_epochs()
    ensures { InEachExecution OutcomesAreEpochs }
{}

/// What some workers left, with empty transcripts of more behind it, is what all of these left: nobody has to be started
/// who has nothing to do.
pub fn idle_workers_fit()
    ensures { InEachExecution IdleWorkersFit }
{}

/// Each request of the tail was tried as often as attempts are allowed, and each of these attempts ended in a conflict
/// that a journal shows: another attempt's mark on the key, or another write time than the attempt read.
pub fn tails_conflicted()
    ensures { InEachExecution TailsConflicted }
{}

/// The tries of a request are the scripts of its place, and one of these committed exactly where the last one did.
pub fn tries_are_scripts()
    ensures { InEachExecution TriesAreScripts }
{}

/// With one attempt allowed, a read between another attempt's lock and install is left to the tail.
pub fn worked_tail()
    ensures { ReadIsLeftToTheTail }
{}
