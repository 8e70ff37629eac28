//! How an attempt goes on, and what an answer makes of it: its run while it reads, and its course behind its reads.
ghost use Rattle.std.specs.Prelude.{◌≡◌, ◌⊎◌, ◌++◌, ◌∷◌, [], Bool, true, false, List, None, Some};
ghost use Rattle.coco_types.specs.RowKey.{RowKey};
ghost use Rattle.coco_types.specs.declared.call.Reply.{Reply as Replied};
ghost use Rattle.coco_types.specs.declared.call.AttemptId.{AttemptId};
ghost use Rattle.coco_shard.specs.declared.ops.Op.TheVariants.{Read, Past};
ghost use Rattle.coco_occ.specs.Course.{due_of, exchange};
ghost use Rattle.coco_occ.specs.Exchange.{Exchange, MayAnswer};
ghost use Rattle.coco_occ.specs.Keeping.{reading, reply_in, Goes, IsReading, rests_in};
ghost use Rattle.coco_occ.specs.Trying.{Ready};
ghost use Rattle.coco_occ.specs.declared.course.Course.{Course as Standing};
ghost use Rattle.coco_occ.specs.declared.course.Stage.TheVariants as stage;

use crate::course::{Course, Stage};
use coco_ast::Checked;
use coco_eval::Run;
use coco_shard::{Answer, Op};
use coco_types::Key;

/// Puts what is asked next in its place, and says whether something is: else the attempt has ended.
pub fn proceed(
    run: &mut Run,
    course: &mut Course,
    snapshot: bool,
    procs: &Checked,
    op: &mut Op,
) -> bool
    requires procs { procs.now ≡ run.old.procs }
    requires ready { rests_in course.old.stage course.old (reply_in run.old.standing) [] ≡ Ready }
    requires goes { (asked : List Exchange) × Goes snapshot run.old asked course.old (reply_in run.old.standing) None }
    ensures goes { (asked : List Exchange) → Goes snapshot run.old asked course.old (reply_in run.old.standing) None → Goes snapshot run.new asked course.new (reply_in run.new.standing) (due_of result op.new) }
    ensures run { run.new ≡ record run.old { standing = run.new.standing } }
    ensures ended { result ≡ false → course.new.stage ≡ stage.Ended }
{
    if let Stage::Reading = course.stage {
        read_on(run, course, snapshot, procs, op)
    } else {
        course.next(run.writes().as_slice(), op)
    }
}

// Goes on to the next key that is read, or behind the reads.
fn read_on(run: &mut Run, course: &mut Course, snapshot: bool, procs: &Checked, op: &mut Op) -> bool
    requires procs { procs.now ≡ run.old.procs }
    requires stage { course.old.stage ≡ stage.Reading }
    requires goes { (asked : List Exchange) × IsReading snapshot run.old asked course.old None }
    ensures goes { (asked : List Exchange) → IsReading snapshot run.old asked course.old None → Goes snapshot run.new asked course.new (reply_in run.new.standing) (due_of result op.new) }
    ensures run { run.new ≡ record run.old { standing = run.new.standing } }
    ensures ended { result ≡ false → course.new.stage ≡ stage.Ended }
{
    match run.next_key(procs) {
        Some(key) => {
            set_reading(snapshot, key, op);
            true
        }
        None => {
            if snapshot {
                course.finish();
                false
            } else {
                let writes = run.writes().as_slice();
                course.settle(writes);
                course.next(writes, op)
            }
        }
    }
}

fn set_reading(snapshot: bool, key: Key, op: &mut Op)
    ensures { op.new ≡ reading snapshot key }
{
    if snapshot {
        *op = Op::Past(key);
    } else {
        *op = Op::Read(key);
    }
}

/// Takes the answer to what was asked.
pub fn accept(run: &mut Run, course: &mut Course, asked: &Op, answer: &Answer)
    requires { (snapshot : Bool) × (before : List Exchange) × (reply : Replied) × (by : AttemptId) × Goes snapshot run.old before course.old reply (Some asked.now) × MayAnswer (record { by = by; op = asked.now }) answer.now }
    ensures goes { (snapshot : Bool) (before : List Exchange) (reply : Replied) (by : AttemptId) → Goes snapshot run.old before course.old reply (Some asked.now) → MayAnswer (record { by = by; op = asked.now }) answer.now →
        Goes snapshot run.new (before ++ exchange asked.now answer.now ∷ []) course.new reply None }
    ensures stage { (course.new.stage ≡ course.old.stage) ⊎ (course.new.stage ≡ stage.Releasing) }
    ensures procs { run.new.procs ≡ run.old.procs }
    ensures call { run.new.call ≡ run.old.call }
{
    match asked {
        Op::Read(key) => accept_read(run, course, *key, answer),
        Op::Past(_) => accept_past(run, answer),
        _ => course.take(asked, answer),
    }
}

fn accept_read(run: &mut Run, course: &mut Course, key: Key, answer: &Answer)
    requires { (before : List Exchange) × (by : AttemptId) × IsReading false run.old before course.old (Some (Read key)) × MayAnswer (record { by = by; op = Read key }) answer.now }
    ensures goes { (before : List Exchange) → IsReading false run.old before course.old (Some (Read key)) → IsReading false run.new (before ++ exchange (Read key) answer.now ∷ []) course.new None }
    ensures stage { course.new.stage ≡ course.old.stage }
    ensures procs { run.new.procs ≡ run.old.procs }
    ensures call { run.new.call ≡ run.old.call }
{
    let Answer::Got { wts, rts, value } = answer else {
        unreachable!()
    };
    course.got(key, *wts, *rts);
    run.give_lent(value.as_ref());
}

// The course of a snapshot call stays.
fn accept_past(run: &mut Run, answer: &Answer)
    requires { (course : Standing) × (key : RowKey) × (before : List Exchange) × (by : AttemptId) × IsReading true run.old before course (Some (Past key)) × MayAnswer (record { by = by; op = Past key }) answer.now }
    ensures goes { (course : Standing) (key : RowKey) (before : List Exchange) → IsReading true run.old before course (Some (Past key)) → IsReading true run.new (before ++ exchange (Past key) answer.now ∷ []) course None }
    ensures procs { run.new.procs ≡ run.old.procs }
    ensures call { run.new.call ≡ run.old.call }
{
    let Answer::Stood(value) = answer else {
        unreachable!()
    };
    run.give_lent(value.as_ref());
}
