//! Dones, one behind another.

ghost use Rattle.std.specs.Prelude.{◌≡◌, ◌+◌, ◌-◌, ◌<◌, ◌∷◌, ◌++◌, [], List, None, Some, IfOk, IsTrue, MatchBool};
ghost use Rattle.std.specs.Option.{option_map};
ghost use Rattle.coco_types.specs.Limits.{most_batch_lines};
ghost use Rattle.coco_types.specs.declared.call.Done.{Done};
ghost use Rattle.coco_ast.specs.Fitting.{any_writes, is_taken};
ghost use Rattle.coco_ast.specs.Meaning.{procedure_at};
ghost use Rattle.coco_entry.specs.Bases.{is_before as comes_before, stamp_of as its_stamp, stamp_rises};
ghost use Rattle.coco_store.specs.Rules.{IsNextDone, Setting};
ghost use Rattle.coco_rules.specs.Noting.{AreNoted, count_of, has_room, has_time, is_allowed};

use coco_ast::Checked;
use coco_entry::base::Stamp;
use coco_types::limits::{MOST_BATCH_LINES, MOST_KEPT, MOST_TIME};
use coco_types::{Call, Done, NoMemory};
use std::alloc::Global;
use std::collections::HashSet;

/// What is remembered of Dones that came one behind another.
#[derive(Drop)]
pub(crate) struct Noted {
    /// Their ids.
    pub ids: HashSet<u64>,
    /// What orders the last one.
    pub last: Option<Stamp>,
    /// How many are of its epoch.
    pub of_epoch: usize,
    /// How many more there is room for, where there is an end to them.
    pub room: Option<u64>,
}

// What orders a Done.
fn stamp_of(done: &Done) -> Stamp
    ensures { result ≡ its_stamp done.now }
{
    Stamp {
        epoch: done.epoch,
        time: done.time,
        id: done.id,
    }
}

fn is_before(before: Stamp, stamp: Stamp) -> bool
    ensures { result ≡ comes_before before stamp }
{
    before.epoch < stamp.epoch
        || (before.epoch == stamp.epoch
            && (before.time < stamp.time || (before.time == stamp.time && before.id < stamp.id)))
}

// Whether the procedures take the call: they have its procedure, with as many parameters, and it
// doesn't write in a snapshot. Only for a snapshot call is the procedure's body walked.
fn fits(procs: &Checked, call: &Call) -> bool
    ensures { result ≡ is_taken (procedure_at procs.now.procs call.now.proc_no) call.now }
{
    let Some(params) = procs.params(call.proc_no) else {
        return false;
    };
    call.args.len() == params as usize
        && !(call.snapshot && procs.writes(call.proc_no).unwrap_or(false))
}

// Whether a call may have this time.
fn is_timed(snapshot: bool, time: u64) -> bool
    ensures { result ≡ has_time snapshot time }
{
    if snapshot {
        time == 0
    } else {
        1 <= time && time <= MOST_TIME
    }
}

impl Noted {
    /// None so far. Without a keep number there is an end to them.
    pub(crate) fn new(alloc: Global, keep: Option<u16>) -> Noted
        ensures { AreNoted keep [] result }
    {
        Noted {
            ids: HashSet::new(alloc),
            last: None,
            of_epoch: 0,
            room: match keep {
                None => Some(MOST_KEPT),
                Some(_) => None,
            },
        }
    }

    fn rises(&self, done: &Done) -> bool
        ensures { result ≡ stamp_rises self.now.last (its_stamp done.now) }
    {
        match self.last {
            Some(last) => is_before(last, stamp_of(done)),
            None => true,
        }
    }

    // How many are of an epoch that is the last one's or a later one.
    fn count_of(&self, epoch: u64) -> usize
        ensures { result ≡ count_of self.now.last self.now.of_epoch epoch }
    {
        match self.last {
            Some(last) if last.epoch == epoch => self.of_epoch,
            _ => 0,
        }
    }

    fn has_room(&self) -> bool
        ensures { result ≡ has_room self.now.room }
    {
        match self.room {
            Some(room) => 0 < room,
            None => true,
        }
    }

    // Whether a Done keeps all rules but that its id is new.
    fn allows(&self, procs: &Checked, done: &Done) -> bool
        ensures { result ≡ is_allowed procs.now self.now done.now }
    {
        fits(procs, &done.call)
            && is_timed(done.call.snapshot, done.time)
            && self.rises(done)
            && self.count_of(done.epoch) < MOST_BATCH_LINES
            && self.has_room()
    }

    // Notes a Done, whose id is noted.
    fn note(&mut self, done: &Done)
        requires few { count_of self.old.last self.old.of_epoch done.now.epoch < most_batch_lines }
        requires room { IsTrue (has_room self.old.room) }
        ensures ids { self.new.ids ≡ self.old.ids }
        ensures last { self.new.last ≡ Some (its_stamp done.now) }
        ensures of_epoch { self.new.of_epoch ≡ count_of self.old.last self.old.of_epoch done.now.epoch + 1 }
        ensures room { self.new.room ≡ option_map (λ room. room - 1) self.old.room }
    {
        self.of_epoch = self.count_of(done.epoch) + 1;
        self.last = Some(stamp_of(done));
        if let Some(room) = self.room {
            self.room = Some(room - 1);
        }
    }

    /// Notes a Done that keeps the rules behind those before it; else the answer is false. After that,
    /// and out of memory, nothing is said of what is noted.
    pub(crate) fn takes(&mut self, procs: &Checked, done: &Done) -> Result<bool, NoMemory>
        ensures { (s : Setting) (before : List Done) → s.tree ≡ procs.now → AreNoted s.entry.keep before self.old
            → IfOk result (λ takes. MatchBool takes
            (IsNextDone s before done.now × AreNoted s.entry.keep (before ++ done.now ∷ []) self.new)
            (¬ (IsNextDone s before done.now))) }
    {
        if !self.allows(procs, done) {
            return Ok(false);
        }
        if !self.ids.insert(done.id)? {
            return Ok(false);
        }
        self.note(done);
        Ok(true)
    }
}
