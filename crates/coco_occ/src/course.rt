//! Where an attempt stands behind its reads: what it locks, extends, installs or releases next.
ghost use Rattle.std.specs.Prelude.{◌≡◌, ℕ, false, ◌+◌, ◌-◌, ◌^◌, ◌≤◌, ◌<◌, ◌++◌, ◌∷◌, [], ◌⊎◌, length, max, min, map, List, None, Some, vec_len, vec_capacity, IfNone, IfSome, IfOk, OnOk, MatchOption};
ghost use Rattle.std.specs.List.{list_any, slice_get, HoldsAt};
ghost use Rattle.coco_ast.specs.Keyed.{Rows};
ghost use Rattle.coco_ast.specs.Meaning.{Run, is_key};
ghost use Rattle.coco_types.specs.declared.call.AttemptId.{AttemptId};
ghost use Rattle.coco_shard.specs.declared.ops.Op.TheVariants.{Lock, Extend};
ghost use Rattle.coco_shard.specs.declared.ops.Answer.TheVariants.{Locked};
ghost use Rattle.coco_occ.specs.Exchange.{Exchange, MayAnswer};
ghost use Rattle.coco_occ.specs.declared.course.Stage.TheVariants as stage;
ghost use Rattle.std.specs.Option.{option_map};
ghost use Rattle.coco_occ.specs.Course.{wts_in, needs_seen, Rise, HasRoom, IsFresh, entered, outcome_by, is_ended, exchange, due_of, extension_of, IsLocking, IsExtending, IsEnding, Closes, Stands};
ghost use Rattle.coco_occ.specs.Interleaving.{end_move};

use crate::outcome::{Move, Outcome, Why};
use coco_shard::{Answer, Op};
use coco_types::limits::{MOST_KEYS, MOST_TIME};
use coco_types::{Key, NoMemory, Reply, Write};
use std::alloc::Global;

/// A key that was read, with the times that it showed.
#[derive(Clone, Copy, Debug)]
pub struct SeenKey {
    pub key: Key,
    pub wts: u64,
    pub rts: u64,
}

/// What an attempt does now.
#[derive(Clone, Copy, Debug)]
pub enum Stage {
    Reading,
    Locking,
    Extending,
    Installing,
    Releasing,
    Ended,
}

/// The stage of an attempt, and which of the stage's keys is next.
#[derive(Debug, Drop)]
pub struct Course {
    pub stage: Stage,
    pub place: usize,
    /// What was read, in order.
    pub seen: Vec<SeenKey>,
    /// For each write the write time that a read of its key showed.
    pub expected: Vec<Option<u64>>,
    /// How many of the keys of the writes are locked.
    pub locked: usize,
    /// The greatest of the times that the time of a commit is above.
    pub greatest: u64,
    /// The time, once no lock conflicted, none where it would be too great.
    pub time: Option<u64>,
    pub conflict: Option<Why>,
}

impl Course {
    /// The course of an attempt at its start, with the room for all keys of a call.
    pub fn new(alloc: Global) -> Result<Course, NoMemory>
        ensures { IfOk result IsFresh }
    {
        let mut course = Course {
            stage: Stage::Reading,
            place: 0,
            seen: Vec::new(alloc),
            expected: Vec::new(alloc),
            locked: 0,
            greatest: 0,
            time: None,
            conflict: None,
        };
        course.clear()?;
        Ok(course)
    }

    /// Forgets what was read, and makes the room for all keys of a call.
    pub fn clear(&mut self) -> Result<(), NoMemory>
        ensures others { self.new ≡ record self.old { seen = self.new.seen; expected = self.new.expected } }
        ensures room { OnOk result (HasRoom self.new) }
    {
        self.seen.clear();
        self.expected.clear();
        self.seen.reserve(MOST_KEYS as usize)?;
        self.expected.reserve(MOST_KEYS as usize)?;
        Ok(())
    }

    /// Goes to the start of another attempt.
    pub fn restart(&mut self)
        requires { HasRoom self.old }
        ensures { IsFresh self.new }
    {
        self.enter(Stage::Reading);
        self.locked = 0;
        self.greatest = 0;
        self.time = None;
        self.conflict = None;
    }

    /// Ends a snapshot call, at time 0.
    pub fn finish(&mut self)
        ensures { self.new ≡ record self.old { stage = stage.Ended; time = Some 0 } }
    {
        self.stage = Stage::Ended;
        self.time = Some(0);
    }

    /// Takes the times of a read.
    pub fn got(&mut self, key: Key, wts: u64, rts: u64)
        requires { vec_len self.old.seen < vec_capacity self.old.seen }
        ensures seen { self.new.seen.items ≡ self.old.seen.items ++ record { key = key; wts = wts; rts = rts } ∷ [] }
        ensures room { vec_capacity self.new.seen ≡ vec_capacity self.old.seen }
        ensures others { self.new ≡ record self.old { seen = self.new.seen; greatest = max self.old.greatest wts } }
    {
        self.seen.push_reserved(SeenKey { key, wts, rts });
        self.greatest = self.greatest.max(wts);
    }

    /// Goes to the first lock, once all keys are read.
    pub fn settle(&mut self, writes: &[Write])
        requires { length writes.now ≤ vec_capacity self.old.expected }
        ensures expected { Rise writes.now → self.new.expected.items ≡ map (λ w. wts_in self.old.seen.items w.key) writes.now }
        ensures others { self.new ≡ record self.old { stage = stage.Locking; place = 0; expected = self.new.expected } }
    {
        self.expected.clear();
        for _ in writes {
            self.expected.push_reserved(None);
        }
        note_times(&self.seen, writes, &mut self.expected);
        self.enter(Stage::Locking);
    }

    /// Puts what is asked next in its place, and says whether something is: else the attempt has ended.
    pub fn next(&mut self, writes: &[Write], op: &mut Op) -> bool
        ensures stands { (r : Run) (m : Rows) (asked : List Exchange) → r.writes ≡ writes.now → Stands r m asked self.old None → Stands r m asked self.new (due_of result op.new) }
        ensures ended { result ≡ false → self.new.stage ≡ stage.Ended }
    {
        match self.stage {
            Stage::Locking => self.next_lock(writes, op),
            Stage::Extending => self.next_extension(writes, op),
            _ => self.next_end(writes, op),
        }
    }

    // The next lock. Behind all locks the time is chosen.
    fn next_lock(&mut self, writes: &[Write], op: &mut Op) -> bool
        requires { self.old.stage ≡ stage.Locking }
        ensures stands { (r : Run) (m : Rows) (asked : List Exchange) → r.writes ≡ writes.now → IsLocking r m asked self.old None → Stands r m asked self.new (due_of result op.new) }
        ensures ended { result ≡ false → self.new.stage ≡ stage.Ended }
    {
        match writes.get(self.place) {
            Some(write) => {
                *op = Op::Lock(write.key);
                true
            }
            None => self.choose_time(writes, op),
        }
    }

    // Chooses the time, behind all locks.
    fn choose_time(&mut self, writes: &[Write], op: &mut Op) -> bool
        requires { self.old.stage ≡ stage.Locking }
        ensures stands { (r : Run) (m : Rows) (asked : List Exchange) → r.writes ≡ writes.now → IsLocking r m asked self.old None → slice_get r.writes self.old.place ≡ None → Stands r m asked self.new (due_of result op.new) }
        ensures ended { result ≡ false → self.new.stage ≡ stage.Ended }
    {
        if self.greatest < MOST_TIME {
            self.time = Some(self.greatest + 1);
            self.enter(Stage::Extending);
            self.next_extension(writes, op)
        } else {
            self.enter(Stage::Releasing);
            self.next_end(writes, op)
        }
    }

    fn next_extension(&mut self, writes: &[Write], op: &mut Op) -> bool
        requires { self.old.stage ≡ stage.Extending }
        ensures stands { (r : Run) (m : Rows) (asked : List Exchange) → r.writes ≡ writes.now → IsExtending r m asked self.old None → Stands r m asked self.new (due_of result op.new) }
        ensures ended { result ≡ false → self.new.stage ≡ stage.Ended }
    {
        match self.extension(writes) {
            Some((seen, time)) => {
                let SeenKey { key, wts, .. } = seen;
                *op = Op::Extend { key, wts, time };
                true
            }
            None => {
                self.enter(Stage::Installing);
                self.next_end(writes, op)
            }
        }
    }

    fn next_end(&mut self, writes: &[Write], op: &mut Op) -> bool
        ensures stands { (r : Run) (m : Rows) (asked : List Exchange) → r.writes ≡ writes.now → Closes self.old.stage r m asked self.old None → Stands r m asked self.new (due_of result op.new) }
        ensures ended { result ≡ false → self.new.stage ≡ stage.Ended }
    {
        if self.ending(writes, op) {
            return true;
        }
        self.stage = Stage::Ended;
        false
    }

    // Goes on to the next key that isn't valid up to the time, and answers that with the time.
    fn extension(&mut self, writes: &[Write]) -> Option<(SeenKey, u64)>
        ensures due { (r : Run) (m : Rows) (asked : List Exchange) → r.writes ≡ writes.now → IsExtending r m asked self.old None → IsExtending r m asked self.new (option_map extension_of result) }
        ensures all { IfNone result (self.new.time ≡ None ⊎ (length self.new.seen.items ≤ self.new.place)) }
        ensures stage { self.new.stage ≡ self.old.stage }
    {
        let time = self.time?;
        while self.place < self.seen.len() {
            let seen = self.seen[self.place];
            if needs_extension(&seen, time, writes) {
                return Some((seen, time));
            }
            self.place += 1;
        }
        None
    }

    // Puts the next install or release in its place, if one is left.
    fn ending(&self, writes: &[Write], op: &mut Op) -> bool
        ensures { (r : Run) (m : Rows) (asked : List Exchange) → r.writes ≡ writes.now → Closes self.now.stage r m asked self.now None →
            MatchOption (due_of result op.new) (IsEnding r m asked (outcome_by self.now.conflict self.now.time r.reply) []) (λ op. Closes self.now.stage r m asked self.now (Some op)) }
    {
        match self.stage {
            Stage::Installing => {
                let Some(time) = self.time else {
                    return false;
                };
                let Some(write) = writes.get(self.place) else {
                    return false;
                };
                *op = Op::Install {
                    key: write.key,
                    time,
                    value: write.value,
                };
                true
            }
            Stage::Releasing if self.place < self.locked => {
                let Some(write) = writes.get(self.place) else {
                    return false;
                };
                *op = Op::Release(write.key);
                true
            }
            _ => false,
        }
    }

    /// Takes the answer to an operation that isn't a read.
    pub fn take(&mut self, asked: &Op, answer: &Answer)
        ensures stage { (self.new.stage ≡ self.old.stage) ⊎ (self.new.stage ≡ stage.Releasing) }
        ensures stands { (r : Run) (m : Rows) (by : AttemptId) (before : List Exchange) → Stands r m before self.old (Some asked.now) →
            MayAnswer (record { by = by; op = asked.now }) answer.now → Stands r m (before ++ exchange asked.now answer.now ∷ []) self.new None }
    {
        match asked {
            Op::Lock(key) => self.take_lock(*key, answer),
            Op::Extend { key, wts, .. } => self.take_extension(*key, *wts, answer),
            _ => self.pass(),
        }
    }

    fn take_lock(&mut self, key: Key, answer: &Answer)
        ensures stage { (self.new.stage ≡ self.old.stage) ⊎ (self.new.stage ≡ stage.Releasing) }
        ensures stands { (r : Run) (m : Rows) (by : AttemptId) (before : List Exchange) → IsLocking r m before self.old (Some (Lock key)) → self.old.stage ≡ stage.Locking →
            MayAnswer (record { by = by; op = Lock key }) answer.now → Stands r m (before ++ exchange (Lock key) answer.now ∷ []) self.new None }
    {
        match answer {
            Answer::Locked { wts, rts } => self.lock(key, *wts, *rts),
            Answer::Marked { holder } => self.give_up(Why::Marked {
                key,
                holder: *holder,
            }),
            _ => {}
        }
    }

    fn take_extension(&mut self, key: Key, wts: u64, answer: &Answer)
        ensures stage { (self.new.stage ≡ self.old.stage) ⊎ (self.new.stage ≡ stage.Releasing) }
        ensures stands { (time : ℕ) (r : Run) (m : Rows) (by : AttemptId) (before : List Exchange) → IsExtending r m before self.old (Some (Extend key wts time)) → self.old.stage ≡ stage.Extending →
            MayAnswer (record { by = by; op = Extend key wts time }) answer.now → Stands r m (before ++ exchange (Extend key wts time) answer.now ∷ []) self.new None }
    {
        match answer {
            Answer::Extended => self.pass(),
            Answer::Marked { holder } => self.give_up(Why::Marked {
                key,
                holder: *holder,
            }),
            Answer::Changed { wts: found } => self.give_up(Why::Changed {
                key,
                read: wts,
                found: *found,
            }),
            _ => {}
        }
    }

    // Goes on to the stage's next key.
    fn pass(&mut self)
        ensures { self.new ≡ record self.old { place = min (self.old.place + 1) (2 ^ 64 - 1) } }
    {
        self.place = self.place.saturating_add(1);
    }

    // Takes a lock, and whether the key is as it was read.
    fn lock(&mut self, key: Key, wts: u64, rts: u64)
        ensures stage { (self.new.stage ≡ self.old.stage) ⊎ (self.new.stage ≡ stage.Releasing) }
        ensures stands { (r : Run) (m : Rows) (before : List Exchange) → IsLocking r m before self.old (Some (Lock key)) → self.old.stage ≡ stage.Locking →
            Stands r m (before ++ exchange (Lock key) (Locked wts rts) ∷ []) self.new None }
    {
        let read = self.expected.get(self.place).copied().flatten();
        self.pass();
        self.locked = self.place;
        self.greatest = self.greatest.max(rts);
        let found = wts;
        match read {
            None => {}
            Some(read) => {
                if read != found {
                    self.give_up(Why::Changed { key, read, found });
                }
            }
        }
    }

    fn give_up(&mut self, why: Why)
        ensures { self.new ≡ entered stage.Releasing (record self.old { conflict = Some why }) }
    {
        self.conflict = Some(why);
        self.enter(Stage::Releasing);
    }

    fn enter(&mut self, stage: Stage)
        ensures { self.new ≡ entered stage self.old }
    {
        self.stage = stage;
        self.place = 0;
    }

    /// Whether there is nothing more to do.
    pub fn has_ended(&self) -> bool
        ensures { result ≡ is_ended self.now.stage }
    {
        matches!(self.stage, Stage::Ended)
    }

    /// How an attempt ends that stands here, where its run replies so.
    pub fn outcome(&self, reply: &Reply) -> Outcome
        ensures { result ≡ outcome_by self.now.conflict self.now.time reply.now }
    {
        match (self.conflict, self.time) {
            (Some(why), _) => Outcome::Conflict(why),
            (None, Some(time)) => Outcome::Committed {
                time,
                reply: *reply,
            },
            (None, None) => Outcome::OverTime,
        }
    }

    /// The move that an attempt ends with that stands here, where its run replies so.
    pub fn last_move(&self, reply: &Reply) -> Move
        ensures { result ≡ end_move (outcome_by self.now.conflict self.now.time reply.now) }
    {
        match (self.conflict, self.time) {
            (Some(why), _) => Move::Conflict(why),
            (None, Some(time)) => Move::Committed {
                time,
                reply: *reply,
            },
            (None, None) => Move::OverTime,
        }
    }
}

// Notes for each write the write time that the first read of its key showed.
fn note_times(seen: &[SeenKey], writes: &[Write], times: &mut [Option<u64>])
    requires { times.old ≡ map (λ _. None) writes.now }
    ensures { Rise writes.now → times.new ≡ map (λ w. wts_in seen.now w.key) writes.now }
{
    for read in seen {
        if let Some(place) = place_of(writes, read.key) {
            let time = times[place].or(Some(read.wts));
            times[place] = time;
        }
    }
}

// Whether a key that was read isn't valid up to the time, and isn't written.
fn needs_extension(seen: &SeenKey, time: u64, writes: &[Write]) -> bool
    ensures { Rise writes.now → result ≡ needs_seen time writes.now seen.now }
{
    seen.rts < time && !is_written(writes, seen.key)
}

fn is_written(writes: &[Write], key: Key) -> bool
    ensures { Rise writes.now → result ≡ list_any (λ w. is_key key w.key) writes.now }
{
    place_of(writes, key).is_some()
}

// Where the write of a key stands.
fn place_of(writes: &[Write], key: Key) -> Option<usize>
    ensures found { IfSome result (λ place. (place < length writes.now) × HoldsAt (λ w. w.key ≡ key) writes.now place) }
    ensures none { Rise writes.now → IfNone result (list_any (λ w. is_key key w.key) writes.now ≡ false) }
{
    writes.binary_search_by_key(&key, |write| write.key).ok()
}
