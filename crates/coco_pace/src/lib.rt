//! How many workers an epoch starts: one or all, by how long the epochs of late took.
#![tactic(auto)]

ghost use Rattle.std.specs.Prelude.{◌≡◌, ◌+◌, ◌-◌, ◌^◌, ◌<◌, ◌≤◌, min};
ghost use Rattle.std.specs.Duration.{as_nanos};
ghost use Rattle.coco_pace.specs.Choosing.{after_epoch, is_due, moved, nothing_known, one_is_usual, time_each, workers_of};

use std::time::Duration;

/// So many times its own time has to pass before a trial.
const TIMES: u128 = 16;

/// How many times, in numbers.
pub fn limits()
    ensures { TIMES ≡ 16 }
{}

/// How long a request took of late, in nanoseconds: in the epochs of one worker alone, and in those of all workers that
/// may be started.
#[derive(Clone, Copy, Debug, PartialEq, Eq)]
pub struct Pace {
    /// None where no worker went alone yet.
    pub alone: Option<u32>,
    /// None where all were not started yet.
    pub together: Option<u32>,
    /// How long all epochs took since the last trial, in nanoseconds.
    pub since_trial: u64,
}

impl Pace {
    /// Nothing is known.
    pub fn new() -> Pace
        ensures { result ≡ nothing_known }
    {
        Pace {
            alone: None,
            together: None,
            since_trial: 0,
        }
    }

    /// How many of so many workers an epoch of so many requests starts: all until they are timed, and then one or all,
    /// who took less of late. But the others have their trial as soon as sixteen times its time has passed.
    pub fn workers(&self, most: u8, requests: u32) -> u8
        ensures chosen { result ≡ workers_of self.now most requests }
        ensures some { 0 < most → 0 < result }
        ensures most { 0 < most → result ≤ most }
    {
        let Some(together) = self.together else {
            return most;
        };
        let is_trial = self.is_due(together, requests);
        if is_trial != self.one_is_usual() {
            1
        } else {
            most
        }
    }

    /// Takes in how long an epoch of so many requests took by so many workers.
    pub fn took(&mut self, workers: u8, requests: u32, time: Duration)
        ensures { self.new ≡ after_epoch workers requests (as_nanos time) self.old }
    {
        let is_trial = (workers == 1) != self.one_is_usual();
        self.since_trial = if is_trial {
            0
        } else {
            since(self.since_trial, time)
        };
        let each = time_each(requests, time);
        if workers == 1 {
            self.alone = Some(moved(self.alone, each));
        } else {
            self.together = Some(moved(self.together, each));
        }
    }

    // Whether one worker alone took no longer than all did.
    fn one_is_usual(&self) -> bool
        ensures { result ≡ one_is_usual self.now }
    {
        match (self.alone, self.together) {
            (Some(alone), Some(together)) => alone <= together,
            _ => false,
        }
    }

    // Whether a trial is due of those who aren't usual. One worker alone is expected to take as long as all do, until it
    // is known.
    fn is_due(&self, together: u32, requests: u32) -> bool
        ensures { result ≡ is_due self.now together requests }
    {
        let each = if self.one_is_usual() {
            together
        } else {
            self.alone.unwrap_or(together)
        };
        u128::from(each) * u128::from(requests) * TIMES <= u128::from(self.since_trial)
    }
}

// The nanoseconds that have passed, at most the greatest number of 64 bits.
fn since(before: u64, time: Duration) -> u64
    ensures { result ≡ min (before + as_nanos time) (2 ^ 64 - 1) }
{
    let nanos = time.as_nanos().min(u128::from(u64::MAX));
    before.saturating_add(nanos as u64)
}

// The nanoseconds of a request in an epoch that took so long, from 1 to the greatest number of 32 bits.
fn time_each(requests: u32, time: Duration) -> u32
    ensures { result ≡ time_each requests (as_nanos time) }
{
    let nanos = time.as_nanos() / u128::from(requests.max(1));
    nanos.max(1).min(u128::from(u32::MAX)) as u32
}

// The time of late after one more: half way to it, and up by a half at most, so that one hiccup tells little.
fn moved(before: Option<u32>, each: u32) -> u32
    ensures { result ≡ moved before each }
{
    let Some(before) = before else {
        return each;
    };
    let each = u64::from(each).min(2 * u64::from(before));
    ((u64::from(before) + each) / 2) as u32
}
