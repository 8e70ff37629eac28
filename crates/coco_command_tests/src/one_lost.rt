//! A net that loses one letter.

ghost use Rattle.std.specs.Prelude.{◌≡◌, ◌≢◌, ◌+◌, ◌-◌, ◌^◌, ◌<◌, ◌≤◌, ◌⊎◌, ◌∷◌, ◌++◌, ℕ, List, [], Contains, MatchOption, Some, OnErr, OnOk, false, true};
ghost use Rattle.coco_net.specs.Mail.{fresh, waiting_at};

use coco_io::told::Told;
use coco_net::{Letter, Net, Posted, QuietNet};
use coco_types::{Bytes, NoMemory};
use std::alloc::Global;
use std::slice;

/// Loses the letter of one number, counted from 0, and gives each of the others once and in order. No delivery is early.
#[derive(Drop)]
pub struct OneLost {
    alloc: Global,
    net: QuietNet,
    number: u64,
    count: u64,
    loses: bool,
    faults: u64,
    before: Told<Posted>,
    lost: Told<Posted>,
    after: Told<Posted>,
    newest: Told<Posted>,
    ghost end: { number < 2 ^ 64 - 1 },
    ghost early: { count ≤ number → (lost.items ≡ []) × (after.items ≡ []) × (faults ≡ 0) },
    ghost carried: { net.post.sent ≡ before.items ++ after.items },
    ghost whole: { loses ≡ false → newest.items ≡ fresh net.post },
    ghost once: { loses ≡ true → faults ≡ 0 },
    ghost behind: { loses ≡ true → number < count },
}

impl OneLost {
    pub fn new(alloc: Global, number: u32) -> OneLost
        ensures { result.before.items ++ result.lost.items ++ result.after.items ≡ [] }
    {
        OneLost {
            alloc,
            net: QuietNet::new(alloc),
            number: u64::from(number),
            count: 0,
            loses: false,
            faults: 0,
            before: Told::new(),
            lost: Told::new(),
            after: Told::new(),
            newest: Told::new(),
        }
    }

    /// Whether it has lost its letter.
    pub fn has_lost(&self) -> bool {
        self.faults > 0
    }
}

impl Net for OneLost {
    ghost sent = { λ s. s.before.items ++ s.lost.items ++ s.after.items };

    ghost given = { λ s. s.net.post.given };

    ghost fresh = { λ s. s.newest.items };

    ghost waiting = { λ s p. waiting_at s.net.post p };

    ghost faults = { λ s. s.faults };

    ghost last_seed = { λ s. s.net.post.seed };

    ghost carries = { λ s epoch worker place to. false };

    fn send(&mut self, from: u8, to: u8, bytes: Vec<u8>) -> Result<(), NoMemory> {
        let copy = bytes.as_slice().to_vec(self.alloc)?;
        let letter = Letter {
            from,
            bytes: Bytes::from_vec(copy),
        };
        let posted = Posted { to, letter };
        let noted = slice::from_ref(&posted);
        if self.count == self.number {
            self.lost.add(noted);
            self.loses = true;
        } else {
            self.net.send(from, to, bytes)?;
            if self.count < self.number {
                self.before.add(noted);
            } else {
                self.after.add(noted);
            }
        }
        self.newest.add(noted);
        self.count = self.count.saturating_add(1);
        Ok(())
    }

    fn round(&mut self) -> Result<(), NoMemory> {
        self.net.round()?;
        self.newest = Told::new();
        if self.loses {
            self.loses = false;
            self.faults = 1;
        }
        Ok(())
    }

    fn waiting(&self, to: u8) -> u32 {
        self.net.waiting(to)
    }

    fn next(&mut self, to: u8) -> Option<Letter> {
        self.net.next(to)
    }

    fn carries(&self, _epoch: u64, _worker: u32, _place: u32, _to: u8) -> bool {
        false
    }

    fn disturb(&mut self, seed: u64) {
        self.net.disturb(seed);
    }

    fn faults(&self) -> u64 {
        self.faults
    }
}
