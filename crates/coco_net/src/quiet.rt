//! A net that gives every letter once, in order.

ghost use Rattle.std.specs.Prelude.{◌≡◌, ◌+◌, ◌≤◌, ◌⊎◌, ℕ, List, [], true, OnOk, OnErr};
ghost use Rattle.coco_net.specs.Giving.{GivesMore};
ghost use Rattle.coco_net.specs.Mail.{fresh, no_mail, waiting_at};
ghost use Rattle.coco_net.specs.Rounds.{after_quiet};

use crate::quiet_post::QuietPost;
use crate::{Letter, Net};
use coco_types::NoMemory;
use std::alloc::Global;

/// Every letter comes in the next round, once and in order, and every early delivery arrives.
#[derive(Drop)]
pub struct QuietNet {
    post: QuietPost,
}

impl QuietNet {
    pub fn new(alloc: Global) -> QuietNet
        ensures { result.post ≡ no_mail }
    {
        QuietNet {
            post: QuietPost::new(alloc),
        }
    }
}

impl Net for QuietNet {
    ghost sent = { λ s. s.post.sent };

    ghost given = { λ s. s.post.given };

    ghost fresh = { λ s. fresh s.post };

    ghost waiting = { λ s p. waiting_at s.post p };

    ghost faults = { λ s. s.post.faults };

    ghost last_seed = { λ s. s.post.seed };

    ghost carries = { λ s epoch worker place to. true };

    fn send(&mut self, from: u8, to: u8, bytes: Vec<u8>) -> Result<(), NoMemory> {
        self.post.send(from, to, bytes)
    }

    fn round(&mut self) -> Result<(), NoMemory>
        ensures ok { OnOk result (GivesMore self.old.post.sent (fresh self.old.post) self.old.post.faults self.new.post.faults (waiting_at self.new.post) self.old.post.given self.new.post.given) }
        ensures fresh { OnOk result (fresh self.new.post ≡ []) }
        ensures faults { OnOk result ((self.new.post.faults ≡ self.old.post.faults) ⊎ (self.new.post.faults ≡ self.old.post.faults + 1)) }
        ensures err { OnErr result ((self.new.post.given ≡ self.old.post.given) × (fresh self.new.post ≡ fresh self.old.post) × (self.new.post.faults ≡ self.old.post.faults)) }
        ensures still_waiting { OnErr result ((p : ℕ) → waiting_at self.new.post p ≡ waiting_at self.old.post p) }
        ensures sent { self.new.post.sent ≡ self.old.post.sent }
        ensures seed { self.new.post.seed ≡ self.old.post.seed }
        ensures quiet { OnOk result (self.new.post ≡ after_quiet self.old.post) }
    {
        self.post.round()
    }

    fn waiting(&self, to: u8) -> u32 {
        self.post.waiting(to)
    }

    fn next(&mut self, to: u8) -> Option<Letter> {
        self.post.next(to)
    }

    fn carries(&self, _epoch: u64, _worker: u32, _place: u32, _to: u8) -> bool {
        true
    }

    fn disturb(&mut self, seed: u64) {
        self.post.disturb(seed);
    }

    fn faults(&self) -> u64 {
        self.post.faults()
    }
}
