//! How an attempt ended, as it is kept: a reply without a text takes little room.

ghost use Rattle.std.specs.Prelude.{◌≡◌, ℕ, IfOk, MatchOption};
ghost use Rattle.coco_types.specs.declared.call.Reply.{Reply as Answered};
ghost use Rattle.coco_occ.specs.declared.outcome.Outcome.TheVariants.{Committed};

use crate::outcome::{Outcome, Why};
use coco_types::{KeptReply, NoMemory};
use std::alloc::Global;
use std::marker::Model;

// The outcome, its reply packed.
#[derive(Debug, Drop)]
enum Kind {
    Committed { time: u64, reply: KeptReply },
    Conflict(Why),
    OverTime,
}

/// How an attempt ended, its reply packed. Contracts see just the outcome.
#[derive(Debug, Drop)]
pub struct PackedOutcome {
    kind: Kind,
}

impl Model for PackedOutcome {
    ghost use Rattle.coco_occ.specs.declared.outcome.Outcome.{Outcome as End};
    ghost use Rattle.coco_occ.specs.Unpacked.{outcome_of};

    ghost Value = { End };

    ghost view = { λ o. outcome_of o.kind };
}

impl PackedOutcome {
    /// The outcome, a text of its reply on this heap.
    pub fn of(alloc: Global, outcome: &Outcome) -> Result<PackedOutcome, NoMemory>
        ensures { IfOk result (λ packed. packed ≡ outcome.now) }
    {
        let kind = match outcome {
            Outcome::Committed { time, reply } => Kind::Committed {
                time: *time,
                reply: KeptReply::of(alloc, reply)?,
            },
            Outcome::Conflict(why) => Kind::Conflict(*why),
            Outcome::OverTime => Kind::OverTime,
        };
        Ok(PackedOutcome { kind })
    }

    /// The outcome.
    pub fn get(&self) -> Outcome
        ensures { result ≡ self.now }
    {
        match &self.kind {
            Kind::Committed { time, reply } => Outcome::Committed {
                time: *time,
                reply: reply.get(),
            },
            Kind::Conflict(why) => Outcome::Conflict(*why),
            Kind::OverTime => Outcome::OverTime,
        }
    }

    /// The time and the reply of a commit; else none.
    pub fn commit(&self) -> Option<(u64, &KeptReply)>
        ensures { MatchOption result ((time : ℕ) (reply : Answered) → self.now ≡ Committed time reply → ⊥) (λ c. self.now ≡ Committed c.0 c.1.now) }
    {
        match &self.kind {
            Kind::Committed { time, reply } => Some((*time, reply)),
            _ => None,
        }
    }
}
