//! The trait of nets.

ghost use Rattle.std.specs.Prelude.{◌≡◌, ◌+◌, ◌≤◌, ◌⊎◌, ◌≢◌, ℕ, Bool, List, Option, Some, [], ◌∷◌, ◌++◌, length, MatchOption, OnOk, OnErr};
ghost use Rattle.coco_net.specs.declared.letter.Letter.{Letter as Mail};
ghost use Rattle.coco_net.specs.declared.letter.Posted.{Posted as Sent};
ghost use Rattle.coco_net.specs.Giving.{GivesMore};

use crate::Letter;
use coco_types::NoMemory;

/// Carries letters. What a round gives waits at its place until it is taken or another round comes.
pub trait Net {
    /// The letters sent, with their receivers.
    ghost sent: { Self → List Sent };

    /// The letters given, with their receivers, whether or not they were taken.
    ghost given: { Self → List Sent };

    /// The letters sent since the last round.
    ghost fresh: { Self → List Sent };

    /// The letters that wait at a place.
    ghost waiting: { Self → ℕ → List Mail };

    /// How many rounds lost a letter.
    ghost faults: { Self → ℕ };

    /// The seed of the last call of `disturb`.
    ghost last_seed: { Self → Option ℕ };

    /// Whether an early delivery arrives: in an epoch, by a worker, of a request's place, to a node.
    ghost carries: { Self → ℕ → ℕ → ℕ → ℕ → Bool };

    /// Sends a letter. It is given in a later round, or lost. Out of memory, nothing has changed.
    fn send(&mut self, from: u8, to: u8, bytes: Vec<u8>) -> Result<(), NoMemory>
        requires from { from ≤ 8 }
        requires to { to ≤ 8 }
        ensures ok { OnOk result (sent self.new ≡ sent self.old ++ record { to = to; letter = record { from = from; bytes = bytes.items } } ∷ []) }
        ensures fresh { OnOk result (fresh self.new ≡ fresh self.old ++ record { to = to; letter = record { from = from; bytes = bytes.items } } ∷ []) }
        ensures err { OnErr result ((sent self.new ≡ sent self.old) × (fresh self.new ≡ fresh self.old)) }
        ensures given { given self.new ≡ given self.old }
        ensures waiting { (p : ℕ) → waiting self.new p ≡ waiting self.old p }
        ensures faults { faults self.new ≡ faults self.old }
        ensures seed { last_seed self.new ≡ last_seed self.old };

    /// Fixes the letters of this round for each place. Out of memory, nothing has changed.
    fn round(&mut self) -> Result<(), NoMemory>
        ensures ok { OnOk result (GivesMore (sent self.old) (fresh self.old) (faults self.old) (faults self.new) (waiting self.new) (given self.old) (given self.new)) }
        ensures fresh { OnOk result (fresh self.new ≡ []) }
        ensures faults { OnOk result ((faults self.new ≡ faults self.old) ⊎ (faults self.new ≡ faults self.old + 1)) }
        ensures err { OnErr result ((given self.new ≡ given self.old) × (fresh self.new ≡ fresh self.old) × (faults self.new ≡ faults self.old)) }
        ensures still_waiting { OnErr result ((p : ℕ) → waiting self.new p ≡ waiting self.old p) }
        ensures sent { sent self.new ≡ sent self.old }
        ensures seed { last_seed self.new ≡ last_seed self.old };

    /// How many letters wait at a place.
    fn waiting(&self, to: u8) -> u32
        requires { to ≤ 8 }
        ensures { result ≡ length (waiting self.now to) };

    /// Takes the first letter that waits at a place. None exactly where none does.
    fn next(&mut self, to: u8) -> Option<Letter>
        requires { to ≤ 8 }
        ensures first { MatchOption result ((waiting self.old to ≡ []) × (waiting self.new to ≡ [])) (λ letter. waiting self.old to ≡ letter ∷ waiting self.new to) }
        ensures others { (p : ℕ) → p ≢ to → waiting self.new p ≡ waiting self.old p }
        ensures sent { sent self.new ≡ sent self.old }
        ensures given { given self.new ≡ given self.old }
        ensures fresh { fresh self.new ≡ fresh self.old }
        ensures faults { faults self.new ≡ faults self.old }
        ensures seed { last_seed self.new ≡ last_seed self.old };

    /// Whether an early delivery arrives.
    fn carries(&self, epoch: u64, worker: u32, place: u32, to: u8) -> bool
        ensures { result ≡ carries self.now epoch worker place to };

    /// Asks for disturbances. A net may ignore it.
    fn disturb(&mut self, seed: u64)
        ensures seed { last_seed self.new ≡ Some seed }
        ensures sent { sent self.new ≡ sent self.old }
        ensures given { given self.new ≡ given self.old }
        ensures fresh { fresh self.new ≡ fresh self.old }
        ensures faults { faults self.new ≡ faults self.old }
        ensures waiting { (p : ℕ) → waiting self.new p ≡ waiting self.old p };

    /// How many rounds lost a letter.
    fn faults(&self) -> u64
        ensures { result ≡ faults self.now };
}
