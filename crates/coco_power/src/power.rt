//! The trait of powers, and the one that never stops.

ghost use Rattle.std.specs.Prelude.{◌≡◌, ℕ, ◌<◌, ◌≤◌, Bool, false, IsTrue, ◌==◌, ◌&&◌, nat_le};
ghost use Rattle.coco_power.specs.Counting.{RisesWhere, asked_after, begun_after};
ghost use Rattle.coco_power.specs.Told.{asked_of, fresh, stopped_of};

use crate::record::Record;

/// Says which nodes stop. It is asked at six points: 1 before the workers start, 2 after they are joined, 3 before
/// the prepared entry, 4 before the vote, 5 after the vote, 6 after the commit entry, before the node finishes.
pub trait Power {
    /// How many stops were told.
    ghost stops_seen: { Self → ℕ };

    /// How many of them at points 1 to 3.
    ghost early_stops: { Self → ℕ };

    /// How often each node stopped.
    ghost stopped: { Self → ℕ → ℕ };

    /// How often an epoch began, which is the call for point 1 of node 0.
    ghost begun: { Self → ℕ };

    /// Which points of which nodes were asked for since then.
    ghost asked: { Self → ℕ → ℕ → Bool };

    /// Whether the node stops at the point.
    fn stops(&mut self, node: u8, point: u8) -> bool
        requires node { node < 8 }
        requires first { 1 ≤ point }
        requires last { point ≤ 6 }
        ensures seen { RisesWhere result (stops_seen self.old) (stops_seen self.new) }
        ensures early { RisesWhere (result && nat_le point 3) (early_stops self.old) (early_stops self.new) }
        ensures stopped { (n : ℕ) → n < 8 → RisesWhere (result && (n == node)) (stopped self.old n) (stopped self.new n) }
        ensures begun { begun self.new ≡ begun_after (begun self.old) node point }
        ensures asked { (n p : ℕ) → n < 8 → p ≤ 6 → asked self.new n p ≡ asked_after (asked self.old) node point n p };
}

/// It never stops.
#[derive(Debug, Drop)]
pub struct SteadyPower {
    calls: Record,
}

impl SteadyPower {
    pub fn new() -> SteadyPower
        ensures { result.calls ≡ fresh }
    {
        SteadyPower {
            calls: Record::new(),
        }
    }
}

impl Power for SteadyPower {
    ghost stops_seen = { λ s. s.calls.seen };

    ghost early_stops = { λ s. s.calls.early };

    ghost stopped = { λ s n. stopped_of s.calls n };

    ghost begun = { λ s. s.calls.begun };

    ghost asked = { λ s n p. asked_of s.calls n p };

    fn stops(&mut self, node: u8, point: u8) -> bool
        requires node { node < 8 }
        requires first { 1 ≤ point }
        requires last { point ≤ 6 }
        ensures seen { RisesWhere result self.old.calls.seen self.new.calls.seen }
        ensures early { RisesWhere (result && nat_le point 3) self.old.calls.early self.new.calls.early }
        ensures stopped { (n : ℕ) → n < 8 → RisesWhere (result && (n == node)) (stopped_of self.old.calls n) (stopped_of self.new.calls n) }
        ensures begun { self.new.calls.begun ≡ begun_after self.old.calls.begun node point }
        ensures asked { (n p : ℕ) → n < 8 → p ≤ 6 → asked_of self.new.calls n p ≡ asked_after (asked_of self.old.calls) node point n p }
        ensures steady { result ≡ false }
    {
        self.calls.ask(node, point);
        false
    }
}
