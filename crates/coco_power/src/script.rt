//! A power that stops where a list says so.

ghost use Rattle.std.specs.Prelude.{◌≡◌, ℕ, ◌<◌, ◌≤◌, IsTrue, ◌==◌, ◌&&◌, nat_le};
ghost use Rattle.coco_power.specs.Counting.{RisesWhere, asked_after, begun_after};
ghost use Rattle.coco_power.specs.Told.{asked_of, fresh, has_room, is_listed, stopped_of};

use crate::Power;
use crate::record::Record;

/// It stops at the listed epoch, node and point. Epochs are counted from 1 by its calls for point 1 of node 0.
#[derive(Debug, Drop)]
pub struct ScriptPower {
    listed: Vec<(u64, u8, u8)>,
    calls: Record,
}

impl ScriptPower {
    pub fn new(stops: Vec<(u64, u8, u8)>) -> ScriptPower
        ensures listed { result.listed.items ≡ stops.items }
        ensures fresh { result.calls ≡ fresh }
    {
        ScriptPower {
            listed: stops,
            calls: Record::new(),
        }
    }
}

// Whether the list has this stop.
fn is_listed(listed: &[(u64, u8, u8)], epoch: u64, node: u8, point: u8) -> bool
    ensures { result ≡ is_listed listed.now epoch node point }
{
    listed.iter().any(|stop| stop.0 == epoch && stop.1 == node && stop.2 == point)
}

impl Power for ScriptPower {
    ghost stops_seen = { λ s. s.calls.seen };

    ghost early_stops = { λ s. s.calls.early };

    ghost stopped = { λ s n. stopped_of s.calls n };

    ghost begun = { λ s. s.calls.begun };

    ghost asked = { λ s n p. asked_of s.calls n p };

    fn stops(&mut self, node: u8, point: u8) -> bool
        requires node { node < 8 }
        requires first { 1 ≤ point }
        requires last { point ≤ 6 }
        ensures seen { RisesWhere result self.old.calls.seen self.new.calls.seen }
        ensures early { RisesWhere (result && nat_le point 3) self.old.calls.early self.new.calls.early }
        ensures stopped { (n : ℕ) → n < 8 → RisesWhere (result && (n == node)) (stopped_of self.old.calls n) (stopped_of self.new.calls n) }
        ensures begun { self.new.calls.begun ≡ begun_after self.old.calls.begun node point }
        ensures asked { (n p : ℕ) → n < 8 → p ≤ 6 → asked_of self.new.calls n p ≡ asked_after (asked_of self.old.calls) node point n p }
        ensures script { result ≡ (is_listed self.old.listed.items self.new.calls.begun node point && has_room self.old.calls node) }
        ensures listed { self.new.listed.items ≡ self.old.listed.items }
    {
        self.calls.ask(node, point);
        let epoch = self.calls.begun();
        let stops = is_listed(self.listed.as_slice(), epoch, node, point)
            && self.calls.has_room(node);
        if stops {
            self.calls.stop(node, point);
        }
        stops
    }
}
