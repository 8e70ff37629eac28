//! What a power in memory keeps of its calls.

ghost use Rattle.std.specs.Prelude.{◌≡◌, ◌+◌, ◌-◌, ◌^◌, ◌<◌, ◌≤◌, ℕ, IsTrue, ◌==◌, ◌&&◌, nat_le, true, false, min, replicate, if◌then◌else◌};
ghost use Rattle.coco_power.specs.Counting.{asked_after, begins, begun_after};
ghost use Rattle.coco_power.specs.Told.{asked_of, fresh, has_room, stopped_of};

const NODES: usize = 8;

const PAIRS: usize = 56;

/// The calls of a power: how often an epoch began, how many calls answered that a node stops, how many of these at
/// points 1 to 3, and for each node, and what was asked for since the last epoch began.
#[derive(Debug, Drop)]
pub struct Record {
    begun: u64,
    seen: u64,
    early: u64,
    stopped: [u64; NODES],
    asked: [bool; PAIRS],
}

// Whether the call begins an epoch.
fn begins(node: u8, point: u8) -> bool
    ensures { result ≡ begins node point }
{
    node == 0 && point == 1
}

impl Record {
    pub fn new() -> Record
        ensures { result ≡ fresh }
    {
        Record {
            begun: 0,
            seen: 0,
            early: 0,
            stopped: [0; NODES],
            asked: [false; PAIRS],
        }
    }

    /// How many epochs began.
    pub fn begun(&self) -> u64
        ensures { result ≡ self.now.begun }
    {
        self.begun
    }

    /// Keeps that a point of a node is asked for.
    pub fn ask(&mut self, node: u8, point: u8)
        requires node { node < 8 }
        requires point { point ≤ 6 }
        ensures begun { self.new.begun ≡ begun_after self.old.begun node point }
        ensures asked { (n p : ℕ) → n < 8 → p ≤ 6 → asked_of self.new n p ≡ asked_after (asked_of self.old) node point n p }
        ensures seen { self.new.seen ≡ self.old.seen }
        ensures early { self.new.early ≡ self.old.early }
        ensures stopped { self.new.stopped ≡ self.old.stopped }
    {
        self.begin(begins(node, point));
        self.asked[node as usize * 7 + point as usize] = true;
    }

    // Counts an epoch where one begins, and forgets what was asked for before it.
    fn begin(&mut self, begins: bool)
        ensures begun { self.new.begun ≡ (if begins then min (self.old.begun + 1) (2 ^ 64 - 1) else self.old.begun) }
        ensures asked { self.new.asked ≡ (if begins then replicate 56 false else self.old.asked) }
        ensures seen { self.new.seen ≡ self.old.seen }
        ensures early { self.new.early ≡ self.old.early }
        ensures stopped { self.new.stopped ≡ self.old.stopped }
    {
        if begins {
            self.begun = self.begun.saturating_add(1);
            self.asked = [false; PAIRS];
        }
    }

    /// Whether no count is at its end.
    pub fn has_room(&self, node: u8) -> bool
        requires { node < 8 }
        ensures { result ≡ has_room self.now node }
    {
        let stopped = self.stopped[node as usize];
        self.seen < u64::MAX && self.early < u64::MAX && stopped < u64::MAX
    }

    /// Counts a stop.
    pub fn stop(&mut self, node: u8, point: u8)
        requires node { node < 8 }
        requires room { has_room self.old node ≡ true }
        ensures seen { self.new.seen ≡ self.old.seen + 1 }
        ensures early { self.new.early ≡ (if nat_le point 3 then self.old.early + 1 else self.old.early) }
        ensures stopped { (n : ℕ) → stopped_of self.new n ≡ (if n == node then stopped_of self.old n + 1 else stopped_of self.old n) }
        ensures begun { self.new.begun ≡ self.old.begun }
        ensures asked { self.new.asked ≡ self.old.asked }
    {
        self.seen += 1;
        if point <= 3 {
            self.early += 1;
        }
        self.stopped[node as usize] += 1;
    }
}
