//! Which calls of an object in memory fail.
ghost use Rattle.std.specs.Prelude.{◌≡◌};
ghost use Rattle.coco_io.specs.Plan.{next_fails, after_call};

use std::marker::Model;

/// Which calls of an object in memory fail, how many it had, and how many of them failed.
#[derive(Debug, Drop)]
pub struct FaultPlan {
    fails: Vec<u64>,
    calls: u64,
    faults: u64,
}

impl Model for FaultPlan {
    ghost use Rattle.coco_io.specs.Plan.{Plan};

    ghost Value = { Plan };

    ghost view = { λ p. record { fails = p.fails.items; calls = p.calls; faults = p.faults } };
}

impl FaultPlan {
    /// The calls with these numbers will fail, counted from 0.
    pub fn new(fails: Vec<u64>) -> Self
        ensures { result ≡ record { fails = fails.items; calls = 0; faults = 0 } }
    {
        FaultPlan {
            fails,
            calls: 0,
            faults: 0,
        }
    }

    /// Counts a call, and says whether it fails.
    pub fn next_call(&mut self) -> bool
        ensures answer { result ≡ next_fails self.old }
        ensures state { self.new ≡ after_call self.old }
    {
        let fails = self.fails.contains(&self.calls) && self.faults < u64::MAX;
        self.calls = self.calls.saturating_add(1);
        if fails {
            self.faults += 1;
        }
        fails
    }

    /// How many calls failed.
    pub fn faults(&self) -> u64
        ensures { result ≡ self.now.faults }
    {
        self.faults
    }
}
