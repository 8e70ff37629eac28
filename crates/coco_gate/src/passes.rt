//! The record of the points that were passed, which contracts alone see.

ghost use Rattle.std.specs.Prelude.{◌≡◌, [], ◌∷◌, ◌++◌};

use crate::Gate;
use coco_io::told::Told;
use std::marker::Model;
use std::slice;

/// A point that a worker has passed, and the gate's number.
#[derive(Drop)]
pub struct Passage {
    pub gate: u64,
    pub worker: u32,
    pub point: u8,
}

/// The points that were passed, one after another. Contracts see them as a list; it takes no memory.
#[derive(Drop)]
pub struct Passes {
    told: Told<Passage>,
}

impl Model for Passes {
    ghost use Rattle.std.specs.Prelude.{List};
    ghost use Rattle.coco_gate.specs.declared.passes.Passage.{Passage};

    ghost Value = { List Passage };

    ghost view = { λ p. p.told.items };
}

impl Passes {
    /// Before the first.
    pub fn new() -> Passes
        ensures { result ≡ [] }
    {
        Passes { told: Told::new() }
    }

    /// Has the worker pass a point of the gate. There is no other way to lengthen the record.
    pub fn pass<G: Gate>(&mut self, gate: &G, worker: u32, point: u8)
        ensures more { self.new ≡ self.old ++ record { gate = G.named gate.now; worker = worker; point = point } ∷ [] }
        ensures passed { G.passed gate.now worker point }
    {
        gate.pass(worker, point);
        let passage = Passage {
            gate: gate.name(),
            worker,
            point,
        };
        self.told.add(slice::from_ref(&passage));
    }
}
