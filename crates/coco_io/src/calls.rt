//! What the calls of a stream come to.
ghost use Rattle.std.specs.Prelude.{◌≡◌, [], ◌∷◌, ◌++◌};
ghost use Rattle.coco_io.specs.Outcomes.{IsOutcome};

use crate::told::Told;
use std::io::{self, ErrorKind};
use std::marker::Model;

/// What one call of a stream comes to.
#[derive(Clone, Copy, Debug, PartialEq, Eq)]
pub enum Outcome {
    /// Bytes passed, maybe none.
    Passed,
    /// A signal cut the call short.
    Interrupted,
    /// The stream failed.
    Failed,
}

/// The calls of a stream in order, which contracts alone see.
#[derive(Drop)]
pub struct Calls {
    outcomes: Told<Outcome>,
}

impl Model for Calls {
    ghost use Rattle.std.specs.Prelude.{List};
    ghost use Rattle.coco_io.specs.declared.calls.Outcome.{Outcome};

    ghost Value = { List Outcome };

    ghost view = { λ c. c.outcomes.items };
}

impl Calls {
    /// No calls.
    pub fn new() -> Calls
        ensures { result ≡ [] }
    {
        Calls {
            outcomes: Told::new(),
        }
    }

    /// Adds a call by its answer, and says what it comes to.
    pub fn note(&mut self, answer: &io::Result<usize>) -> Outcome
        ensures outcome { IsOutcome answer.now result }
        ensures added { self.new ≡ self.old ++ result ∷ [] }
    {
        let outcome = match answer {
            Ok(_) => Outcome::Passed,
            Err(error) if error.kind() == ErrorKind::Interrupted => Outcome::Interrupted,
            Err(_) => Outcome::Failed,
        };
        self.outcomes.add(&[outcome]);
        outcome
    }
}
