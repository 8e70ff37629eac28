//! Deterministic objects.
ghost use Rattle.std.specs.Prelude.{◌≡◌, IfOk, OnErr};

use crate::NoMemory;

/// A deterministic object: what `apply` answers and leaves are functions of the state before and the ask.
pub trait Machine {
    type Ask: Copy;

    type Answer: Copy;

    /// The answer to an ask at a state.
    ghost answer_to: { Self → Self.Ask → Self.Answer };

    /// The state after an ask.
    ghost state_after: { Self → Self.Ask → Self };

    /// Answers an ask. Out of memory, nothing has changed.
    fn apply(&mut self, ask: Self::Ask) -> Result<Self::Answer, NoMemory>
        ensures answer { IfOk result (λ answer. answer ≡ answer_to self.old ask) }
        ensures state { IfOk result (λ _. self.new ≡ state_after self.old ask) }
        ensures err { OnErr result (self.new ≡ self.old) };
}
