//! The trait of gates, and the one that holds nobody.

ghost use Rattle.std.specs.Prelude.{◌≡◌, ℕ};

/// A place that workers pass on their way. At point 1 an attempt has begun, at point 2 an attempt has committed.
pub trait Gate {
    /// That a worker has passed a point. Of a gate that isn't known, only a call of `pass` shows it.
    ghost passed: { Self → ℕ → ℕ → Type 0 };

    /// Which gate it is. Of a gate that isn't known, only the gate itself tells.
    ghost named: { Self → ℕ };

    /// The number that this gate has among those that are told apart.
    fn name(&self) -> u64
        ensures { result ≡ named self.now };

    /// Lets the worker go on, maybe after holding it for a while.
    fn pass(&self, worker: u32, point: u8)
        ensures { passed self.now worker point };
}

/// Holds nobody.
#[derive(Clone, Copy, Debug, Drop)]
pub struct OpenGate;

impl Gate for OpenGate {
    ghost passed = { λ _ _ _. Unit {0} };

    ghost named = { λ _. 0 };

    fn name(&self) -> u64 {
        0
    }

    fn pass(&self, _worker: u32, _point: u8) {}
}
