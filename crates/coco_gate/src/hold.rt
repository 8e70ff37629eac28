//! A gate that holds two workers until both have come.

ghost use Rattle.std.specs.Prelude.{◌≡◌, ◌≤◌, ◌<◌};

use crate::Gate;
use std::marker::Model;
use std::sync::atomic::{AtomicBool, Ordering};
use std::thread;

/// Holds workers 0 and 1 at their first point 1 until the other has reached it, or for so many turns. Contracts see the turns.
#[derive(Drop)]
pub struct HoldGate {
    turns: u64,
    came: [AtomicBool; 2],
    met: [AtomicBool; 2],
}

impl Model for HoldGate {
    ghost use Rattle.std.specs.Prelude.{ℕ};

    ghost Value = { ℕ };

    ghost view = { λ g. g.turns };
}

impl HoldGate {
    /// A gate that holds a worker for at most `turns` turns.
    pub fn new(turns: u64) -> HoldGate
        ensures { result ≡ turns }
    {
        HoldGate {
            turns,
            came: [AtomicBool::new(false), AtomicBool::new(false)],
            met: [AtomicBool::new(false), AtomicBool::new(false)],
        }
    }

    /// Whether workers 0 and 1 both found the other there before their turns ran out.
    pub fn met(&self) -> bool {
        self.met[0].load(Ordering::SeqCst) && self.met[1].load(Ordering::SeqCst)
    }

    // Waits until the worker has come, and answers after how many turns it saw that; `turns` where it didn't.
    fn turns_until(&self, worker: usize) -> u64
        requires { worker < 2 }
        ensures { result ≤ self.now }
    {
        for turn in 0..self.turns {
            if self.came[worker].load(Ordering::SeqCst) {
                return turn;
            }
            thread::yield_now();
        }
        self.turns
    }
}

impl Gate for HoldGate {
    ghost passed = { λ _ _ _. Unit {0} };

    ghost named = { λ _. 1 };

    fn name(&self) -> u64 {
        1
    }

    fn pass(&self, worker: u32, point: u8) {
        if worker > 1 || point != 1 {
            return;
        }
        let own = worker as usize;
        if self.came[own].swap(true, Ordering::SeqCst) {
            return;
        }
        if self.turns_until(1 - own) < self.turns {
            self.met[own].store(true, Ordering::SeqCst);
        }
    }
}
