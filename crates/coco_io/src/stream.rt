//! One read or one write of a stream, tried again where a signal cut it short.
ghost use Rattle.std.specs.Prelude.{◌≡◌, ◌<◌, ◌≤◌, length, take, is_some, IfSome, IfNone, IfOk};
ghost use Rattle.std.specs.Io.KnownBytes.{Appends, Consumes, IsAtEnd, Keeps, WriteAppends};
ghost use Rattle.std.specs.Io.{WritesAtMost};
ghost use Rattle.coco_io.specs.Outcomes.{Tried};

use crate::calls::{Calls, Outcome};
use std::io::{self, ErrorKind, Read, Write};

/// How often a call that a signal cut short is made in all.
const TRIES: u32 = 64;

/// How often, in numbers.
pub fn limits()
    ensures { TRIES ≡ 64 }
{}

/// A reader that tells the bytes it has left at every moment, or at none.
pub trait SteadyRead: Read {
    ghost steady: { (a b : Self) → is_some (Self.remaining a) ≡ is_some (Self.remaining b) };
}

/// A writer that tells the bytes it holds at every moment, or at none.
pub trait SteadyWrite: Write {
    ghost steady: { (a b : Self) → is_some (Self.contents a) ≡ is_some (Self.contents b) };
}

/// One read: how many bytes came, or None where it failed, and then none are lost. None of a buffer that
/// isn't empty are the end.
pub fn read_some<R: Read>(calls: &mut Calls, from: &mut R, into: &mut [u8]) -> Option<usize>
    ensures count { IfSome result (λ k. k ≤ length into.new) }
    ensures bytes { IfSome result (λ k. Consumes (R.remaining from.old) (R.remaining from.new) (take k into.new)) }
    ensures end { IfSome result (λ k. k ≡ 0 → 0 < length into.new → IsAtEnd (R.remaining from.new)) }
    ensures none { IfNone result (Keeps (R.remaining from.old) (R.remaining from.new)) }
    ensures tried { Tried result calls.old calls.new }
{
    for _turn in 0..TRIES {
        let answer = from.read(into);
        match calls.note(&answer) {
            Outcome::Passed => return answer.ok(),
            Outcome::Interrupted => {}
            Outcome::Failed => return None,
        }
    }
    None
}

/// One write: how many bytes it took, or None where it failed or took none of a piece that isn't empty.
pub fn write_some<W: Write>(calls: &mut Calls, to: &mut W, from: &[u8]) -> Option<usize>
    ensures count { IfSome result (λ k. k ≤ length from.now) }
    ensures some { IfSome result (λ k. 0 < length from.now → 0 < k) }
    ensures bytes { IfSome result (λ k. Appends (W.contents to.old) (W.contents to.new) (take k from.now)) }
    ensures none { IfNone result (Keeps (W.contents to.old) (W.contents to.new)) }
    ensures tried { Tried result calls.old calls.new }
{
    for _turn in 0..TRIES {
        let answer = write_once(to, from);
        match calls.note(&answer) {
            Outcome::Passed => return answer.ok(),
            Outcome::Interrupted => {}
            Outcome::Failed => return None,
        }
    }
    None
}

// A write that takes nothing of a piece that isn't empty has failed.
fn write_once<W: Write>(to: &mut W, from: &[u8]) -> io::Result<usize>
    ensures count { WritesAtMost result from.now }
    ensures some { IfOk result (λ k. 0 < length from.now → 0 < k) }
    ensures bytes { WriteAppends (W.contents to.old) (W.contents to.new) result from.now }
{
    let taken = to.write(from)?;
    if taken == 0 && !from.is_empty() {
        return Err(ErrorKind::WriteZero.into());
    }
    Ok(taken)
}
