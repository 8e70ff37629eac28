//! Why a line is refused, and why there is none.

use coco_types::NoMemory;

/// Why a line is refused.
#[derive(Clone, Copy, Debug, PartialEq, Eq)]
pub enum LineError {
    /// It has more than 65,536 bytes.
    Long,
    /// It is no JSON text, or no UTF-8.
    Json,
    /// It is no object with the members of a request.
    Shape,
    /// No procedure has the name.
    Name,
    /// They are not as many as the procedure's parameters, or one of them is no value.
    Args,
    /// A procedure that writes is called on a snapshot.
    Snapshot,
    /// Its id is known with another call.
    Reused,
    /// No more requests can be kept.
    Full,
    /// Its id is at most the greatest one that was forgotten.
    Old,
}

/// Why a line gives no request.
#[derive(Clone, Copy, Debug, PartialEq, Eq)]
pub enum RequestFault {
    Line(LineError),
    NoMemory,
}

impl From<NoMemory> for RequestFault {
    ghost use Rattle.std.specs.Prelude.{◌≡◌};
    ghost use Rattle.coco_lines.specs.declared.error.RequestFault.TheVariants as fault;

    ghost from_gives = { λ _ e. e ≡ fault.NoMemory };

    fn from(_error: NoMemory) -> RequestFault {
        RequestFault::NoMemory
    }
}

/// Why a reader gives no line. It isn't used again.
#[derive(Clone, Copy, Debug, PartialEq, Eq)]
pub enum LineFault {
    /// A read failed.
    Failed,
    /// 2^62 bytes were taken.
    TooMuch,
    NoMemory,
}

impl From<NoMemory> for LineFault {
    ghost use Rattle.std.specs.Prelude.{◌≡◌};
    ghost use Rattle.coco_lines.specs.declared.error.LineFault.TheVariants as fault;

    ghost from_gives = { λ _ e. e ≡ fault.NoMemory };

    fn from(_error: NoMemory) -> LineFault {
        LineFault::NoMemory
    }
}
