//! Why bytes gave no message.

ghost use Rattle.std.specs.Prelude.{◌≡◌};
ghost use Rattle.coco_bytes.specs.Reads.{fault_place};
ghost use Rattle.coco_msg.specs.declared.fault.MessageFault.TheVariants.{Bad, NoMemory as Spent};

use coco_bytes::FieldFault;
use coco_types::NoMemory;
use std::alloc::{AllocError, AllocFailed};
use std::error::Error;
use std::fmt;

/// Why bytes gave no message.
#[derive(Clone, Copy, Debug, PartialEq, Eq)]
pub enum MessageFault {
    /// The first field that can't stand, or the first byte that is left over.
    Bad { at: usize },
    NoMemory,
}

impl fmt::Display for MessageFault {
    ghost use Rattle.std.specs.Prelude.{Some};
    ghost use Rattle.coco_msg.specs.Messages.{fault_text};

    ghost output = { λ x. Some (fault_text x) };

    fn fmt<W: fmt::Write>(&self, f: &mut fmt::Formatter<W>) -> fmt::Result {
        match self {
            MessageFault::Bad { at } => write!(f, "no message: bad at byte {at}"),
            MessageFault::NoMemory => f.write_str("out of memory"),
        }
    }
}

impl Error for MessageFault {}

impl From<FieldFault> for MessageFault {
    ghost from_gives = { λ fault e. e ≡ Bad (fault_place fault) };

    fn from(fault: FieldFault) -> MessageFault {
        match fault {
            FieldFault::Short { at } | FieldFault::Bad { at } => MessageFault::Bad { at },
        }
    }
}

impl From<NoMemory> for MessageFault {
    ghost from_gives = { λ _ e. e ≡ Spent };

    fn from(_error: NoMemory) -> MessageFault {
        MessageFault::NoMemory
    }
}
