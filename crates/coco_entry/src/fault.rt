//! Why bytes are no entry.

ghost use Rattle.std.specs.Prelude.{◌≡◌};
ghost use Rattle.coco_bytes.specs.Reads.{fault_place};
ghost use Rattle.coco_entry.specs.declared.fault.EntryFault.TheVariants.{Bad, NoMemory as Spent};

use coco_bytes::FieldFault;
use coco_types::NoMemory;
use std::alloc::{AllocError, AllocFailed};
use std::error::Error;
use std::fmt;

/// Why bytes are no entry.
#[derive(Clone, Copy, Debug, PartialEq, Eq)]
pub enum EntryFault {
    /// The first field that can't stand, or the first byte that is left over.
    Bad { at: usize },
    NoMemory,
}

impl fmt::Display for EntryFault {
    ghost use Rattle.std.specs.Prelude.{Some};
    ghost use Rattle.coco_entry.specs.Messages.{fault_text};

    ghost output = { λ x. Some (fault_text x) };

    fn fmt<W: fmt::Write>(&self, f: &mut fmt::Formatter<W>) -> fmt::Result {
        match self {
            EntryFault::Bad { at } => write!(f, "no entry: bad at byte {at}"),
            EntryFault::NoMemory => f.write_str("out of memory"),
        }
    }
}

impl Error for EntryFault {}

impl From<FieldFault> for EntryFault {
    ghost from_gives = { λ fault e. e ≡ Bad (fault_place fault) };

    fn from(fault: FieldFault) -> EntryFault {
        match fault {
            FieldFault::Short { at } | FieldFault::Bad { at } => EntryFault::Bad { at },
        }
    }
}

impl From<NoMemory> for EntryFault {
    ghost from_gives = { λ _ e. e ≡ Spent };

    fn from(_error: NoMemory) -> EntryFault {
        EntryFault::NoMemory
    }
}
