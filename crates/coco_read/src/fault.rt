//! Why files weren't opened as a store.
ghost use Rattle.std.specs.Prelude.{◌≡◌};
ghost use Rattle.coco_read.specs.declared.fault.OpenFault.TheVariants as fault;
ghost use Rattle.coco_read.specs.Faults.{fault_of};

use coco_log::LogFault;
use coco_types::NoMemory;
use std::error::Error;
use std::fmt;

/// Why files weren't opened as a store.
#[derive(Clone, Copy, Debug, PartialEq, Eq)]
pub enum OpenFault {
    /// The host failed.
    Disk,
    /// They are no store: this file is refused first, from this byte on.
    NotAStore { file: u32, at: u64 },
    NoMemory,
}

impl fmt::Display for OpenFault {
    ghost use Rattle.std.specs.Prelude.{Some};
    ghost use Rattle.coco_read.specs.Messages.{fault_text};

    ghost output = { λ x. Some (fault_text x) };

    fn fmt<W: fmt::Write>(&self, f: &mut fmt::Formatter<W>) -> fmt::Result {
        match self {
            OpenFault::Disk => f.write_str("the disk failed"),
            OpenFault::NotAStore { file, at } => write!(
                f,
                "file {file} is no part of a store at byte {at}"
            ),
            OpenFault::NoMemory => f.write_str("out of memory"),
        }
    }
}

impl Error for OpenFault {}

impl From<NoMemory> for OpenFault {
    ghost from_gives = { λ _ e. e ≡ fault.NoMemory };

    fn from(_: NoMemory) -> OpenFault {
        OpenFault::NoMemory
    }
}

/// What a fault of a log means for the store that has it in this file.
pub fn fault_in(file: u32, fault: LogFault) -> OpenFault
    ensures { result ≡ fault_of file fault }
{
    match fault {
        LogFault::Disk => OpenFault::Disk,
        // A file that is longer than a log may be can't be read in the memory that there is.
        LogFault::NoMemory | LogFault::TooLong => OpenFault::NoMemory,
        LogFault::NotALog { at } => OpenFault::NotAStore { file, at },
    }
}
