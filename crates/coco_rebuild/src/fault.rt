//! Why a node's file wasn't made again.
ghost use Rattle.std.specs.Prelude.{◌≡◌};
ghost use Rattle.coco_read.specs.Faults.{fault_of};
ghost use Rattle.coco_rebuild.specs.Answers.{answer_to, rebuild_fault_of};

use coco_log::LogFault;
use coco_read::OpenFault;
use std::error::Error;
use std::fmt;

/// Why a node's file wasn't made again.
#[derive(Clone, Copy, Debug, PartialEq, Eq)]
pub enum RebuildFault {
    /// The host failed.
    Disk,
    /// The files are no store but for the node's: this one is refused first, from this byte on.
    NotAStore { file: u32, at: u64 },
    /// The store has so many nodes, and the one that is wanted isn't among them.
    NoNode { nodes: u8 },
    /// This partition, the least such one, is held by the node alone.
    NoHolder { partition: u8 },
    NoMemory,
}

impl fmt::Display for RebuildFault {
    ghost use Rattle.std.specs.Prelude.{Some};
    ghost use Rattle.coco_rebuild.specs.Messages.{fault_text};

    ghost output = { λ x. Some (fault_text x) };

    fn fmt<W: fmt::Write>(&self, f: &mut fmt::Formatter<W>) -> fmt::Result {
        match self {
            RebuildFault::Disk => f.write_str("the disk failed"),
            RebuildFault::NotAStore { file, at } => write!(
                f,
                "file {file} is no part of a store at byte {at}"
            ),
            RebuildFault::NoNode { nodes } => write!(f, "there are only {nodes} nodes"),
            RebuildFault::NoHolder { partition } => {
                write!(f, "partition {partition} has no other holder")
            }
            RebuildFault::NoMemory => f.write_str("out of memory"),
        }
    }
}

impl Error for RebuildFault {}

impl From<OpenFault> for RebuildFault {
    ghost from_gives = { λ f e. e ≡ rebuild_fault_of f };

    fn from(fault: OpenFault) -> RebuildFault {
        match fault {
            OpenFault::Disk => RebuildFault::Disk,
            OpenFault::NotAStore { file, at } => RebuildFault::NotAStore { file, at },
            OpenFault::NoMemory => RebuildFault::NoMemory,
        }
    }
}

/// What a fault of the log in this file is for the store.
pub fn fault_in(file: u32, fault: LogFault) -> OpenFault
    ensures { result ≡ fault_of file fault }
{
    match fault {
        LogFault::Disk => OpenFault::Disk,
        LogFault::NoMemory | LogFault::TooLong => OpenFault::NoMemory,
        LogFault::NotALog { at } => OpenFault::NotAStore { file, at },
    }
}

/// What a call that writes a log answers, for the store. Such a call refuses no file.
pub fn answer_to(written: Result<(), LogFault>) -> Result<(), OpenFault>
    ensures { result ≡ answer_to written }
{
    match written {
        Ok(()) => Ok(()),
        Err(LogFault::NoMemory) => Err(OpenFault::NoMemory),
        Err(LogFault::Disk | LogFault::NotALog { .. } | LogFault::TooLong) => Err(OpenFault::Disk),
    }
}
