//! Why a turn, and what is built on turns, broke off.
ghost use Rattle.std.specs.Prelude.{◌≡◌};
ghost use Rattle.coco_cluster.specs.Faults.{stop_of_log, stop_of_opening, stop_of_saying};
ghost use Rattle.coco_cluster.specs.declared.stop.Stop.TheVariants as stop;

use coco_log::LogFault;
use coco_read::OpenFault;
use coco_types::{NoMemory, OutFault};
use std::error::Error;
use std::fmt;

/// Why a turn failed, or a batch, a run or a workload of many turns. A turn neither reads nor says, so it is never `Read` or
/// `Say`. The cluster may take no turn any more, and the store has to be opened again.
#[derive(Clone, Copy, Debug, PartialEq, Eq)]
pub enum Stop {
    /// The input failed, or is longer than may be read.
    Read,
    /// The reply stream failed.
    Say,
    /// The host's files failed.
    Disk,
    /// A node stopped, and its file, read anew, is no part of the store: it is refused from this byte on.
    NotAStore { file: u32, at: u64 },
    /// Four attempts at the epoch were given up, since nodes stopped or weren't reached.
    Unreachable,
    /// There is no number for the next epoch.
    EpochsUsedUp,
    NoMemory,
}

impl From<LogFault> for Stop {
    ghost from_gives = { λ f e. e ≡ stop_of_log f };

    fn from(fault: LogFault) -> Stop {
        match fault {
            LogFault::Disk => Stop::Disk,
            LogFault::NoMemory => Stop::NoMemory,
            LogFault::NotALog { .. } | LogFault::TooLong => Stop::Disk,
        }
    }
}

impl From<OpenFault> for Stop {
    ghost from_gives = { λ f e. e ≡ stop_of_opening f };

    fn from(fault: OpenFault) -> Stop {
        match fault {
            OpenFault::Disk => Stop::Disk,
            OpenFault::NotAStore { file, at } => Stop::NotAStore { file, at },
            OpenFault::NoMemory => Stop::NoMemory,
        }
    }
}

impl From<OutFault> for Stop {
    ghost from_gives = { λ f e. e ≡ stop_of_saying f };

    fn from(fault: OutFault) -> Stop {
        match fault {
            OutFault::Failed => Stop::Say,
            OutFault::NoMemory => Stop::NoMemory,
        }
    }
}

impl From<NoMemory> for Stop {
    ghost from_gives = { λ _ e. e ≡ stop.NoMemory };

    fn from(_: NoMemory) -> Stop {
        Stop::NoMemory
    }
}

impl fmt::Display for Stop {
    ghost use Rattle.std.specs.Prelude.{Some};
    ghost use Rattle.coco_cluster.specs.Messages.{fault_text};

    ghost output = { λ x. Some (fault_text x) };

    fn fmt<W: fmt::Write>(&self, f: &mut fmt::Formatter<W>) -> fmt::Result {
        match self {
            Stop::Read => f.write_str("input fault"),
            Stop::Say => f.write_str("output fault"),
            Stop::Disk => f.write_str("disk fault"),
            Stop::NotAStore { file, at } => write!(
                f,
                "file {file} is no part of a store at byte {at}"
            ),
            Stop::Unreachable => f.write_str("nodes unreachable"),
            Stop::EpochsUsedUp => f.write_str("epochs used up"),
            Stop::NoMemory => f.write_str("out of memory"),
        }
    }
}

impl Error for Stop {}
