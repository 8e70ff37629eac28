//! The endings of a call.

ghost use Rattle.std.specs.Prelude.{◌≡◌, ◌≤◌, ℕ, length, take, IfOk, OnOk, OnErr};
ghost use Rattle.std.specs.Io.KnownBytes.{append_known};
ghost use Rattle.std.specs.String.{string_bytes};
ghost use Rattle.coco_io.specs.Counts.{CountsWrite};
ghost use Rattle.coco_ending.specs.Endings.{line_of, status_of};

use crate::TextError;
use coco_io::{Sink, write_all};
use coco_types::OutFault;
use std::alloc::{AllocError, Global};

const OUT_OF_MEMORY: &str = "coco: out of memory\n";

/// How a call of the program ends.
#[derive(Clone, Copy, Debug, PartialEq, Eq)]
pub enum Ending {
    /// What was asked is done.
    Finished,
    /// The words are no command.
    BadCommandLine,
    /// The input failed, or gave too many bytes.
    ReadFault,
    /// The stream of replies failed.
    SayFault,
    /// A file of the store failed.
    DiskFault,
    /// Four epochs in a row were given up, since nodes weren't reached.
    Unreachable,
    NoMemory,
    /// A file is refused, first at this byte.
    NotAStore { file: u32, at: u64 },
    /// No number is left for the next epoch.
    EpochsUsedUp,
    /// The text of procedures is refused.
    Refused(TextError),
    /// Where a store was to be made, file 0 has so many bytes.
    AlreadyThere { bytes: u64 },
    /// The reply at this place, counted from 1, isn't that of a serial run.
    NotSerial { place: u64 },
    /// No other node holds this partition.
    NoHolder { partition: u8 },
    /// Of so many nodes, counted from 0, there is none with this number.
    NoNode { node: u8, nodes: u8 },
    /// The epoch is none of those from the first to the last.
    NotWithin { epoch: u64, first: u64, last: u64 },
}

impl Ending {
    /// The program's status.
    pub fn status(&self) -> u8
        ensures { result ≡ status_of self.now }
    {
        match self {
            Ending::Finished => 0,
            Ending::BadCommandLine => 1,
            Ending::ReadFault => 2,
            Ending::SayFault => 3,
            Ending::DiskFault => 4,
            Ending::Unreachable => 5,
            Ending::NoMemory => 6,
            Ending::NotAStore { .. } => 7,
            Ending::EpochsUsedUp => 8,
            Ending::Refused(_) => 9,
            Ending::AlreadyThere { .. } => 10,
            Ending::NotSerial { .. } => 11,
            Ending::NoHolder { .. } => 12,
            Ending::NoNode { .. } => 13,
            Ending::NotWithin { .. } => 14,
        }
    }

    /// The line on the error stream: no byte where all went well.
    pub fn line(&self, alloc: Global) -> Result<String, AllocError>
        ensures { IfOk result (λ line. string_bytes line ≡ line_of self.now) }
    {
        match self {
            Ending::Finished => Ok(String::new(alloc)),
            Ending::BadCommandLine => String::from_str(alloc, "coco: bad command line\n"),
            Ending::ReadFault => String::from_str(alloc, "coco: read fault\n"),
            Ending::SayFault => String::from_str(alloc, "coco: reply stream fault\n"),
            Ending::DiskFault => String::from_str(alloc, "coco: disk fault\n"),
            Ending::Unreachable => {
                String::from_str(alloc, "coco: nodes unreachable after four epochs\n")
            }
            Ending::NoMemory => String::from_str(alloc, OUT_OF_MEMORY),
            Ending::NotAStore { file, at } => {
                format!(in alloc; "coco: not a store: file {file} at byte {at}\n")
            }
            Ending::EpochsUsedUp => String::from_str(alloc, "coco: epochs used up\n"),
            Ending::Refused(error) => format!(in alloc; "coco: procedures refused: {error}\n"),
            Ending::AlreadyThere { bytes } => {
                format!(in alloc; "coco: already there: file 0 has {bytes} bytes\n")
            }
            Ending::NotSerial { place } => format!(in alloc; "coco: not serial at {place}\n"),
            Ending::NoHolder { partition } => {
                format!(in alloc; "coco: partition {partition} has no other holder\n")
            }
            Ending::NoNode { node, nodes } => format!(in alloc;
                "coco: no node {node} of {nodes}\n"
            ),
            Ending::NotWithin { epoch, first, last } => {
                format!(in alloc; "coco: epoch {epoch} is not in {first} to {last}\n")
            }
        }
    }

    /// Writes the line, or the front of it where that fails.
    pub fn complain<E: Sink>(&self, alloc: Global, errs: &mut E) -> Result<(), OutFault>
        ensures ok { OnOk result (E.contents errs.new ≡ append_known (E.contents errs.old) (line_of self.now)) }
        ensures err { OnErr result ((k : ℕ) × (k ≤ length (line_of self.now))
            × (E.contents errs.new ≡ append_known (E.contents errs.old) (take k (line_of self.now)))) }
        ensures counts { CountsWrite result (E.faults errs.old) (E.faults errs.new) }
    {
        // That memory ran out is said without any.
        if let Ending::NoMemory = self {
            return write_all(errs, OUT_OF_MEMORY.as_bytes());
        }
        match self.line(alloc) {
            Ok(line) => write_all(errs, line.as_bytes()),
            Err(AllocError) => Err(OutFault::NoMemory),
        }
    }
}
