//! What nodes and coordinator tell each other.

ghost use Rattle.std.specs.Prelude.{◌≡◌};
ghost use Rattle.coco_msg.specs.Bytes.{epoch_of};

use coco_types::{PackedWrites, Sequence};

/// Places of requests in an epoch, rising.
pub type Places = Sequence<u32>;

/// A message of one epoch.
#[derive(Debug, Drop)]
pub enum Message {
    /// What one request wrote in a partition, from its primary to a copy.
    Ship {
        epoch: u64,
        partition: u8,
        place: u32,
        time: u64,
        writes: PackedWrites,
    },
    /// The places of all pieces of a partition, from its primary to a copy.
    Total {
        epoch: u64,
        partition: u8,
        places: Places,
    },
    /// The places of the pieces that a copy lacks.
    Missing {
        epoch: u64,
        partition: u8,
        places: Places,
    },
    /// A copy lacks no piece.
    All {
        epoch: u64,
        partition: u8,
    },
    /// The coordinator asks a node for its vote.
    Prepare {
        epoch: u64,
    },
    /// A node's vote.
    Vote {
        epoch: u64,
        yes: bool,
    },
    /// The epoch is committed.
    Commit {
        epoch: u64,
    },
    /// A node has made its rows stable.
    Finished {
        epoch: u64,
    },
    /// The epoch is aborted.
    Abort {
        epoch: u64,
    },
    /// A node asks what became of an epoch.
    Query {
        epoch: u64,
    },
    /// What became of an epoch.
    Tell {
        epoch: u64,
        committed: bool,
    },
}

impl Message {
    /// The epoch that it speaks of.
    pub fn epoch(&self) -> u64
        ensures { result ≡ epoch_of self.now }
    {
        match self {
            Message::Ship { epoch, .. }
            | Message::Total { epoch, .. }
            | Message::Missing { epoch, .. }
            | Message::All { epoch, .. }
            | Message::Prepare { epoch }
            | Message::Vote { epoch, .. }
            | Message::Commit { epoch }
            | Message::Finished { epoch }
            | Message::Abort { epoch }
            | Message::Query { epoch }
            | Message::Tell { epoch, .. } => *epoch,
        }
    }
}
