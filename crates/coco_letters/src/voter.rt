//! What is in hand of a node while epochs are committed.

use coco_log::Log;

/// A node in hand, but for its core and its tables.
#[derive(Drop)]
pub struct Voter {
    /// Its entries.
    pub log: Log,
    /// Of the partitions, those that it holds.
    pub held: Vec<bool>,
    /// It has stopped, and its tables have to be read anew.
    pub is_lost: bool,
    /// In this epoch it was asked for a stop behind its vote.
    pub asked_after_vote: bool,
}
