//! What a seat at the lock's table knows, and the rule of the table.

use crate::stores::Stores;
use atomic_table::TableRule;
use std::collections::LinkedList;

/// How many words there are. Before and behind the two that are used lie as many as a cache line has, so that nothing else lies in their line.
pub(crate) const WORDS: usize = 17;

/// The word that is the length of the log.
pub(crate) const LENGTH: usize = 8;

/// The word that says where the value is.
pub(crate) const WHERE: usize = 9;

/// The value has still to be put into its slot.
pub(crate) const TO_FILL: u64 = 0;

/// A seat holds the value.
pub(crate) const HELD: u64 = 1;

/// The value is in its slot.
pub(crate) const HOME: u64 = 2;

/// The slot of the value.
pub(crate) const VALUE: usize = 0;

/// What a seat knows and has done. No value of it is made.
pub struct View<E, R> {
    /// What the value comes from, once for each seat that was taken in. None before the value is put into its slot.
    pub roots: LinkedList<R>,
    /// The numbers of the notes that the seat stands for. A spent seat has none.
    pub marks: LinkedList<u32>,
    /// The entries that it has seen.
    pub list: LinkedList<E>,
    /// Its own entries, each with its place.
    pub calls: LinkedList<(u64, E)>,
    /// It holds the value.
    pub holds: bool,
    /// It has still to put the value into its slot.
    pub fills: bool,
}

/// One holder at a time, and each call once at its place.
pub struct OneHolder;

impl<S: Stores> TableRule<Option<S>, View<S::Entry, S::Root>, u32> for OneHolder {
    ghost use Rattle.coco_seen.specs.Rules.{Kept, beginner};

    ghost holds = { Kept S.entries S.comes_from };

    ghost first = { beginner };
}
