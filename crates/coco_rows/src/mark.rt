//! The mark of the attempt that has a row locked.

ghost use Rattle.std.specs.Prelude.{◌≡◌, None, Some, is_some};

use crate::rooms::Room;
use coco_types::AttemptId;
use std::marker::Model;

/// The attempt that has a row locked, or none. It stands on room for a text, so that a marked row has that room.
/// Contracts see just the attempt.
#[derive(Debug, Drop)]
pub struct Mark {
    held: Option<Room>,
}

impl Model for Mark {
    ghost use Rattle.std.specs.Prelude.{Option};
    ghost use Rattle.coco_types.specs.declared.call.AttemptId.{AttemptId as Attempt};
    ghost use Rattle.std.specs.Option.{option_map};

    ghost Value = { Option Attempt };

    ghost view = { λ m. option_map (λ room. room.value.by) m.held };
}

impl Mark {
    /// No mark.
    pub fn none() -> Mark
        ensures { result ≡ None }
    {
        Mark { held: None }
    }

    /// The mark of this attempt, which stands on the room.
    pub fn of(by: AttemptId, mut room: Room) -> Mark
        ensures { result ≡ Some by }
    {
        room.by = by;
        Mark { held: Some(room) }
    }

    /// The attempt.
    #[inline(always)]
    pub fn holder(&self) -> Option<AttemptId>
        ensures { result ≡ self.now }
    {
        match &self.held {
            Some(room) => Some(room.by),
            None => None,
        }
    }

    /// Takes the mark away, and gives the room that it stood on.
    pub fn take(&mut self) -> Option<Room>
        ensures none { self.new ≡ None }
        ensures room { is_some result ≡ is_some self.old }
    {
        self.held.take()
    }
}
