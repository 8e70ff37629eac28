//! A value or none as a row keeps it: a number in place, a text in a room.

ghost use Rattle.std.specs.Prelude.{◌≡◌, None, Some, is_some, IsSome};
ghost use Rattle.std.specs.Option.{option_map};
ghost use Rattle.coco_types.specs.Packing.{lent_value, IsText};
ghost use Rattle.coco_types.specs.declared.value.Value.TheVariants as datum;

use crate::rooms::Room;
use coco_types::{Lent, Text, Value};
use std::marker::Model;

#[derive(Debug, Drop)]
enum Kind {
    Absent,
    Int(i64),
    Text(Room),
}

/// A value or none, kept so that one without a text takes little room. Contracts see just that.
#[derive(Debug, Drop)]
pub struct Stored {
    kind: Kind,
}

impl Model for Stored {
    ghost use Rattle.std.specs.Prelude.{Option};
    ghost use Rattle.coco_types.specs.declared.value.Value.{Value as Datum};
    ghost use Rattle.coco_rows.specs.Storing.{stored};

    ghost Value = { Option Datum };

    ghost view = { λ s. stored s.kind };
}

impl Stored {
    /// No value.
    pub fn none() -> Stored
        ensures { result ≡ None }
    {
        Stored { kind: Kind::Absent }
    }

    /// A whole number.
    pub fn of_int(number: i64) -> Stored
        ensures { result ≡ Some (datum.Int number) }
    {
        Stored {
            kind: Kind::Int(number),
        }
    }

    /// The text that stands in the room.
    pub(crate) fn of_text(room: Room) -> Stored
        ensures { result ≡ Some (datum.Text room.value.text) }
    {
        Stored {
            kind: Kind::Text(room),
        }
    }

    /// The value, its text in the room.
    pub fn of(value: &Option<Value>, room: Option<Room>) -> Stored
        requires { IsText value.now → IsSome room }
        ensures { result ≡ value.now }
    {
        match value {
            None => Stored::none(),
            Some(Value::Int(number)) => Stored::of_int(*number),
            Some(Value::Text(text)) => match room {
                Some(room) => Stored::of_text(written(room, text)),
                None => unreachable!(),
            },
        }
    }

    /// Whether it is a value.
    pub fn is_some(&self) -> bool
        ensures { result ≡ is_some self.now }
    {
        match self.kind {
            Kind::Absent => false,
            Kind::Int(_) | Kind::Text(_) => true,
        }
    }

    /// The value by itself, its text copied.
    pub fn get(&self) -> Option<Value>
        ensures { result ≡ self.now }
    {
        match &self.kind {
            Kind::Absent => None,
            Kind::Int(number) => Some(Value::Int(*number)),
            Kind::Text(room) => Some(Value::Text(room.text)),
        }
    }

    /// The value where it is kept.
    #[inline(always)]
    pub fn lend(&self) -> Option<Lent<'_>>
        ensures { option_map lent_value result ≡ self.now }
    {
        match &self.kind {
            Kind::Absent => None,
            Kind::Int(number) => Some(Lent::Int(*number)),
            Kind::Text(room) => Some(Lent::Text(&room.text)),
        }
    }
}

// The room with this text in it.
pub(crate) fn written(mut room: Room, text: &Text) -> Room
    ensures { result.value.text ≡ text.now }
{
    room.text = *text;
    room
}
