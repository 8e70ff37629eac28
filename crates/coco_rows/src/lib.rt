//! A row with two versions: the newest one, and the stable one of the last committed epoch.
#![tactic(auto)]

ghost use Rattle.std.specs.Prelude.{◌≡◌, Option, None, IsSome, is_some};
ghost use Rattle.std.specs.Option.{option_map};
ghost use Rattle.coco_types.specs.Packing.{lent_value, IsText};
ghost use Rattle.coco_types.specs.declared.value.Value.{Value as Datum};
ghost use Rattle.coco_rows.specs.Versions.{newest_beside, newest_of, at_rest, is_touched};

mod listed;
mod mark;
mod rooms;
mod stored;

use coco_types::{Lent, Value};
pub use listed::{EpochRow, add_row, drop_row, list_key, make_room, settle};
pub use mark::Mark;
pub use rooms::{Room, Rooms, Slip};
use std::mem;
pub use stored::Stored;
use stored::written;

/// The newest version of a row: the stable one, or what was installed in this epoch. `Untouched` is the
/// stable one too, of a row that nothing has touched since it came to rest.
#[derive(Debug, Drop)]
pub enum Newest {
    Untouched,
    AsStable,
    Absent,
    Int(i64),
    Text(Room),
}

/// A row's two versions, its write time and read time in this epoch, and the mark of the attempt that has it locked.
#[derive(Debug, Drop)]
pub struct Row {
    pub newest: Newest,
    pub wts: u64,
    pub rts: u64,
    pub mark: Mark,
    pub stable: Stored,
}

impl Newest {
    /// Sets the newest value, its text in the room. Gives the room back where it has no text for it.
    pub fn set(&mut self, value: &Option<Value>, room: Option<Room>) -> Option<Room>
        requires { IsText value.now → IsSome room }
        ensures { (stable : Option Datum) → newest_beside stable self.new ≡ value.now }
    {
        match value {
            None => {
                *self = Newest::Absent;
                room
            }
            Some(Value::Int(number)) => {
                *self = Newest::Int(*number);
                room
            }
            Some(Value::Text(text)) => {
                match room {
                    Some(room) => *self = Newest::Text(written(room, text)),
                    None => unreachable!(),
                }
                None
            }
        }
    }
}

impl Row {
    /// A row with one version, both times 0 and no mark.
    pub fn at_rest(stable: Stored) -> Row
        ensures { result ≡ at_rest stable }
    {
        Row {
            newest: Newest::Untouched,
            wts: 0,
            rts: 0,
            mark: Mark::none(),
            stable,
        }
    }

    /// A row at rest that has no value.
    pub fn without_value() -> Row
        ensures { result ≡ at_rest None }
    {
        Row::at_rest(Stored::none())
    }

    /// Whether it is noted as touched.
    #[inline(always)]
    pub fn is_touched(&self) -> bool
        ensures { result ≡ is_touched self.now }
    {
        match self.newest {
            Newest::Untouched => false,
            Newest::AsStable | Newest::Absent | Newest::Int(_) | Newest::Text(_) => true,
        }
    }

    /// The newest value, in its place.
    #[inline(always)]
    pub fn newest(&self) -> Option<Lent<'_>>
        ensures { option_map lent_value result ≡ newest_of self.now }
    {
        match &self.newest {
            Newest::Untouched | Newest::AsStable => self.stable.lend(),
            Newest::Absent => None,
            Newest::Int(number) => Some(Lent::Int(*number)),
            Newest::Text(room) => Some(Lent::Text(&room.text)),
        }
    }

    /// The newest value.
    pub fn newest_value(&self) -> Option<Value>
        ensures { result ≡ newest_of self.now }
    {
        match self.newest() {
            Some(Lent::Int(number)) => Some(Value::Int(number)),
            Some(Lent::Text(text)) => Some(Value::Text(*text)),
            None => None,
        }
    }

    /// Makes the newest value the stable one, sets the times to 0 and clears the mark. Says whether a value stands.
    pub fn promote(&mut self) -> bool
        ensures row { self.new ≡ at_rest (newest_of self.old) }
        ensures stands { result ≡ is_some (newest_of self.old) }
    {
        match mem::replace(&mut self.newest, Newest::Untouched) {
            Newest::Untouched | Newest::AsStable => {}
            Newest::Absent => self.stable = Stored::none(),
            Newest::Int(number) => self.stable = Stored::of_int(number),
            Newest::Text(room) => self.stable = Stored::of_text(room),
        }
        self.revert()
    }

    /// Makes the stable value the newest one, sets the times to 0 and clears the mark. Says whether a value stands.
    pub fn revert(&mut self) -> bool
        ensures row { self.new ≡ at_rest self.old.stable }
        ensures stands { result ≡ is_some self.old.stable }
    {
        self.newest = Newest::Untouched;
        self.wts = 0;
        self.rts = 0;
        self.mark = Mark::none();
        self.stable.is_some()
    }
}

impl EpochRow for Row {
    ghost use Rattle.coco_rows.specs.Versions.{row_kind};

    ghost kind = { row_kind };

    fn is_noted(&self) -> bool {
        self.is_touched()
    }

    fn rest(&mut self, promotes: bool) -> bool {
        if promotes {
            self.promote()
        } else {
            self.revert()
        }
    }
}
