//! A note: what one caller of a lock has seen and done.

ghost use Rattle.std.specs.Prelude.{◌≡◌};
ghost use Rattle.coco_seen.specs.Notes.{known, IsSeatOf};

use crate::stores::Stores;
use crate::view::View;
use atomic_table::Seat;
use std::marker::Model;

/// A seat at the table of such a lock.
pub(crate) type SeatOf<S> = Seat<Option<S>, View<<S as Stores>::Entry, <S as Stores>::Root>>;

/// What one caller knows of a lock and has done under it. To a contract it is its number, the root that the value comes from, a list of entries that was seen, its own calls with their places, and whether it holds the value.
pub struct Note<S: Stores> {
    pub(crate) number: u32,
    pub(crate) seat: SeatOf<S>,
}

impl<S: Stores> Model for Note<S> {
    ghost use Rattle.coco_seen.specs.Notes.{Known, known, IsSeatOf};

    ghost Value = { Known S.Entry S.Root };

    ghost view = { λ n. known n.seat.table_id n.number n.seat.me.0 };

    ghost invariant = { λ n. IsSeatOf n.number n.seat.me };
}

impl<S: Stores> Drop for Note<S> {
    fn drop(self) {
        let Note { number: _, seat: _ } = self;
    }
}

impl<S: Stores> Note<S> {
    pub fn number(&self) -> u32
        ensures { result ≡ self.now.number }
    {
        self.number
    }

    pub(crate) fn into_seat(self) -> SeatOf<S>
        ensures lock { result.table_id ≡ self.lock }
        ensures seat { IsSeatOf self.number result.me }
        ensures known { known self.lock self.number result.me.0 ≡ self }
    {
        let Self { number: _, seat } = self;
        seat
    }
}
