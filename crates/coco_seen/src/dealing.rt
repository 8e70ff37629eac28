//! How a lock is made, and its notes dealt out.
ghost use Rattle.std.specs.Prelude.{◌≡◌, ◌-◌, ◌<◌, ◌≤◌, [], map, Some, slice_get, IfOk, IfErr, vec_len, vec_capacity};
ghost use Rattle.coco_seen.specs.Notes.{fresh};
ghost use Rattle.coco_seen.specs.Rules.{numbers, beginner};
ghost use Rattle.coco_seen.specs.Steps.{started};

use crate::note::{Note, SeatOf};
use crate::plays::{Fill, Give, OneMark};
use crate::seen::Seen;
use crate::stores::Stores;
use crate::view::{HELD, HOME, TO_FILL, VALUE, WHERE, WORDS};
use atomic_table::Table;
use coco_types::NoMemory;
use std::alloc::Global;
use std::sync::atomic::AtomicU64;

impl<S: Stores> Seen<S> {
    /// A lock round a value that stores nothing yet, and `notes` notes for it. Out of memory, the value comes back.
    pub fn make(
        alloc: Global,
        value: S,
        notes: u32,
    ) -> Result<(Seen<S>, Vec<Note<S>>), (S, NoMemory)>
        requires some { 0 < notes }
        requires empty { S.entries value ≡ [] }
        requires from { (root : S.Root) × S.comes_from root value }
        ensures lock { IfOk result (λ r. r.0.notes ≡ notes) }
        ensures count { IfOk result (λ r. vec_len r.1 ≡ notes) }
        ensures notes { IfOk result (λ r. (root : S.Root) × S.comes_from root value × (r.1.items ≡ map (fresh r.0.id (Some root)) (numbers 0 notes))) }
        ensures err { IfErr result (λ e. e.0 ≡ value) }
    {
        let Ok(list) = Vec::with_capacity(alloc, notes as usize) else {
            return Err((value, NoMemory));
        };
        let made = Table::vacant(alloc, &[TO_FILL; WORDS], 1, &notes);
        let Ok((table, seat)) = made else {
            list.destroy_empty();
            return Err((value, NoMemory));
        };
        let seen = Seen {
            table,
            sleepers: AtomicU64::new(0),
        };
        let seat = seen.fill(seat, value);
        let list = seen.deal(seat, list, notes);
        Ok((seen, list))
    }

    // Puts the value into its slot, as the first seat.
    fn fill(&self, mut seat: SeatOf<S>, value: S) -> SeatOf<S>
        requires lock { seat.table_id ≡ self.now.id }
        requires first { seat.me ≡ (beginner self.now.notes, []) }
        requires empty { S.entries value ≡ [] }
        requires from { (root : S.Root) × S.comes_from root value }
        ensures lock { result.table_id ≡ seat.table_id }
        ensures view { (root : S.Root) × S.comes_from root value × (result.me ≡ (started root (numbers 0 self.now.notes), [])) }
    {
        let full = Some(value);
        self.table
            .shared
            .compare_exchange_with::<Fill>(&mut seat, WHERE, TO_FILL, HELD, &full);
        match self.table.shared.exchange(&mut seat, VALUE, full) {
            None => {}
            Some(_) => unreachable!(),
        }
        self.table.shared.store::<Give>(&mut seat, WHERE, HOME);
        seat
    }

    // Deals the marks of the seat out, one to each note. The last note has the seat itself.
    fn deal(&self, mut seat: SeatOf<S>, mut list: Vec<Note<S>>, notes: u32) -> Vec<Note<S>>
        requires lock { seat.table_id ≡ self.now.id }
        requires some { 0 < notes }
        requires view { (root : S.Root) × (seat.me ≡ (started root (numbers 0 notes), [])) }
        requires empty { list.items ≡ [] }
        requires room { notes ≤ vec_capacity list }
        ensures count { vec_len result ≡ notes }
        ensures notes { result.items ≡ map (fresh self.now.id (slice_get seat.me.0.roots 0)) (numbers 0 notes) }
    {
        let last = notes - 1;
        for number in 0..last {
            let other = self.table.shared.split_seat::<OneMark>(&mut seat);
            list.push_reserved(Note {
                number,
                seat: other,
            });
        }
        list.push_reserved(Note { number: last, seat });
        list
    }
}
