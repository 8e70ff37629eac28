//! The lock: its value is taken, gets entries and is given back, and at the end all notes come together.

ghost use Rattle.std.specs.Prelude.{◌≡◌, ℕ, ◌-◌, ◌<◌, ◌^◌, [], ◌∷◌, ◌++◌, map, length, true, false, All, Some, slice_get, MatchOption, sum_by, vec_len};
ghost use mathlib.Core.List.{IsPrefix};
ghost use Rattle.coco_seen.specs.Closes.{StandsFor};
ghost use Rattle.coco_seen.specs.Notes.{ComesFrom};
ghost use Rattle.coco_seen.specs.Rules.{how_often, once_below};

use crate::holder::HoldsNote;
use crate::note::{Note, SeatOf};
use crate::plays::{Append, Give, OneMark, Said, Take};
use crate::stores::Stores;
use crate::view::{HELD, HOME, LENGTH, OneHolder, VALUE, View, WHERE};
use atomic_table::Table;
use std::alloc::Global;
use std::hint::spin_loop;
use std::marker::{Brand, Model};
use std::sync::Wait;
use std::sync::atomic::AtomicU64;
use std::sync::atomic::Ordering::SeqCst;

/// A lock for a value that stores what was done under it. To a contract it is its identity and the number of its notes.
#[derive(Drop)]
pub struct Seen<S: Stores> {
    pub(crate) table: Table<Option<S>, View<S::Entry, S::Root>, u32, OneHolder, Global>,
    /// How many threads sleep until the value is at home.
    pub(crate) sleepers: AtomicU64,
}

impl<S: Stores> Model for Seen<S> {
    ghost use Rattle.std.specs.Prelude.{◌≡◌, ◌<◌};
    ghost use Rattle.coco_seen.specs.Notes.{Lock};

    ghost Value = { Lock };

    ghost view = { λ s. record { id = s.table.shared.table_id; notes = s.table.shared.key } };

    ghost invariant = { λ s. (s.table.shared.table_id.words ≡ 17) × (s.table.shared.table_id.slots ≡ 1) × (0 < s.table.shared.key) };
}

// How often a thread looks before it sleeps.
const LOOKS: u32 = 64;

impl<S: Stores> Seen<S> {
    /// Waits until the value is at home, and takes it.
    pub fn take(&self, rt: &impl Wait, note: &mut Note<S>) -> S
        requires lock { note.old.lock ≡ self.now.id }
        requires free { note.old.holds ≡ false }
        ensures note { note.new ≡ record note.old { list = S.entries result; holds = true } }
        ensures seen { IsPrefix note.old.list (S.entries result) }
        ensures from { ComesFrom S.comes_from note.old.root result }
    {
        for _ in rt.forever() {
            for _ in 0..LOOKS {
                if self.table.shared.peek(WHERE) == HOME
                    && let Some(value) = self.try_take(note)
                {
                    return value;
                }
                spin_loop();
            }
            self.sleep(rt);
        }
        unreachable!()
    }

    fn try_take(&self, note: &mut Note<S>) -> Option<S>
        requires lock { note.old.lock ≡ self.now.id }
        requires free { note.old.holds ≡ false }
        ensures { MatchOption result (note.new ≡ note.old) (λ value. (note.new ≡ record note.old { list = S.entries value; holds = true }) × IsPrefix note.old.list (S.entries value) × ComesFrom S.comes_from note.old.root value) }
    {
        if self
            .table
            .shared
            .compare_exchange::<Take>(&mut note.seat, WHERE, HOME, HELD)
            == HOME
        {
            self.table.shared.exchange(&mut note.seat, VALUE, None)
        } else {
            None
        }
    }

    // Sleeps while a note holds the value. Who gives it back sees the count, or stored before this thread looks again.
    fn sleep(&self, rt: &impl Wait) {
        self.sleepers.fetch_add(1, SeqCst);
        self.table.shared.park(rt, WHERE, HELD as u32);
        self.sleepers.fetch_sub(1, SeqCst);
    }

    /// Appends an entry, and answers its place. It takes no memory. Inlined, it doesn't build the entry, which proofs alone want.
    #[inline(always)]
    pub fn append(&self, note: &mut Note<S>, entry: S::Entry) -> u64
        requires lock { note.old.lock ≡ self.now.id }
        requires holds { note.old.holds ≡ true }
        requires room { length note.old.list < 2 ^ 63 - 1 }
        ensures place { result ≡ length note.old.list }
        ensures note { note.new ≡ record note.old { list = note.old.list ++ entry ∷ []; calls = note.old.calls ++ (result, entry) ∷ [] } }
    {
        self.append_said::<Brand>(note, entry)
    }

    #[inline(always)]
    fn append_said<W: Said<S::Entry>>(&self, note: &mut Note<S>, entry: S::Entry) -> u64
        requires lock { note.old.lock ≡ self.now.id }
        requires holds { note.old.holds ≡ true }
        requires room { length note.old.list < 2 ^ 63 - 1 }
        requires said { W.entry ≡ Some entry }
        ensures place { result ≡ length note.old.list }
        ensures note { note.new ≡ record note.old { list = note.old.list ++ entry ∷ []; calls = note.old.calls ++ (result, entry) ∷ [] } }
    {
        let _ = entry;
        self.table
            .shared
            .fetch_add::<Append<W>>(&mut note.seat, LENGTH, 1)
    }

    /// Gives the value back, with the note's list. It takes no memory.
    pub fn give(&self, note: &mut Note<S>, value: S)
        requires lock { note.old.lock ≡ self.now.id }
        requires holds { note.old.holds ≡ true }
        requires list { S.entries value ≡ note.old.list }
        requires from { ComesFrom S.comes_from note.old.root value }
        ensures { note.new ≡ record note.old { holds = false } }
    {
        match self
            .table
            .shared
            .exchange(&mut note.seat, VALUE, Some(value))
        {
            None => {}
            Some(_) => unreachable!(),
        }
        self.table.shared.store::<Give>(&mut note.seat, WHERE, HOME);
        if self.sleepers.load(SeqCst) != 0 {
            self.table.shared.wake_one(WHERE);
        }
    }

    /// Ends the lock, once all its notes are back. The list of the value that stood in it has each call of each note at its place, and no other entry. It takes no memory.
    pub fn close(self, notes: Vec<Note<S>>) -> S
        requires lock { All (λ note. note.lock ≡ self.id) notes.items }
        requires free { All (λ note. note.holds ≡ false) notes.items }
        requires all { vec_len notes ≡ self.notes }
        ensures from { All (λ note. ComesFrom S.comes_from note.root result) notes.items }
        ensures placed { All (λ note. All (λ call. slice_get (S.entries result) call.0 ≡ Some call.1) note.calls) notes.items }
        ensures once { (place : ℕ) → sum_by (λ note. how_often place (map (λ call. call.0) note.calls)) notes.items ≡ once_below place (length (S.entries result)) }
        ensures sized { length (S.entries result) ≡ sum_by (λ note. length note.calls) notes.items }
    {
        self.close_of(notes, &mut ())
    }

    /// The same with what holds the notes. What the holders have beside their notes goes to `rests`.
    pub fn close_of<H: HoldsNote<S>>(self, holders: Vec<H>, rests: &mut H::Rests) -> S
        requires lock { All (λ h. (H.note h).lock ≡ self.id) holders.items }
        requires free { All (λ h. (H.note h).holds ≡ false) holders.items }
        requires all { vec_len holders ≡ self.notes }
        ensures from { All (λ h. ComesFrom S.comes_from (H.note h).root result) holders.items }
        ensures placed { All (λ h. All (λ call. slice_get (S.entries result) call.0 ≡ Some call.1) (H.note h).calls) holders.items }
        ensures once { (place : ℕ) → sum_by (λ h. how_often place (map (λ call. call.0) (H.note h).calls)) holders.items ≡ once_below place (length (S.entries result)) }
        ensures sized { length (S.entries result) ≡ sum_by (λ h. length (H.note h).calls) holders.items }
        ensures facts { All H.fact holders.items }
    {
        let seat = self.gather(holders, rests);
        let Seen { table, sleepers: _ } = self;
        let mut closed = table.close_with(seat);
        let value = closed.take(0);
        closed.free();
        match value {
            Some(value) => value,
            None => unreachable!(),
        }
    }

    // One seat that stands for all notes.
    fn gather<H: HoldsNote<S>>(&self, mut holders: Vec<H>, rests: &mut H::Rests) -> SeatOf<S>
        requires lock { All (λ h. (H.note h).lock ≡ self.now.id) holders.items }
        requires free { All (λ h. (H.note h).holds ≡ false) holders.items }
        requires some { 0 < vec_len holders }
        ensures lock { result.table_id ≡ self.now.id }
        ensures notes { StandsFor (map H.note holders.items) result.me.0 }
        ensures facts { All H.fact holders.items }
    {
        let Some(first) = holders.pop() else {
            unreachable!()
        };
        let mut seat = first.into_note(self, rests).into_seat();
        while let Some(holder) = holders.pop() {
            let other = holder.into_note(self, rests).into_seat();
            self.table.shared.join_seat::<OneMark>(&mut seat, other);
        }
        holders.destroy_empty();
        seat
    }
}
