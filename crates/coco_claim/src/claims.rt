//! The counter, and the seats that draw its numbers.

ghost use Rattle.std.specs.Prelude.{◌≡◌, ℕ, ◌+◌, ◌<◌, ◌≤◌, length, ◌++◌, ◌∷◌, [], IsTrue, IfOk, IfSome, MatchBool, All, Any, vec_len, is_none};
ghost use Rattle.coco_claim.specs.Numbers.{times};
ghost use Rattle.coco_claim.specs.Seats.{new_seats, has_ended, Draws, times_drawn};

use crate::hand::{Draw, EachOnce, Hand, OneMark, Plan, Together};
use atomic_table::{Seat, Shared, Table};
use coco_types::NoMemory;
use std::alloc::Global;
use std::marker::Model;

/// A counter that several seats draw numbers from.
#[derive(Drop)]
pub struct Claims {
    table: Table<(), Hand, Plan, EachOnce, Global>,
    plan: Plan,
}

impl Model for Claims {
    ghost use Rattle.std.specs.Prelude.{◌≡◌, ◌<◌, ◌^◌};
    ghost use Rattle.coco_claim.specs.Seats.{Round};

    ghost Value = { Round };

    ghost view = { λ c. record { table = c.table.shared.table_id; n = c.plan.n; seats = c.plan.seats } };

    ghost invariant = { λ c. (c.table.shared.table_id.words ≡ 2) × (c.table.shared.table_id.slots ≡ 0) × (c.table.shared.key ≡ c.plan) × (c.plan.n < 2 ^ 32) × (c.plan.seats < 2 ^ 32) };
}

/// The right to draw, which one thread has at a time. It keeps the numbers that it drew.
#[derive(Drop)]
pub struct ClaimSeat {
    seat: Seat<(), Hand>,
    ended: bool,
}

impl Model for ClaimSeat {
    ghost use Rattle.coco_claim.specs.Seats.{Drawer};
    ghost use Rattle.coco_claim.specs.Sitting.{drawer_of, Sits};

    ghost Value = { Drawer };

    ghost view = { λ s. drawer_of s.seat };

    ghost invariant = { λ s. Sits s.seat s.ended };
}

impl Claims {
    /// Claims of the numbers below `n`, and `seats` seats that draw them, with the marks 0, 1 and so on.
    pub fn make(alloc: Global, n: u32, seats: u32) -> Result<(Claims, Vec<ClaimSeat>), NoMemory>
        requires { 0 < seats }
        ensures claims { IfOk result (λ made. (made.0.n ≡ n) × (made.0.seats ≡ seats)) }
        ensures seats { IfOk result (λ made. made.1.items ≡ new_seats made.0) }
    {
        let mut row = Vec::with_capacity(alloc, seats as usize)?;
        let plan = Plan { n, seats };
        let (table, mut first) = Table::of_words(alloc, &[0, 0], &plan)?;
        for _ in 0..seats {
            let seat = table.shared.split_seat::<OneMark>(&mut first);
            row.push_reserved(ClaimSeat { seat, ended: false });
        }
        Ok((Claims { table, plan }, row))
    }

    /// The next number that no seat drew. None exactly where the number drawn by this call, or by an earlier one with
    /// this seat, is n or greater; such a seat draws no more. A seat draws rising numbers.
    pub fn next(&self, seat: &mut ClaimSeat) -> Option<u32>
        requires { seat.old.claims ≡ self.now }
        ensures seat { MatchBool (has_ended seat.old) (seat.new ≡ seat.old) (Draws seat.old seat.new) }
        ensures none { is_none result ≡ has_ended seat.new }
        ensures some { IfSome result (λ x. (x < self.now.n) × (seat.new.drawn ≡ seat.old.drawn ++ x ∷ [])) }
        ensures few { IfSome result (λ x. length seat.old.drawn ≤ x) }
    {
        if seat.ended {
            return None;
        }
        let number = self.table.shared.fetch_add::<Draw>(&mut seat.seat, 1, 1);
        if number >= u64::from(self.plan.n) {
            seat.ended = true;
            return None;
        }
        Some(number as u32)
    }

    /// Ends the claims with all their seats, one of which came to the end: each number below n was drawn, and once.
    pub fn close(self, mut seats: Vec<ClaimSeat>)
        requires all { (vec_len seats ≡ self.seats) × All (λ seat. seat.claims ≡ self) seats.items }
        requires ended { Any (λ seat. IsTrue (has_ended seat)) seats.items }
        ensures { (x : ℕ) → x < self.n → times_drawn x seats.items ≡ 1 }
    {
        let Claims { table, plan: _ } = self;
        let Some(last) = seats.pop() else {
            unreachable!()
        };
        let ClaimSeat {
            seat: mut all,
            ended: _,
        } = last;
        join_all(&table.shared, &mut all, seats);
        table.close_with(all).free();
    }
}

// The first seat takes in what the others know.
fn join_all(
    shared: &Shared<(), Hand, Plan, EachOnce>,
    all: &mut Seat<(), Hand>,
    seats: Vec<ClaimSeat>,
)
    requires table { (all.old.table_id ≡ shared.now.table_id) × (shared.now.table_id.words ≡ 2) }
    requires seats { All (λ seat. seat.claims.table ≡ shared.now.table_id) seats.items }
    ensures same { all.new.table_id ≡ all.old.table_id }
    ensures marks { length all.new.me.0.marks ≡ length all.old.me.0.marks + vec_len seats }
    ensures drawn { (x : ℕ) → times x all.new.me.0.drawn ≡ times x all.old.me.0.drawn + times_drawn x seats.items }
{
    for seat in seats {
        let ClaimSeat { seat, ended: _ } = seat;
        shared.join_seat::<Together>(all, seat);
    }
}
