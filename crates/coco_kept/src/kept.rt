//! The Dones whose replies are kept.
ghost use Rattle.std.specs.Prelude.{◌≡◌, ◌+◌, ◌<◌, ◌≤◌, ◌↔◌, ℕ, List, Option, [], ◌∷◌, ◌++◌, not, length, nat_le, slice_get, None, Some, IfSome, IsTrue, OnOk};
ghost use Rattle.std.specs.List.{prefix_len};
ghost use Rattle.std.specs.Iterator.Runs.{YieldsRefsInOrder};
ghost use Rattle.std.specs.VecDeque.Iter.{deque_iter_rest, deque_iter_steps};
ghost use Rattle.std.specs.Option.{option_copied};
ghost use Rattle.coco_types.specs.declared.call.Done.{Done};
ghost use Rattle.coco_types.specs.Limits.{most_kept};
ghost use Rattle.coco_ast.specs.History.{ids_of, is_up_to, kept_of, floor_of, greatest_with, done_of};
ghost use Rattle.coco_kept.specs.Finding.{IsFound};
ghost use Rattle.coco_kept.specs.Holding.{AreUpTo, MakesPlace, has_epoch, epoch_count, first_is, least_of, behind_least};
ghost use Rattle.coco_kept.specs.Keeping.{HasDistinctIds, HoldsKept, newest_epoch};

use coco_types::limits::MOST_KEPT;
use coco_types::{Call, Done, NoMemory};
use std::alloc::Global;
use std::collections::vec_deque::Iter;
use std::collections::{HashMap, VecDeque};
use std::marker::Model;

/// What a request's id and call are to the kept ones.
#[derive(Clone, Copy, Debug, PartialEq, Eq)]
pub enum Found {
    /// The id isn't held, and is above every forgotten one.
    New,
    /// The id is held, with an equal call.
    Same,
    /// The id is held, with another call.
    Reused,
    /// The id isn't held, and is at most the floor.
    Old,
}

/// The Dones of committed requests in order of commit, each under its id. Where there is a keep number, those of
/// so many of the last epochs are held, and the floor is the greatest id that was forgotten.
#[derive(Drop)]
pub struct Kept {
    dones: VecDeque<Done>,
    numbers: HashMap<u64, u64>,
    first: u64,
    epochs: u64,
    keep: Option<u16>,
    floor: Option<u64>,
}

impl Model for Kept {
    ghost use Rattle.std.specs.Prelude.{◌-◌, min, nat_eq};
    ghost use Rattle.std.specs.VecDeque.{deque_len, deque_capacity};
    ghost use Rattle.std.specs.HashMap.{get, spare};
    ghost use Rattle.coco_kept.specs.Holding.{AreHeld};
    ghost use Rattle.coco_kept.specs.Keeping.{Keeping};

    ghost Value = { Keeping };

    ghost view = { λ k. record {
      dones = k.dones.items;
      floor = k.floor;
      keep = k.keep;
      room = min (deque_capacity k.dones - deque_len k.dones) (spare k.numbers);
    } };

    ghost invariant = { λ k. AreHeld k.dones.items (λ id. get nat_eq k.numbers id) k.first k.epochs k.keep };
}

impl Kept {
    /// No Dones, with the floor that earlier ones left. A keep number is at least 1. It takes no memory.
    pub fn new(alloc: Global, keep: Option<u16>, floor: Option<u64>) -> Kept
        requires { IfSome keep (λ n. 0 < n) }
        ensures dones { result.dones ≡ [] }
        ensures floor { result.floor ≡ floor }
        ensures keep { result.keep ≡ keep }
        ensures kept { HoldsKept result floor [] }
    {
        Kept {
            dones: VecDeque::new(alloc),
            numbers: HashMap::new(alloc),
            first: 0,
            epochs: 0,
            keep,
            floor,
        }
    }

    /// How many Dones are held.
    pub fn len(&self) -> u64
        ensures len { result ≡ length self.now.dones }
        ensures distinct { HasDistinctIds self.now.dones }
    {
        self.dones.len() as u64
    }

    pub fn is_empty(&self) -> bool
        ensures { IsTrue result ↔ (self.now.dones ≡ []) }
    {
        self.dones.is_empty()
    }

    /// Whether as many Dones are held as a store without a keep number keeps.
    pub fn is_full(&self) -> bool
        ensures { IsTrue result ↔ (most_kept ≤ length self.now.dones) }
    {
        self.len() >= MOST_KEPT
    }

    /// The greatest id that was forgotten.
    pub fn floor(&self) -> Option<u64>
        ensures { result ≡ self.now.floor }
    {
        self.floor
    }

    /// The greatest epoch of the Dones, and 0 where there is none.
    pub fn newest_epoch(&self) -> u64
        ensures { result ≡ newest_epoch self.now.dones }
    {
        match self.dones.back() {
            Some(last) => last.epoch,
            None => 0,
        }
    }

    /// How many Dones, from the first on, are of the epochs up to this one.
    pub fn count_until(&self, epoch: u64) -> u64
        ensures { result ≡ prefix_len (λ d. nat_le d.epoch epoch) self.now.dones }
    {
        self.iter().take_while(|done| done.epoch <= epoch).count() as u64
    }

    /// The Done of an id, if it is held. It takes no memory.
    pub fn get(&self, id: u64) -> Option<&Done>
        ensures { option_copied result ≡ done_of id self.now.dones }
    {
        match self.numbers.get(&id) {
            Some(number) => self.dones.get(number.wrapping_sub(self.first) as usize),
            None => None,
        }
    }

    /// The Done at a place in order of commit, counted from 0.
    pub fn nth(&self, place: u64) -> Option<&Done>
        ensures { option_copied result ≡ slice_get self.now.dones place }
    {
        self.dones.get(place as usize)
    }

    /// The Dones, in order of commit.
    pub fn iter(&self) -> Iter<'_, Done>
        ensures rest { deque_iter_rest result ≡ self.now.dones }
        ensures runs { YieldsRefsInOrder (deque_iter_steps {X = Done}) deque_iter_rest }
    {
        self.dones.iter()
    }

    /// What a request with this id and this call is. It takes no memory.
    pub fn find(&self, id: u64, call: &Call) -> Found
        ensures { IsFound self.now id call.now result }
    {
        match self.get(id) {
            Some(done) if done.call == *call => Found::Same,
            Some(_) => Found::Reused,
            None if self.is_forgotten(id) => Found::Old,
            None => Found::New,
        }
    }

    // Whether an id is at most the floor.
    fn is_forgotten(&self, id: u64) -> bool
        ensures { result ≡ is_up_to self.now.floor id }
    {
        match self.floor {
            Some(floor) => id <= floor,
            None => false,
        }
    }

    /// Makes room for the Dones of these ids.
    pub fn reserve(&mut self, ids: &[u64]) -> Result<(), NoMemory>
        ensures dones { self.new.dones ≡ self.old.dones }
        ensures floor { self.new.floor ≡ self.old.floor }
        ensures keep { self.new.keep ≡ self.old.keep }
        ensures enough { OnOk result (length ids.now ≤ self.new.room) }
        ensures room { self.old.room ≤ self.new.room }
    {
        self.dones.reserve(ids.len())?;
        self.numbers.reserve(ids.len())?;
        Ok(())
    }

    /// Adds a Done at the end. Where the epochs held would be more than the keep number, those of the least one are
    /// forgotten first. It takes no memory.
    pub fn add(&mut self, done: Done)
        requires new { done_of done.id self.old.dones ≡ None }
        requires newest { newest_epoch self.old.dones ≤ done.epoch }
        requires room { 0 < self.old.room }
        ensures dones { self.new.dones ≡ kept_of self.old.keep (self.old.dones ++ done ∷ []) }
        ensures floor { self.new.floor ≡ floor_of self.old.keep self.old.floor (self.old.dones ++ done ∷ []) }
        ensures keep { self.new.keep ≡ self.old.keep }
        ensures room { self.old.room ≤ self.new.room + 1 }
        ensures newest { newest_epoch self.new.dones ≡ done.epoch }
        ensures kept { (before : Option ℕ) (added : List Done) → HoldsKept self.old before added → newest_epoch added ≤ done.epoch
            → HoldsKept self.new before (added ++ done ∷ []) }
    {
        self.make_place(done.epoch);
        self.push(done);
    }

    // Forgets the Dones of the least epoch, where one of this epoch is one epoch too many.
    fn make_place(&mut self, epoch: u64)
        requires { AreUpTo epoch self.old.dones }
        ensures { MakesPlace epoch self.old self.new }
    {
        let Some(keep) = self.keep else {
            return;
        };
        if self.epochs < keep as u64 {
            return;
        }
        if self.begins_epoch(epoch) {
            self.forget_least();
        }
    }

    // Whether no Done is of this epoch, the last one or a later one.
    fn begins_epoch(&self, epoch: u64) -> bool
        requires { AreUpTo epoch self.now.dones }
        ensures { result ≡ not (has_epoch epoch self.now.dones) }
    {
        self.dones.is_empty() || self.newest_epoch() != epoch
    }

    // Forgets the Dones of the least epoch.
    fn forget_least(&mut self)
        ensures dones { self.new.dones ≡ behind_least self.old.dones }
        ensures floor { self.new.floor ≡ greatest_with self.old.floor (ids_of (least_of self.old.dones)) }
        ensures keep { self.new.keep ≡ self.old.keep }
        ensures room { self.old.room ≤ self.new.room }
    {
        let Some(first) = self.dones.front() else {
            return;
        };
        let least = first.epoch;
        while begins_with(&self.dones, least) {
            self.forget_first();
        }
    }

    fn forget_first(&mut self)
        requires { 0 < length self.old.dones }
        ensures first { (d : Done) × (self.old.dones ≡ d ∷ self.new.dones) × (self.new.floor ≡ greatest_with self.old.floor (d.id ∷ [])) }
        ensures keep { self.new.keep ≡ self.old.keep }
        ensures room { self.old.room ≤ self.new.room }
    {
        let Some(done) = self.dones.pop_front() else {
            return;
        };
        let _number = self.numbers.remove(&done.id);
        self.first = self.first.wrapping_add(1);
        self.floor = Some(greatest(self.floor, done.id));
        if !begins_with(&self.dones, done.epoch) {
            self.epochs -= 1;
        }
    }

    // Adds a Done at the end, of which there may be one more epoch.
    fn push(&mut self, done: Done)
        requires new { done_of done.id self.old.dones ≡ None }
        requires last { AreUpTo done.epoch self.old.dones }
        requires room { 0 < self.old.room }
        requires within { (n : ℕ) → self.old.keep ≡ Some n → epoch_count (self.old.dones ++ done ∷ []) ≤ n }
        ensures dones { self.new.dones ≡ self.old.dones ++ done ∷ [] }
        ensures floor { self.new.floor ≡ self.old.floor }
        ensures keep { self.new.keep ≡ self.old.keep }
        ensures room { self.old.room ≤ self.new.room + 1 }
    {
        let begins = self.begins_epoch(done.epoch);
        let number = self.first.wrapping_add(self.dones.len() as u64);
        let put: Result<_, _> = self.numbers.insert(done.id, number);
        let _none = put.unwrap();
        self.dones.push_back_reserved(done);
        if begins {
            self.epochs += 1;
        }
    }
}

// Whether the first Done is of this epoch.
fn begins_with(dones: &VecDeque<Done>, epoch: u64) -> bool
    ensures { result ≡ first_is epoch dones.now.items }
{
    match dones.front() {
        Some(first) => first.epoch == epoch,
        None => false,
    }
}

fn greatest(floor: Option<u64>, id: u64) -> u64
    ensures { Some result ≡ greatest_with floor (id ∷ []) }
{
    match floor {
        Some(floor) => floor.max(id),
        None => id,
    }
}
