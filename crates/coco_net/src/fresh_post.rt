//! What a net keeps that gives a letter in the next round or never: the letters sent since the last round, and those
//! that wait.

ghost use Rattle.std.specs.Prelude.{◌≡◌, ◌≢◌, ◌^◌, ◌-◌, ◌<◌, ◌==◌, ℕ, All, Some, [], ◌∷◌, ◌++◌, length, false, true, MatchOption, OnOk, OnErr};
ghost use Rattle.coco_net.specs.Mail.{fresh, given_more, no_mail, picked, waiting_at};

use crate::moving::{make_room, move_in};
use crate::post::{PLACES, boxes_of, count, note_given, take_first};
use crate::{Letter, Posted};
use coco_io::told::Told;
use coco_types::{Bytes, NoMemory};
use std::alloc::Global;
use std::collections::VecDeque;
use std::marker::Model;

/// Letters sent, given and waiting. Contracts see all of them; kept are those that wait, and those that were sent since
/// the last round.
#[derive(Drop)]
pub struct FreshPost {
    before: Told<Posted>,
    given: Told<Posted>,
    fresh: Vec<Posted>,
    boxes: Vec<VecDeque<Letter>>,
    seed: Option<u64>,
    faults: u64,
}

impl Model for FreshPost {
    ghost use Rattle.std.specs.Prelude.{◌++◌, length, map};
    ghost use Rattle.coco_net.specs.Mail.{MailState, mail_code, IsFew};

    ghost Value = { MailState };

    ghost coded = { mail_code };

    ghost view = { λ a. record {
      sent = a.before.items ++ a.fresh.items;
      given = a.given.items;
      since = length a.before.items;
      waiting = map (λ q. q.items) a.boxes.items;
      seed = a.seed;
      faults = a.faults;
    } };

    ghost invariant = { λ a. IsFew (map (λ q. q.items) a.boxes.items) };
}

impl FreshPost {
    pub fn new(alloc: Global) -> FreshPost
        ensures { result ≡ no_mail }
    {
        FreshPost {
            before: Told::new(),
            given: Told::new(),
            fresh: Vec::new(alloc),
            boxes: Vec::new(alloc),
            seed: None,
            faults: 0,
        }
    }

    pub fn send(&mut self, from: u8, to: u8, bytes: Vec<u8>) -> Result<(), NoMemory>
        ensures ok { OnOk result (self.new ≡ record self.old { sent = self.old.sent ++ record { to = to; letter = record { from = from; bytes = bytes.items } } ∷ [] }) }
        ensures fresh { OnOk result (fresh self.new ≡ fresh self.old ++ record { to = to; letter = record { from = from; bytes = bytes.items } } ∷ []) }
        ensures err { OnErr result (self.new ≡ self.old) }
    {
        let bytes = Bytes::from_vec(bytes);
        let letter = Letter { from, bytes };
        self.fresh.push(Posted { to, letter })?;
        Ok(())
    }

    /// The allocator that it grows on.
    pub fn allocator(&self) -> Global {
        *self.fresh.allocator()
    }

    /// The letters sent since the last round.
    pub fn fresh(&self) -> &[Posted]
        ensures { result.now ≡ fresh self.now }
    {
        self.fresh.as_slice()
    }

    /// How many rounds lost a letter.
    pub fn faults(&self) -> u64
        ensures { result ≡ self.now.faults }
    {
        self.faults
    }

    /// Keeps a seed.
    pub fn disturb(&mut self, seed: u64)
        ensures { self.new ≡ record self.old { seed = Some seed } }
    {
        self.seed = Some(seed);
    }

    /// The seed that was kept last.
    pub fn seed(&self) -> Option<u64>
        ensures { result ≡ self.now.seed }
    {
        self.seed
    }

    /// How many letters wait at a place.
    pub fn waiting(&self, to: u8) -> u32
        ensures { result ≡ length (waiting_at self.now to) }
    {
        count(self.boxes.as_slice(), to)
    }

    /// Takes the first letter that waits at a place.
    pub fn next(&mut self, to: u8) -> Option<Letter>
        ensures first { MatchOption result ((waiting_at self.old to ≡ []) × (waiting_at self.new to ≡ [])) (λ letter. waiting_at self.old to ≡ letter ∷ waiting_at self.new to) }
        ensures others { (p : ℕ) → p ≢ to → waiting_at self.new p ≡ waiting_at self.old p }
        ensures sent { self.new.sent ≡ self.old.sent }
        ensures given { self.new.given ≡ self.old.given }
        ensures since { self.new.since ≡ self.old.since }
        ensures seed { self.new.seed ≡ self.old.seed }
        ensures faults { self.new.faults ≡ self.old.faults }
    {
        take_first(&mut self.boxes, to)
    }

    /// Whether there are boxes: not before the first round.
    pub fn has_boxes(&self) -> bool
        ensures { result ≡ (length self.now.waiting == 9) }
    {
        self.boxes.len() == PLACES
    }

    /// Gives all letters sent since the last round, in order, in the boxes that there are.
    pub fn give_all(&mut self) -> Result<(), NoMemory>
        requires { length self.old.waiting ≡ 9 }
        ensures ok { OnOk result (self.new ≡ given_more self.old (fresh self.old) [] false) }
        ensures err { OnErr result (self.new ≡ self.old) }
    {
        make_room(&mut self.boxes, self.fresh.as_slice())?;
        self.given.add(self.fresh.as_slice());
        self.before.add(self.fresh.as_slice());
        move_in(&mut self.boxes, &mut self.fresh);
        Ok(())
    }

    /// Gives those of the letters sent since the last round that have these numbers, in this order; at a place whose
    /// test says so the other way round. The others are lost.
    pub fn give(&mut self, chosen: &[usize], turns: &[bool], loses: bool) -> Result<(), NoMemory>
        requires within { All (λ n. n < length (fresh self.old)) chosen.now }
        requires room { loses ≡ true → self.old.faults < 2 ^ 64 - 1 }
        ensures ok { OnOk result (self.new ≡ given_more self.old (picked (fresh self.old) chosen.now) turns.now loses) }
        ensures err { OnErr result (self.new ≡ self.old) }
    {
        let alloc = self.allocator();
        let boxes = boxes_of(alloc, self.fresh.as_slice(), chosen, turns)?;
        note_given(&mut self.given, self.fresh.as_slice(), chosen);
        self.boxes = boxes;
        self.before.add(self.fresh.as_slice());
        self.fresh.clear();
        if loses {
            self.faults += 1;
        }
        Ok(())
    }
}
