//! What a quiet net keeps: the letters of this round and those of the next, in the boxes of their places.

ghost use Rattle.std.specs.Prelude.{◌≡◌, ◌≢◌, ◌^◌, ◌<◌, ℕ, List, Some, [], ◌∷◌, ◌++◌, length, map, MatchOption, IfOk, OnOk, OnErr};
ghost use Rattle.coco_net.specs.declared.letter.Letter.{Letter as Mail};
ghost use Rattle.coco_net.specs.declared.letter.Posted.{Posted as Sent};
ghost use Rattle.coco_net.specs.Mail.{boxed, fresh, IsFew, no_mail, waiting_at};
ghost use Rattle.coco_net.specs.Passing.{AreComing, IsPassing};
ghost use Rattle.coco_net.specs.Rounds.{after_quiet};

use crate::post::{boxes_of, count, take_first};
use crate::{Letter, Posted};
use coco_io::told::Told;
use coco_types::{Bytes, NoMemory};
use std::alloc::Global;
use std::collections::VecDeque;
use std::marker::Model;
use std::{mem, slice};

/// Letters of which each round gives those that were sent since the last. Contracts see all letters; kept are those
/// that wait, and those that come next.
#[derive(Drop)]
pub struct QuietPost {
    sent: Told<Posted>,
    sent_count: u64,
    since: u64,
    coming: Vec<VecDeque<Letter>>,
    boxes: Vec<VecDeque<Letter>>,
    seed: Option<u64>,
}

impl Model for QuietPost {
    ghost use Rattle.std.specs.Prelude.{map, take};
    ghost use Rattle.coco_net.specs.Mail.{MailState, mail_code};
    ghost use Rattle.coco_net.specs.Passing.{IsPassing};

    ghost Value = { MailState };

    ghost coded = { mail_code };

    ghost view = { λ a. record {
      sent = a.sent.items;
      given = take a.since a.sent.items;
      since = a.since;
      waiting = map (λ q. q.items) a.boxes.items;
      seed = a.seed;
      faults = 0;
    } };

    ghost invariant = { λ a. IsPassing a.sent.items a.sent_count a.since (map (λ q. q.items) a.coming.items) (map (λ q. q.items) a.boxes.items) };
}

impl QuietPost {
    pub fn new(alloc: Global) -> QuietPost
        ensures { result ≡ no_mail }
    {
        QuietPost {
            sent: Told::new(),
            sent_count: 0,
            since: 0,
            coming: Vec::new(alloc),
            boxes: Vec::new(alloc),
            seed: None,
        }
    }

    pub fn send(&mut self, from: u8, to: u8, bytes: Vec<u8>) -> Result<(), NoMemory>
        ensures ok { OnOk result (self.new ≡ record self.old { sent = self.old.sent ++ record { to = to; letter = record { from = from; bytes = bytes.items } } ∷ [] }) }
        ensures fresh { OnOk result (fresh self.new ≡ fresh self.old ++ record { to = to; letter = record { from = from; bytes = bytes.items } } ∷ []) }
        ensures err { OnErr result (self.new ≡ self.old) }
    {
        let bytes = Bytes::from_vec(bytes);
        let letter = Letter { from, bytes };
        let posted = Posted { to, letter };
        put(
            &mut self.coming,
            &mut self.sent,
            &mut self.sent_count,
            posted,
        )
    }

    /// Keeps a seed.
    pub fn disturb(&mut self, seed: u64)
        ensures { self.new ≡ record self.old { seed = Some seed } }
    {
        self.seed = Some(seed);
    }

    /// How many rounds lost a letter: none.
    pub fn faults(&self) -> u64
        ensures { result ≡ self.now.faults }
    {
        let _seed = self.seed;
        0
    }

    /// How many letters wait at a place.
    pub fn waiting(&self, to: u8) -> u32
        ensures { result ≡ length (waiting_at self.now to) }
    {
        count(self.boxes.as_slice(), to)
    }

    /// Takes the first letter that waits at a place.
    pub fn next(&mut self, to: u8) -> Option<Letter>
        ensures first { MatchOption result ((waiting_at self.old to ≡ []) × (waiting_at self.new to ≡ [])) (λ letter. waiting_at self.old to ≡ letter ∷ waiting_at self.new to) }
        ensures others { (p : ℕ) → p ≢ to → waiting_at self.new p ≡ waiting_at self.old p }
        ensures sent { self.new.sent ≡ self.old.sent }
        ensures given { self.new.given ≡ self.old.given }
        ensures since { self.new.since ≡ self.old.since }
        ensures seed { self.new.seed ≡ self.old.seed }
        ensures faults { self.new.faults ≡ self.old.faults }
    {
        take_first(&mut self.boxes, to)
    }

    /// Every letter sent since the last round waits now.
    pub fn round(&mut self) -> Result<(), NoMemory>
        ensures ok { OnOk result (self.new ≡ after_quiet self.old) }
        ensures err { OnErr result (self.new ≡ self.old) }
    {
        let none = no_boxes(*self.boxes.allocator())?;
        open(&mut self.coming)?;
        self.boxes = mem::replace(&mut self.coming, none);
        self.since = self.sent_count;
        Ok(())
    }
}

// The boxes of the places, with no letters yet.
fn no_boxes(alloc: Global) -> Result<Vec<VecDeque<Letter>>, NoMemory>
    ensures none { IfOk result (λ boxes. map (λ q. q.items) boxes.items ≡ boxed [] []) }
    ensures few { IfOk result (λ boxes. IsFew (map (λ q. q.items) boxes.items)) }
{
    boxes_of(alloc, &[], &[], &[])
}

// Makes the boxes where there are none.
fn open(coming: &mut Vec<VecDeque<Letter>>) -> Result<(), NoMemory>
    requires { IsFew (map (λ q. q.items) coming.old.items) }
    ensures few { IsFew (map (λ q. q.items) coming.new.items) }
    ensures comes { (these : List Sent) → AreComing these (map (λ q. q.items) coming.old.items) → AreComing these (map (λ q. q.items) coming.new.items) }
    ensures ok { OnOk result ((these : List Sent) → AreComing these (map (λ q. q.items) coming.old.items) → map (λ q. q.items) coming.new.items ≡ boxed [] these) }
{
    if coming.is_empty() {
        *coming = no_boxes(*coming.allocator())?;
    }
    Ok(())
}

// Puts a letter into the box of its place, and counts it.
fn put(
    coming: &mut Vec<VecDeque<Letter>>,
    sent: &mut Told<Posted>,
    sent_count: &mut u64,
    posted: Posted,
) -> Result<(), NoMemory>
    requires { IsFew (map (λ q. q.items) coming.old.items) }
    ensures kept { (since : ℕ) (waiting : List (List Mail)) → IsPassing sent.old.items sent_count.old since (map (λ q. q.items) coming.old.items) waiting
        → IsPassing sent.new.items sent_count.new since (map (λ q. q.items) coming.new.items) waiting }
    ensures ok { OnOk result (sent.new.items ≡ sent.old.items ++ posted ∷ []) }
    ensures err { OnErr result (sent.new.items ≡ sent.old.items) }
{
    if *sent_count == u64::MAX {
        return Err(NoMemory);
    }
    open(coming)?;
    put_in(coming, sent, posted)?;
    *sent_count += 1;
    Ok(())
}

// Puts a letter into the box of its place.
fn put_in(
    coming: &mut Vec<VecDeque<Letter>>,
    sent: &mut Told<Posted>,
    posted: Posted,
) -> Result<(), NoMemory>
    requires { IsFew (map (λ q. q.items) coming.old.items) }
    ensures few { IsFew (map (λ q. q.items) coming.new.items) }
    ensures ok { OnOk result ((these : List Sent) → map (λ q. q.items) coming.old.items ≡ boxed [] these → map (λ q. q.items) coming.new.items ≡ boxed [] (these ++ posted ∷ [])) }
    ensures sent { OnOk result (sent.new.items ≡ sent.old.items ++ posted ∷ []) }
    ensures err { OnErr result ((sent.new.items ≡ sent.old.items) × (map (λ q. q.items) coming.new.items ≡ map (λ q. q.items) coming.old.items)) }
{
    match coming.get_mut(posted.to as usize) {
        Some(letters) => put_behind(letters, sent, posted),
        None => Err(NoMemory),
    }
}

// Puts a letter behind others. A box has fewer letters than 32 bits can count.
fn put_behind(
    letters: &mut VecDeque<Letter>,
    sent: &mut Told<Posted>,
    posted: Posted,
) -> Result<(), NoMemory>
    requires { length letters.old.items < 2 ^ 32 }
    ensures few { length letters.new.items < 2 ^ 32 }
    ensures ok { OnOk result (letters.new.items ≡ letters.old.items ++ posted.letter ∷ []) }
    ensures sent { OnOk result (sent.new.items ≡ sent.old.items ++ posted ∷ []) }
    ensures err { OnErr result ((sent.new.items ≡ sent.old.items) × (letters.new.items ≡ letters.old.items)) }
{
    if letters.len() >= u32::MAX as usize {
        return Err(NoMemory);
    }
    letters.reserve(1)?;
    sent.add(slice::from_ref(&posted));
    let Posted { letter, .. } = posted;
    letters.push_back_reserved(letter);
    Ok(())
}
