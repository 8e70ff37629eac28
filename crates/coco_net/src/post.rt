//! What a net keeps that looks back at its letters: those sent, and the boxes of places.

ghost use Rattle.std.specs.Prelude.{◌≡◌, ◌+◌, ◌-◌, ◌^◌, ◌<◌, ◌≤◌, ◌≢◌, ◌==◌, ◌||◌, ℕ, All, List, Option, Some, [], ◌∷◌, ◌++◌, drop, length, map, replicate, true, false, MatchOption, IfOk, OnOk, OnErr, if◌then◌else◌};
ghost use Rattle.std.specs.List.{slice_index_or};
ghost use Rattle.coco_net.specs.Mail.{below, boxed, fresh, given_more, letters_to, IsFew, no_mail, picked, turned, waiting_at};

use crate::{Letter, Posted};
use coco_io::told::Told;
use coco_types::{Bytes, NoMemory};
use std::alloc::Global;
use std::collections::VecDeque;
use std::marker::Model;
use std::slice;

/// How many places there are.
pub const PLACES: usize = 9;

/// Letters sent, given and waiting. Of those given it keeps those that wait, and contracts see all.
#[derive(Drop)]
pub struct Post {
    sent: Vec<Posted>,
    given: Told<Posted>,
    since: usize,
    boxes: Vec<VecDeque<Letter>>,
    seed: Option<u64>,
    faults: u64,
}

impl Model for Post {
    ghost use Rattle.std.specs.Prelude.{map};
    ghost use Rattle.coco_net.specs.Mail.{MailState, mail_code, IsKept};

    ghost Value = { MailState };

    ghost coded = { mail_code };

    ghost view = { λ a. record {
      sent = a.sent.items;
      given = a.given.items;
      since = a.since;
      waiting = map (λ q. q.items) a.boxes.items;
      seed = a.seed;
      faults = a.faults;
    } };

    ghost invariant = { λ a. IsKept a.sent.items a.since (map (λ q. q.items) a.boxes.items) };
}

impl Post {
    pub fn new(alloc: Global) -> Post
        ensures { result ≡ no_mail }
    {
        Post {
            sent: Vec::new(alloc),
            given: Told::new(),
            since: 0,
            boxes: Vec::new(alloc),
            seed: None,
            faults: 0,
        }
    }

    pub fn send(&mut self, from: u8, to: u8, bytes: Vec<u8>) -> Result<(), NoMemory>
        ensures ok { OnOk result (self.new ≡ record self.old { sent = self.old.sent ++ record { to = to; letter = record { from = from; bytes = bytes.items } } ∷ [] }) }
        ensures fresh { OnOk result (fresh self.new ≡ fresh self.old ++ record { to = to; letter = record { from = from; bytes = bytes.items } } ∷ []) }
        ensures err { OnErr result (self.new ≡ self.old) }
    {
        let bytes = Bytes::from_vec(bytes);
        let letter = Letter { from, bytes };
        self.sent.push(Posted { to, letter })?;
        Ok(())
    }

    /// The allocator that it grows on.
    pub fn allocator(&self) -> Global {
        *self.sent.allocator()
    }

    /// The letters sent.
    pub fn sent(&self) -> &[Posted]
        ensures { result.now ≡ self.now.sent }
    {
        self.sent.as_slice()
    }

    /// How many had been sent at the last round.
    pub fn since(&self) -> usize
        ensures since { result ≡ self.now.since }
        ensures passed { result ≤ length self.now.sent }
    {
        self.since
    }

    /// How many rounds lost a letter.
    pub fn faults(&self) -> u64
        ensures { result ≡ self.now.faults }
    {
        self.faults
    }

    /// Keeps a seed.
    pub fn disturb(&mut self, seed: u64)
        ensures { self.new ≡ record self.old { seed = Some seed } }
    {
        self.seed = Some(seed);
    }

    /// The seed that was kept last.
    pub fn seed(&self) -> Option<u64>
        ensures { result ≡ self.now.seed }
    {
        self.seed
    }

    /// How many letters wait at a place.
    pub fn waiting(&self, to: u8) -> u32
        ensures { result ≡ length (waiting_at self.now to) }
    {
        count(self.boxes.as_slice(), to)
    }

    /// Takes the first letter that waits at a place.
    pub fn next(&mut self, to: u8) -> Option<Letter>
        ensures first { MatchOption result ((waiting_at self.old to ≡ []) × (waiting_at self.new to ≡ [])) (λ letter. waiting_at self.old to ≡ letter ∷ waiting_at self.new to) }
        ensures others { (p : ℕ) → p ≢ to → waiting_at self.new p ≡ waiting_at self.old p }
        ensures sent { self.new.sent ≡ self.old.sent }
        ensures given { self.new.given ≡ self.old.given }
        ensures since { self.new.since ≡ self.old.since }
        ensures seed { self.new.seed ≡ self.old.seed }
        ensures faults { self.new.faults ≡ self.old.faults }
    {
        take_first(&mut self.boxes, to)
    }

    /// Gives the letters with these numbers, in this order; at a place whose test says so the other way round.
    pub fn give(&mut self, chosen: &[usize], turns: &[bool], loses: bool) -> Result<(), NoMemory>
        requires within { All (λ n. n < length self.old.sent) chosen.now }
        requires room { loses ≡ true → self.old.faults < 2 ^ 64 - 1 }
        ensures ok { OnOk result (self.new ≡ given_more self.old (picked self.old.sent chosen.now) turns.now loses) }
        ensures err { OnErr result (self.new ≡ self.old) }
    {
        let alloc = self.allocator();
        let boxes = boxes_of(alloc, self.sent.as_slice(), chosen, turns)?;
        note_given(&mut self.given, self.sent.as_slice(), chosen);
        self.boxes = boxes;
        self.since = self.sent.len();
        if loses {
            self.faults += 1;
        }
        Ok(())
    }
}

// Notes that the letters with these numbers are given.
pub fn note_given(given: &mut Told<Posted>, sent: &[Posted], chosen: &[usize])
    requires { All (λ n. n < length sent.now) chosen.now }
    ensures { given.new.items ≡ given.old.items ++ picked sent.now chosen.now }
{
    for n in chosen {
        given.add(slice::from_ref(&sent[*n]));
    }
}

// The numbers of the letters from a number on.
pub fn numbers_from(alloc: Global, sent: &[Posted], from: usize) -> Result<Vec<usize>, NoMemory>
    requires { from ≤ length sent.now }
    ensures picked { IfOk result (λ ns. picked sent.now ns.items ≡ drop from sent.now) }
    ensures within { IfOk result (λ ns. All (λ n. n < length sent.now) ns.items) }
{
    let mut numbers = Vec::new(alloc);
    for n in from..sent.len() {
        numbers.push(n)?;
    }
    Ok(numbers)
}

// Whether one of the two holds.
pub fn either(a: bool, b: bool) -> bool
    ensures { result ≡ (a || b) }
{
    a || b
}

// Adds a number so often.
pub fn push_times(numbers: &mut Vec<usize>, number: usize, times: u8) -> Result<(), NoMemory>
    ensures { OnOk result (numbers.new.items ≡ numbers.old.items ++ replicate times number) }
{
    for _time in 0..times {
        numbers.push(number)?;
    }
    Ok(())
}

pub fn count(boxes: &[VecDeque<Letter>], to: u8) -> u32
    requires { IsFew (map (λ q. q.items) boxes.now) }
    ensures { result ≡ length (slice_index_or (map (λ q. q.items) boxes.now) to []) }
{
    match boxes.get(to as usize) {
        Some(letters) => letters.len() as u32,
        None => 0,
    }
}

pub fn take_first(boxes: &mut Vec<VecDeque<Letter>>, to: u8) -> Option<Letter>
    requires { IsFew (map (λ q. q.items) boxes.old.items) }
    ensures few { IsFew (map (λ q. q.items) boxes.new.items) }
    ensures first { MatchOption result ((slice_index_or (map (λ q. q.items) boxes.old.items) to [] ≡ []) × (slice_index_or (map (λ q. q.items) boxes.new.items) to [] ≡ []))
        (λ letter. slice_index_or (map (λ q. q.items) boxes.old.items) to [] ≡ letter ∷ slice_index_or (map (λ q. q.items) boxes.new.items) to []) }
    ensures others { (p : ℕ) → p ≢ to → slice_index_or (map (λ q. q.items) boxes.new.items) p [] ≡ slice_index_or (map (λ q. q.items) boxes.old.items) p [] }
{
    match boxes.get_mut(to as usize) {
        Some(letters) => letters.pop_front(),
        None => None,
    }
}

// The letters for each place.
pub fn boxes_of(
    alloc: Global,
    sent: &[Posted],
    chosen: &[usize],
    turns: &[bool],
) -> Result<Vec<VecDeque<Letter>>, NoMemory>
    requires { All (λ n. n < length sent.now) chosen.now }
    ensures letters { IfOk result (λ boxes. map (λ q. q.items) boxes.items ≡ boxed turns.now (picked sent.now chosen.now)) }
    ensures few { IfOk result (λ boxes. IsFew (map (λ q. q.items) boxes.items)) }
{
    let mut boxes = Vec::new(alloc);
    for place in 0..PLACES {
        let letters = letters_for(alloc, sent, chosen, place)?;
        boxes.push(in_a_box(letters, turns_at(turns, place)))?;
    }
    Ok(boxes)
}

// Whether the letters of a place are turned round.
fn turns_at(turns: &[bool], place: usize) -> bool
    ensures { result ≡ slice_index_or turns.now place false }
{
    match turns.get(place) {
        Some(turns) => *turns,
        None => false,
    }
}

// The letters to a place, in the order of the numbers.
fn letters_for(
    alloc: Global,
    sent: &[Posted],
    chosen: &[usize],
    place: usize,
) -> Result<Vec<Letter>, NoMemory>
    requires { All (λ n. n < length sent.now) chosen.now }
    ensures letters { IfOk result (λ letters. letters.items ≡ letters_to place (picked sent.now chosen.now)) }
    ensures few { IfOk result (λ letters. length letters.items < 2 ^ 32) }
{
    let mut letters = Vec::new(alloc);
    for n in chosen {
        push_for(alloc, &mut letters, &sent[*n], place)?;
    }
    Ok(letters)
}

// Adds the letter where it is to the place. A box has fewer letters than 32 bits can count.
fn push_for(
    alloc: Global,
    letters: &mut Vec<Letter>,
    posted: &Posted,
    place: usize,
) -> Result<(), NoMemory>
    requires { length letters.old.items < 2 ^ 32 }
    ensures letters { OnOk result (letters.new.items ≡ letters.old.items ++ letters_to place (posted.now ∷ [])) }
    ensures few { OnOk result (length letters.new.items < 2 ^ 32) }
{
    if posted.to as usize != place {
        return Ok(());
    }
    if letters.len() >= u32::MAX as usize {
        return Err(NoMemory);
    }
    letters.push(posted.letter.copied(alloc)?)?;
    Ok(())
}

fn in_a_box(mut letters: Vec<Letter>, turns: bool) -> VecDeque<Letter>
    ensures { result.items ≡ turned turns letters.items }
{
    if turns {
        letters.reverse();
    }
    VecDeque::from_vec(letters)
}
