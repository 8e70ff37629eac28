//! A net that loses, repeats and reorders as it is told.

ghost use Rattle.std.specs.Prelude.{◌≢◌, ◌∷◌, Some, MatchOption, ◌≡◌, ◌+◌, ◌≤◌, ◌⊎◌, ℕ, List, [], ◌<◌, ◌-◌, ◌^◌, ◌||◌, ◌++◌, true, All as Each, drop, take, replicate, IfOk, if◌then◌else◌, length, OnOk, OnErr};
ghost use Rattle.coco_net.specs.Giving.{GivesMore};
ghost use Rattle.coco_net.specs.Mail.{fresh, no_mail, picked, waiting_at};
ghost use Rattle.std.specs.List.{list_any};
ghost use Rattle.coco_net.specs.Rounds.{after_script, is_lost, is_same, script_carries, script_gives, script_loses, still_loses};

use crate::post::{PLACES, Post, either, push_times};
use crate::{Letter, Net, Posted};
use coco_types::NoMemory;
use std::alloc::Global;

/// Which letters are lost: those to a place, or those of which no equal one was sent before.
#[derive(Clone, Copy, Debug, PartialEq, Eq)]
pub enum Lose {
    Nothing,
    All,
    To(u8),
    FirstSend,
}

/// Loses the letters that it is told to lose, and gives each of the others so often, at each place in order or the
/// other way round. A round that loses a letter counts a fault; where the count is at its end nothing is lost.
#[derive(Drop)]
pub struct ScriptNet {
    post: Post,
    lose: Lose,
    reverse: bool,
    times: u8,
    ghost some: { 1 ≤ times },
}

impl ScriptNet {
    pub fn new(alloc: Global, lose: Lose, reverse: bool, times: u8) -> ScriptNet
        requires { 1 ≤ times }
        ensures post { result.post ≡ no_mail }
        ensures lose { result.lose ≡ lose }
        ensures reverse { result.reverse ≡ reverse }
        ensures times { result.times ≡ times }
    {
        ScriptNet {
            post: Post::new(alloc),
            lose,
            reverse,
            times,
        }
    }
}

// The same bytes, from the same place to the same place.
fn is_same(a: &Posted, b: &Posted) -> bool
    ensures { result ≡ is_same a.now b.now }
{
    a.to == b.to
        && a.letter.from == b.letter.from
        && a.letter.bytes.as_slice() == b.letter.bytes.as_slice()
}

// Whether an equal letter is among these.
fn has_equal(before: &[Posted], posted: &Posted) -> bool
    ensures { result ≡ list_any (λ b. is_same b posted.now) before.now }
{
    before.iter().any(|earlier| is_same(earlier, posted))
}

// Whether a letter is lost, where these were sent before it.
fn is_lost(lose: Lose, before: &[Posted], posted: &Posted) -> bool
    ensures { result ≡ is_lost lose before.now posted.now }
{
    match lose {
        Lose::Nothing => false,
        Lose::All => true,
        Lose::To(place) => posted.to == place,
        Lose::FirstSend => !has_equal(before, posted),
    }
}

// How often a letter is given.
fn times_for(lost: bool, times: u8) -> u8
    ensures { result ≡ (if lost then 0 else times) }
{
    if lost { 0 } else { times }
}

// The numbers of the letters that are given, each so often, and whether one is lost.
fn chosen(
    alloc: Global,
    sent: &[Posted],
    since: usize,
    lose: Lose,
    times: u8,
) -> Result<(Vec<usize>, bool), NoMemory>
    requires { since ≤ length sent.now }
    ensures within { IfOk result (λ r. Each (λ n. n < length sent.now) r.0.items) }
    ensures given { IfOk result (λ r. picked sent.now r.0.items ≡ script_gives lose times (take since sent.now) (drop since sent.now)) }
    ensures loses { IfOk result (λ r. r.1 ≡ script_loses lose (take since sent.now) (drop since sent.now)) }
{
    let mut numbers = Vec::new(alloc);
    let mut loses = false;
    for n in since..sent.len() {
        let lost = is_lost(lose, &sent[..n], &sent[n]);
        push_times(&mut numbers, n, times_for(lost, times))?;
        loses = either(loses, lost);
    }
    Ok((numbers, loses))
}

// A count of faults at its end loses no more.
fn still_loses(lose: Lose, faults: u64) -> Lose
    ensures { result ≡ still_loses lose faults }
{
    if faults < u64::MAX {
        lose
    } else {
        Lose::Nothing
    }
}

// A round of a script.
fn script_round(
    alloc: Global,
    post: &mut Post,
    lose: Lose,
    reverse: bool,
    times: u8,
) -> Result<(), NoMemory>
    ensures ok { OnOk result (post.new ≡ after_script lose reverse times post.old) }
    ensures err { OnErr result (post.new ≡ post.old) }
{
    let lose = still_loses(lose, post.faults());
    let (numbers, loses) = chosen(alloc, post.sent(), post.since(), lose, times)?;
    post.give(numbers.as_slice(), &[reverse; PLACES], loses)
}

impl Net for ScriptNet {
    ghost sent = { λ s. s.post.sent };

    ghost given = { λ s. s.post.given };

    ghost fresh = { λ s. fresh s.post };

    ghost waiting = { λ s p. waiting_at s.post p };

    ghost faults = { λ s. s.post.faults };

    ghost last_seed = { λ s. s.post.seed };

    ghost carries = { λ s epoch worker place to. script_carries s.lose to };

    fn send(&mut self, from: u8, to: u8, bytes: Vec<u8>) -> Result<(), NoMemory>
        ensures ok { OnOk result (self.new.post.sent ≡ self.old.post.sent ++ record { to = to; letter = record { from = from; bytes = bytes.items } } ∷ []) }
        ensures fresh { OnOk result (fresh self.new.post ≡ fresh self.old.post ++ record { to = to; letter = record { from = from; bytes = bytes.items } } ∷ []) }
        ensures err { OnErr result ((self.new.post.sent ≡ self.old.post.sent) × (fresh self.new.post ≡ fresh self.old.post)) }
        ensures given { self.new.post.given ≡ self.old.post.given }
        ensures waiting { (p : ℕ) → waiting_at self.new.post p ≡ waiting_at self.old.post p }
        ensures faults { self.new.post.faults ≡ self.old.post.faults }
        ensures seed { self.new.post.seed ≡ self.old.post.seed }
        ensures rules { (self.new.lose ≡ self.old.lose) × (self.new.reverse ≡ self.old.reverse) × (self.new.times ≡ self.old.times) }
    {
        self.post.send(from, to, bytes)
    }

    fn round(&mut self) -> Result<(), NoMemory>
        ensures ok { OnOk result (GivesMore self.old.post.sent (fresh self.old.post) self.old.post.faults self.new.post.faults (waiting_at self.new.post) self.old.post.given self.new.post.given) }
        ensures fresh { OnOk result (fresh self.new.post ≡ []) }
        ensures faults { OnOk result ((self.new.post.faults ≡ self.old.post.faults) ⊎ (self.new.post.faults ≡ self.old.post.faults + 1)) }
        ensures err { OnErr result ((self.new.post.given ≡ self.old.post.given) × (fresh self.new.post ≡ fresh self.old.post) × (self.new.post.faults ≡ self.old.post.faults)) }
        ensures still_waiting { OnErr result ((p : ℕ) → waiting_at self.new.post p ≡ waiting_at self.old.post p) }
        ensures sent { self.new.post.sent ≡ self.old.post.sent }
        ensures seed { self.new.post.seed ≡ self.old.post.seed }
        ensures script { OnOk result (self.new.post ≡ after_script self.old.lose self.old.reverse self.old.times self.old.post) }
        ensures rules { (self.new.lose ≡ self.old.lose) × (self.new.reverse ≡ self.old.reverse) × (self.new.times ≡ self.old.times) }
    {
        let alloc = self.post.allocator();
        script_round(alloc, &mut self.post, self.lose, self.reverse, self.times)
    }

    fn waiting(&self, to: u8) -> u32 {
        self.post.waiting(to)
    }

    fn next(&mut self, to: u8) -> Option<Letter>
        ensures first { MatchOption result ((waiting_at self.old.post to ≡ []) × (waiting_at self.new.post to ≡ [])) (λ letter. waiting_at self.old.post to ≡ letter ∷ waiting_at self.new.post to) }
        ensures others { (p : ℕ) → p ≢ to → waiting_at self.new.post p ≡ waiting_at self.old.post p }
        ensures sent { self.new.post.sent ≡ self.old.post.sent }
        ensures given { self.new.post.given ≡ self.old.post.given }
        ensures fresh { fresh self.new.post ≡ fresh self.old.post }
        ensures faults { self.new.post.faults ≡ self.old.post.faults }
        ensures seed { self.new.post.seed ≡ self.old.post.seed }
        ensures rules { (self.new.lose ≡ self.old.lose) × (self.new.reverse ≡ self.old.reverse) × (self.new.times ≡ self.old.times) }
    {
        self.post.next(to)
    }

    fn carries(&self, _epoch: u64, _worker: u32, _place: u32, to: u8) -> bool {
        match self.lose {
            Lose::Nothing => true,
            Lose::All | Lose::FirstSend => false,
            Lose::To(place) => to != place,
        }
    }

    fn disturb(&mut self, seed: u64)
        ensures seed { self.new.post.seed ≡ Some seed }
        ensures sent { self.new.post.sent ≡ self.old.post.sent }
        ensures given { self.new.post.given ≡ self.old.post.given }
        ensures fresh { fresh self.new.post ≡ fresh self.old.post }
        ensures faults { self.new.post.faults ≡ self.old.post.faults }
        ensures waiting { (p : ℕ) → waiting_at self.new.post p ≡ waiting_at self.old.post p }
        ensures rules { (self.new.lose ≡ self.old.lose) × (self.new.reverse ≡ self.old.reverse) × (self.new.times ≡ self.old.times) }
    {
        self.post.disturb(seed);
    }

    fn faults(&self) -> u64 {
        self.post.faults()
    }
}
