//! A net that disturbs by a generator of random words.

ghost use Rattle.std.specs.Prelude.{◌≢◌, ◌∷◌, MatchOption, ◌≡◌, ◌+◌, ◌≤◌, ◌⊎◌, ℕ, None, List, [], ◌<◌, ◌-◌, ◌^◌, ◌%◌, ◌==◌, ◌&&◌, ◌++◌, nat_lt, map, Bool, Some, All as Each, IfOk, if◌then◌else◌, length, OnOk, OnErr};
ghost use Rattle.coco_net.specs.Giving.{GivesMore};
ghost use Rattle.coco_net.specs.Mail.{MailState, fresh, no_mail, picked, waiting_at};
ghost use Rattle.std.specs.List.{list_any};
ghost use Rattle.rand_pcg.specs.Lcg.{Lcg};
ghost use Rattle.rand_pcg.specs.Pcg.{pcg32_of_seed};
ghost use Rattle.rand_core.specs.Pcg32Seed.{pcg32_seed};
ghost use Rattle.coco_net.specs.Rounds.{after_places, after_quiet, after_seeded, after_words, by_words, loses_by, next_generator, place_words, seed_carries, times_by, words};

use crate::fresh_post::FreshPost;
use crate::post::{PLACES, either, numbers_from, push_times};
use crate::{Letter, Net, Posted};
use coco_types::NoMemory;
use rand_core::SeedableRng;
use rand_core::utils::NextWord;
use rand_pcg::Lcg64Xsh32;
use std::alloc::Global;

/// Quiet until it is disturbed. Then each letter has a word of the generator, by which it is lost, given twice or
/// once, and each place one, by which its letters are turned round. A round that loses a letter counts a fault;
/// where the count is at its end nothing is lost.
#[derive(Drop)]
pub struct SeededNet {
    post: FreshPost,
    words: Option<Lcg64Xsh32>,
}

impl SeededNet {
    pub fn new(alloc: Global) -> SeededNet
        ensures post { result.post ≡ no_mail }
        ensures quiet { result.words ≡ None }
    {
        SeededNet {
            post: FreshPost::new(alloc),
            words: None,
        }
    }
}

// How often a letter is given, by its word.
fn times_by(may_lose: bool, word: u32) -> u8
    ensures { result ≡ times_by may_lose word }
{
    match word % 8 {
        0 if may_lose => 0,
        1 => 2,
        _ => 1,
    }
}

// Whether a letter is lost, by its word.
fn is_lost(may_lose: bool, word: u32) -> bool
    ensures { result ≡ (may_lose && loses_by word) }
{
    may_lose && word % 8 == 0
}

// The numbers of the letters that are given, and whether one is lost, by a word for each.
fn chosen(
    alloc: Global,
    letters: &[Posted],
    may_lose: bool,
    generator: &mut Lcg64Xsh32,
) -> Result<(Vec<usize>, bool), NoMemory>
    ensures within { IfOk result (λ r. Each (λ n. n < length letters.now) r.0.items) }
    ensures given { IfOk result (λ r. picked letters.now r.0.items ≡ by_words may_lose (words (length letters.now) generator.old) letters.now) }
    ensures loses { IfOk result (λ r. r.1 ≡ (may_lose && list_any loses_by (words (length letters.now) generator.old))) }
    ensures words { OnOk result (generator.new ≡ after_words (length letters.now) generator.old) }
{
    let mut numbers = Vec::new(alloc);
    let mut loses = false;
    for n in 0..letters.len() {
        let word = generator.next_word();
        push_times(&mut numbers, n, times_by(may_lose, word))?;
        loses = either(loses, is_lost(may_lose, word));
    }
    Ok((numbers, loses))
}

// Whether the letters of each place are turned round, by a word for each.
fn turns(alloc: Global, generator: &mut Lcg64Xsh32) -> Result<Vec<bool>, NoMemory>
    ensures turns { IfOk result (λ turns. turns.items ≡ map (λ w. w % 2 == 1) (place_words generator.old)) }
    ensures words { OnOk result (generator.new ≡ after_places generator.old) }
{
    let mut turns = Vec::new(alloc);
    for _place in 0..PLACES {
        turns.push(generator.next_word() % 2 == 1)?;
    }
    Ok(turns)
}

// A round in which every letter sent since the last one is given once.
fn quiet_round(alloc: Global, post: &mut FreshPost) -> Result<(), NoMemory>
    ensures ok { OnOk result (post.new ≡ after_quiet post.old) }
    ensures err { OnErr result (post.new ≡ post.old) }
{
    if post.has_boxes() {
        return post.give_all();
    }
    let numbers = numbers_from(alloc, post.fresh(), 0)?;
    post.give(numbers.as_slice(), &[], false)
}

// A count of faults at its end loses no more.
fn may_lose(faults: u64) -> bool
    ensures { result ≡ nat_lt faults (2 ^ 64 - 1) }
{
    faults < u64::MAX
}

// A disturbed round, and the generator after it.
fn seeded_round(
    alloc: Global,
    post: &mut FreshPost,
    generator: &Lcg64Xsh32,
) -> Result<Lcg64Xsh32, NoMemory>
    ensures ok { OnOk result (post.new ≡ after_seeded generator.now post.old) }
    ensures words { IfOk result (λ g. g ≡ next_generator generator.now post.old) }
    ensures err { OnErr result (post.new ≡ post.old) }
{
    let mut generator = generator.clone()?;
    let may_lose = may_lose(post.faults());
    let (numbers, loses) = chosen(alloc, post.fresh(), may_lose, &mut generator)?;
    let turns = turns(alloc, &mut generator)?;
    post.give(numbers.as_slice(), turns.as_slice(), loses)?;
    Ok(generator)
}

// Whether the wrapping sum is a multiple of 8.
fn is_multiple_of_8(seed: u64, epoch: u64, worker: u32, place: u32, to: u8) -> bool
    ensures { result ≡ ((seed + epoch + worker + place + to) % 2 ^ 64 % 8 == 0) }
{
    let sum = seed
        .wrapping_add(epoch)
        .wrapping_add(u64::from(worker))
        .wrapping_add(u64::from(place))
        .wrapping_add(u64::from(to));
    sum % 8 == 0
}

impl Net for SeededNet {
    ghost sent = { λ s. s.post.sent };

    ghost given = { λ s. s.post.given };

    ghost fresh = { λ s. fresh s.post };

    ghost waiting = { λ s p. waiting_at s.post p };

    ghost faults = { λ s. s.post.faults };

    ghost last_seed = { λ s. s.post.seed };

    ghost carries = { λ s epoch worker place to. seed_carries s.post.seed epoch worker place to };

    fn send(&mut self, from: u8, to: u8, bytes: Vec<u8>) -> Result<(), NoMemory>
        ensures ok { OnOk result (self.new.post.sent ≡ self.old.post.sent ++ record { to = to; letter = record { from = from; bytes = bytes.items } } ∷ []) }
        ensures fresh { OnOk result (fresh self.new.post ≡ fresh self.old.post ++ record { to = to; letter = record { from = from; bytes = bytes.items } } ∷ []) }
        ensures err { OnErr result ((self.new.post.sent ≡ self.old.post.sent) × (fresh self.new.post ≡ fresh self.old.post)) }
        ensures given { self.new.post.given ≡ self.old.post.given }
        ensures waiting { (p : ℕ) → waiting_at self.new.post p ≡ waiting_at self.old.post p }
        ensures faults { self.new.post.faults ≡ self.old.post.faults }
        ensures seed { self.new.post.seed ≡ self.old.post.seed }
        ensures words { self.new.words ≡ self.old.words }
    {
        self.post.send(from, to, bytes)
    }

    fn round(&mut self) -> Result<(), NoMemory>
        ensures ok { OnOk result (GivesMore self.old.post.sent (fresh self.old.post) self.old.post.faults self.new.post.faults (waiting_at self.new.post) self.old.post.given self.new.post.given) }
        ensures fresh { OnOk result (fresh self.new.post ≡ []) }
        ensures faults { OnOk result ((self.new.post.faults ≡ self.old.post.faults) ⊎ (self.new.post.faults ≡ self.old.post.faults + 1)) }
        ensures err { OnErr result ((self.new.post.given ≡ self.old.post.given) × (fresh self.new.post ≡ fresh self.old.post) × (self.new.post.faults ≡ self.old.post.faults)) }
        ensures still_waiting { OnErr result ((p : ℕ) → waiting_at self.new.post p ≡ waiting_at self.old.post p) }
        ensures sent { self.new.post.sent ≡ self.old.post.sent }
        ensures seed { self.new.post.seed ≡ self.old.post.seed }
        ensures quiet { OnOk result (self.old.words ≡ None → (self.new.post ≡ after_quiet self.old.post) × (self.new.words ≡ None)) }
        ensures disturbed { OnOk result ((g : Lcg) → self.old.words ≡ Some g → (self.new.post ≡ after_seeded g self.old.post) × (self.new.words ≡ Some (next_generator g self.old.post))) }
        ensures words { OnErr result (self.new.words ≡ self.old.words) }
    {
        let alloc = self.post.allocator();
        match &self.words {
            None => quiet_round(alloc, &mut self.post),
            Some(generator) => {
                let words = seeded_round(alloc, &mut self.post, generator)?;
                self.words = Some(words);
                Ok(())
            }
        }
    }

    fn waiting(&self, to: u8) -> u32 {
        self.post.waiting(to)
    }

    fn next(&mut self, to: u8) -> Option<Letter>
        ensures first { MatchOption result ((waiting_at self.old.post to ≡ []) × (waiting_at self.new.post to ≡ [])) (λ letter. waiting_at self.old.post to ≡ letter ∷ waiting_at self.new.post to) }
        ensures others { (p : ℕ) → p ≢ to → waiting_at self.new.post p ≡ waiting_at self.old.post p }
        ensures sent { self.new.post.sent ≡ self.old.post.sent }
        ensures given { self.new.post.given ≡ self.old.post.given }
        ensures fresh { fresh self.new.post ≡ fresh self.old.post }
        ensures faults { self.new.post.faults ≡ self.old.post.faults }
        ensures seed { self.new.post.seed ≡ self.old.post.seed }
        ensures words { self.new.words ≡ self.old.words }
    {
        self.post.next(to)
    }

    fn carries(&self, epoch: u64, worker: u32, place: u32, to: u8) -> bool {
        match self.post.seed() {
            None => true,
            Some(seed) => !is_multiple_of_8(seed, epoch, worker, place, to),
        }
    }

    fn disturb(&mut self, seed: u64)
        ensures seed { self.new.post.seed ≡ Some seed }
        ensures sent { self.new.post.sent ≡ self.old.post.sent }
        ensures given { self.new.post.given ≡ self.old.post.given }
        ensures fresh { fresh self.new.post ≡ fresh self.old.post }
        ensures faults { self.new.post.faults ≡ self.old.post.faults }
        ensures waiting { (p : ℕ) → waiting_at self.new.post p ≡ waiting_at self.old.post p }
        ensures words { self.new.words ≡ Some (pcg32_of_seed (pcg32_seed 16 seed)) }
    {
        self.post.disturb(seed);
        self.words = Some(Lcg64Xsh32::seed_from_u64(seed));
    }

    fn faults(&self) -> u64 {
        self.post.faults()
    }
}
