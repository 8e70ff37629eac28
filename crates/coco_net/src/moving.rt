//! A round that moves letters into the boxes that there are: memory is taken only where a box has to grow.

ghost use Rattle.std.specs.Prelude.{◌≡◌, ◌<◌, ◌≤◌, ◌^◌, ℕ, List, [], ◌∷◌, length, map, OnOk};
ghost use Rattle.std.specs.List.{slice_index_or};
ghost use Rattle.std.specs.VecDeque.{deque_capacity};
ghost use Rattle.coco_net.specs.declared.letter.Posted.{Posted as Sent};
ghost use Rattle.coco_net.specs.Mail.{boxed, letters_to};
ghost use Rattle.coco_net.specs.Room.{HasRoom};

use crate::{Letter, Posted};
use coco_types::NoMemory;
use std::collections::VecDeque;

/// Makes room in the box of each place for the letters to it. What waits there stays.
pub fn make_room(boxes: &mut Vec<VecDeque<Letter>>, letters: &[Posted]) -> Result<(), NoMemory>
    ensures same { map (λ q. q.items) boxes.new.items ≡ map (λ q. q.items) boxes.old.items }
    ensures room { OnOk result (HasRoom letters.now (map (λ q. deque_capacity q) boxes.new.items)) }
{
    for place in 0..boxes.len() {
        widen(boxes, place, count_to(letters, place))?;
    }
    Ok(())
}

// How many of the letters are to a place.
fn count_to(letters: &[Posted], place: usize) -> usize
    ensures { result ≡ length (letters_to place letters.now) }
{
    let mut count = 0;
    for posted in letters {
        count += usize::from(posted.to as usize == place);
    }
    count
}

// Makes room for so many letters in the box of a place. A box has fewer letters than 32 bits can count.
fn widen(boxes: &mut Vec<VecDeque<Letter>>, place: usize, count: usize) -> Result<(), NoMemory>
    ensures same { map (λ q. q.items) boxes.new.items ≡ map (λ q. q.items) boxes.old.items }
    ensures wider { (p : ℕ) → slice_index_or (map (λ q. deque_capacity q) boxes.old.items) p 0 ≤ slice_index_or (map (λ q. deque_capacity q) boxes.new.items) p 0 }
    ensures few { OnOk result (count < 2 ^ 32) }
    ensures room { OnOk result (place < length boxes.old.items → count ≤ slice_index_or (map (λ q. deque_capacity q) boxes.new.items) place 0) }
{
    if count > u32::MAX as usize {
        return Err(NoMemory);
    }
    match boxes.get_mut(place) {
        Some(letters) => Ok(letters.reserve(count)?),
        None => Ok(()),
    }
}

/// Moves the letters into the boxes of their places, in order. What waited there goes.
pub fn move_in(boxes: &mut Vec<VecDeque<Letter>>, letters: &mut Vec<Posted>)
    requires nine { length boxes.old.items ≡ 9 }
    requires room { HasRoom letters.old.items (map (λ q. deque_capacity q) boxes.old.items) }
    ensures boxes { map (λ q. q.items) boxes.new.items ≡ boxed [] letters.old.items }
    ensures letters { letters.new.items ≡ [] }
{
    empty(boxes);
    'letters: while let Some(posted) = letters.pop() {
        put_first(boxes, posted);
    }
}

// Empties the boxes, whose room stays.
fn empty(boxes: &mut [VecDeque<Letter>])
    ensures items { map (λ q. q.items) boxes.new ≡ map (λ ls. []) (map (λ q. q.items) boxes.old) }
    ensures room { map (λ q. deque_capacity q) boxes.new ≡ map (λ q. deque_capacity q) boxes.old }
{
    for letters in boxes.iter_mut() {
        letters.clear();
    }
}

// Puts a letter in front of those in the box of its place.
fn put_first(boxes: &mut Vec<VecDeque<Letter>>, posted: Posted)
    requires { posted.to < length boxes.old.items → length (slice_index_or (map (λ q. q.items) boxes.old.items) posted.to []) < slice_index_or (map (λ q. deque_capacity q) boxes.old.items) posted.to 0 }
    ensures boxes { (these : List Sent) → map (λ q. q.items) boxes.old.items ≡ boxed [] these → map (λ q. q.items) boxes.new.items ≡ boxed [] (posted ∷ these) }
    ensures room { map (λ q. deque_capacity q) boxes.new.items ≡ map (λ q. deque_capacity q) boxes.old.items }
{
    match boxes.get_mut(posted.to as usize) {
        Some(letters) => letters.push_front_reserved(posted.letter),
        None => {}
    }
}
