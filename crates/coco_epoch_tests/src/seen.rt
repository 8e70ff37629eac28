//! A lock round a list of numbers that one thread holds while another comes to it.

ghost use Rattle.std.specs.Prelude.{◌≡◌, false, true, Some};

use coco_seen::{Note, Seen, Stores};
use std::rt::Clock;
use std::sync::Wait;
use std::sync::atomic::AtomicBool;
use std::sync::atomic::Ordering::SeqCst;
use std::test::Fail;
use std::thread;
use std::thread::Threads;
use std::time::Duration;

#[derive(Drop)]
struct Pile {
    items: Vec<u32>,
}

impl Stores for Pile {
    type Entry = u32;

    type Root = ();

    ghost entries = { λ pile. pile.items.items };

    ghost comes_from = { λ _ _. Unit {0} };
}

// Appends a number to the pile, where there is memory for it.
fn put(rt: &impl Wait, seen: &Seen<Pile>, note: &mut Note<Pile>, number: u32)
    requires lock { note.old.lock ≡ seen.now.id }
    requires free { note.old.holds ≡ false }
    ensures lock { note.new.lock ≡ note.old.lock }
    ensures free { note.new.holds ≡ false }
{
    let mut pile = seen.take(rt, note);
    if pile.items.len() < 1000 && pile.items.push(number).is_ok() {
        seen.append(note, number);
    }
    seen.give(note, pile);
}

// Gives the pile back a while after another thread has come to it, which sleeps by then.
fn give_to_a_sleeper<R: Wait + Clock>(
    rt: &R,
    seen: &Seen<Pile>,
    comes: &AtomicBool,
    mut note: Note<Pile>,
    pile: Pile,
) -> Note<Pile>
    requires lock { note.lock ≡ seen.now.id }
    requires holds { note.holds ≡ true }
    requires list { pile.items.items ≡ note.list }
    requires from { (root : Unit {0}) × (note.root ≡ Some root) }
    ensures lock { result.lock ≡ note.lock }
    ensures free { result.holds ≡ false }
{
    for _ in rt.forever() {
        if comes.load(SeqCst) {
            break;
        }
        thread::yield_now();
    }
    thread::sleep(rt, Duration::from_millis(20));
    seen.give(&mut note, pile);
    note
}

// Comes to the pile, puts the number, and gives the note back.
fn put_once(
    rt: &impl Wait,
    seen: &Seen<Pile>,
    comes: &AtomicBool,
    mut note: Note<Pile>,
    number: u32,
) -> Note<Pile>
    requires lock { note.lock ≡ seen.now.id }
    requires free { note.holds ≡ false }
    ensures lock { result.lock ≡ note.lock }
    ensures free { result.holds ≡ false }
{
    comes.store(true, SeqCst);
    put(rt, seen, &mut note, number);
    note
}

// The first note takes the pile, the second comes to it while it is taken, and is woken once it is given back.
fn taken_while_another_comes<R: Threads + Wait + Clock + Sync>(
    rt: &R,
    seen: &Seen<Pile>,
    comes: &AtomicBool,
    mut first: Note<Pile>,
    second: Note<Pile>,
) -> (Note<Pile>, Note<Pile>)
    requires first { (first.lock ≡ seen.now.id) × (first.holds ≡ false) }
    requires second { (second.lock ≡ seen.now.id) × (second.holds ≡ false) }
    ensures first { (result.0.lock ≡ seen.now.id) × (result.0.holds ≡ false) }
    ensures second { (result.1.lock ≡ seen.now.id) × (result.1.holds ≡ false) }
{
    let pile = seen.take(rt, &mut first);
    thread::join(
        rt,
        move || -> Note<Pile>
            requires lock { first.lock ≡ seen.now.id }
            requires holds { first.holds ≡ true }
            requires list { pile.items.items ≡ first.list }
            requires from { (root : Unit {0}) × (first.root ≡ Some root) }
            ensures { (result.lock ≡ seen.entry.now.id) × (result.holds ≡ false) }
        { give_to_a_sleeper(rt, seen, comes, first, pile) },
        move || -> Note<Pile>
            requires { (second.lock ≡ seen.now.id) × (second.holds ≡ false) }
            ensures { (result.lock ≡ seen.entry.now.id) × (result.holds ≡ false) }
        { put_once(rt, seen, comes, second, 7) },
    )
}

#[test]
fn a_thread_sleeps_at_a_taken_lock_and_is_woken(rt: HostRuntime) -> Result<(), Fail> {
    let pile = Pile {
        items: Vec::new(rt.alloc()),
    };
    let Ok((seen, mut notes)) = Seen::make(rt.alloc(), pile, 2) else {
        return Err(Fail::from("no memory"));
    };
    let (Some(second), Some(first)) = (notes.pop(), notes.pop()) else {
        return Err(Fail::from("no notes"));
    };
    let comes = AtomicBool::new(false);
    let (mut first, _second) = taken_while_another_comes(&rt, &seen, &comes, first, second);
    let pile = seen.take(&rt, &mut first);
    assert!(rt; pile.items.as_slice() == [7].as_slice());
    Ok(())
}
