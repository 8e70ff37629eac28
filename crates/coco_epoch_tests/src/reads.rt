//! Two threads that read the rows of one shard behind the lock.

ghost use Rattle.std.specs.Prelude.{◌≡◌, ◌<◌, length, All};

use coco_journaled::{Closed, Journal, Journaled, Pass, Room};
use coco_shard::{Answer, Ask, Op, Shard};
use coco_types::{AttemptId, Key};
use std::alloc::Global;
use std::sync::Wait;
use std::thread;
use std::thread::Threads;

fn read_of(row: u32) -> Ask {
    Ask {
        by: AttemptId {
            worker: 0,
            number: 0,
        },
        op: Op::Read(Key {
            table: 0,
            row: u64::from(row),
        }),
    }
}

// Reads rows 0 to 999, or as many as there is memory for.
fn read_all(rt: &impl Wait, shard: &Journaled<Shard>, pass: &mut Pass<Shard>)
    requires { pass.old.lock ≡ shard.now.id }
    ensures { pass.new.lock ≡ pass.old.lock }
{
    let mut answer = Answer::Released;
    for row in 0..1000 {
        let ask = read_of(row);
        if shard.step_lent(rt, pass, &ask, &mut answer).is_err() {
            return;
        }
    }
}

// Reads by each pass in a thread of its own.
fn read_in_threads<R: Threads + Wait + Sync>(
    rt: &R,
    shard: &Journaled<Shard>,
    passes: &mut [Pass<Shard>],
)
    requires some { 0 < length passes.old }
    requires own { All (λ pass. pass.lock ≡ shard.now.id) passes.old }
    ensures len { length passes.new ≡ length passes.old }
    ensures own { All (λ pass. pass.lock ≡ shard.now.id) passes.new }
{
    let threads = passes.len();
    thread::for_each_mut(
        rt,
        passes,
        threads,
        &|_, pass| { read_all(rt, shard, pass) },
    );
}

// Whether the pass made 1000 calls, each at a place further on than the one before it.
fn is_at_its_end(pass: &Pass<Shard>) -> bool {
    let mut next = 0;
    for place in pass.places() {
        if *place < next {
            return false;
        }
        next = place.saturating_add(1);
    }
    pass.places().len() == 1000
}

// Whether the entries of the pass read rows 0 to 999, in order.
fn reads_each_row_once(journal: &Journal<Shard>, pass: u32) -> bool {
    let mut next: u32 = 0;
    for place in 0..journal.len() {
        let Some(entry) = journal.get(place) else {
            return false;
        };
        if entry.pass == pass {
            if entry.ask != read_of(next) {
                return false;
            }
            next = next.wrapping_add(1);
        }
    }
    next == 1000
}

// What the lock leaves, where two threads read the shard to their ends. None where memory is short.
fn read_by_two<R: Threads + Wait + Sync>(rt: &R, alloc: Global) -> Option<Closed<Shard>> {
    let Ok(room) = Room::new(alloc, 0, 0) else {
        return None;
    };
    let Ok((shard, mut passes)) = Journaled::start(alloc, Shard::new(alloc), 2, room) else {
        return None;
    };
    read_in_threads(rt, &shard, passes.as_mut_slice());
    let is_read = passes.iter().all(is_at_its_end);
    let closed = shard.close(passes);
    if is_read { Some(closed) } else { None }
}

// Whether the journal has the reads of both passes, which leave no time behind.
fn is_whole(closed: &Closed<Shard>) -> bool {
    let journal = &closed.journal;
    let is_read = reads_each_row_once(journal, 0) && reads_each_row_once(journal, 1);
    journal.len() == 2000 && is_read && closed.machine.greatest_time() == 0
}

#[test]
fn two_threads_read_1000_rows_each_of_one_shard(rt: HostRuntime) {
    let is_well = match read_by_two(&rt, rt.alloc()) {
        Some(closed) => is_whole(&closed),
        None => false,
    };
    assert!(rt; is_well);
}
