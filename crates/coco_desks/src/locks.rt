//! The locks of an epoch: machines behind them, and what they close with.

ghost use Rattle.std.specs.Prelude.{◌≡◌, ◌+◌, ◌<◌, ◌≤◌, ◌++◌, ◌∷◌, [], ℕ, List, vec_len, vec_capacity, IfOk, IfErr};
ghost use Rattle.std.specs.Vec.Iter.{into_iter_items};
ghost use Rattle.coco_desks.specs.Desks.{HasRoom};
ghost use Rattle.coco_desks.specs.Locking.{AreBack, AreEnded, AreStarted, IsStarted};
ghost use Rattle.coco_desks.specs.Rows.{GainsOne};

use crate::room::two_lists;
use coco_journaled::{Closed, Journal, Journaled, Pass, Room};
use coco_packs::Packs;
use coco_types::NoMemory;
use std::alloc::Global;
use std::vec::IntoIter;

/// Locks, and the passes of each in a tray of its own.
#[derive(Drop)]
pub struct Started<M: Packs> {
    pub locks: Vec<Journaled<M>>,
    pub trays: Vec<Vec<Pass<M>>>,
}

/// What locks leave: the machines with their journals and the lists of their passes, in the locks' order.
#[derive(Drop)]
pub struct EndedLocks<M: Packs> {
    pub machines: Vec<M>,
    pub journals: Vec<Journal<M>>,
    pub lists: Vec<Vec<Vec<u64>>>,
}

impl<M: Packs> EndedLocks<M> {
    // Room for what so many locks leave.
    pub(crate) fn with_room(alloc: Global, count: usize) -> Result<EndedLocks<M>, NoMemory>
        ensures machines { IfOk result (λ ended. HasRoom count ended.machines) }
        ensures journals { IfOk result (λ ended. HasRoom count ended.journals) }
    {
        let lists = Vec::with_capacity(alloc, count)?;
        let Ok((machines, journals)) = two_lists(alloc, count) else {
            lists.destroy_empty();
            return Err(NoMemory);
        };
        Ok(EndedLocks {
            machines,
            journals,
            lists,
        })
    }
}

/// Ends all locks, once the passes of each are back. There is room for what they leave, and no memory is taken.
pub fn close_all<M: Packs + Drop>(
    locks: Vec<Journaled<M>>,
    trays: Vec<Vec<Pass<M>>>,
    ended: &mut EndedLocks<M>,
)
    requires back { AreBack locks.items trays.items }
    requires machines { vec_len ended.old.machines + vec_len locks ≤ vec_capacity ended.old.machines }
    requires journals { vec_len ended.old.journals + vec_len locks ≤ vec_capacity ended.old.journals }
    ensures room { vec_capacity ended.new.machines ≡ vec_capacity ended.old.machines }
    ensures count { vec_len ended.new.machines ≡ vec_len ended.old.machines + vec_len locks }
    ensures ended { AreEnded M.answer_to M.state_after trays.items ended.old.machines.items ended.old.journals.items ended.new.machines.items ended.new.journals.items }
{
    let mut trays = trays.into_iter();
    for lock in locks {
        let Some(tray) = trays.next() else {
            unreachable!()
        };
        keep_closed(lock.close(tray), ended);
    }
}

// Puts what a lock left behind what the others left.
fn keep_closed<M: Packs + Drop>(closed: Closed<M>, ended: &mut EndedLocks<M>)
    requires machines { vec_len ended.old.machines < vec_capacity ended.old.machines }
    requires journals { vec_len ended.old.journals < vec_capacity ended.old.journals }
    ensures machines { GainsOne closed.machine ended.old.machines ended.new.machines }
    ensures journals { GainsOne closed.journal ended.old.journals ended.new.journals }
{
    let Closed {
        machine,
        journal,
        lists,
    } = closed;
    ended.machines.push_reserved(machine);
    ended.journals.push_reserved(journal);
    // Only the next locks' room is lost where there is none.
    let _ = ended.lists.push(lists);
}

/// Puts each machine behind a lock that has a pass for each worker. The last locks begin with these rooms, and where
/// there are fewer the others with none. Out of memory, the machines come back as they were.
pub fn start_all<M: Packs + Drop>(
    alloc: Global,
    machines: Vec<M>,
    workers: u32,
    rooms: &mut Vec<Room<M>>,
) -> Result<Started<M>, Vec<M>>
    requires { 0 < workers }
    ensures started { IfOk result (λ started. AreStarted workers machines.items started.locks.items started.trays.items) }
    ensures back { IfErr result (λ back. back.items ≡ machines.items) }
{
    let Ok((mut started, ended)) = room_for(alloc, machines.len()) else {
        return Err(machines);
    };
    let mut rest = machines.into_iter();
    while let Some(machine) = rest.next() {
        match start_one(alloc, machine, workers, rooms) {
            Ok((lock, tray)) => {
                started.locks.push_reserved(lock);
                started.trays.push_reserved(tray);
            }
            Err(machine) => return Err(take_back(started, ended, machine, rest)),
        }
    }
    Ok(started)
}

// Room for so many locks, and for what they leave.
fn room_for<M: Packs + Drop>(
    alloc: Global,
    count: usize,
) -> Result<(Started<M>, EndedLocks<M>), NoMemory>
    ensures locks { IfOk result (λ r. HasRoom count r.0.locks) }
    ensures trays { IfOk result (λ r. HasRoom count r.0.trays) }
    ensures machines { IfOk result (λ r. HasRoom count r.1.machines) }
    ensures journals { IfOk result (λ r. HasRoom count r.1.journals) }
{
    let (locks, trays) = two_lists(alloc, count)?;
    let Ok(ended) = EndedLocks::with_room(alloc, count) else {
        locks.destroy_empty();
        trays.destroy_empty();
        return Err(NoMemory);
    };
    Ok((Started { locks, trays }, ended))
}

// One machine behind a lock, or the machine where there is no memory.
fn start_one<M: Packs + Drop>(
    alloc: Global,
    machine: M,
    workers: u32,
    rooms: &mut Vec<Room<M>>,
) -> Result<(Journaled<M>, Vec<Pass<M>>), M>
    requires { 0 < workers }
    ensures started { IfOk result (λ r. IsStarted workers machine r.0 r.1) }
    ensures back { IfErr result (λ back. back ≡ machine) }
{
    let room = match rooms.pop() {
        Some(room) => room,
        None => match Room::new(alloc, 0, 0) {
            Ok(room) => room,
            Err(NoMemory) => return Err(machine),
        },
    };
    match Journaled::start(alloc, machine, workers, room) {
        Ok(started) => Ok(started),
        Err((machine, NoMemory)) => Err(machine),
    }
}

// The machines of locks by which nothing was done, then this one and the rest.
fn take_back<M: Packs + Drop>(
    started: Started<M>,
    mut ended: EndedLocks<M>,
    machine: M,
    rest: IntoIter<M>,
) -> Vec<M>
    requires started { (workers : ℕ) × (0 < workers) × (firsts : List M) × AreStarted workers firsts started.locks.items started.trays.items }
    requires none { ended.machines.items ≡ [] }
    requires room { vec_len ended.machines + vec_len started.locks + 1 + rest.rest.len ≤ vec_capacity ended.machines }
    requires journals { vec_len ended.journals + vec_len started.locks ≤ vec_capacity ended.journals }
    ensures { (workers : ℕ) (firsts : List M) → 0 < workers → AreStarted workers firsts started.locks.items started.trays.items → result.items ≡ firsts ++ machine ∷ into_iter_items rest }
{
    let Started { locks, trays } = started;
    close_all(locks, trays, &mut ended);
    ended.machines.push_reserved(machine);
    for machine in rest {
        ended.machines.push_reserved(machine);
    }
    ended.machines
}
