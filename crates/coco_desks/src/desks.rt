//! Machines behind locks whose passes go to the workers and come back.

ghost use Rattle.std.specs.Prelude.{◌≡◌, ◌<◌, All, vec_len, IfOk, IfErr};
ghost use Rattle.coco_seen.specs.Notes.{Lock};
ghost use Rattle.coco_desks.specs.Gains.{AreOf};
ghost use Rattle.coco_desks.specs.Desks.{AreBackBy, AreEmpty, HasRoom, IsOpen};

use crate::locks::{EndedLocks, Started, close_all, start_all};
use crate::room::rows_for;
use crate::rows::turn;
use coco_journaled::{Journaled, Pass, Room};
use coco_packs::Packs;
use coco_types::NoMemory;
use std::alloc::Global;

/// Locks whose passes are with the workers, and the room for all that comes back.
#[derive(Drop)]
pub struct Desk<M: Packs> {
    pub locks: Vec<Journaled<M>>,
    pub trays: Vec<Vec<Pass<M>>>,
    pub back: Vec<Vec<Pass<M>>>,
    pub ended: EndedLocks<M>,
}

/// Puts each machine behind a lock, and deals the passes: a row for each worker, with one pass of each lock. Out of
/// memory, the machines come back as they were.
pub fn open<M: Packs + Drop>(
    alloc: Global,
    machines: Vec<M>,
    workers: u32,
    rooms: &mut Vec<Room<M>>,
) -> Result<(Desk<M>, Vec<Vec<Pass<M>>>), Vec<M>>
    requires { 0 < workers }
    ensures open { IfOk result (λ r. IsOpen workers machines.items r.0.locks r.0.trays r.0.back r.0.ended.machines r.0.ended.journals r.1.items) }
    ensures same { IfErr result (λ back. back.items ≡ machines.items) }
{
    let count = machines.len();
    let Ok((mut rows, back, ended)) = room_for(alloc, workers, count) else {
        return Err(machines);
    };
    let Started { locks, mut trays } = start_all(alloc, machines, workers, rooms)?;
    turn(trays.as_mut_slice(), rows.as_mut_slice());
    let desk = Desk {
        locks,
        trays,
        back,
        ended,
    };
    Ok((desk, rows))
}

// Rows for so many workers, each with room for a pass of each lock, and room for what comes back.
fn room_for<M: Packs + Drop>(
    alloc: Global,
    workers: u32,
    count: usize,
) -> Result<(Vec<Vec<Pass<M>>>, Vec<Vec<Pass<M>>>, EndedLocks<M>), NoMemory>
    ensures count { IfOk result (λ r. vec_len r.0 ≡ workers) }
    ensures rows { IfOk result (λ r. All (λ row. HasRoom count row) r.0.items) }
    ensures back { IfOk result (λ r. HasRoom workers r.1) }
    ensures machines { IfOk result (λ r. HasRoom count r.2.machines) }
    ensures journals { IfOk result (λ r. HasRoom count r.2.journals) }
{
    let ended = EndedLocks::with_room(alloc, count)?;
    let (rows, back) = rows_for(alloc, workers, count)?;
    Ok((rows, back, ended))
}

/// Ends the locks, once the workers' rows are back. No memory is taken.
pub fn close<M: Packs + Drop>(desk: Desk<M>) -> EndedLocks<M>
    requires rows { All (λ row. AreOf desk.locks.items row.items) desk.back.items }
    requires notes { All (λ (lock : Lock). lock.notes ≡ vec_len desk.back) desk.locks.items }
    requires trays { vec_len desk.trays ≡ vec_len desk.locks }
    requires empty { AreEmpty (vec_len desk.back) desk.trays.items }
    requires machines { HasRoom (vec_len desk.locks) desk.ended.machines }
    requires journals { HasRoom (vec_len desk.locks) desk.ended.journals }
    ensures { AreBackBy M.answer_to M.state_after desk.back.items (vec_len desk.locks) result.machines.items result.journals.items }
{
    let Desk {
        locks,
        mut trays,
        mut back,
        mut ended,
    } = desk;
    turn(back.as_mut_slice(), trays.as_mut_slice());
    close_all(locks, trays, &mut ended);
    ended
}
