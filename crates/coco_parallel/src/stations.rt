//! The workers' stations: manned from rows of passes and seats, and dismissed.

ghost use Rattle.std.specs.Prelude.{◌≡◌, ◌≤◌, ◌<◌, ◌^◌, [], All, map, true, vec_len, vec_capacity};
ghost use Rattle.coco_desks.specs.Desks.{HasRoom};
ghost use Rattle.coco_parallel.specs.Stations.{station_of, stations_of};
ghost use Rattle.coco_parallel.specs.declared.workers.Station.{Station as Manned};

use crate::rooms::Rooms;
use crate::workers::Station;
use coco_claim::ClaimSeat;
use coco_copy::CopyTable;
use coco_gate::Passes;
use coco_journaled::Pass;
use coco_occ::{ScriptRooms, Transcript};
use coco_shard::Shard;
use coco_types::Pieces;
use coco_worker::{Slot, Tail};
use std::alloc::Global;

/// What workers leave besides their passes and seats, worker after worker: what they did, and what is left of the rooms
/// that they began with.
#[derive(Drop)]
pub struct Left {
    pub scripts: Vec<ScriptRooms>,
    pub transcripts: Vec<Transcript>,
    pub pieces: Vec<Pieces>,
}

/// A station for each worker, with its rows and its seat, and with the rooms that were kept for it. There is room for
/// them, and no memory is taken.
pub fn man(
    alloc: Global,
    rows: Vec<Vec<Pass<Shard>>>,
    copy_rows: Vec<Vec<Pass<CopyTable>>>,
    seats: Vec<ClaimSeat>,
    mut stations: Vec<Station>,
    rooms: &mut Rooms,
) -> Vec<Station>
    requires rows { vec_len rows ≡ vec_len seats }
    requires copy_rows { vec_len copy_rows ≡ vec_len seats }
    requires few { vec_len seats < 2 ^ 32 }
    requires room { HasRoom (vec_len seats) stations }
    ensures { result.items ≡ stations_of 0 rows.items copy_rows.items seats.items }
{
    let mut rows = rows.into_iter();
    let mut copy_rows = copy_rows.into_iter();
    let (mut transcripts, mut scripts) = rooms.of_workers(alloc);
    let mut worker = 0;
    for seat in seats {
        let (Some(passes), Some(copy_passes)) = (rows.next(), copy_rows.next()) else {
            unreachable!()
        };
        let transcript = empty_transcript(alloc, scripts.next());
        let rooms = rooms_of(alloc, transcripts.next());
        let station = station(alloc, worker, passes, copy_passes, seat, transcript, rooms);
        stations.push_reserved(station);
        worker += 1;
    }
    stations
}

// A transcript of nothing, in this room where there is one.
fn empty_transcript(alloc: Global, room: Option<ScriptRooms>) -> Transcript
    ensures { result ≡ [] }
{
    match room {
        Some(room) => room.into_transcript(),
        None => Transcript::new(alloc),
    }
}

// The rooms of the scripts of a transcript, where there is one.
fn rooms_of(alloc: Global, transcript: Option<Transcript>) -> ScriptRooms {
    match transcript {
        Some(transcript) => ScriptRooms::of(transcript),
        None => ScriptRooms::new(alloc),
    }
}

// A station at which nothing is done yet.
fn station(
    alloc: Global,
    worker: u32,
    passes: Vec<Pass<Shard>>,
    copy_passes: Vec<Pass<CopyTable>>,
    seat: ClaimSeat,
    transcript: Transcript,
    rooms: ScriptRooms,
) -> Station
    requires { transcript ≡ [] }
    ensures { result ≡ station_of worker passes copy_passes seat }
{
    let slot = Slot {
        worker,
        passes,
        copy_passes,
        seat,
        rooms,
        transcript,
        pieces: Pieces::new(alloc),
        tail: Tail::new(alloc),
        passed: Passes::new(),
    };
    Station {
        slot,
        is_done: false,
    }
}

/// Whether each worker has worked off all that it drew.
pub fn all_done(stations: &[Station]) -> bool
    ensures { result ≡ true → All (λ (s : Manned). s.is_done ≡ true) stations.now }
{
    stations.iter().all(|station| station.is_done)
}

/// Takes the stations apart. There is room for all that is in them, and no memory is taken.
pub fn dismiss(
    stations: Vec<Station>,
    rows: &mut Vec<Vec<Pass<Shard>>>,
    copy_rows: &mut Vec<Vec<Pass<CopyTable>>>,
    seats: &mut Vec<ClaimSeat>,
    left: &mut Left,
)
    requires rows { HasRoom (vec_len stations) rows.old }
    requires copy_rows { HasRoom (vec_len stations) copy_rows.old }
    requires seats { HasRoom (vec_len stations) seats.old }
    requires scripts { HasRoom (vec_len stations) left.old.scripts }
    requires transcripts { HasRoom (vec_len stations) left.old.transcripts }
    requires pieces { HasRoom (vec_len stations) left.old.pieces }
    ensures rows { rows.new.items ≡ map (λ (s : Manned). s.slot.passes) stations.items }
    ensures copy_rows { copy_rows.new.items ≡ map (λ (s : Manned). s.slot.copy_passes) stations.items }
    ensures seats { seats.new.items ≡ map (λ (s : Manned). s.slot.seat) stations.items }
    ensures transcripts { left.new.transcripts.items ≡ map (λ (s : Manned). s.slot.transcript) stations.items }
    ensures pieces { left.new.pieces.items ≡ map (λ (s : Manned). s.slot.pieces) stations.items }
{
    for station in stations {
        let Station { slot, is_done: _ } = station;
        let Slot {
            worker: _,
            passes,
            copy_passes,
            seat,
            rooms,
            transcript,
            pieces,
            tail: _,
            passed: _,
        } = slot;
        rows.push_reserved(passes);
        copy_rows.push_reserved(copy_passes);
        seats.push_reserved(seat);
        left.scripts.push_reserved(rooms);
        left.transcripts.push_reserved(transcript);
        left.pieces.push_reserved(pieces);
    }
}
