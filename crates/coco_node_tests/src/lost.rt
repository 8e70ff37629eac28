//! A node that stops before an epoch is run or shipped, and requests that are had back of their Dones.

ghost use Rattle.std.specs.Prelude.{◌≡◌, length, IfOk};

use coco_host::{Host, MemoryHost};
use coco_letters::Voter;
use coco_log::{Log, LogFault};
use coco_lost::{requests_back, stop_early};
use coco_msg::one;
use coco_node::NodeCore;
use coco_power::ScriptPower;
use coco_types::{Args, Call, Done, Dones, KeptReply, NoMemory, Reply};
use std::alloc::Global;
use std::test::Fail;

// Two nodes without entries.
fn two_cores(alloc: Global) -> Result<Vec<NodeCore>, NoMemory>
    ensures { IfOk result (λ cores. length cores.items ≡ 2) }
{
    let mut cores = Vec::new(alloc);
    cores.push(NodeCore::restart(0, Vec::new(alloc), None))?;
    cores.push(NodeCore::restart(1, Vec::new(alloc), None))?;
    Ok(cores)
}

// What is in hand of a node, with a log without entries in this file.
fn voter<H: Host>(alloc: Global, host: &mut H, file: u32) -> Result<Voter, LogFault> {
    Ok(Voter {
        log: Log::make(alloc, host, file, 2)?,
        held: one(alloc, true)?,
        is_lost: false,
        asked_after_vote: false,
    })
}

// What is in hand of two.
fn two_voters(alloc: Global) -> Result<Vec<Voter>, LogFault>
    ensures { IfOk result (λ voters. length voters.items ≡ 2) }
{
    let mut host = MemoryHost::new(alloc, Vec::new(alloc));
    let mut voters = Vec::new(alloc);
    voters.push(voter(alloc, &mut host, 2)?)?;
    voters.push(voter(alloc, &mut host, 3)?)?;
    Ok(voters)
}

// Whether one of two nodes stops before epoch 1 is run, and whether before it is shipped, where the script has a stop;
// and which of them have lost their tables then.
fn stopped(alloc: Global, stop: (u64, u8, u8)) -> Result<(bool, bool, [bool; 2]), LogFault> {
    let mut power = ScriptPower::new(one(alloc, stop)?);
    let mut cores = two_cores(alloc)?;
    let mut voters = two_voters(alloc)?;
    let runs = stop_early(alloc, &mut power, &mut cores, &mut voters, 1, 1)?;
    let ships = stop_early(alloc, &mut power, &mut cores, &mut voters, 2, 1)?;
    Ok((runs, ships, [voters[0].is_lost, voters[1].is_lost]))
}

#[test]
fn the_first_node_that_stops_loses_the_epoch(rt: HostRuntime) -> Result<(), Fail> {
    for (stop, expected) in [
        ((1, 0, 1), (true, false, [true, false])),
        ((1, 1, 1), (true, false, [false, true])),
        ((1, 1, 2), (false, true, [false, true])),
        ((1, 1, 3), (false, false, [false, false])),
        ((2, 0, 1), (false, false, [false, false])),
    ] {
        assert!(rt; stopped(rt.alloc(), stop)? == expected, "{stop:?}");
    }
    Ok(())
}

// A Done of this id.
fn done(alloc: Global, id: u64) -> Result<Done, NoMemory> {
    Ok(Done {
        id,
        call: Call {
            proc_no: 1,
            snapshot: false,
            args: Args::new(alloc),
        },
        epoch: 1,
        time: id,
        reply: KeptReply::of(alloc, &Reply::Ok(None))?,
    })
}

// Whether the requests that are had back of Dones of these ids have these, in this order.
fn are_back(alloc: Global, dones: [u64; 3], ids: [u64; 3]) -> Result<bool, NoMemory> {
    let mut list = Dones::new(alloc);
    for id in dones {
        list.push(done(alloc, id)?)?;
    }
    let back = requests_back(alloc, &ids, list)?;
    let mut found = Vec::new(alloc);
    for request in &back {
        found.push(request.id)?;
    }
    Ok(found.as_slice() == ids.as_slice())
}

#[test]
fn requests_are_had_back_in_their_order(rt: HostRuntime) -> Result<(), Fail> {
    assert!(rt; are_back(rt.alloc(), [7, 5, 6], [5, 6, 7])?);
    assert!(rt; are_back(rt.alloc(), [1, 2, 3], [3, 1, 2])?);
    Ok(())
}
