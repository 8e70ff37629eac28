//! A node's entry and its vote, over a quiet net and a host in memory, where the node stops at one of the points.

ghost use Rattle.std.specs.Prelude.{◌≡◌, false, length, IfOk};
ghost use Rattle.coco_append.specs.Gaining.{Stands};
ghost use Rattle.coco_letters.specs.Turns.{IsForcing};

use coco_host::{Host, MemoryHost};
use coco_letters::Voter;
use coco_log::{Log, LogFault};
use coco_msg::{Message, one};
use coco_net::{Net, QuietNet};
use coco_node::{COORDINATOR, NodeCore};
use coco_power::{Power, ScriptPower};
use coco_types::NoMemory;
use coco_vote::{Step, force_and_vote};
use std::alloc::Global;
use std::test::Fail;

// A node that is to force its entry of epoch 1.
fn forcing_node(alloc: Global) -> Result<Vec<NodeCore>, NoMemory>
    ensures one { IfOk result (λ cores. length cores.items ≡ 1) }
    ensures forces { IfOk result (λ cores. IsForcing 1 0 cores.items) }
{
    let mut core = NodeCore::restart(0, Vec::new(alloc), None);
    core.handle(alloc, COORDINATOR, &Message::Prepare { epoch: 1 })?;
    let cores = one(alloc, core)?;
    Ok(cores)
}

// What is in hand of it, with a log without entries.
fn voter<H: Host>(alloc: Global, host: &mut H) -> Result<Voter, LogFault>
    ensures unspent { IfOk result (λ voter. voter.log.spent ≡ false) }
    ensures stands { IfOk result (λ voter. Stands voter.log (H.reads host.new) (H.may_leave host.new)) }
{
    let log = Log::make(alloc, host, 2, 2)?;
    let held = one(alloc, true)?;
    Ok(Voter {
        log,
        held,
        is_lost: false,
        asked_after_vote: false,
    })
}

// What comes of it where it stops at this point of epoch 1: its step, the epoch that it has durable, how many letters
// wait for the coordinator, how long its file is, and whether its tables are lost.
fn outcome(alloc: Global, point: u8) -> Result<(Step, u64, u32, u64, bool), LogFault> {
    let mut host = MemoryHost::new(alloc, Vec::new(alloc));
    let mut net = QuietNet::new(alloc);
    let mut power = ScriptPower::new(one(alloc, (1, 0, point))?);
    let _begun = power.stops(0, 1);
    let mut cores = forcing_node(alloc)?;
    let mut voter = voter(alloc, &mut host)?;
    let mut body = Vec::new(alloc);
    let step = force_and_vote(
        &mut host,
        &mut net,
        &mut power,
        &mut cores,
        &mut voter,
        0,
        1,
        &[],
        &mut body,
    )?;
    net.round()?;
    let durable = cores[0].durable();
    Ok((
        step,
        durable,
        net.waiting(COORDINATOR),
        host.len(2)?,
        voter.is_lost,
    ))
}

#[test]
fn a_node_votes_behind_its_entry(rt: HostRuntime) -> Result<(), Fail> {
    for (point, expected) in [
        (6, (Step::Voted, 1, 1, 27, false)),
        (5, (Step::Restarted { voted: true }, 1, 2, 27, true)),
        (4, (Step::Restarted { voted: false }, 1, 1, 27, true)),
        (3, (Step::Stopped, 0, 0, 9, true)),
    ] {
        assert!(rt; outcome(rt.alloc(), point)? == expected, "{point}");
    }
    Ok(())
}
