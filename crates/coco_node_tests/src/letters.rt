//! What places do at the letters of a commit over a quiet net.

ghost use Rattle.std.specs.Prelude.{◌≡◌, ◌≤◌, Contains, IfOk, IfSome, OnOk, [], length};
ghost use Rattle.coco_chief.specs.Shown.{chief_of};
ghost use Rattle.coco_chief.specs.Table.{restarted};
ghost use Rattle.coco_letters.specs.Turns.{AreSent};

use coco_chief::{ChiefCore, Phase};
use coco_letters::*;
use coco_msg::{Action, Message, message_bytes, one};
use coco_net::{Letter, Net, QuietNet};
use coco_node::{COORDINATOR, NodeCore};
use coco_types::{Bytes, NoMemory};
use std::alloc::Global;
use std::test::Fail;

// A round. What waits then was sent.
fn give<N: Net>(net: &mut N) -> Result<(), NoMemory>
    ensures { OnOk result (AreSent (N.sent net.new) (N.waiting net.new)) }
{
    waiting_letters_were_sent();
    net.round()
}

// The first letter that waits at a place.
fn take<N: Net>(net: &mut N, place: u8) -> Option<Letter>
    requires place { place ≤ 8 }
    requires sent { AreSent (N.sent net.old) (N.waiting net.old) }
    ensures { IfSome result (λ l. Contains (N.sent net.new) (record { to = place; letter = l })) }
{
    waiting_letters_were_sent();
    net.next(place)
}

// The letter that a round gives to a place.
fn given<N: Net>(net: &mut N, place: u8) -> Result<Option<Letter>, NoMemory>
    requires { place ≤ 8 }
    ensures { IfOk result (λ found. IfSome found (λ l. Contains (N.sent net.new) (record { to = place; letter = l }))) }
{
    give(net)?;
    Ok(take(net, place))
}

// Tells node 0 twice that an epoch is committed.
fn tell<N: Net>(alloc: Global, net: &mut N, epoch: u64) -> Result<(), NoMemory> {
    let message = Message::Commit { epoch };
    let actions = one(alloc, Action::Send { to: 0, message })?;
    send_actions(alloc, net, COORDINATOR, &actions)?;
    resend(alloc, net, COORDINATOR, 0, &Message::Commit { epoch })
}

// What came of the letter that a round gives to the one node, while it votes on epoch 1.
fn votes<N: Net>(alloc: Global, net: &mut N, cores: &mut [NodeCore]) -> Result<Heard, NoMemory>
    requires { length cores.old ≡ 1 }
{
    match given(net, 0)? {
        Some(letter) => node_votes(alloc, net, cores, 0, 1, &letter),
        None => Ok(Heard::Nothing),
    }
}

// Whether the letter that a round gives to the one node tells it to make the rows of epoch 7 stable.
fn finishes<N: Net>(alloc: Global, net: &mut N, cores: &mut [NodeCore]) -> Result<bool, NoMemory>
    requires { length cores.old ≡ 1 }
{
    match given(net, 0)? {
        Some(letter) => node_finishes(alloc, net, cores, 0, 7, &letter),
        None => Ok(false),
    }
}

// The coordinator hears the letter that a round gives to it.
fn listens<N: Net>(alloc: Global, net: &mut N, chief: &mut ChiefCore) -> Result<(), NoMemory>
    requires { (chief_of chief.old).nodes ≤ 8 }
{
    match given(net, COORDINATOR)? {
        Some(letter) => chief_hears(alloc, net, chief, &letter),
        None => Ok(()),
    }
}

// Whether the one node, asked for its vote on epoch 1, gives it, and the coordinator counts it.
fn is_counted<N: Net>(
    alloc: Global,
    net: &mut N,
    chief: &mut ChiefCore,
    cores: &mut [NodeCore],
) -> Result<bool, NoMemory>
    requires chief { chief_of chief.old ≡ restarted 1 [] }
    requires cores { length cores.old ≡ 1 }
{
    let actions = chief.begin(1)?;
    send_actions(alloc, net, COORDINATOR, &actions)?;
    let heard = votes(alloc, net, cores)?;
    listens(alloc, net, chief)?;
    Ok(heard == Heard::Voted && chief.phase() == Phase::Forcing)
}

// Whether the one node, which waits for epoch 7, hears of that epoch and not of the one before it.
fn hears_of_seven<N: Net>(
    alloc: Global,
    net: &mut N,
    cores: &mut [NodeCore],
) -> Result<bool, NoMemory>
    requires { length cores.old ≡ 1 }
{
    tell(alloc, net, 6)?;
    let is_early = finishes(alloc, net, cores)?;
    tell(alloc, net, 7)?;
    let is_stable = finishes(alloc, net, cores)?;
    Ok(is_stable && !is_early)
}

// The one node takes the letter that a round gives to it, while epoch 7 is given up.
fn gives_up<N: Net>(alloc: Global, net: &mut N, cores: &mut [NodeCore]) -> Result<(), NoMemory>
    requires { length cores.old ≡ 1 }
{
    match given(net, 0)? {
        Some(letter) => node_gives_up(alloc, net, cores, 0, 7, &letter),
        None => Ok(()),
    }
}

// Whether the one node knows what became of epoch 7 once it is aborted.
fn is_given_up<N: Net>(alloc: Global, net: &mut N, cores: &mut [NodeCore]) -> Result<bool, NoMemory>
    requires { length cores.old ≡ 1 }
{
    let bytes = message_bytes(alloc, &Message::Abort { epoch: 7 })?;
    net.send(COORDINATOR, 0, bytes)?;
    gives_up(alloc, net, cores)?;
    let asks = cores[0].ask(alloc)?;
    Ok(asks.is_empty())
}

// Whether the one node, with an entry that it was forcing, has the entry's epoch once it has begun anew.
fn begins_anew(alloc: Global, cores: &mut [NodeCore]) -> Result<bool, NoMemory>
    requires { length cores.old ≡ 1 }
{
    restart(alloc, cores, 0, 9, Some(10))?;
    Ok(cores[0].durable() == 9)
}

// One node with an entry of this epoch.
fn one_node(alloc: Global, epoch: u64) -> Result<Vec<NodeCore>, NoMemory>
    ensures { IfOk result (λ cores. length cores.items ≡ 1) }
{
    let epochs = one(alloc, epoch)?;
    let cores = one(alloc, NodeCore::restart(0, epochs, None))?;
    Ok(cores)
}

#[test]
fn a_vote_is_given_and_counted(rt: HostRuntime) -> Result<(), Fail> {
    let alloc = rt.alloc();
    let mut net = QuietNet::new(alloc);
    let mut chief = ChiefCore::restart(alloc, 1, Vec::new(alloc))?;
    let mut cores = one_node(alloc, 1)?;
    assert!(rt; is_counted(alloc, &mut net, &mut chief, &mut cores)?);
    Ok(())
}

#[test]
fn a_node_hears_of_the_epoch_that_it_waits_for_alone(rt: HostRuntime) -> Result<(), Fail> {
    let alloc = rt.alloc();
    let mut cores = one_node(alloc, 7)?;
    assert!(rt; hears_of_seven(alloc, &mut QuietNet::new(alloc), &mut cores)?);
    Ok(())
}

#[test]
fn a_node_hears_that_its_epoch_is_given_up(rt: HostRuntime) -> Result<(), Fail> {
    let alloc = rt.alloc();
    let mut cores = one_node(alloc, 7)?;
    assert!(rt; is_given_up(alloc, &mut QuietNet::new(alloc), &mut cores)?);
    Ok(())
}

#[test]
fn a_node_that_has_stopped_begins_anew(rt: HostRuntime) -> Result<(), Fail> {
    let alloc = rt.alloc();
    let mut cores = one_node(alloc, 7)?;
    assert!(rt; begins_anew(alloc, &mut cores)?);
    Ok(())
}

#[test]
fn a_letter_between_copies_is_none_of_a_commit(rt: HostRuntime) -> Result<(), Fail> {
    let alloc = rt.alloc();
    let all = Message::All {
        epoch: 1,
        partition: 0,
    };
    let bytes = Bytes::from_vec(message_bytes(alloc, &all)?);
    let heard = hear(alloc, &Letter { from: 1, bytes })?;
    assert!(rt; heard.is_none());
    Ok(())
}
