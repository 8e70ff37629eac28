//! What a node does at the letters of a phase, and of itself.

ghost use Rattle.std.specs.Prelude.{◌≡◌, ◌<◌, ◌≤◌, ℕ, List, [], ◌∷◌, Some, Contains, length, slice_set, IfOk, OnOk, OnErr};
ghost use Rattle.std.specs.List.{slice_get};
ghost use Rattle.coco_msg.specs.declared.action.Action.{Action as Asked};
ghost use Rattle.coco_node.specs.Node.{restarted, Node as NodeState};
ghost use Rattle.coco_node.specs.Table.{forced};
ghost use Rattle.coco_chief.specs.Chief.{Chief as ChiefState};
ghost use Rattle.coco_net.specs.declared.letter.Posted.{Posted as Sent};
ghost use Rattle.coco_letters.specs.declared.hearing.Phase.TheVariants.{Voting, Finishing, GivingUp};
ghost use Rattle.coco_letters.specs.Saying.{IsToSay};
ghost use Rattle.coco_letters.specs.Turns.{heard_of, promotes, Hears, IsForcing, NodeAsks, NodeTurns, OnlySends, Takes};
ghost use Rattle.coco_letters.specs.Worlds.{GoesOn, GoesOnStopped, GoesOnWith, Prepares, SameEntries};

use crate::hearing::{Phase, hear_awaited};
use crate::sending::send_actions;
use coco_msg::{Action, Message, one};
use coco_net::{Letter, Net};
use coco_node::{COORDINATOR, NodeCore};
use coco_types::NoMemory;
use std::alloc::Global;

/// What came of a letter while a node votes.
#[derive(Clone, Copy, Debug, PartialEq, Eq)]
pub enum Heard {
    Nothing,
    /// It gave its vote.
    Voted,
    /// The entry of this epoch is to be made durable.
    Forces { epoch: u64 },
}

// A node takes a message of the coordinator, and its letters go out. The answer is what its core asks for.
fn takes<N: Net>(
    alloc: Global,
    net: &mut N,
    cores: &mut [NodeCore],
    node: u8,
    message: &Message,
) -> Result<Vec<Action>, NoMemory>
    requires few { length cores.old ≤ 8 }
    requires node { node < length cores.old }
    requires message { IsToSay message.now }
    ensures takes { IfOk result (λ actions. Takes node message.now cores.old (N.sent net.old) cores.new (N.sent net.new) actions.items) }
    ensures sends { OnlySends N.Net net.old net.new }
{
    let actions = cores[node as usize].handle(alloc, COORDINATOR, message)?;
    send_actions(alloc, net, node, &actions)?;
    Ok(actions)
}

// A node takes a letter that waited at it, where it is one of the phase. The answer is what its core asks for.
fn node_hears<N: Net>(
    alloc: Global,
    net: &mut N,
    cores: &mut [NodeCore],
    node: u8,
    phase: Phase,
    epoch: u64,
    letter: &Letter,
) -> Result<Vec<Action>, NoMemory>
    requires few { length cores.old ≤ 8 }
    requires node { node < length cores.old }
    requires sent { Contains (N.sent net.old) (record { to = node; letter = letter.now }) }
    ensures hears { IfOk result (λ actions. Hears phase epoch node letter.now cores.old (N.sent net.old) cores.new (N.sent net.new) actions.items) }
    ensures world { OnOk result ((chief : ChiefState) → GoesOn (record { cores = cores.old; chief = chief; sent = N.sent net.old }) (record { cores = cores.new; chief = chief; sent = N.sent net.new })) }
    ensures sends { OnlySends N.Net net.old net.new }
{
    match hear_awaited(alloc, phase, epoch, letter)? {
        Some(message) => takes(alloc, net, cores, node, &message),
        None => Ok(Vec::new(alloc)),
    }
}

fn heard_of(actions: &[Action]) -> Heard
    ensures { result ≡ heard_of actions.now }
{
    match actions.first() {
        Some(Action::Send { .. }) => Heard::Voted,
        Some(Action::Force { epoch }) => Heard::Forces { epoch: *epoch },
        _ => Heard::Nothing,
    }
}

fn promotes(actions: &[Action]) -> bool
    ensures { result ≡ promotes actions.now }
{
    match actions.first() {
        Some(Action::Promote { .. }) => true,
        _ => false,
    }
}

/// A node that votes on an epoch takes a letter that waited at it. It hears a Prepare of this epoch from the
/// coordinator, and drops all others: its vote goes out, or the epoch's entry is to be made durable.
pub fn node_votes<N: Net>(
    alloc: Global,
    net: &mut N,
    cores: &mut [NodeCore],
    node: u8,
    epoch: u64,
    letter: &Letter,
) -> Result<Heard, NoMemory>
    requires few { length cores.old ≤ 8 }
    requires node { node < length cores.old }
    requires sent { Contains (N.sent net.old) (record { to = node; letter = letter.now }) }
    ensures heard { IfOk result (λ heard. (actions : List Asked) × Hears Voting epoch node letter.now cores.old (N.sent net.old) cores.new (N.sent net.new) actions × (heard ≡ heard_of actions)) }
    ensures world { OnOk result ((chief : ChiefState) → GoesOn (record { cores = cores.old; chief = chief; sent = N.sent net.old }) (record { cores = cores.new; chief = chief; sent = N.sent net.new })) }
    ensures sends { OnlySends N.Net net.old net.new }
{
    let actions = node_hears(alloc, net, cores, node, Phase::Voting, epoch, letter)?;
    Ok(heard_of(&actions))
}

/// A node takes a letter that waited at it, where an epoch is committed. It hears from the coordinator that it is, and
/// drops all others: that it has finished goes out. The answer is whether the epoch's rows are to be made stable first.
pub fn node_finishes<N: Net>(
    alloc: Global,
    net: &mut N,
    cores: &mut [NodeCore],
    node: u8,
    epoch: u64,
    letter: &Letter,
) -> Result<bool, NoMemory>
    requires few { length cores.old ≤ 8 }
    requires node { node < length cores.old }
    requires sent { Contains (N.sent net.old) (record { to = node; letter = letter.now }) }
    ensures heard { IfOk result (λ stable. (actions : List Asked) × Hears Finishing epoch node letter.now cores.old (N.sent net.old) cores.new (N.sent net.new) actions × (stable ≡ promotes actions)) }
    ensures world { OnOk result ((chief : ChiefState) → GoesOn (record { cores = cores.old; chief = chief; sent = N.sent net.old }) (record { cores = cores.new; chief = chief; sent = N.sent net.new })) }
    ensures sends { OnlySends N.Net net.old net.new }
{
    let actions = node_hears(alloc, net, cores, node, Phase::Finishing, epoch, letter)?;
    Ok(promotes(&actions))
}

/// A node takes a letter that waited at it, where an epoch is given up and its rows are taken back. It hears from the
/// coordinator that it is aborted, and drops all others.
pub fn node_gives_up<N: Net>(
    alloc: Global,
    net: &mut N,
    cores: &mut [NodeCore],
    node: u8,
    epoch: u64,
    letter: &Letter,
) -> Result<(), NoMemory>
    requires few { length cores.old ≤ 8 }
    requires node { node < length cores.old }
    requires sent { Contains (N.sent net.old) (record { to = node; letter = letter.now }) }
    ensures heard { OnOk result ((actions : List Asked) × Hears GivingUp epoch node letter.now cores.old (N.sent net.old) cores.new (N.sent net.new) actions) }
    ensures world { OnOk result ((chief : ChiefState) → GoesOn (record { cores = cores.old; chief = chief; sent = N.sent net.old }) (record { cores = cores.new; chief = chief; sent = N.sent net.new })) }
    ensures sends { OnlySends N.Net net.old net.new }
{
    let _actions = node_hears(alloc, net, cores, node, Phase::GivingUp, epoch, letter)?;
    Ok(())
}

/// The entry that a node forces is durable, and its vote goes out.
pub fn node_forced<N: Net>(
    alloc: Global,
    net: &mut N,
    cores: &mut [NodeCore],
    node: u8,
    epoch: u64,
) -> Result<(), NoMemory>
    requires few { length cores.old ≤ 8 }
    requires node { node < length cores.old }
    requires forcing { IsForcing epoch node cores.old }
    ensures turns { OnOk result (NodeTurns node (forced epoch) cores.old (N.sent net.old) cores.new (N.sent net.new)) }
    ensures world { OnOk result ((chief : ChiefState) → GoesOnWith (Prepares node epoch) (record { cores = cores.old; chief = chief; sent = N.sent net.old }) (record { cores = cores.new; chief = chief; sent = N.sent net.new })) }
    ensures sends { OnlySends N.Net net.old net.new }
{
    let actions = cores[node as usize].forced(alloc, epoch)?;
    send_actions(alloc, net, node, &actions)
}

/// A node asks what became of its newest durable epoch, where it doesn't know.
pub fn node_asks<N: Net>(
    alloc: Global,
    net: &mut N,
    cores: &[NodeCore],
    node: u8,
) -> Result<(), NoMemory>
    requires few { length cores.now ≤ 8 }
    requires node { node < length cores.now }
    ensures asks { OnOk result (NodeAsks node cores.now (N.sent net.old) (N.sent net.new)) }
    ensures world { OnOk result ((chief : ChiefState) → GoesOn (record { cores = cores.now; chief = chief; sent = N.sent net.old }) (record { cores = cores.now; chief = chief; sent = N.sent net.new })) }
    ensures sends { OnlySends N.Net net.old net.new }
{
    let core = &cores[node as usize];
    let _durable = core.durable();
    let actions = core.ask(alloc)?;
    send_actions(alloc, net, node, &actions)
}

/// A node that has stopped begins anew, with this as the greatest epoch of its entries: that of its core, or the one
/// that its core was forcing, where the entry is durable. A stop may have taken away the rows of one. Out of memory,
/// nothing has changed.
pub fn restart(
    alloc: Global,
    cores: &mut [NodeCore],
    node: u8,
    durable: u64,
    lost: Option<u64>,
) -> Result<(), NoMemory>
    requires { node < length cores.old }
    ensures cores { OnOk result (cores.new ≡ slice_set cores.old node (restarted node (durable ∷ []) lost)) }
    ensures stays { OnOk result ((core : NodeState) (chief : ChiefState) (sent : List Sent) → slice_get cores.old node ≡ Some core → durable ≡ core.durable
        → GoesOnStopped node SameEntries (record { cores = cores.old; chief = chief; sent = sent }) (record { cores = cores.new; chief = chief; sent = sent })) }
    ensures prepares { OnOk result ((core : NodeState) (chief : ChiefState) (sent : List Sent) → slice_get cores.old node ≡ Some core → durable ≡ core.forcing → core.durable < core.forcing
        → GoesOnStopped node (Prepares node durable) (record { cores = cores.old; chief = chief; sent = sent }) (record { cores = cores.new; chief = chief; sent = sent })) }
    ensures err { OnErr result (cores.new ≡ cores.old) }
{
    let epochs = one(alloc, durable)?;
    cores[node as usize] = NodeCore::restart(node, epochs, lost);
    Ok(())
}
