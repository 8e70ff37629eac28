//! The nodes of a store that was opened: their cores, their logs and what they hold.

ghost use Rattle.std.specs.Prelude.{◌≡◌, ◌∷◌, ◌++◌, [], ◌<◌, ◌≤◌, ◌↔◌, None, length, Bool, IfOk, IsTrue, OnOk};
ghost use Rattle.coco_append.specs.EpochEntries.{HeldBy};
ghost use Rattle.coco_letters.specs.declared.voter.Voter.{Voter as InHand};
ghost use Rattle.coco_node.specs.Node.{restarted};
ghost use Rattle.coco_store.specs.Placement.{IsHeldBy};
ghost use Rattle.coco_members.specs.Opened.{AreFirst, BeginAnew, IsFirst};

use coco_entry::Layout;
use coco_letters::Voter;
use coco_log::Log;
use coco_node::NodeCore;
use coco_rules::is_held_by;
use coco_types::NoMemory;
use std::alloc::Global;

// One core more, of the node with this epoch in its newest entry.
fn add_core(alloc: Global, cores: &mut Vec<NodeCore>, node: u8, newest: u64) -> Result<(), NoMemory>
    ensures { OnOk result (cores.new.items ≡ cores.old.items ++ restarted node (newest ∷ []) None ∷ []) }
{
    let epochs = vec![in alloc; newest; 1]?;
    cores.push(NodeCore::restart(node, epochs, None))?;
    Ok(())
}

/// The cores of nodes, each with the greatest epoch that it prepared, 0 for none.
pub(crate) fn cores_of(alloc: Global, newest: &[u64]) -> Result<Vec<NodeCore>, NoMemory>
    requires few { length newest.now ≤ 8 }
    ensures { IfOk result (λ cores. BeginAnew newest.now cores.items) }
{
    let mut cores = Vec::with_capacity(alloc, newest.len())?;
    for (node, epoch) in newest.iter().enumerate() {
        add_core(alloc, &mut cores, node as u8, *epoch)?;
    }
    Ok(cores)
}

// One partition more, and whether the node holds it.
fn add_held(held: &mut Vec<bool>, layout: &Layout, partition: u8, node: u8) -> Result<(), NoMemory>
    requires { node < layout.now.nodes }
    ensures { OnOk result ((is_held : Bool) × (IsTrue is_held ↔ IsHeldBy layout.now partition node) × (held.new.items ≡ held.old.items ++ is_held ∷ [])) }
{
    held.push(is_held_by(layout, partition, node))?;
    Ok(())
}

// Of the partitions, those that a node holds.
fn held_by(alloc: Global, layout: &Layout, node: u8) -> Result<Vec<bool>, NoMemory>
    requires { node < layout.now.nodes }
    ensures { IfOk result (λ held. HeldBy layout.now node held.items) }
{
    let mut held = Vec::with_capacity(alloc, layout.partitions as usize)?;
    for partition in 0..layout.partitions {
        add_held(&mut held, layout, partition, node)?;
    }
    Ok(held)
}

// One node more, with this log, before its first epoch.
fn add_voter(
    alloc: Global,
    voters: &mut Vec<Voter>,
    layout: &Layout,
    node: u8,
    log: Log,
) -> Result<(), NoMemory>
    requires { node < layout.now.nodes }
    ensures { OnOk result ((voter : InHand) × IsFirst layout.now node log voter × (voters.new.items ≡ voters.old.items ++ voter ∷ [])) }
{
    let held = held_by(alloc, layout, node)?;
    voters.push(Voter {
        log,
        held,
        is_lost: false,
        asked_after_vote: false,
    })?;
    Ok(())
}

/// The nodes with these logs, before their first epoch.
pub(crate) fn voters_of(
    alloc: Global,
    layout: &Layout,
    mut logs: Vec<Log>,
) -> Result<Vec<Voter>, NoMemory>
    requires { length logs.items ≡ layout.now.nodes }
    ensures { IfOk result (λ voters. AreFirst layout.now logs.items voters.items) }
{
    let mut voters = Vec::with_capacity(alloc, logs.len())?;
    for node in 0..layout.nodes {
        let log = logs.remove(0);
        add_voter(alloc, &mut voters, layout, node, log)?;
    }
    Ok(voters)
}
