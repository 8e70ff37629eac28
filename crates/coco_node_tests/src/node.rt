//! What a node's core does with the messages of an epoch, and after it starts again.

use coco_msg::{Action, Message};
use coco_node::*;
use coco_types::NoMemory;
use std::alloc::Global;
use std::test::Fail;

const YES: &str = "to 8 Vote { epoch: 1, yes: true } ";

const FINISHED: &str = "to 8 Finished { epoch: 1 } ";

const PROMOTED: &str = "promote 1 to 8 Finished { epoch: 1 } ";

const COMMIT: Message = Message::Commit { epoch: 1 };

const ABORT: Message = Message::Abort { epoch: 1 };

const PREPARE: Message = Message::Prepare { epoch: 1 };

// An action in a few words.
fn told(alloc: Global, action: &Action) -> Result<String, NoMemory> {
    let words = match action {
        Action::Send { to, message } => format!(in alloc; "to {to} {message:?} "),
        Action::Force { epoch } => format!(in alloc; "force {epoch} "),
        Action::Promote { epoch } => format!(in alloc; "promote {epoch} "),
        Action::Revert { epoch } => format!(in alloc; "revert {epoch} "),
    };
    Ok(words?)
}

// Whether these are the actions, each in a few words.
fn are_told(alloc: Global, actions: Vec<Action>, words: &str) -> Result<bool, NoMemory> {
    let mut all = String::new(alloc);
    for action in &actions {
        all.push_str(&told(alloc, action)?)?;
    }
    Ok(all.as_str() == words)
}

// Whether the core answers each of the coordinator's messages with these actions.
fn answers(
    alloc: Global,
    core: &mut NodeCore,
    messages: &[(&Message, &str)],
) -> Result<bool, NoMemory> {
    for (message, words) in messages {
        let actions = core.handle(alloc, COORDINATOR, message)?;
        if !are_told(alloc, actions, words)? {
            return Ok(false);
        }
    }
    Ok(true)
}

// Whether the core forces epoch 1 once, and says nothing while its entry isn't there.
fn forces_once(alloc: Global, core: &mut NodeCore) -> Result<bool, NoMemory> {
    let is_forced = answers(
        alloc,
        core,
        &[(&PREPARE, "force 1 "), (&PREPARE, ""), (&COMMIT, "")],
    )?;
    Ok(is_forced && core.node() == 1)
}

// Whether the core votes behind its entry of epoch 1, and promotes the epoch once.
fn promotes_once(alloc: Global, core: &mut NodeCore) -> Result<bool, NoMemory> {
    answers(
        alloc,
        core,
        &[
            (&PREPARE, YES),
            (&COMMIT, PROMOTED),
            (&COMMIT, FINISHED),
            (&ABORT, ""),
        ],
    )
}

#[test]
fn a_node_votes_behind_its_entry_and_promotes_once(rt: HostRuntime) -> Result<(), Fail> {
    let alloc = rt.alloc();
    let mut core = NodeCore::restart(1, Vec::new(alloc), None);
    assert!(rt; forces_once(alloc, &mut core)?);
    assert!(rt; core.forcing() == 1);
    let actions = core.forced(alloc, 1)?;
    assert!(rt; are_told(alloc, actions, YES)? && promotes_once(alloc, &mut core)?);
    Ok(())
}

// A node that began anew with an entry of epoch 1.
fn restarted(alloc: Global, lost: Option<u64>) -> Result<NodeCore, NoMemory> {
    let epochs = vec![in alloc; 1]?;
    Ok(NodeCore::restart(0, epochs, lost))
}

// Whether the core asks these things of its own accord.
fn asks(alloc: Global, core: &NodeCore, words: &str) -> Result<bool, NoMemory> {
    are_told(alloc, core.ask(alloc)?, words)
}

// Whether a restarted core asks once what became of epoch 1, and then does this.
fn does_as_told(alloc: Global, committed: bool, done: &str) -> Result<bool, NoMemory> {
    let mut core = restarted(alloc, None)?;
    let is_asked = core.durable() == 1 && asks(alloc, &core, "to 8 Query { epoch: 1 } ")?;
    let tell = Message::Tell {
        epoch: 1,
        committed,
    };
    let is_done = answers(alloc, &mut core, &[(&tell, done)])?;
    Ok(is_asked && is_done && asks(alloc, &core, "")?)
}

#[test]
fn a_restarted_node_asks_and_does_what_it_is_told(rt: HostRuntime) -> Result<(), Fail> {
    let is_reverted = does_as_told(rt.alloc(), false, "revert 1 ")?;
    let is_promoted = does_as_told(rt.alloc(), true, PROMOTED)?;
    assert!(rt; is_reverted && is_promoted);
    Ok(())
}
