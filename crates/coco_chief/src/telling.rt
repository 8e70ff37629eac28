//! One message to each node, in node order.

ghost use Rattle.std.specs.Prelude.{◌≡◌, IfOk};
ghost use Rattle.coco_chief.specs.Telling.{said};
ghost use Rattle.coco_msg.specs.declared.message.Message.TheVariants.{Commit};
ghost use Rattle.coco_chief.specs.Table.{to_each, to_unfinished};

use crate::flags::is_up;
use coco_msg::{Action, Message, add};
use coco_types::NoMemory;
use std::alloc::Global;

/// What the coordinator tells all nodes of an epoch.
#[derive(Clone, Copy)]
pub enum Word {
    Prepare,
    Commit,
    Abort,
}

impl Word {
    fn message(self, epoch: u64) -> Message
        ensures { result ≡ said self epoch }
    {
        match self {
            Word::Prepare => Message::Prepare { epoch },
            Word::Commit => Message::Commit { epoch },
            Word::Abort => Message::Abort { epoch },
        }
    }
}

/// Tells each of so many nodes.
pub fn tell_each(alloc: Global, nodes: u8, word: Word, epoch: u64) -> Result<Vec<Action>, NoMemory>
    ensures { IfOk result (λ actions. actions.items ≡ to_each nodes (said word epoch)) }
{
    let mut actions = Vec::new(alloc);
    for to in 0..nodes {
        let message = word.message(epoch);
        add(&mut actions, Action::Send { to, message })?;
    }
    Ok(actions)
}

/// Tells each of so many nodes whose flag is down that an epoch is committed.
pub fn tell_unfinished(
    alloc: Global,
    nodes: u8,
    finished: &[bool],
    epoch: u64,
) -> Result<Vec<Action>, NoMemory>
    ensures { IfOk result (λ actions. actions.items ≡ to_unfinished nodes finished.now (Commit epoch)) }
{
    let mut actions = Vec::new(alloc);
    for to in 0..nodes {
        if !is_up(finished, to) {
            let message = Message::Commit { epoch };
            add(&mut actions, Action::Send { to, message })?;
        }
    }
    Ok(actions)
}
