//! Letters to messages.

ghost use Rattle.std.specs.Prelude.{◌≡◌, Some, IfOk, IfSome, ◌==◌, true};
ghost use Rattle.coco_msg.specs.Bytes.{bytes_of};
ghost use Rattle.coco_msg.specs.declared.message.Message.{Message as Told};
ghost use Rattle.coco_node.specs.declared.machine.TheConstants.{COORDINATOR as Chiefs};
ghost use Rattle.coco_letters.specs.Saying.{is_of_commit, IsToSay};
ghost use Rattle.coco_letters.specs.Turns.{is_awaited, IsFrom};

use coco_msg::{Message, MessageFault, read_message};
use coco_net::Letter;
use coco_node::COORDINATOR;
use coco_types::NoMemory;
use std::alloc::Global;

// Whether it is a message of a commit.
fn is_of_commit(message: &Message) -> bool
    ensures { result ≡ is_of_commit message.now }
{
    match message {
        Message::Ship { .. }
        | Message::Total { .. }
        | Message::Missing { .. }
        | Message::All { .. } => false,
        Message::Prepare { .. }
        | Message::Vote { .. }
        | Message::Commit { .. }
        | Message::Finished { .. }
        | Message::Abort { .. }
        | Message::Query { .. }
        | Message::Tell { .. } => true,
    }
}

/// The message of a commit that a letter is, none where it is none.
pub fn hear(alloc: Global, letter: &Letter) -> Result<Option<Message>, NoMemory>
    ensures found { IfOk result (λ found. IfSome found (λ m. IsToSay m × (letter.now.bytes ≡ bytes_of m))) }
    ensures only { IfOk result (λ found. (m : Told) → IsToSay m → letter.now.bytes ≡ bytes_of m → found ≡ Some m) }
{
    match read_message(alloc, letter.bytes.as_slice()) {
        Ok(message) => {
            if is_of_commit(&message) {
                return Ok(Some(message));
            }
            Ok(None)
        }
        Err(MessageFault::Bad { .. }) => Ok(None),
        Err(MessageFault::NoMemory) => Err(NoMemory),
    }
}

/// What a node waits for in a phase: to be asked for its vote, to hear that an epoch is committed, or that it is aborted.
#[derive(Clone, Copy, Debug, PartialEq, Eq)]
pub enum Phase {
    Voting,
    Finishing,
    GivingUp,
}

// Whether a message of the coordinator is one of those that a node waits for.
fn is_awaited(phase: Phase, epoch: u64, message: &Message) -> bool
    ensures { result ≡ is_awaited phase epoch message.now }
{
    match (phase, message) {
        (Phase::Voting, Message::Prepare { epoch: of }) => *of == epoch,
        (Phase::Finishing, Message::Commit { epoch: of }) => *of == epoch,
        (
            Phase::Finishing,
            Message::Tell {
                epoch: of,
                committed,
            },
        ) => *committed && *of == epoch,
        (Phase::GivingUp, Message::Abort { epoch: of }) => *of == epoch,
        (
            Phase::GivingUp,
            Message::Tell {
                epoch: of,
                committed,
            },
        ) => !*committed && *of == epoch,
        _ => false,
    }
}

/// The message of the coordinator for which a node waits, none where the letter is another.
pub fn hear_awaited(
    alloc: Global,
    phase: Phase,
    epoch: u64,
    letter: &Letter,
) -> Result<Option<Message>, NoMemory>
    ensures found { IfOk result (λ found. IfSome found (λ m. IsFrom Chiefs letter.now m × (is_awaited phase epoch m ≡ true))) }
    ensures only { IfOk result (λ found. (m : Told) → IsFrom Chiefs letter.now m → is_awaited phase epoch m ≡ true → found ≡ Some m) }
{
    if letter.from != COORDINATOR {
        return Ok(None);
    }
    match hear(alloc, letter)? {
        Some(message) => {
            if is_awaited(phase, epoch, &message) {
                return Ok(Some(message));
            }
            Ok(None)
        }
        None => Ok(None),
    }
}
