//! Letters that go out.

ghost use Rattle.std.specs.Prelude.{◌≡◌, ◌≤◌, ℕ, List, [], ◌∷◌, ◌++◌, Contains, OnOk, OnErr};
ghost use Rattle.coco_net.specs.declared.letter.Posted.{Posted as Sent};
ghost use Rattle.coco_node.specs.Node.{Node as NodeState};
ghost use Rattle.coco_chief.specs.Chief.{Chief as ChiefState};
ghost use Rattle.coco_letters.specs.Saying.{posted, posts_of, AreToSay, IsToSay};
ghost use Rattle.coco_letters.specs.Turns.{AreFresh, Counts};
ghost use Rattle.coco_letters.specs.Worlds.{GoesOn};

use coco_msg::{Action, Message, message_bytes};
use coco_net::Net;
use coco_types::NoMemory;
use std::alloc::Global;

// Sends the letter of an action, where it asks for one.
fn send_action<N: Net>(
    alloc: Global,
    net: &mut N,
    from: u8,
    action: &Action,
) -> Result<(), NoMemory>
    requires from { from ≤ 8 }
    requires messages { AreToSay (action.now ∷ []) }
    ensures sent { OnOk result (N.sent net.new ≡ N.sent net.old ++ posts_of from (action.now ∷ [])) }
    ensures fresh { OnOk result (N.fresh net.new ≡ N.fresh net.old ++ posts_of from (action.now ∷ [])) }
    ensures err { OnErr result ((N.sent net.new ≡ N.sent net.old) × (N.fresh net.new ≡ N.fresh net.old)) }
    ensures waiting { (p : ℕ) → N.waiting net.new p ≡ N.waiting net.old p }
    ensures counts { Counts (N.given net.old) (N.faults net.old) (N.last_seed net.old) (N.given net.new) (N.faults net.new) (N.last_seed net.new) }
{
    if let Action::Send { to, message } = action {
        let bytes = message_bytes(alloc, message)?;
        return net.send(from, *to, bytes);
    }
    Ok(())
}

/// Sends the letters of a place's actions, in order; what else they ask for is left to the place. Out of memory, the
/// first of them are sent.
pub fn send_actions<N: Net>(
    alloc: Global,
    net: &mut N,
    from: u8,
    actions: &[Action],
) -> Result<(), NoMemory>
    requires from { from ≤ 8 }
    requires messages { AreToSay actions.now }
    ensures sent { OnOk result (N.sent net.new ≡ N.sent net.old ++ posts_of from actions.now) }
    ensures fresh { OnOk result (N.fresh net.new ≡ N.fresh net.old ++ posts_of from actions.now) }
    ensures grows { AreFresh (N.sent net.old) (N.fresh net.old) (N.sent net.new) (N.fresh net.new) }
    ensures some { (xs : List Sent) × (ys : List Sent) × (N.sent net.new ≡ N.sent net.old ++ xs) × (xs ++ ys ≡ posts_of from actions.now) }
    ensures waiting { (p : ℕ) → N.waiting net.new p ≡ N.waiting net.old p }
    ensures counts { Counts (N.given net.old) (N.faults net.old) (N.last_seed net.old) (N.given net.new) (N.faults net.new) (N.last_seed net.new) }
{
    for action in actions {
        send_action(alloc, net, from, action)?;
    }
    Ok(())
}

/// Sends a letter once more.
pub fn resend<N: Net>(
    alloc: Global,
    net: &mut N,
    from: u8,
    to: u8,
    message: &Message,
) -> Result<(), NoMemory>
    requires from { from ≤ 8 }
    requires to { to ≤ 8 }
    requires message { IsToSay message.now }
    requires sent { Contains (N.sent net.old) (posted from to message.now) }
    ensures sent { OnOk result (N.sent net.new ≡ N.sent net.old ++ posted from to message.now ∷ []) }
    ensures fresh { OnOk result (N.fresh net.new ≡ N.fresh net.old ++ posted from to message.now ∷ []) }
    ensures world { OnOk result ((cores : List NodeState) (chief : ChiefState) → GoesOn (record { cores = cores; chief = chief; sent = N.sent net.old }) (record { cores = cores; chief = chief; sent = N.sent net.new })) }
    ensures err { OnErr result ((N.sent net.new ≡ N.sent net.old) × (N.fresh net.new ≡ N.fresh net.old)) }
    ensures waiting { (p : ℕ) → N.waiting net.new p ≡ N.waiting net.old p }
    ensures counts { Counts (N.given net.old) (N.faults net.old) (N.last_seed net.old) (N.given net.new) (N.faults net.new) (N.last_seed net.new) }
{
    let bytes = message_bytes(alloc, message)?;
    net.send(from, to, bytes)
}
