//! Whom the coordinator tells of a commit.

ghost use Rattle.std.specs.Prelude.{◌≡◌, ◌<◌, ℕ, false, List};
ghost use Rattle.coco_chief.specs.Chief.{Chief as ChiefState};
ghost use Rattle.coco_chief.specs.Table.{forced, has_finished, reminds};
ghost use Rattle.coco_letters.specs.Turns.{AreFresh, ChiefTurns};
ghost use Rattle.coco_net.specs.declared.letter.Posted.{Posted as Sent};
ghost use Rattle.coco_finish.specs.Exchanges.{AreReminded};

/// Behind a commit no node has finished. Behind it, and when the coordinator has reminded nodes, each that hasn't
/// finished is told by a letter that is new to the next round.
pub fn unfinished_nodes_are_told()
    ensures none { (epoch n : ℕ) (chief : ChiefState) → 0 < epoch → has_finished n (forced epoch chief).1 ≡ false }
    ensures committed { (epoch : ℕ) (chief chief_new : ChiefState) (sent fresh sent_new fresh_new : List Sent) → ChiefTurns (forced epoch chief) sent chief_new sent_new → AreFresh sent fresh sent_new fresh_new → AreReminded epoch chief_new fresh_new }
    ensures reminded { (epoch : ℕ) (chief : ChiefState) (sent fresh sent_new fresh_new : List Sent) → 0 < epoch → chief.last ≡ epoch → ChiefTurns (reminds chief, chief) sent chief sent_new → AreFresh sent fresh sent_new fresh_new → AreReminded epoch chief fresh_new }
{}
