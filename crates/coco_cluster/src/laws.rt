//! What the steps of turns are.

ghost use Rattle.std.specs.Prelude.{ℕ, List};
ghost use Rattle.coco_letters.specs.Worlds.{IsReached, IsWorld, Scene};
ghost use Rattle.coco_members.specs.Opened.{HasEntries};
ghost use Rattle.coco_store.specs.Contents.{Contents};
ghost use Rattle.coco_world.specs.Steps.{IsAbove};
ghost use Rattle.coco_world.specs.World.{World};
ghost use Rattle.coco_cluster.specs.Entries.{StepsOn};
ghost use Rattle.coco_cluster.specs.Stepping.{StepsTo};

/// From a world that good entries lead to, as an opening gives one, the steps of a turn lead to another such world. So
/// turn by turn what is proved of every such world holds of nodes, coordinator and letters: what one node promotes is
/// committed, is prepared by every node, and is reverted by none. Where files are told, and the world has their entries,
/// so has the other those of the files behind the turn.
pub fn turns_are_steps_of_the_agreement()
    ensures steps { (stopped stopped_new : ℕ → ℕ) (next next_new : ℕ) (commits : List ℕ) (before after : Scene) → StepsTo stopped stopped_new next next_new commits before after
        → (w : World) → IsWorld w before → IsAbove w next → IsReached w → (v : World) × IsWorld v after × IsAbove v next_new × IsReached v }
    ensures entries { (c d : Contents) (stopped stopped_new : ℕ → ℕ) (next next_new : ℕ) (commits : List ℕ) (before after : Scene) → StepsOn c d stopped stopped_new next next_new commits before after
        → (w : World) → IsWorld w before → IsAbove w next → IsReached w → HasEntries c w → (v : World) × IsWorld v after × IsAbove v next_new × IsReached v × HasEntries d v }
{}
