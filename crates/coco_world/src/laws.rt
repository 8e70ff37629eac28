//! The agreement of nodes and coordinator, over every list of steps: letters lost, late and repeated, nodes that
//! stop at any moment, and crashes of the whole process.

ghost use Rattle.coco_world.specs.Laws.{EntriesBegin, GreatestDecides, InEachWorld, PromotesOnlyCommitted, NeverRevertedLater, NeverRevertedEarlier, CommittedStays, DurableGrows, FinishedHasSaid, SaysOnlyFinished};
ghost use Rattle.coco_world.specs.Agreement.{Holds};
ghost use Rattle.coco_world.specs.Steps.{CanRun, Event as Happening, run};
ghost use Rattle.coco_world.specs.World.{World};
ghost use Rattle.std.specs.Prelude.{List};

/// What one node makes stable is committed, is prepared by every node, and is taken back by none.
pub fn agreement()
    ensures committed { InEachWorld PromotesOnlyCommitted }
    ensures never_later { InEachWorld NeverRevertedLater }
    ensures never_earlier { InEachWorld NeverRevertedEarlier }
{}

/// The entries that files hold begin a world over good entries, and a number above them all is above what it knows.
/// A node's core needs the greatest of its epochs alone.
pub fn entries_begin_a_world()
    ensures begin { EntriesBegin }
    ensures cores { GreatestDecides }
{}

/// What is known of each core, each letter and each durable entry.
pub fn invariant()
    ensures { InEachWorld Holds }
{}

/// What is known of a world is known of each world that steps lead to from it.
pub fn each_step_keeps()
    ensures { (w : World) (events : List Happening) → Holds w → CanRun w events → Holds (run w events) }
{}

/// What is committed or durable stays so, over every list of steps.
pub fn nothing_is_forgotten()
    ensures committed { InEachWorld CommittedStays }
    ensures durable { InEachWorld DurableGrows }
{}

/// The coordinator holds a node for finished only where it has finished.
pub fn finished_nodes_have_finished()
    ensures said { InEachWorld FinishedHasSaid }
    ensures finished { InEachWorld SaysOnlyFinished }
{}
