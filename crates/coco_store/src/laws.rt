//! What holds of a store's files, whatever wrote them.

ghost use Rattle.std.specs.Prelude.{ℕ, List};
ghost use Rattle.coco_log.specs.Grammar.{IsLog};
ghost use Rattle.coco_store.specs.Laws.{AfterCommit, AfterPrepared, BehindGates, KeepsLog, OneContents, WhileCommitted, WhilePrepared};
ghost use Rattle.coco_store.specs.Refusals.{OneRefusal, RefusedIsNone};
ghost use Rattle.coco_store.specs.StoreExamples.{StoreExamples};
ghost use Rattle.coco_store.specs.Switching.{AfterSwitch, WhereAllowed, WhileSwitch};

/// What small stores hold, byte by byte.
pub fn store_examples()
    ensures { StoreExamples }
{}

/// Files hold one store at most. Where one is a log, another that is a log of the same keeps it.
pub fn files_hold_one_store()
    ensures same { (kind : ℕ) (bodies : List (List ℕ)) (old new : List ℕ) → IsLog kind bodies old → IsLog kind bodies new → KeepsLog old new }
    ensures store { OneContents }
{}

/// What stands behind the last gates, or in a file that the layout doesn't name, has no meaning.
pub fn a_store_is_its_logs()
    ensures { BehindGates }
{}

/// A prepared entry of a new epoch leaves a good store as good as it was, with the same history, and
/// so does each moment of its append.
pub fn a_prepared_entry_keeps_the_store()
    ensures after { AfterPrepared }
    ensures meanwhile { WhilePrepared }
{}

/// A commit entry leaves a good store with its epoch behind the others, where every node has prepared
/// rows that come to that epoch's. At each moment of its append there is the old history or this one.
pub fn a_commit_entry_adds_its_epoch()
    ensures after { AfterCommit }
    ensures meanwhile { WhileCommitted }
{}

/// A layout more makes files a good store with other contents, where all else of these stands in the files already.
/// At each moment of its append the layouts are those of before, or this store is there.
pub fn a_layout_switches_the_store()
    ensures after { AfterSwitch }
    ensures meanwhile { WhileSwitch }
{}

/// Entries that keep the rules under one layout keep them under another of the same sizes and base epoch that has
/// no less room.
pub fn entries_stand_under_another_layout()
    ensures { WhereAllowed }
{}

/// Files that are refused hold no store, and one place in them is refused first.
pub fn a_refused_store_is_none()
    ensures none { RefusedIsNone }
    ensures one { OneRefusal }
{}
