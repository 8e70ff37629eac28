//! What holds of contents that nodes have voted on.

ghost use Rattle.std.specs.Prelude.{◌≡◌, ℕ, Bool};
ghost use Rattle.coco_store.specs.Contents.{Contents, history_of};
ghost use Rattle.coco_vote.specs.Preparing.{Ballot, HavePrepared};

/// Whichever nodes have prepared an epoch, the history is that of before.
pub fn voted_stores_keep_their_history()
    ensures { (c d : Contents) (b : Ballot) (has : ℕ → Bool) → HavePrepared c b has d → history_of d ≡ history_of c }
{}
