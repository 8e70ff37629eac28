//! What tables that have maps of their own come to.

ghost use Rattle.coco_lost.specs.Laws.{FinishKeepsMaps, OneMapIsMany, ShardsHoldOne};

/// Tables of one map have each a map of its own; they keep these where nodes finish an epoch; and where no node is
/// behind the shards hold one map together again, as the next epoch wants it.
pub fn maps_of_tables()
    ensures one { OneMapIsMany }
    ensures rest { ShardsHoldOne }
    ensures finish { FinishKeepsMaps }
{}
