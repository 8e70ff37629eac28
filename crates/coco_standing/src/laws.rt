//! What holds of a store's tables before an epoch, and behind one.

ghost use Rattle.coco_standing.specs.Laws.{AtRestKeep, AtRestShards, LoadedStand, NodesCount, PendingKeeps, PendingStands, SettledHold};

/// Settled shards, each of its partition, hold a map together.
pub fn settled_shards_hold_a_map()
    ensures { SettledHold }
{}

/// What a run of an epoch leaves, with each copy's last writes: every node is behind the map after the epoch, and to
/// revert gives the map before it.
pub fn pending_stands()
    ensures stands { PendingStands }
    ensures keeps { PendingKeeps }
{}

/// Tables that are loaded stand at their map, no node is behind, and their shards hold that map, as an epoch wants
/// it. Whether a number that is no node's is behind says nothing.
pub fn tables_at_rest()
    ensures loaded { LoadedStand }
    ensures shards { AtRestShards }
    ensures keep { AtRestKeep }
    ensures nodes { NodesCount }
{}
