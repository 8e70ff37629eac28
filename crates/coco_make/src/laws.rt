//! What the files of a new store are.

ghost use Rattle.coco_make.specs.NewStore.{NewLogsAreAStore};

/// Files in which the log of layouts has the layout of a new store, and the logs of the coordinator and of each node
/// have no entries, are a good store with an empty history.
pub fn new_logs_are_a_store()
    ensures { NewLogsAreAStore }
{}
