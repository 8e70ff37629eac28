//! What holds while a store's files are read, and once they are.

ghost use Rattle.coco_load.specs.Laws.{AllIsRead, BaseDonesFollow, BaseGrows, CommittedDonesFollow, CommittedIsRead, EpochsBegin, KeptAreTheHistory, NodesDecide, OtherIsPassed, ReadingBegins, TablesHoldTheMap};

/// The tables hold the base, and over it what the entries that were read say. In the end each table holds its rows by
/// the file of its node, and where those are the history's, its partition of the history's map.
pub fn tables_follow_the_files()
    ensures base { BaseGrows }
    ensures begins { ReadingBegins }
    ensures committed { CommittedIsRead }
    ensures other { OtherIsPassed }
    ensures nodes { NodesDecide }
    ensures all { AllIsRead }
    ensures map { TablesHoldTheMap }
{}

/// Dones that stand in good files may be added one entry after another, and in the end the kept ones and the floor are
/// the history's.
pub fn kept_dones_follow_the_files()
    ensures base { BaseDonesFollow }
    ensures committed { CommittedDonesFollow }
    ensures history { KeptAreTheHistory }
{}

/// The first number that comes next is the one behind the base's.
pub fn epochs_begin_with_the_base()
    ensures { EpochsBegin }
{}
