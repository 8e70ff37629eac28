//! What is in hand of all nodes and of the coordinator.

use coco_chief::ChiefCore;
use coco_finish::NodeTables;
use coco_letters::Voter;
use coco_log::Log;
use coco_node::NodeCore;

/// The nodes of a store and its coordinator: their cores, the log of each, and the tables of all nodes.
#[derive(Drop)]
pub struct Members {
    /// The coordinator's core.
    pub chief: ChiefCore,
    /// The commit entries.
    pub log: Log,
    /// The core of each node.
    pub cores: Vec<NodeCore>,
    /// What else is in hand of each node, but for its tables.
    pub voters: Vec<Voter>,
    /// The tables of all nodes, and which nodes have yet to promote theirs.
    pub tables: NodeTables,
}
