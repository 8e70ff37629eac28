//! The rows of the store in hand.
ghost use Rattle.std.specs.Prelude.{◌≡◌, IfOk};
ghost use Rattle.coco_ast.specs.Keyed.{Rows};
ghost use Rattle.coco_finish.specs.Finishing.{HaveMap};
ghost use Rattle.coco_load.specs.RowMaps.{joined, map_with};

use crate::Cluster;
use coco_types::{MapRows, NoMemory};

impl Cluster {
    /// The rows of all partitions, each in key order: together they are the map that the tables have. Those of a node
    /// that has yet to promote its tables are its newest ones.
    pub fn rows(&self) -> Result<Vec<MapRows>, NoMemory>
        ensures { IfOk result (λ lists. (m : Rows) → HaveMap m self.now.members.tables → map_with (joined lists.items) ≡ m) }
    {
        let alloc = *self.body.allocator();
        let shards = self.members.tables.shards.as_slice();
        let mut lists = Vec::with_capacity(alloc, shards.len())?;
        for shard in shards {
            lists.push(shard.rows(false)?)?;
        }
        Ok(lists)
    }
}
