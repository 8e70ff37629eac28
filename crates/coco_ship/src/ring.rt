//! Where partitions and their copies stand.

ghost use Rattle.std.specs.Prelude.{◌≡◌, ◌≢◌, ℕ, ◌*◌, ◌<◌, ◌≤◌, MatchOption};
ghost use Rattle.coco_ship.specs.Placing.{holder_of, primary_of, table_of, IsCopy, IsRing};

/// So many nodes in a ring, partitions, and copies of each. The primary of a partition is the node of its number
/// modulo the nodes; its copies are on the nodes that follow round the ring.
#[derive(Clone, Copy, Debug, PartialEq, Eq)]
pub struct Ring {
    pub nodes: u8,
    pub partitions: u8,
    pub copies: u8,
}

impl Ring {
    /// The node that is the primary of a partition.
    pub fn primary(self, partition: u8) -> u8
        requires { 1 ≤ self.nodes }
        ensures value { result ≡ primary_of self partition }
        ensures within { result < self.nodes }
    {
        partition % self.nodes
    }

    /// The node of a copy of a partition, copies counted from 0.
    pub fn holder(self, partition: u8, copy: u8) -> u8
        requires { 1 ≤ self.nodes }
        ensures value { result ≡ holder_of self partition copy }
        ensures within { result < self.nodes }
    {
        ((partition as u32 + copy as u32 + 1) % self.nodes as u32) as u8
    }

    /// How many copies there are in all.
    pub fn tables(self) -> usize
        ensures { result ≡ self.partitions * self.copies }
    {
        self.partitions as usize * self.copies as usize
    }

    /// The number of a copy of a partition among all, which stand in the order of partitions.
    pub fn table(self, partition: u8, copy: u8) -> usize
        requires { IsCopy self partition copy }
        ensures value { result ≡ table_of self partition copy }
        ensures within { result < self.partitions * self.copies }
    {
        partition as usize * self.copies as usize + copy as usize
    }

    /// The number of the copy of a partition that a node holds.
    pub fn table_on(self, partition: u8, node: u8) -> Option<usize>
        requires { IsRing self }
        ensures { MatchOption result ((j : ℕ) → IsCopy self partition j → holder_of self partition j ≢ node)
            (λ t. (j : ℕ) × IsCopy self partition j × (holder_of self partition j ≡ node) × (t ≡ table_of self partition j)) }
    {
        if partition >= self.partitions {
            return None;
        }
        for copy in 0..self.copies {
            if self.holder(partition, copy) == node {
                return Some(self.table(partition, copy));
            }
        }
        None
    }
}
