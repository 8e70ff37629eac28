//! Keys of rows.
ghost use Rattle.std.specs.Prelude.{◌≡◌, ◌<◌};
ghost use Rattle.coco_types.specs.RowKey.{key_cmp, partition_of};

use std::cmp::Ordering;
use std::marker::Model;

/// A row's key, ordered by table and then by row. Row numbers are below 2^63.
#[derive(Clone, Copy, Debug, PartialEq, Eq, PartialOrd, Ord, Hash)]
pub struct Key {
    pub table: u16,
    pub row: u64,
}

impl Model for Key {
    ghost use Rattle.std.specs.Prelude.{◌<◌, ◌^◌};
    ghost use Rattle.coco_types.specs.RowKey.{RowKey};

    ghost Value = { RowKey };

    ghost view = { λ k. record { table = k.table; row = k.row } };

    ghost invariant = { λ k. k.row < 2 ^ 63 };

    ghost inverse = { λ k. record { table = k.table; row = k.row } };
}

impl Key {
    /// The order of two keys, which is also that of `<`.
    pub fn compare(&self, other: &Key) -> Ordering
        ensures { result ≡ key_cmp self.now other.now }
    {
        self.cmp(other)
    }

    /// The partition of the row, of so many.
    pub fn partition(&self, count: usize) -> usize
        requires { 0 < count }
        ensures is { result ≡ partition_of count self.now }
        ensures within { result < count }
    {
        (self.row % count as u64) as usize
    }
}
