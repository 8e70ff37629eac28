//! What holds of a shard, whatever is asked.

ghost use Rattle.std.specs.Prelude.{◌≡◌, ℕ, List, Option};
ghost use Rattle.std.specs.FinMap.{empty, insert};
ghost use Rattle.coco_types.specs.RowKey.{RowKey, partition_of};
ghost use Rattle.coco_types.specs.declared.value.Value.{Value as Datum};
ghost use Rattle.coco_shard.specs.declared.ops.Ask.{Ask as Asked};
ghost use Rattle.coco_shard.specs.RowState.{RowState, ShardState, Holds, IsOfPartition, loaded, newest_at, row_at, stable_at};
ghost use Rattle.coco_shard.specs.Table.{after_ask, key_of};
ghost use Rattle.coco_shard.specs.Law.{Entry, IsAnswered, IsLawful, law_row, after_asks, asks_of};

/// A journal of a shard's answers, from an opening map on, is lawful, and the rows at its end are the law's.
pub fn answers_are_lawful()
    ensures journal { (opening : RowKey → Option Datum) (s : ShardState) (journal : List Entry) → Holds opening s → IsAnswered s journal → IsLawful opening journal }
    ensures rows { (opening : RowKey → Option Datum) (s : ShardState) (journal : List Entry) → Holds opening s → IsAnswered s journal →
        (key : RowKey) → row_at (after_asks s (asks_of journal)) key ≡ law_row opening key journal }
{}

/// A shard of one partition stays one, as long as it is asked for keys of that partition alone.
pub fn partitions_stay()
    ensures none { (count p : ℕ) → IsOfPartition count p empty }
    ensures asked { (count p : ℕ) (s : ShardState) (ask : Asked) → partition_of count (key_of ask.op) ≡ p → IsOfPartition count p s → IsOfPartition count p (after_ask s ask) }
    ensures put { (count p : ℕ) (s : ShardState) (key : RowKey) (row : RowState) → partition_of count key ≡ p → IsOfPartition count p s → IsOfPartition count p (insert s key row) }
    ensures loaded { (count p : ℕ) (s : ShardState) (key : RowKey) (value : Option Datum) → partition_of count key ≡ p → IsOfPartition count p s → IsOfPartition count p (loaded s key value) }
    ensures promoted { (count p : ℕ) (s t : ShardState) → Holds (newest_at s) t → IsOfPartition count p s → IsOfPartition count p t }
    ensures reverted { (count p : ℕ) (s t : ShardState) → Holds (stable_at s) t → IsOfPartition count p s → IsOfPartition count p t }
{}
