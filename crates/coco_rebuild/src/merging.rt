//! Two lists of rows as one, by key.

ghost use Rattle.std.specs.Prelude.{◌≡◌, ◌⊎◌, None, [], ◌∷◌, ◌++◌, IfOk, MatchOption};
ghost use Rattle.coco_bytes.specs.Lists.{FitInTurn};
ghost use Rattle.coco_entry.specs.Rows.{RowRises};
ghost use Rattle.coco_rebuild.specs.Sources.{EndsBelow, HaveOtherKeys, Interleaves};

use coco_entry::Row;
use coco_types::NoMemory;
use std::alloc::Global;
use std::cmp::Ordering;

/// The rows of both lists, each of which rises by key. No key stands in both. The rows are moved.
pub fn merged(alloc: Global, mut rows: Vec<Row>, mut others: Vec<Row>) -> Result<Vec<Row>, NoMemory>
    requires rise { FitInTurn RowRises None rows.items × FitInTurn RowRises None others.items }
    requires apart { HaveOtherKeys rows.items others.items }
    ensures rise { IfOk result (λ merged. FitInTurn RowRises None merged.items) }
    ensures both { IfOk result (λ merged. Interleaves rows.items others.items merged.items) }
{
    let mut merged = Vec::new(alloc);
    // From the greatest key down, since a list gives up its last row without moving the others.
    while let Some(row) = take_last(&mut rows, &mut others) {
        merged.push(row)?;
    }
    merged.reverse();
    Ok(merged)
}

// Takes the last row of the list whose last row has the greater key.
fn take_last(rows: &mut Vec<Row>, others: &mut Vec<Row>) -> Option<Row>
    requires { HaveOtherKeys rows.old.items others.old.items }
    ensures { MatchOption result ((rows.old.items ≡ []) × (others.old.items ≡ []))
        (λ row. ((rows.old.items ≡ rows.new.items ++ row ∷ []) × (others.new.items ≡ others.old.items) × EndsBelow others.old.items row)
        ⊎ ((others.old.items ≡ others.new.items ++ row ∷ []) × (rows.new.items ≡ rows.old.items) × EndsBelow rows.old.items row)) }
{
    let is_other = match (rows.last(), others.last()) {
        (Some(row), Some(other)) => row.key.compare(&other.key) == Ordering::Less,
        (Some(_), None) => false,
        (None, _) => true,
    };
    if is_other { others.pop() } else { rows.pop() }
}
