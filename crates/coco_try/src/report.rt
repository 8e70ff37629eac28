//! What is told of a workload that was worked off.

ghost use Rattle.std.specs.Prelude.{◌≡◌, ◌<◌, length, IfOk};
ghost use Rattle.coco_load.specs.RowMaps.{joined, lent_map, map_with};
ghost use Rattle.coco_try.specs.Report.{amount_in, report_text, sum_in};

use crate::one_part::Tally;
use coco_load::{LentMap, merged};
use coco_types::{Key, MapRows, NoMemory, Value};
use std::alloc::Global;

/// The number of table `main`, which every store has as its first one.
const MAIN: u16 = 0;

/// The three lines of a workload that came to this, of the rows of all partitions.
pub fn report_of(alloc: Global, worked: Tally, lists: &[MapRows]) -> Result<Vec<u8>, NoMemory>
    ensures { IfOk result (λ text. text.items ≡ report_text worked.answered worked.epochs (sum_in (map_with (joined lists.now)))) }
{
    let rows = merged(alloc, lists)?;
    let sum = sum_of(&rows);
    text_of(alloc, worked, sum)
}

// The three lines.
fn text_of(alloc: Global, worked: Tally, sum: i128) -> Result<Vec<u8>, NoMemory>
    ensures { IfOk result (λ text. text.items ≡ report_text worked.answered worked.epochs sum) }
{
    let Tally { answered, epochs } = worked;
    let lines = format!(in alloc; "calls {answered}\nepochs {epochs}\nsum {sum}\n")?;
    Ok(lines.into_bytes())
}

// The sum of the whole numbers in table `main`.
fn sum_of(rows: &LentMap<'_>) -> i128
    ensures { result ≡ sum_in (lent_map rows.now) }
{
    // It tells that they can be counted, so that the sum fits.
    let _count = rows.len();
    let mut sum = 0;
    for (key, value) in rows {
        sum += i128::from(amount_in(*key, value));
    }
    sum
}

// The whole number in a row of table `main`, and else 0.
fn amount_in(key: Key, value: &Value) -> i64
    ensures { result ≡ amount_in (key, value.now) }
{
    match value {
        Value::Int(number) if key.table == MAIN => *number,
        Value::Int(_) | Value::Text(_) => 0,
    }
}
