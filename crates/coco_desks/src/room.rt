//! Lists with room, made before there is anything to put into them.

ghost use Rattle.std.specs.Prelude.{◌≡◌, All, vec_len, IfOk};
ghost use Rattle.coco_desks.specs.Desks.{HasRoom};

use coco_types::NoMemory;
use std::alloc::Global;

// Two lists, each with room for so many items. An empty list is let go as such, which asks nothing of its items' type.
pub(crate) fn two_lists<S, T>(alloc: Global, count: usize) -> Result<(Vec<S>, Vec<T>), NoMemory>
    ensures first { IfOk result (λ r. HasRoom count r.0) }
    ensures second { IfOk result (λ r. HasRoom count r.1) }
{
    let first = Vec::with_capacity(alloc, count)?;
    let Ok(second) = Vec::with_capacity(alloc, count) else {
        first.destroy_empty();
        return Err(NoMemory);
    };
    Ok((first, second))
}

// Rows for so many workers, each with room for so many items, and room for as many rows that come back.
pub(crate) fn rows_for<T: Drop>(
    alloc: Global,
    workers: u32,
    count: usize,
) -> Result<(Vec<Vec<T>>, Vec<Vec<T>>), NoMemory>
    ensures count { IfOk result (λ r. vec_len r.0 ≡ workers) }
    ensures rows { IfOk result (λ r. All (λ row. HasRoom count row) r.0.items) }
    ensures back { IfOk result (λ r. HasRoom workers r.1) }
{
    let (mut rows, back) = two_lists(alloc, workers as usize)?;
    for _ in 0..workers {
        let Ok(row) = Vec::with_capacity(alloc, count) else {
            return Err(NoMemory);
        };
        rows.push_reserved(row);
    }
    Ok((rows, back))
}
