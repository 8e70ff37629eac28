//! Lists of rows as one map.

ghost use Rattle.std.specs.Prelude.{◌≡◌, map, IfOk, OnOk};
ghost use Rattle.coco_ast.specs.Keyed.{put_over};
ghost use Rattle.coco_load.specs.RowMaps.{as_write, joined, lent_map, map_with};

use coco_types::{Key, MapRows, Value};
use std::alloc::{AllocError, Global};
use std::collections::BTreeMap;

/// A map whose values stay where they are kept.
pub type LentMap<'a> = BTreeMap<Key, &'a Value>;

/// The map that the lists make together, later rows over earlier ones.
pub fn merged(alloc: Global, lists: &[MapRows]) -> Result<LentMap<'_>, AllocError>
    ensures { IfOk result (λ merged. lent_map merged ≡ map_with (joined lists.now)) }
{
    let mut merged = LentMap::new(alloc);
    for list in lists {
        merge(&mut merged, list.as_slice())?;
    }
    Ok(merged)
}

// Puts rows over those that are there.
fn merge<'a>(merged: &mut LentMap<'a>, rows: &'a [(Key, Value)]) -> Result<(), AllocError>
    ensures { OnOk result (lent_map merged.new ≡ put_over (lent_map merged.old) (map as_write rows.now)) }
{
    for (key, value) in rows {
        match merged.insert(*key, value) {
            Ok(_) => {}
            Err(_) => return Err(AllocError),
        }
    }
    Ok(())
}
