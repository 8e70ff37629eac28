//! A flag for each node.

ghost use Rattle.std.specs.Prelude.{◌≡◌, false, true, replicate, slice_index_or, slice_set, length, ◌<◌, IfOk};
ghost use Rattle.std.specs.List.{list_all};

use coco_types::NoMemory;
use std::alloc::Global;

/// So many flags that are down.
pub fn all_down(alloc: Global, count: u8) -> Result<Vec<bool>, NoMemory>
    ensures { IfOk result (λ flags. flags.items ≡ replicate count false) }
{
    Ok(vec![in alloc; false; count as usize]?)
}

/// Whether all flags are up.
pub fn are_all_up(flags: &[bool]) -> bool
    ensures { result ≡ list_all (λ flag. flag) flags.now }
{
    flags.iter().all(|flag| *flag)
}

/// Whether a flag is up. One that isn't there is down.
pub fn is_up(flags: &[bool], at: u8) -> bool
    ensures { result ≡ slice_index_or flags.now at false }
{
    flags.get(at as usize).copied().unwrap_or(false)
}
