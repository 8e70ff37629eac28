//! Numbers for files that are to be made beside those of a store.

ghost use Rattle.std.specs.Prelude.{◌≡◌, ℕ, ◌+◌, ◌<◌, ◌^◌, None, length, IfOk, not};
ghost use Rattle.std.specs.List.{filter, range_with_len};
ghost use Rattle.coco_entry.specs.Layouts.{is_named};
ghost use Rattle.coco_store.specs.Entries.{files_of};
ghost use Rattle.coco_make.specs.Free.{free_files};

use coco_entry::Layout;
use coco_types::NoMemory;
use std::alloc::Global;

/// The least so many numbers from 1 on of files that neither the layout names nor the base file has.
pub fn free_files(
    alloc: Global,
    layout: &Layout,
    base_file: Option<u32>,
    count: u8,
) -> Result<Vec<u32>, NoMemory>
    requires { length layout.now.node_files < 2 ^ 8 }
    ensures { IfOk result (λ files. files.items ≡ free_files (files_of (record { layout = layout.now; keep = None; base_file = base_file })) count) }
{
    let named = named_files(alloc, layout, base_file)?;
    let mut free = unnamed(
        alloc,
        named.as_slice(),
        u32::from(count) + named.len() as u32,
    )?;
    free.truncate(usize::from(count));
    Ok(free)
}

// The files that a layout names, its own first and its base file last.
fn named_files(alloc: Global, layout: &Layout, base_file: Option<u32>) -> Result<Vec<u32>, NoMemory>
    ensures { IfOk result (λ files. files.items ≡ files_of (record { layout = layout.now; keep = None; base_file = base_file })) }
{
    let mut named = vec![in alloc; 0, layout.chief_file]?;
    named.extend_from_slice(layout.node_files.as_slice())?;
    if let Some(file) = base_file {
        named.push(file)?;
    }
    Ok(named)
}

// Those of the first so many numbers from 1 on that aren't among these.
fn unnamed(alloc: Global, named: &[u32], count: u32) -> Result<Vec<u32>, NoMemory>
    requires { count + 1 < 2 ^ 32 }
    ensures { IfOk result (λ files. files.items ≡ filter (λ f. not (is_named named.now f)) (range_with_len 1 count)) }
{
    let mut free = Vec::new(alloc);
    for place in 0..count {
        let file = 1 + place;
        if !named.contains(&file) {
            free.push(file)?;
        }
    }
    Ok(free)
}
