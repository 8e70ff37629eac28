//! The layout of a store that has another file for one of its nodes.

ghost use Rattle.std.specs.Prelude.{◌≡◌, ◌<◌, ◌^◌, None, length, slice_set, IfOk};
ghost use Rattle.coco_rebuild.specs.Rebuilding.{new_file};

use coco_entry::{Files, Layout};
use coco_make::free_files;
use coco_types::NoMemory;
use std::alloc::Global;

/// The least number of a file that neither the layout names nor the base file has.
pub fn new_file(alloc: Global, layout: &Layout, base_file: Option<u32>) -> Result<u32, NoMemory>
    requires { length layout.now.node_files < 2 ^ 8 }
    ensures { IfOk result (λ file. file ≡ new_file (record { layout = layout.now; keep = None; base_file = base_file })) }
{
    let mut files = free_files(alloc, layout, base_file, 1)?;
    Ok(files.remove(0))
}

/// The layout with this file for the node. It takes no memory.
pub fn with_file(layout: Layout, node: u8, file: u32) -> Layout
    requires { node < length layout.node_files }
    ensures { result ≡ record layout { node_files = slice_set layout.node_files node file } }
{
    let Layout {
        nodes,
        partitions,
        copies,
        chief_file,
        node_files,
        base_epoch,
        text,
    } = layout;
    let mut files = node_files.into_vec();
    files[usize::from(node)] = file;
    Layout {
        nodes,
        partitions,
        copies,
        chief_file,
        node_files: Files::from_vec(files),
        base_epoch,
        text,
    }
}
