//! The worked store of one node, and a host that has it.

use coco_host::{Host, MemoryHost};
use coco_types::OutFault;
use std::alloc::Global;

/// One node, one partition, no copies, and an empty text.
pub const LAYOUTS: [u8; 39] = [
    b'C', b'O', b'C', b'O', b'L', b'O', b'G', 0, 1, 0, 0, 0, 25, 1, 1, 1, 1, 0, 0, 0, 0, 1, 0, 0,
    0, 2, 0, 0, 0, 0, 0, 0, 0, 0, 0, 0, 0, 0, 0,
];

/// put(5, 70) as id 1 in epoch 1.
pub const COMMITS: [u8; 75] = [
    b'C', b'O', b'C', b'O', b'L', b'O', b'G', 1, 1, 0, 0, 0, 61, 2, 0, 0, 0, 0, 0, 0, 0, 1, 0, 0,
    0, 1, 0, 0, 0, 0, 0, 0, 0, 1, 0, 1, 0, 2, 1, 0, 0, 0, 0, 0, 0, 0, 5, 1, 0, 0, 0, 0, 0, 0, 0,
    70, 0, 0, 0, 0, 0, 0, 0, 1, 0, 1, 0, 0, 0, 0, 0, 0, 0, 70, 0,
];

/// Its row.
pub const PREPARED: [u8; 54] = [
    b'C', b'O', b'C', b'O', b'L', b'O', b'G', 2, 1, 0, 0, 0, 40, 3, 0, 0, 0, 0, 0, 0, 0, 1, 0, 0,
    0, 1, 0, 0, 0, 0, 0, 0, 0, 0, 0, 5, 0, 0, 0, 0, 0, 0, 0, 1, 1, 0, 0, 0, 0, 0, 0, 0, 70, 0,
];

/// Writes these files.
pub fn fill<H: Host>(host: &mut H, files: &[(u32, &[u8])]) -> Result<(), OutFault> {
    for (file, bytes) in files {
        host.write_at(*file, 0, bytes)?;
    }
    Ok(())
}

/// A host that has these files.
pub fn host_with(alloc: Global, files: &[(u32, &[u8])]) -> Result<MemoryHost, OutFault> {
    let mut host = MemoryHost::new(alloc, Vec::new(alloc));
    fill(&mut host, files)?;
    Ok(host)
}
