//! The bytes of a new store.

use crate::made::{LAYOUTS, NO_COMMITS, NONE_PREPARED, has_bytes};
use coco_host::{Host, MemoryHost};
use coco_make::{MakeFault, make_store, new_layout};
use coco_types::Bytes;
use std::alloc::Global;
use std::test::Fail;

fn make<H: Host>(alloc: Global, host: &mut H) -> Result<(), MakeFault> {
    let layout = new_layout(alloc, 1, 1, 0, Bytes::new(alloc))?;
    make_store(alloc, host, &layout)
}

// Whether a new store has these three files and no fourth one.
fn has_three_files(alloc: Global) -> Result<bool, MakeFault> {
    let mut host = MemoryHost::new(alloc, Vec::new(alloc));
    make(alloc, &mut host)?;
    let has_layouts = has_bytes(&mut host, 0, &LAYOUTS);
    let has_logs = has_bytes(&mut host, 1, &NO_COMMITS) && has_bytes(&mut host, 2, &NONE_PREPARED);
    Ok(has_layouts && has_logs && has_bytes(&mut host, 3, &[]))
}

#[test]
fn a_new_store_has_three_files(rt: HostRuntime) -> Result<(), Fail> {
    assert!(rt; has_three_files(rt.alloc())?);
    Ok(())
}

#[test]
fn faults_are_readable(rt: HostRuntime) -> Result<(), Fail> {
    let said = format!(in rt.alloc(); "{}; {}", MakeFault::Disk, MakeFault::NoMemory)?;
    assert_eq!(rt; said.as_str(), "disk fault; out of memory");
    Ok(())
}
