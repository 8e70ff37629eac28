//! What several tests of a store's bytes stand on: a call that was committed, the worked store of one node, hosts, and
//! what their files and rows have.

ghost use Rattle.std.specs.Prelude.{◌≡◌, IfOk};

use coco_host::{Host, MemoryHost};
use coco_types::{Args, Call, Done, KeptReply, NoMemory, OutFault, Packed, Value};
use std::alloc::Global;

/// One node, one partition, no copies, and an empty text.
pub const LAYOUTS: [u8; 39] = [
    b'C', b'O', b'C', b'O', b'L', b'O', b'G', 0, 1, 0, 0, 0, 25, 1, 1, 1, 1, 0, 0, 0, 0, 1, 0, 0,
    0, 2, 0, 0, 0, 0, 0, 0, 0, 0, 0, 0, 0, 0, 0,
];

/// put(5, 70) as id 1 in epoch 1.
pub const COMMITS: [u8; 75] = [
    b'C', b'O', b'C', b'O', b'L', b'O', b'G', 1, 1, 0, 0, 0, 61, 2, 0, 0, 0, 0, 0, 0, 0, 1, 0, 0,
    0, 1, 0, 0, 0, 0, 0, 0, 0, 1, 0, 1, 0, 2, 1, 0, 0, 0, 0, 0, 0, 0, 5, 1, 0, 0, 0, 0, 0, 0, 0,
    70, 0, 0, 0, 0, 0, 0, 0, 1, 0, 1, 0, 0, 0, 0, 0, 0, 0, 70, 0,
];

/// Its row.
pub const PREPARED: [u8; 54] = [
    b'C', b'O', b'C', b'O', b'L', b'O', b'G', 2, 1, 0, 0, 0, 40, 3, 0, 0, 0, 0, 0, 0, 0, 1, 0, 0,
    0, 1, 0, 0, 0, 0, 0, 0, 0, 0, 0, 5, 0, 0, 0, 0, 0, 0, 0, 1, 1, 0, 0, 0, 0, 0, 0, 0, 70, 0,
];

/// The layout of the worked store, and behind it one from epoch 2 on with a base in file 3.
pub const TWO_LAYOUTS: [u8; 75] = [
    b'C', b'O', b'C', b'O', b'L', b'O', b'G', 0, 1, 0, 0, 0, 25, 1, 1, 1, 1, 0, 0, 0, 0, 1, 0, 0,
    0, 2, 0, 0, 0, 0, 0, 0, 0, 0, 0, 0, 0, 0, 1, 0, 0, 0, 31, 1, 3, 1, 1, 0, 0, 0, 0, 4, 0, 0, 0,
    5, 0, 0, 0, 0, 0, 0, 0, 2, 0, 0, 0, 0, 0, 0, 0, 0, 0, 3, 0,
];

/// The base: put(5, 70) as id 1, get(5) as id 2, and the row.
pub const BASE: [u8; 190] = [
    b'C', b'O', b'C', b'O', b'L', b'O', b'G', 3, 1, 0, 0, 0, 34, 4, 0, 0, 0, 0, 0, 0, 0, 2, 0, 0,
    0, 0, 0, 0, 0, 0, 0, 0, 0, 0, 0, 0, 0, 0, 2, 0, 0, 0, 0, 0, 0, 0, 1, 1, 0, 0, 0, 108, 5, 0, 0,
    0, 2, 0, 0, 0, 0, 0, 0, 0, 1, 0, 0, 0, 0, 0, 0, 0, 1, 0, 1, 0, 2, 1, 0, 0, 0, 0, 0, 0, 0, 5, 1,
    0, 0, 0, 0, 0, 0, 0, 70, 0, 0, 0, 0, 0, 0, 0, 1, 0, 1, 0, 0, 0, 0, 0, 0, 0, 70, 0, 0, 0, 0, 0,
    0, 0, 2, 0, 0, 0, 0, 0, 0, 0, 2, 0, 0, 0, 1, 1, 0, 0, 0, 0, 0, 0, 0, 5, 0, 0, 0, 0, 0, 0, 0, 1,
    0, 1, 0, 0, 0, 0, 0, 0, 0, 70, 1, 0, 0, 0, 24, 6, 0, 0, 0, 1, 0, 0, 0, 0, 0, 0, 0, 0, 0, 5, 1,
    0, 0, 0, 0, 0, 0, 0, 70, 0,
];

/// put(5, 70) as id 1 in epoch 1, and epoch 3, which has no request.
pub const TWO_COMMITS: [u8; 93] = [
    b'C', b'O', b'C', b'O', b'L', b'O', b'G', 1, 1, 0, 0, 0, 61, 2, 0, 0, 0, 0, 0, 0, 0, 1, 0, 0,
    0, 1, 0, 0, 0, 0, 0, 0, 0, 1, 0, 1, 0, 2, 1, 0, 0, 0, 0, 0, 0, 0, 5, 1, 0, 0, 0, 0, 0, 0, 0,
    70, 0, 0, 0, 0, 0, 0, 0, 1, 0, 1, 0, 0, 0, 0, 0, 0, 0, 70, 1, 0, 0, 0, 13, 2, 0, 0, 0, 0, 0, 0,
    0, 3, 0, 0, 0, 0, 0,
];

/// What the node prepared for them.
pub const TWO_PREPARED: [u8; 72] = [
    b'C', b'O', b'C', b'O', b'L', b'O', b'G', 2, 1, 0, 0, 0, 40, 3, 0, 0, 0, 0, 0, 0, 0, 1, 0, 0,
    0, 1, 0, 0, 0, 0, 0, 0, 0, 0, 0, 5, 0, 0, 0, 0, 0, 0, 0, 1, 1, 0, 0, 0, 0, 0, 0, 0, 70, 1, 0,
    0, 0, 13, 3, 0, 0, 0, 0, 0, 0, 0, 3, 0, 0, 0, 0, 0,
];

/// A commit log without entries.
pub const NO_COMMITS: [u8; 9] = *b"COCOLOG\x01\x00";

/// A node's log without entries.
pub const NONE_PREPARED: [u8; 9] = *b"COCOLOG\x02\x00";

/// `put(5, 70)` as id 1, committed in epoch 1 at time 1.
pub fn put_of_seventy(alloc: Global) -> Result<Done, NoMemory>
    ensures { IfOk result (λ done. done.epoch ≡ 1) }
{
    let mut args = Args::new(alloc);
    args.push_packed(Packed::of_int(5))?;
    args.push_packed(Packed::of_int(70))?;
    Ok(Done {
        id: 1,
        call: Call {
            proc_no: 1,
            snapshot: false,
            args,
        },
        epoch: 1,
        time: 1,
        reply: KeptReply::answered(Packed::of_int(70)),
    })
}

/// The number that a row has, if it has one.
pub fn number(value: Option<Value>) -> Option<i64> {
    match value {
        Some(Value::Int(number)) => Some(number),
        _ => None,
    }
}

/// The numbers of files, with their bytes.
pub type Files = &'static [(u32, &'static [u8])];

/// A host that has these files.
pub fn host_with(alloc: Global, files: &[(u32, &[u8])]) -> Result<MemoryHost, OutFault> {
    let mut host = MemoryHost::new(alloc, Vec::new(alloc));
    for (file, bytes) in files {
        host.write_at(*file, 0, bytes)?;
    }
    Ok(host)
}

/// Whether a file has just these bytes, fewer than 128.
pub fn has_bytes<H: Host>(host: &mut H, file: u32, bytes: &[u8]) -> bool {
    let mut read = [0; 128];
    match host.read_at(file, 0, &mut read) {
        Ok(count) => &read[..count] == bytes,
        Err(_) => false,
    }
}
