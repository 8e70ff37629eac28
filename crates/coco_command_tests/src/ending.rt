//! Each ending's status and line, and an error stream that fails.

use coco_ast::{CheckError, CheckKind};
use coco_ending::{Ending, TextError};
use coco_io::MemorySink;
use coco_lex::{LexError, LexKind};
use coco_parse::{ParseError, ParseKind};
use coco_types::OutFault;
use std::alloc::Global;
use std::test::Fail;

const LEX: LexError = LexError {
    at: 17,
    kind: LexKind::WideNumber,
};

/// Of `proc f() { refuse 1 }`.
pub const PARSE: ParseError = ParseError {
    at: 20,
    kind: ParseKind::Unexpected,
};

/// Of `proc f() { let x = 1; }`.
pub const CHECK: CheckError = CheckError {
    item: 1,
    statement: 0,
    kind: CheckKind::NoReply,
};

const ROWS: [(Ending, u8, &str); 19] = [
    (Ending::Finished, 0, ""),
    (Ending::BadCommandLine, 1, "coco: bad command line\n"),
    (Ending::ReadFault, 2, "coco: read fault\n"),
    (Ending::SayFault, 3, "coco: reply stream fault\n"),
    (Ending::DiskFault, 4, "coco: disk fault\n"),
    (
        Ending::Unreachable,
        5,
        "coco: nodes unreachable after four epochs\n",
    ),
    (Ending::NoMemory, 6, "coco: out of memory\n"),
    (
        Ending::NotAStore { file: 1, at: 8 },
        7,
        "coco: not a store: file 1 at byte 8\n",
    ),
    (Ending::EpochsUsedUp, 8, "coco: epochs used up\n"),
    (
        Ending::Refused(TextError::Long),
        9,
        "coco: procedures refused: long at byte 262144\n",
    ),
    (
        Ending::Refused(TextError::Lex(LEX)),
        9,
        "coco: procedures refused: wide number at byte 17\n",
    ),
    (
        Ending::Refused(TextError::Parse(PARSE)),
        9,
        "coco: procedures refused: unexpected at byte 20\n",
    ),
    (
        Ending::Refused(TextError::Check(CHECK)),
        9,
        "coco: procedures refused: no reply at item 1 statement 0\n",
    ),
    (
        Ending::AlreadyThere { bytes: 39 },
        10,
        "coco: already there: file 0 has 39 bytes\n",
    ),
    (
        Ending::NotSerial { place: 2 },
        11,
        "coco: not serial at 2\n",
    ),
    (
        Ending::NotSerial {
            place: 4_294_967_296,
        },
        11,
        "coco: not serial at 4294967296\n",
    ),
    (
        Ending::NoHolder { partition: 7 },
        12,
        "coco: partition 7 has no other holder\n",
    ),
    (
        Ending::NoNode { node: 1, nodes: 3 },
        13,
        "coco: no node 1 of 3\n",
    ),
    (
        Ending::NotWithin {
            epoch: 4,
            first: 0,
            last: 3,
        },
        14,
        "coco: epoch 4 is not in 0 to 3\n",
    ),
];

// Whether an ending has this status, and says this line.
fn ends_as(alloc: Global, ending: Ending, status: u8, line: &str) -> bool {
    let mut errs = MemorySink::new(alloc, Vec::new(alloc));
    let is_said = ending.complain(alloc, &mut errs).is_ok() && errs.bytes() == line.as_bytes();
    is_said && ending.status() == status
}

#[test]
fn each_ending_has_its_status_and_its_line(rt: HostRuntime) {
    for (ending, status, line) in ROWS {
        assert!(rt; ends_as(rt.alloc(), ending, status, line), "{line}");
    }
}

#[test]
fn a_fault_of_the_error_stream_is_told(rt: HostRuntime) -> Result<(), Fail> {
    let alloc = rt.alloc();
    let mut errs = MemorySink::new(alloc, vec![in alloc; 0]?);
    let complained = Ending::ReadFault.complain(alloc, &mut errs);
    assert!(rt; complained == Err(OutFault::Failed) && errs.bytes().is_empty());
    Ok(())
}
