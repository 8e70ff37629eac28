//! The limits that several crates share, each named once.

ghost use Rattle.std.specs.Prelude.{◌≡◌, ◌^◌};

/// How many requests a store without a keep number keeps.
pub const MOST_KEPT: u64 = 1_048_576;

/// Of how many epochs the replies may be kept, at most.
pub const MOST_KEEP: u16 = 1_000;

/// How many arguments a call may have.
pub const MOST_ARGUMENTS: usize = 16;

/// How many bytes a text may have.
pub const MOST_TEXT_BYTES: usize = 256;

/// How many keys a call may touch.
pub const MOST_KEYS: u64 = 64;

/// How many turns a `repeat` may have.
pub const MOST_BOUND: u64 = 64;

/// How many turns repeats within each other may have in all.
pub const MOST_TURNS: u64 = 4_096;

/// How many tables, and how many procedures, a text of procedures may declare.
pub const MOST_DECLARED: usize = 60_000;

/// How many lines an epoch may have.
pub const MOST_BATCH_LINES: usize = 1_024;

/// How many bytes a line may have, without its line feed.
pub const MOST_LINE_BYTES: usize = 65_536;

/// How many bytes the text of procedures may have.
pub const MOST_PROCEDURE_BYTES: usize = 262_144;

/// The greatest logical time.
pub const MOST_TIME: u64 = 1 << 62;

/// The numbers of epochs are below this one.
pub const EPOCHS_END: u64 = 1 << 40;

/// How many bytes one run reads of its input.
pub const MOST_INPUT_BYTES: u64 = 1 << 62;

/// The bytes of a file stand at places below this one.
pub const FILES_END: u64 = 1 << 62;

/// How many nodes a store may have.
pub const MOST_NODES: u8 = 8;

/// How many partitions a store may have.
pub const MOST_PARTITIONS: u8 = 64;

/// How many copies of a partition there may be: one on each other node.
pub const MOST_COPIES: u8 = MOST_NODES - 1;

/// How many workers an epoch may have.
pub const MOST_WORKERS: u8 = 16;

/// How often an epoch may try a request.
pub const MOST_ATTEMPTS: u8 = 8;

/// The limits in numbers.
pub fn limits()
    ensures kept { MOST_KEPT ≡ 1048576 }
    ensures keep { MOST_KEEP ≡ 1000 }
    ensures arguments { MOST_ARGUMENTS ≡ 16 }
    ensures text_bytes { MOST_TEXT_BYTES ≡ 256 }
    ensures keys { MOST_KEYS ≡ 64 }
    ensures bound { MOST_BOUND ≡ 64 }
    ensures turns { MOST_TURNS ≡ 4096 }
    ensures declared { MOST_DECLARED ≡ 60000 }
    ensures batch_lines { MOST_BATCH_LINES ≡ 1024 }
    ensures line_bytes { MOST_LINE_BYTES ≡ 65536 }
    ensures procedure_bytes { MOST_PROCEDURE_BYTES ≡ 262144 }
    ensures time { MOST_TIME ≡ 2 ^ 62 }
    ensures epochs { EPOCHS_END ≡ 2 ^ 40 }
    ensures input_bytes { MOST_INPUT_BYTES ≡ 2 ^ 62 }
    ensures files { FILES_END ≡ 2 ^ 62 }
    ensures nodes { MOST_NODES ≡ 8 }
    ensures partitions { MOST_PARTITIONS ≡ 64 }
    ensures copies { MOST_COPIES ≡ 7 }
    ensures workers { MOST_WORKERS ≡ 16 }
    ensures attempts { MOST_ATTEMPTS ≡ 8 }
{}
