//! Words that are commands, and words that are none.

use coco_words::{Command, RunOptions, WordsFault, words};
use std::alloc::{AllocError, Global};

// Each row is a line that is no command. The first one is empty.
const NO_COMMANDS: &str = "
help
--help
--version
Run
run x
run help
run --help
run -h
run 
run --
run --epoch 5 --
run --epoch
run --epoch=
run --epoch 0
run --epoch 1025
run --epoch 00000000000000000001
run --epoch=1 --epoch=2
run --epoch +5
run --epoch 5 5
run --epo 5
run --partitions 5
run --workers 0
run --workers 17
run --attempts 9
run --workers 2 --workers 2
run --disturb
run --disturb -1
run --disturb 9223372036854775808
run --disturb 5 --disturb 5
run --seed 5
try
try --calls 1
try --seed 1
try --calls 0 --seed 1
try --calls 1000001 --seed 1
try --calls 1 --seed 8796093022208
try --calls 1 --seed 1 --epoch 0
try --calls 1 --calls 1 --seed 1
try --calls 1 --seed 1 --nodes 1
try 1 1
init --disturb 5
init --epoch 5
init --nodes 0
init --nodes 9
init --partitions 0
init --partitions 65
init --copies 1
init --copies 3 --nodes 3
init --nodes 8 --copies 8
init --partitions 2 --partitions 2
dump 1
dump --epoch 1
verify --
migrate
migrate --keep 0
migrate --keep 1001
migrate --keep 1 --keep 1
migrate 1
compact 1
rebuild
rebuild --node 8
rebuild --node -1
rebuild --node 0 --node 0
rebuild 0
query
query 0
query --at
query --readers 2
query --at 1099511627776
query --at -1
query --at 0 --at 0
query --at 0 --readers 0
query --at 0 --readers 17
query --at 0 --epoch 1
";

// The words of a line, which stand between single spaces.
fn words_of(alloc: Global, line: &str) -> Result<Vec<String>, AllocError> {
    let mut list = Vec::new(alloc);
    for word in line.split(' ') {
        list.push(word.to_string(alloc)?)?;
    }
    Ok(list)
}

fn asked(alloc: Global, line: &str) -> Result<Command, WordsFault> {
    words(alloc, words_of(alloc, line)?.as_slice())
}

fn is_refused(asked: Result<Command, WordsFault>) -> bool {
    asked == Err(WordsFault::Usage)
}

fn init(nodes: u8, partitions: u8, copies: u8) -> Command {
    Command::Init {
        nodes,
        partitions,
        copies,
    }
}

fn options(epoch: u32, workers: u8, attempts: u8, disturb: Option<u64>) -> RunOptions {
    RunOptions {
        epoch,
        workers,
        attempts,
        disturb,
    }
}

fn run(epoch: u32, workers: u8, attempts: u8) -> Command {
    Command::Run(options(epoch, workers, attempts, None))
}

fn run_disturbed(seed: u64) -> Command {
    Command::Run(options(100, 1, 3, Some(seed)))
}

fn attempt(calls: u32, seed: u64, options: RunOptions) -> Command {
    Command::Try {
        calls,
        seed,
        options,
    }
}

fn query(at: u64, readers: u8) -> Command {
    Command::Query { at, readers }
}

#[test]
fn each_command_has_the_numbers_that_are_given_or_its_own(rt: HostRuntime) {
    let cases = [
        ("run", run(100, 1, 3)),
        ("run --epoch 7", run(7, 1, 3)),
        ("run --epoch=007", run(7, 1, 3)),
        ("run --epoch 1024 --workers 16", run(1024, 16, 3)),
        ("run --attempts=8 --epoch=1", run(1, 1, 8)),
        ("run --attempts 1 --workers 2", run(100, 2, 1)),
        ("run --epoch 0000000000000000001", run(1, 1, 3)),
        ("run --disturb 0", run_disturbed(0)),
        (
            "run --disturb=9223372036854775807",
            run_disturbed(9_223_372_036_854_775_807),
        ),
        (
            "try --calls 2000 --seed 7",
            attempt(2_000, 7, options(100, 1, 3, None)),
        ),
        (
            "try --seed=8796093022207 --epoch 1 --calls=1000000 --disturb 5",
            attempt(1_000_000, 8_796_093_022_207, options(1, 1, 3, Some(5))),
        ),
        (
            "try --attempts 8 --workers 4 --calls 1 --seed 0",
            attempt(1, 0, options(100, 4, 8, None)),
        ),
        ("init", init(1, 1, 0)),
        ("init --partitions 64", init(1, 64, 0)),
        ("init --copies=0 --partitions=03 --nodes 1", init(1, 3, 0)),
        ("init --copies 2 --nodes 3", init(3, 1, 2)),
        ("init --nodes=8 --partitions=64 --copies=7", init(8, 64, 7)),
        ("dump", Command::Dump),
        ("verify", Command::Verify),
        ("migrate --keep 1", Command::Migrate { keep: 1 }),
        ("migrate --keep=1000", Command::Migrate { keep: 1_000 }),
        ("compact", Command::Compact),
        ("rebuild --node 0", Command::Rebuild { node: 0 }),
        ("rebuild --node=07", Command::Rebuild { node: 7 }),
        ("query --at 0", query(0, 1)),
        ("query --at 1099511627775", query(1_099_511_627_775, 1)),
        ("query --readers=16 --at=03", query(3, 16)),
    ];
    for (line, command) in cases {
        assert!(rt; asked(rt.alloc(), line) == Ok(command), "{line}");
    }
}

#[test]
fn other_words_are_no_command(rt: HostRuntime) {
    for line in NO_COMMANDS.lines() {
        assert!(rt; is_refused(asked(rt.alloc(), line)), "{line}");
    }
    assert!(rt; is_refused(words(rt.alloc(), &[])));
}
