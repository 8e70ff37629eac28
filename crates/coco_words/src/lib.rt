//! The words of the command line, and the command that they are.
#![tactic(auto)]

mod numbers;
mod reading;

ghost use Rattle.std.specs.Prelude.{◌≡◌, ℕ, List, map, Option, MatchOption, IfOk};
ghost use Rattle.std.specs.String.{string_bytes};
ghost use Rattle.clap.specs.Words.{first_value, found_of};
ghost use Rattle.coco_words.specs.Commands.{Agree, IsCommand, IsOnlyCommand, kind_of, name_of, numbers_of, options_for, options_of, reads_alone, run_numbers, run_options};
ghost use Rattle.coco_words.specs.Options.{AreInRange, AreNumbersOf};
ghost use Rattle.coco_words.specs.declared.Command.{Command as Asked};

use clap::ArgMatches;
use coco_types::limits::{
    EPOCHS_END, MOST_ATTEMPTS, MOST_BATCH_LINES, MOST_COPIES, MOST_KEEP, MOST_NODES,
    MOST_PARTITIONS, MOST_WORKERS,
};
use numbers::{NotANumber, found_number, number_of};
use reading::options_in;
use std::alloc::{AllocError, Global};
use std::error::Error;
use std::fmt;

/// The greatest seed of disturbances.
const MOST_DISTURB: u64 = (1 << 63) - 1;

/// How many calls a workload may have.
const MOST_CALLS: u64 = 1_000_000;

/// The greatest seed of a workload: ids of each seed are 64 bits wide.
const MOST_SEED: u64 = (1 << 43) - 1;

/// What the program is asked to do.
#[derive(Clone, Copy, Debug, PartialEq, Eq)]
pub enum Command {
    /// Make a store: of so many nodes and partitions, each with so many copies.
    Init {
        nodes: u8,
        partitions: u8,
        copies: u8,
    },
    /// Run request lines.
    Run(RunOptions),
    /// Say the Dones and the rows.
    Dump,
    /// Say whether the replies are those of a serial run.
    Verify,
    /// Keep the replies of so many of the last epochs, 1 to 1,000.
    Migrate {
        keep: u16,
    },
    /// Make the map and what is kept the base of new files.
    Compact,
    /// Make the file of a node again, 0 to 7.
    Rebuild {
        node: u8,
    },
    /// Answer request lines that only read, as the store was at the end of an epoch, by 1 to 16 readers.
    Query {
        at: u64,
        readers: u8,
    },
    /// Run a workload of so many calls, 1 to 1,000,000, that is made from a seed, 0 to 2^43 - 1.
    Try {
        calls: u32,
        seed: u64,
        options: RunOptions,
    },
}

/// The options of `run`, which `try` has too.
#[derive(Clone, Copy, Debug, PartialEq, Eq)]
pub struct RunOptions {
    /// How many lines make an epoch, 1 to 1,024.
    pub epoch: u32,
    /// How many workers run an epoch side by side, 1 to 16.
    pub workers: u8,
    /// How often the workers try a request, 1 to 8.
    pub attempts: u8,
    /// The seed of disturbances of the net, 0 to 2^63 - 1, where there shall be any.
    pub disturb: Option<u64>,
}

/// Why words are no command.
#[derive(Clone, Copy, Debug, PartialEq, Eq)]
pub enum WordsFault {
    /// The words are none of the commands.
    Usage,
    /// Memory ran out.
    NoMemory,
}

/// Which command, whatever its options.
#[derive(Clone, Copy, Debug, PartialEq, Eq)]
pub enum Kind {
    Init,
    Run,
    Dump,
    Verify,
    Migrate,
    Compact,
    Rebuild,
    Query,
    Try,
}

/// The command that the words are: its name, and then its options.
pub fn words(alloc: Global, words: &[String]) -> Result<Command, WordsFault>
    ensures ok { IfOk result (IsOnlyCommand (map string_bytes words.now)) }
    ensures range { IfOk result (λ command. AreInRange (options_of command) (numbers_of command)) }
    ensures usage { result ≡ Err WordsFault.Usage → (command : Asked) → IsCommand (map string_bytes words.now) command → ⊥ }
{
    let Some((name, options)) = words.split_first() else {
        return Err(WordsFault::Usage);
    };
    let Some(kind) = kind_named(name.as_str()) else {
        return Err(WordsFault::Usage);
    };
    let matches = options_in(alloc, kind, options)?;
    match command_with(kind, &matches) {
        Some(command) => Ok(command),
        None => Err(WordsFault::Usage),
    }
}

/// Whether the words ask for a command that only reads its store. Of words that are no command nothing is said.
pub fn only_reads(words: &[String]) -> bool
    ensures { (command : Asked) → IsCommand (map string_bytes words.now) command → result ≡ reads_alone (kind_of command) }
{
    let Some(name) = words.first() else {
        return false;
    };
    match kind_named(name.as_str()) {
        Some(kind) => kind.reads_alone(),
        None => false,
    }
}

impl Kind {
    // Whether the command only reads its store.
    fn reads_alone(self) -> bool
        ensures { result ≡ reads_alone self }
    {
        match self {
            Kind::Dump | Kind::Verify | Kind::Query => true,
            Kind::Init | Kind::Run | Kind::Migrate | Kind::Compact | Kind::Rebuild | Kind::Try =>
                false,
        }
    }
}

// The command that begins with this word.
fn kind_named(name: &str) -> Option<Kind>
    ensures { MatchOption result ((command : Asked) → name.now ≡ name_of (kind_of command) → ⊥) (λ kind. name.now ≡ name_of kind) }
{
    match name {
        "init" => Some(Kind::Init),
        "run" => Some(Kind::Run),
        "dump" => Some(Kind::Dump),
        "verify" => Some(Kind::Verify),
        "migrate" => Some(Kind::Migrate),
        "compact" => Some(Kind::Compact),
        "rebuild" => Some(Kind::Rebuild),
        "query" => Some(Kind::Query),
        "try" => Some(Kind::Try),
        _ => None,
    }
}

// The command of a kind whose options have these values.
fn command_with(kind: Kind, matches: &ArgMatches<'_>) -> Option<Command>
    ensures { MatchOption result
        ((numbers : List (Option ℕ)) → AreNumbersOf (first_value (found_of matches.now)) (options_for kind) numbers → Agree kind numbers → ⊥)
        (λ command. (kind_of command ≡ kind) × AreNumbersOf (first_value (found_of matches.now)) (options_for kind) (numbers_of command)
        × AreInRange (options_for kind) (numbers_of command) × Agree kind (numbers_of command)) }
{
    match kind {
        Kind::Init => store_to_make(matches),
        Kind::Run => Some(Command::Run(run_options(matches)?)),
        Kind::Dump => Some(Command::Dump),
        Kind::Verify => Some(Command::Verify),
        Kind::Migrate => {
            let keep = number_of(matches, "keep", None, 1, MOST_KEEP as u64)?;
            Some(Command::Migrate { keep: keep as u16 })
        }
        Kind::Compact => Some(Command::Compact),
        Kind::Rebuild => {
            let node = number_of(matches, "node", None, 0, MOST_NODES as u64 - 1)?;
            Some(Command::Rebuild { node: node as u8 })
        }
        Kind::Query => epoch_to_ask(matches),
        Kind::Try => calls_to_try(matches),
    }
}

// The options of `run` that have these values.
fn run_options(matches: &ArgMatches<'_>) -> Option<RunOptions>
    ensures { MatchOption result
        ((numbers : List (Option ℕ)) → AreNumbersOf (first_value (found_of matches.now)) run_options numbers → ⊥)
        (λ run. AreNumbersOf (first_value (found_of matches.now)) run_options (run_numbers run) × AreInRange run_options (run_numbers run)) }
{
    let epoch = number_of(matches, "epoch", Some(100), 1, MOST_BATCH_LINES as u64)?;
    let workers = number_of(matches, "workers", Some(1), 1, MOST_WORKERS as u64)?;
    let attempts = number_of(matches, "attempts", Some(3), 1, MOST_ATTEMPTS as u64)?;
    match found_number(matches, "disturb", 0, MOST_DISTURB) {
        Ok(disturb) => Some(RunOptions {
            epoch: epoch as u32,
            workers: workers as u8,
            attempts: attempts as u8,
            disturb,
        }),
        Err(NotANumber) => None,
    }
}

// The command `try` whose options have these values.
fn calls_to_try(matches: &ArgMatches<'_>) -> Option<Command>
    ensures { MatchOption result
        ((numbers : List (Option ℕ)) → AreNumbersOf (first_value (found_of matches.now)) (options_for Kind.Try) numbers → Agree Kind.Try numbers → ⊥)
        (λ command. (kind_of command ≡ Kind.Try) × AreNumbersOf (first_value (found_of matches.now)) (options_for Kind.Try) (numbers_of command)
        × AreInRange (options_for Kind.Try) (numbers_of command) × Agree Kind.Try (numbers_of command)) }
{
    let calls = number_of(matches, "calls", None, 1, MOST_CALLS)?;
    let seed = number_of(matches, "seed", None, 0, MOST_SEED)?;
    let options = run_options(matches)?;
    Some(Command::Try {
        calls: calls as u32,
        seed,
        options,
    })
}

// The command `query` whose options have these values.
fn epoch_to_ask(matches: &ArgMatches<'_>) -> Option<Command>
    ensures { MatchOption result
        ((numbers : List (Option ℕ)) → AreNumbersOf (first_value (found_of matches.now)) (options_for Kind.Query) numbers → Agree Kind.Query numbers → ⊥)
        (λ command. (kind_of command ≡ Kind.Query) × AreNumbersOf (first_value (found_of matches.now)) (options_for Kind.Query) (numbers_of command)
        × AreInRange (options_for Kind.Query) (numbers_of command) × Agree Kind.Query (numbers_of command)) }
{
    let at = number_of(matches, "at", None, 0, EPOCHS_END - 1)?;
    let readers = number_of(matches, "readers", Some(1), 1, MOST_WORKERS as u64)?;
    Some(Command::Query {
        at,
        readers: readers as u8,
    })
}

// The command `init` whose options have these values.
fn store_to_make(matches: &ArgMatches<'_>) -> Option<Command>
    ensures { MatchOption result
        ((numbers : List (Option ℕ)) → AreNumbersOf (first_value (found_of matches.now)) (options_for Kind.Init) numbers → Agree Kind.Init numbers → ⊥)
        (λ command. (kind_of command ≡ Kind.Init) × AreNumbersOf (first_value (found_of matches.now)) (options_for Kind.Init) (numbers_of command)
        × AreInRange (options_for Kind.Init) (numbers_of command) × Agree Kind.Init (numbers_of command)) }
{
    let nodes = number_of(matches, "nodes", Some(1), 1, MOST_NODES as u64)?;
    let partitions = number_of(matches, "partitions", Some(1), 1, MOST_PARTITIONS as u64)?;
    let copies = number_of(matches, "copies", Some(0), 0, MOST_COPIES as u64)?;
    if copies >= nodes {
        return None;
    }
    Some(Command::Init {
        nodes: nodes as u8,
        partitions: partitions as u8,
        copies: copies as u8,
    })
}

impl From<AllocError> for WordsFault {
    ghost use Rattle.coco_words.specs.declared.WordsFault.TheVariants.{NoMemory};

    ghost from_gives = { λ _ fault. fault ≡ NoMemory };

    fn from(_error: AllocError) -> WordsFault {
        WordsFault::NoMemory
    }
}

impl fmt::Display for WordsFault {
    ghost use Rattle.std.specs.Prelude.{Some};
    ghost use Rattle.coco_words.specs.Messages.{fault_text};

    ghost output = { λ x. Some (fault_text x) };

    fn fmt<W: fmt::Write>(&self, f: &mut fmt::Formatter<W>) -> fmt::Result {
        match self {
            WordsFault::Usage => f.write_str("bad command line"),
            WordsFault::NoMemory => f.write_str("out of memory"),
        }
    }
}

impl Error for WordsFault {}
