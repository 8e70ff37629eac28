//! The options among the words, as `clap` reads them.
ghost use Rattle.std.specs.Prelude.{◌≡◌, ℕ, List, Option, map, codes, IfOk};
ghost use Rattle.std.specs.List.{list_any};
ghost use Rattle.std.specs.Str.{bytes_eq};
ghost use Rattle.std.specs.String.{string_bytes};
ghost use Rattle.clap.specs.Words.{app_of, kind_of};
ghost use Rattle.coco_words.specs.Commands.{options_for, run_options};
ghost use Rattle.coco_words.specs.Matches.{HasValuesOf, app_for, with_named, with_names};
ghost use Rattle.coco_words.specs.Options.{GivesNumbers, GivesOptions, Text, names_in};

use crate::{Kind, WordsFault};
use clap::error::ErrorKind;
use clap::{Arg, ArgMatches, Command};
use std::alloc::{AllocError, Global};

// What the words give for the options of a command. To `clap` a `--` is none of them and no fault, so it is refused first.
pub(crate) fn options_in<'a>(
    alloc: Global,
    kind: Kind,
    words: &'a [String],
) -> Result<ArgMatches<'a>, WordsFault>
    ensures reads { IfOk result (λ matches. (options : List (Text × Text)) × GivesOptions (names_in (options_for kind)) (map string_bytes words.now) options × HasValuesOf matches options) }
    ensures only { IfOk result (λ matches. (numbers : List (Option ℕ)) (gives : GivesNumbers (options_for kind) (map string_bytes words.now) numbers) → HasValuesOf matches gives.0) }
    ensures usage { result ≡ Err WordsFault.Usage → (numbers : List (Option ℕ)) → GivesNumbers (options_for kind) (map string_bytes words.now) numbers → ⊥ }
{
    if has_dashes(words) {
        return Err(WordsFault::Usage);
    }
    let command = parser_for(alloc, kind)?;
    match command.try_get_matches_from(words) {
        Ok(matches) => Ok(matches),
        Err(error) => Err(WordsFault::from(error)),
    }
}

// Whether a word is `--` alone.
fn has_dashes(words: &[String]) -> bool
    ensures { result ≡ list_any (λ word. bytes_eq (string_bytes word) (codes "--")) words.now }
{
    words.iter().any(|word| word.as_str() == "--")
}

// What `clap` is told of a command's options.
fn parser_for<'a>(alloc: Global, kind: Kind) -> Result<Command<'a>, AllocError>
    ensures { IfOk result (λ command. app_of command ≡ app_for (names_in (options_for kind))) }
{
    let none = Command::new(alloc, "coco")
        .no_binary_name(true)
        .disable_help_flag(true);
    match kind {
        Kind::Init => {
            let nodes = with_option(alloc, none, "nodes")?;
            let partitions = with_option(alloc, nodes, "partitions")?;
            with_option(alloc, partitions, "copies")
        }
        Kind::Run => with_run_options(alloc, none),
        Kind::Dump => Ok(none),
        Kind::Verify => Ok(none),
        Kind::Migrate => with_option(alloc, none, "keep"),
        Kind::Compact => Ok(none),
        Kind::Rebuild => with_option(alloc, none, "node"),
        Kind::Query => {
            let at = with_option(alloc, none, "at")?;
            with_option(alloc, at, "readers")
        }
        Kind::Try => {
            let calls = with_option(alloc, none, "calls")?;
            let seed = with_option(alloc, calls, "seed")?;
            with_run_options(alloc, seed)
        }
    }
}

// The same command with the options of `run` more.
fn with_run_options<'a>(alloc: Global, command: Command<'a>) -> Result<Command<'a>, AllocError>
    ensures { IfOk result (λ more. app_of more ≡ with_names (app_of command.entry) (names_in run_options)) }
{
    let epoch = with_option(alloc, command, "epoch")?;
    let workers = with_option(alloc, epoch, "workers")?;
    let attempts = with_option(alloc, workers, "attempts")?;
    with_option(alloc, attempts, "disturb")
}

// The same command with one option more.
fn with_option<'a>(
    alloc: Global,
    command: Command<'a>,
    name: &'a str,
) -> Result<Command<'a>, AllocError>
    ensures { IfOk result (λ more. app_of more ≡ with_named (app_of command.entry) name.entry.now) }
{
    command.arg(Arg::new(alloc, name).long(name))
}

impl From<clap::Error> for WordsFault {
    ghost use Rattle.clap.specs.declared.error.kind.ErrorKind.TheVariants.{OutOfMemory};
    ghost use Rattle.coco_words.specs.declared.WordsFault.TheVariants.{Usage};

    ghost from_gives = { λ error fault. fault ≡ Usage → kind_of error ≡ OutOfMemory → ⊥ };

    fn from(error: clap::Error) -> WordsFault {
        match error.kind() {
            ErrorKind::OutOfMemory => WordsFault::NoMemory,
            _ => WordsFault::Usage,
        }
    }
}
