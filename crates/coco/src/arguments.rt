//! What the program's arguments ask for, and how a call ends where they can't be had.
ghost use Rattle.std.specs.Prelude.{◌≡◌, ◌≢◌, codes, drop, map, string_bytes, IfOk, MatchResult};
ghost use Rattle.std.specs.IoError.{error_kind};
ghost use Rattle.coco_words.specs.Commands.{IsCommand, kind_of};
ghost use Rattle.coco_words.specs.declared.Command.{Command as Asked};
ghost use Rattle.coco.specs.Arguments.{folder_in, purpose_for};

use coco_ending::Ending;
use coco_host::Purpose;
use coco_words::only_reads;
use std::io::{Error, ErrorKind};

/// The name of the store's folder, which stands behind the program's own name: `.` where none does, or where there are
/// no arguments.
pub fn folder_of(given: &Result<Vec<String>, Ending>) -> &str
    ensures { MatchResult given.now (λ arguments. result.now ≡ folder_in (map string_bytes arguments.items)) (λ _. result.now ≡ codes ".") }
{
    match given {
        Ok(arguments) => match arguments.get(1) {
            Some(folder) => folder.as_str(),
            None => ".",
        },
        Err(_) => ".",
    }
}

/// What the store's folder is wanted for: where the words ask for a command that only reads it, to be read alone.
pub fn purpose_of(given: &Result<Vec<String>, Ending>) -> Purpose
    ensures { IfOk given.now (λ arguments. (command : Asked) → IsCommand (map string_bytes (drop 2 arguments.items)) command → result ≡ purpose_for (kind_of command)) }
{
    match given {
        Ok(arguments) if only_reads(words_of(arguments.as_slice())) => Purpose::Reading,
        _ => Purpose::Writing,
    }
}

/// The words of the command, which stand behind the folder's name.
pub fn words_of(arguments: &[String]) -> &[String]
    ensures { result.now ≡ drop 2 arguments.now }
{
    &arguments[arguments.len().min(2)..]
}

/// How a call ends where its arguments can't be had: one that is no text makes a bad command line.
pub fn ending_without(error: &Error) -> Ending
    ensures text { error_kind error.now ≡ ErrorKind.InvalidData → result ≡ Ending.BadCommandLine }
    ensures memory { error_kind error.now ≢ ErrorKind.InvalidData → result ≡ Ending.NoMemory }
{
    if error.kind() == ErrorKind::InvalidData {
        Ending::BadCommandLine
    } else {
        Ending::NoMemory
    }
}
