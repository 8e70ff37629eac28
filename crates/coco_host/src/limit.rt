//! How long a file may become that this process writes.

use std::{fs, io};

// Where the system tells a process what is allowed to it.
const LIMITS: &str = "/proc/self/limits";

// What stands in front of the most bytes of a file, which is no number where there is no limit.
const FILE_SIZE: &str = "Max file size";

/// The most bytes of a file that this process may write, none where there is no limit or none is told. The system ends
/// a process that writes beyond it, so such a write mustn't be tried.
pub fn most_file_bytes(rt: HostRuntime) -> io::Result<Option<u64>> {
    match fs::read_to_string(&rt, LIMITS) {
        Ok(text) => Ok(told_in(text.as_str())),
        Err(error) if error.kind() == io::ErrorKind::NotFound => Ok(None),
        Err(error) => Err(error),
    }
}

// The number behind these words.
fn told_in(text: &str) -> Option<u64> {
    let line = text.lines().find(|line| line.starts_with(FILE_SIZE))?;
    let limit = line[FILE_SIZE.len()..].split_whitespace().next()?;
    limit.parse::<u64>().ok()
}
