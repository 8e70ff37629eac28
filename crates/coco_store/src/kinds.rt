//! The kinds of a store's logs: each log has its own behind the letters in front of it.

ghost use Rattle.std.specs.Prelude.{◌≡◌};

/// The log of layouts.
pub const LAYOUTS: u8 = 0;

/// The coordinator's log of commits.
pub const COMMITS: u8 = 1;

/// A node's log of prepared rows.
pub const PREPARED: u8 = 2;

/// The log that is a base file.
pub const BASE: u8 = 3;

/// The kinds in numbers.
pub fn kinds()
    ensures layouts { LAYOUTS ≡ 0 }
    ensures commits { COMMITS ≡ 1 }
    ensures prepared { PREPARED ≡ 2 }
    ensures base { BASE ≡ 3 }
{}
