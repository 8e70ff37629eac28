//! The limit of a procedure text that no other crate has.

ghost use Rattle.std.specs.Prelude.{◌≡◌};

/// The greatest number.
pub const MOST_NUMBER: u64 = 9223372036854775807;

/// The limit in numbers.
pub fn limits()
    ensures { MOST_NUMBER ≡ 9223372036854775807 }
{}
