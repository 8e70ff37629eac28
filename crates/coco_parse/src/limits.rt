//! The limits of a text's tokens that no other crate has.

ghost use Rattle.std.specs.Prelude.{◌≡◌};

/// How many blocks and parentheses may be open at once.
pub const MOST_OPEN: usize = 32;

/// How many operators an expression may have.
pub const MOST_OPERATORS: usize = 64;

/// The greatest number of a refusal.
pub const MOST_CODE: u64 = 65535;

/// The limits in numbers.
pub fn limits()
    ensures open { MOST_OPEN ≡ 32 }
    ensures operators { MOST_OPERATORS ≡ 64 }
    ensures code { MOST_CODE ≡ 65535 }
{}
