//! Names, compared in place.
ghost use Rattle.std.specs.Prelude.{◌≡◌, nat_eq};
ghost use Rattle.std.specs.Cmp.Lexicographic.{pointwise};

use coco_ast::Name;

/// Whether two names are the same. No name is empty, and most differ in their first byte, so a search mostly
/// looks at nothing else.
#[inline(always)]
pub fn are_same_names(one: &Name, other: &Name) -> bool
    ensures { result ≡ pointwise nat_eq one.now other.now }
{
    let Some((one, ones)) = one.as_bytes().split_first() else {
        unreachable!()
    };
    let Some((other, others)) = other.as_bytes().split_first() else {
        unreachable!()
    };
    *one == *other && are_same_bytes(ones, others)
}

// Names are short, so a loop here is faster than a call.
fn are_same_bytes(one: &[u8], other: &[u8]) -> bool
    ensures { result ≡ pointwise nat_eq one.now other.now }
{
    if one.len() != other.len() {
        return false;
    }
    for i in 0..one.len() {
        if one[i] != other[i] {
            return false;
        }
    }
    true
}
