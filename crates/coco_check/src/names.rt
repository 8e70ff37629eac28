//! Sets of names.

ghost use Rattle.std.specs.Prelude.{◌≡◌, ◌<◌, length, IfOk, IfSome};
ghost use Rattle.coco_check.specs.Search.{adding, added};

use coco_ast::Name;
use std::alloc::AllocFailed;
use std::collections::BTreeSet;

pub(crate) type NameSet = BTreeSet<Name>;

// Adds names, up to the first one that is there before, whose place is the answer.
pub(crate) fn add_all(set: &mut NameSet, names: &[Name]) -> Result<Option<usize>, AllocFailed<Name>>
    ensures added { IfOk result (λ twice. adding set.old.keys 0 names.now ≡ added set.new.keys twice) }
    ensures within { IfOk result (λ twice. IfSome twice (λ i. i < length names.now)) }
{
    for (i, name) in names.iter().enumerate() {
        if !set.insert(*name)? {
            return Ok(Some(i));
        }
    }
    Ok(None)
}
