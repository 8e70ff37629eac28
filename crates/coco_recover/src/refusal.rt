//! Bodies that are no entry.

ghost use Rattle.std.specs.Prelude.{◌≡◌};
ghost use Rattle.coco_recover.specs.Refusal.{refusal_of};

use coco_entry::EntryFault;
use coco_types::NoMemory;

/// What a fault of an entry is to the rules of its file.
pub(crate) fn refused(fault: EntryFault) -> Result<Option<usize>, NoMemory>
    ensures { result ≡ refusal_of fault }
{
    match fault {
        EntryFault::Bad { at } => Ok(Some(at)),
        EntryFault::NoMemory => Err(NoMemory),
    }
}
