//! What a core asks of its place, and short lists of it.

ghost use Rattle.std.specs.Prelude.{◌≡◌, [], ◌∷◌, ◌++◌, IfOk, OnOk, OnErr};

use crate::Message;
use coco_types::NoMemory;
use std::alloc::Global;

/// What a core asks of its place.
#[derive(Debug, Drop)]
pub enum Action {
    /// Send a message to a place.
    Send { to: u8, message: Message },
    /// Make the entry of an epoch durable, and then tell the core.
    Force { epoch: u64 },
    /// Make the rows of an epoch stable.
    Promote { epoch: u64 },
    /// Take the rows of an epoch back.
    Revert { epoch: u64 },
}

/// The list of one item.
pub fn one<T: Drop>(alloc: Global, item: T) -> Result<Vec<T>, NoMemory>
    ensures { IfOk result (λ list. list.items ≡ item ∷ []) }
{
    let mut list = Vec::new(alloc);
    list.push(item)?;
    Ok(list)
}

/// The list of two items.
pub fn two<T: Drop>(alloc: Global, first: T, second: T) -> Result<Vec<T>, NoMemory>
    ensures { IfOk result (λ list. list.items ≡ first ∷ second ∷ []) }
{
    let mut list = Vec::new(alloc);
    list.push(first)?;
    list.push(second)?;
    Ok(list)
}

/// Adds an item at the end. Out of memory the list is as before.
pub fn add<T: Drop>(list: &mut Vec<T>, item: T) -> Result<(), NoMemory>
    ensures ok { OnOk result (list.new.items ≡ list.old.items ++ item ∷ []) }
    ensures err { OnErr result (list.new.items ≡ list.old.items) }
{
    list.push(item)?;
    Ok(())
}
