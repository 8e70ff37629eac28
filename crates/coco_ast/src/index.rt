//! The index of the procedures' names.

ghost use Rattle.std.specs.Prelude.{◌≡◌, ◌<◌, ◌^◌, true, length, IfOk};
ghost use Rattle.coco_ast.specs.Numbering.{IsIndexOf};
ghost use Rattle.coco_ast.specs.Words.{is_word};

use crate::{Name, Proc};
use coco_types::NoMemory;
use std::alloc::Global;
use std::collections::BTreeMap;

/// The number of each procedure, under its name.
pub(crate) type Numbers = BTreeMap<Name, u16>;

pub(crate) fn numbers_of(alloc: Global, procs: &[Proc]) -> Result<Numbers, NoMemory>
    requires { length procs.now < 2 ^ 16 }
    ensures { IfOk result (λ numbers. IsIndexOf procs.now numbers) }
{
    let mut numbers = Numbers::new(alloc);
    for (i, proc) in procs.iter().enumerate() {
        let name = name_of(proc);
        numbers.insert(name, i as u16)?;
    }
    Ok(numbers)
}

// A name is a word.
fn name_of(proc: &Proc) -> Name
    ensures value { result ≡ proc.now.name }
    ensures word { is_word result ≡ true }
{
    proc.name.copied()
}
