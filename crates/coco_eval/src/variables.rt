//! The variables of a run, each in its slot.
ghost use Rattle.std.specs.Prelude.{◌≡◌, ◌≤◌, ◌<◌, ℕ, [], length, get_or, None, slice_index_or, OnOk};
ghost use Rattle.coco_ast.specs.Meaning.{variable_at};
ghost use Rattle.coco_ast.specs.Plans.{AreSlots, name_at};
ghost use Rattle.coco_eval.specs.Lending.{datum_of};
ghost use Rattle.coco_eval.specs.Slots.{HasValues, names_in, paired, set_at};

use crate::held::Held;
use crate::noted::Noted;
use crate::operand::{Operand, lend};
use coco_ast::Names;
use coco_types::{Args, NoMemory};
use std::alloc::Global;
use std::marker::Model;

/// Variables in a list that may be longer: those behind them are of an earlier run, and lend their
/// room. Contracts see the variables alone, each with its name.
#[derive(Drop)]
pub struct Slots {
    names: Noted<Names>,
    values: Vec<Held>,
    used: usize,
}

impl Model for Slots {
    ghost use Rattle.std.specs.Prelude.{take};
    ghost use Rattle.coco_ast.specs.Meaning.{Variables};
    ghost use Rattle.coco_eval.specs.Slots.{AreInSlots, paired};

    ghost Value = { Variables };

    ghost view = { λ s. paired s.names.value (take s.used s.values.items) };

    ghost invariant = { λ s. AreInSlots s.names.value s.values.items s.used };
}

impl Slots {
    /// No variables.
    pub fn new(alloc: Global) -> Slots
        ensures { result ≡ [] }
    {
        let names = Names::new(alloc);
        Slots {
            names: Noted::of(&names),
            values: Vec::new(alloc),
            used: 0,
        }
    }

    /// The variables of these names. The first ones have these values, and the others none.
    pub fn begin(&mut self, names: &Names, args: &Args) -> Result<(), NoMemory>
        requires slots { AreSlots names.now }
        ensures { OnOk result (self.new ≡ paired names.now args.now) }
    {
        let count = names.len();
        set_values(&mut self.values, count, args)?;
        self.names = Noted::of(names);
        self.used = count;
        Ok(())
    }

    /// The value in a slot.
    #[inline(always)]
    pub fn at(&self, slot: usize) -> Operand<'_>
        ensures { datum_of result ≡ variable_at self.now (name_at (names_in self.now) slot) }
    {
        if slot < self.used {
            self.values[slot].lend()
        } else {
            Operand::None
        }
    }

    /// Sets the variable in a slot.
    #[inline(always)]
    pub fn set(&mut self, slot: usize, value: &Operand<'_>)
        ensures value { self.new ≡ set_at self.old (name_at (names_in self.old) slot) (datum_of value.now) }
        ensures names { names_in self.new ≡ names_in self.old }
    {
        if slot < self.used {
            self.values[slot].store(value);
        }
    }
}

// Makes a list that long at least, and sets its first values to these, and those behind them to none.
fn set_values(values: &mut Vec<Held>, count: usize, args: &Args) -> Result<(), NoMemory>
    ensures longer { length values.old.items ≤ length values.new.items }
    ensures values { OnOk result (HasValues count args.now values.new.items) }
{
    lengthen(values, count)?;
    for i in 0..count {
        set_value(&mut values[i], args, i);
    }
    Ok(())
}

fn lengthen(values: &mut Vec<Held>, count: usize) -> Result<(), NoMemory>
    ensures longer { length values.old.items ≤ length values.new.items }
    ensures enough { OnOk result (count ≤ length values.new.items) }
{
    for _ in values.len()..count {
        values.push(Held::none())?;
    }
    Ok(())
}

#[inline(always)]
fn set_value(value: &mut Held, args: &Args, i: usize)
    ensures { value.new ≡ slice_index_or args.now i None }
{
    if i >= args.len() {
        return value.clear();
    }
    match args.int(i) {
        Some(number) => value.store_number(number),
        None => copy_value(value, args, i),
    }
}

// A text is copied out of the arguments. It stands apart, so that numbers have no room for a copy to clear.
#[inline(never)]
fn copy_value(value: &mut Held, args: &Args, i: usize)
    requires { i < length args.now }
    ensures { value.new ≡ slice_index_or args.now i None }
{
    match args.get(i) {
        Some(argument) => value.store(&lend(&argument)),
        None => unreachable!(),
    }
}
