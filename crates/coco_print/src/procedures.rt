//! The text of tables and procedures.

ghost use Rattle.std.specs.Prelude.{◌≡◌, ◌++◌, map, IfOk, OnOk};
ghost use Rattle.std.specs.List.{flat_map};
ghost use Rattle.std.specs.String.{string_bytes};
ghost use Rattle.coco_ast.specs.Views.{procedure_of, procedures_of};
ghost use Rattle.coco_print.specs.Printed.{params_text, procedure_text, table_text, printed};
ghost use Rattle.coco_print.specs.ReadsBack.{IsTree, ReadsBack};

use crate::pieces::push;
use crate::statement::push_block;
use coco_ast::{Name, Proc, Procs};
use coco_types::NoMemory;
use std::alloc::Global;

/// The text of the tables and then of the procedures, one statement a line, with parentheses round
/// every operand that is itself an operator.
pub fn print(alloc: Global, procs: &Procs) -> Result<String, NoMemory>
    ensures text { IfOk result (λ s. string_bytes s ≡ printed (procedures_of procs.now)) }

    // The text of a tree that some text has is read back as that tree.
    ensures reads_back { IfOk result (λ s. IsTree (procedures_of procs.now) → ReadsBack (string_bytes s) (procedures_of procs.now)) }
{
    let mut out = String::new(alloc);
    push_tables(&mut out, procs.tables.as_slice())?;
    push_procs(alloc, &mut out, procs.procs.as_slice())?;
    Ok(out)
}

fn push_tables(out: &mut String, names: &[Name]) -> Result<(), NoMemory>
    ensures { OnOk result (string_bytes out.new ≡ string_bytes out.old ++ flat_map table_text names.now) }
{
    for name in names {
        push_table(out, name)?;
    }
    Ok(())
}

fn push_procs(alloc: Global, out: &mut String, procs: &[Proc]) -> Result<(), NoMemory>
    ensures { OnOk result (string_bytes out.new ≡ string_bytes out.old ++ flat_map procedure_text (map procedure_of procs.now)) }
{
    for proc in procs {
        push_proc(alloc, out, proc)?;
    }
    Ok(())
}

fn push_table(out: &mut String, name: &Name) -> Result<(), NoMemory>
    ensures { OnOk result (string_bytes out.new ≡ string_bytes out.old ++ table_text name.now) }
{
    push(out, "table ")?;
    push(out, name.as_str())?;
    push(out, ";\n")
}

fn push_proc(alloc: Global, out: &mut String, proc: &Proc) -> Result<(), NoMemory>
    ensures { OnOk result (string_bytes out.new ≡ string_bytes out.old ++ procedure_text (procedure_of proc.now)) }
{
    push(out, "proc ")?;
    push(out, proc.name.as_str())?;
    push(out, "(")?;
    push_params(out, proc.params.as_slice())?;
    push(out, ") ")?;
    push_block(alloc, out, "", &proc.body)?;
    push(out, "\n")
}

// Names with commas between them.
fn push_params(out: &mut String, names: &[Name]) -> Result<(), NoMemory>
    ensures { OnOk result (string_bytes out.new ≡ string_bytes out.old ++ params_text names.now) }
{
    match names.split_first() {
        None => Ok(()),
        Some((first, others)) => {
            push(out, first.as_str())?;
            for name in others {
                push(out, ", ")?;
                push(out, name.as_str())?;
            }
            Ok(())
        }
    }
}
