//! What holds of the meaning of procedures and of histories, whatever the program does.

ghost use Rattle.std.specs.Prelude.{Bool};
ghost use Rattle.coco_ast.specs.BuiltinForms.{BuiltinForms};
ghost use Rattle.coco_ast.specs.CheckExamples.{CheckExamples};
ghost use Rattle.coco_ast.specs.Examples.{Examples};
ghost use Rattle.coco_ast.specs.Keyed.{Rows};
ghost use Rattle.coco_ast.specs.Meaning.{Datum};

pub mod histories;
pub mod runs;

pub use histories::{
    compacted_alike, growth_keeps, growths_keep, history_examples, kept_follows, scheduled_growth,
};
pub use runs::{calls_end_soon, runs_depend_on_needs, runs_put_writes};

/// What the runs of the built-in procedures come to, on any map and by any arguments.
pub fn builtin_runs()
    ensures { (m : Rows) (snapshot : Bool) (a : Datum) → BuiltinForms m snapshot a }
{}

/// The meaning gives each example the answer beside it.
pub fn examples()
    ensures { Examples }
{}

/// The words of the check come to what stands beside each example.
pub fn check_examples()
    ensures { CheckExamples }
{}
