//! What holds of the run of every call of every tree.

ghost use Rattle.coco_ast.specs.Checks.{IsAccepted};
ghost use Rattle.coco_ast.specs.Fitting.{Fits};
ghost use Rattle.coco_ast.specs.Keyed.{Rows};
ghost use Rattle.coco_ast.specs.Meaning.{run};
ghost use Rattle.coco_ast.specs.RunLaws.{DependsOnNeeds, EndsSoon, IsPutOver};
ghost use Rattle.coco_ast.specs.Tree.{Procedures};
ghost use Rattle.coco_types.specs.declared.call.Call.{Call};

/// The map that a run leaves is the one that it began with, with its writes put over it.
pub fn runs_put_writes()
    ensures { (ps : Procedures) (call : Call) (m : Rows) → IsPutOver m (run ps call m) }
{}

/// A run depends on its call and on what the map has at the keys that it needs: two maps that agree
/// there give the same reply, needs and writes.
pub fn runs_depend_on_needs()
    ensures { (ps : Procedures) (call : Call) → DependsOnNeeds ps call }
{}

/// A call that fits an accepted tree ends by a reply or a refusal, and reads and writes at most 64
/// keys in all.
pub fn calls_end_soon()
    ensures { (ps : Procedures) → IsAccepted ps → (call : Call) (m : Rows) → Fits ps call → EndsSoon ps call m }
{}
