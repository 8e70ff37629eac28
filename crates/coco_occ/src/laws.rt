//! What holds of scripts, whatever the program does.

ghost use Rattle.coco_occ.specs.ScriptExamples.{ScriptExamples};

/// The scripts of worked interleavings, with their outcomes.
pub fn script_examples()
    ensures { ScriptExamples }
{}
