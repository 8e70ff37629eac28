//! What a layout with another keep number makes of a store.

ghost use Rattle.coco_commands.specs.Keeping.{AfterKeep, WhileKeep};

/// An entry of the layout that holds, with another keep number, leaves a good store as good as it was, and its
/// history is the same with that number. At each moment of its append there is the old number or the new one.
pub fn a_layout_sets_the_keep_number()
    ensures after { AfterKeep }
    ensures meanwhile { WhileKeep }
{}
