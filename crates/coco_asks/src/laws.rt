//! What holds of lines that only read.

ghost use Rattle.coco_asks.specs.Asking.{LinesAreAnswered};

/// Each line has an answer: where it has none of the errors, it is a request.
pub fn lines_are_answered()
    ensures { LinesAreAnswered }
{}
