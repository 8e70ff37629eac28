//! What holds of classes, growth and answers, whatever the program does.

ghost use Rattle.std.specs.Prelude.{◌≡◌, ◌++◌, ℕ, List, length, take};
ghost use Rattle.coco_ast.specs.History.{History, IsOrdered, StayAlike, all_dones};
ghost use Rattle.coco_ast.specs.Tree.{Procedures};
ghost use Rattle.coco_lines.specs.Alike.{NoLineTells};
ghost use Rattle.coco_lines.specs.Answers.{answers_in};
ghost use Rattle.coco_lines.specs.Batches.{AreBatches, Batch, joined};
ghost use Rattle.coco_lines.specs.Growing.{GrowsByBatches};
ghost use Rattle.coco_lines.specs.Lines.{Line};
ghost use Rattle.coco_lines.specs.Replies.{ClassLinesAlike, HasNoLaterDone, HaveReplies};
ghost use Rattle.coco_lines.specs.declared.class.Class.{Class as LineClass};

/// A line's class depends on the opening history, the size of a batch and the lines up to it alone: of two inputs that
/// begin with the same lines, cut into batches of one size, those lines have the same classes, whatever lines come
/// behind, in the same batch or later. Two histories that grew by the same batches, of whatever sizes, give all lines,
/// those that come next included, the same classes.
pub fn one_class()
    ensures batches { (procs : Procedures) (before : History) (batches : List Batch) (cs ds : List (List LineClass)) (g k : History)
        → HasNoLaterDone before → GrowsByBatches procs before batches cs g → GrowsByBatches procs before batches ds k
        → ClassLinesAlike procs g cs k ds }
    ensures lines { (procs : Procedures) (before : History) (size : ℕ) (front xs ys : List Line) (bs es : List Batch) (cs ds : List (List LineClass)) (g k : History)
        → HasNoLaterDone before → AreBatches size bs → AreBatches size es → joined bs ≡ front ++ xs → joined es ≡ front ++ ys
        → GrowsByBatches procs before bs cs g → GrowsByBatches procs before es ds k
        → take (length front) (joined cs) ≡ take (length front) (joined ds) }
{}

/// The answers of lines that a history has grown by stay when it grows further.
pub fn answers_stay()
    ensures { (procs : Procedures) (before : History) (batches more : List Batch) (cs ds : List (List LineClass)) (g k : History) (first : ℕ)
        → GrowsByBatches procs before batches cs g → GrowsByBatches procs g more ds k
        → answers_in k first (joined cs) ≡ answers_in g first (joined cs) }
{}

/// An id has one Done and one reply: a history that grew by batches stays ordered, and has the Done of every
/// line that is replied to.
pub fn one_reply()
    ensures ordered { (procs : Procedures) (before : History) (batches : List Batch) (cs : List (List LineClass)) (after : History)
        → IsOrdered before → GrowsByBatches procs before batches cs after → IsOrdered after }
    ensures replies { (procs : Procedures) (before : History) (batches : List Batch) (cs : List (List LineClass)) (after : History)
        → GrowsByBatches procs before batches cs after → HaveReplies procs (all_dones after) (joined batches) (joined cs) }
{}

/// No line tells two histories apart that are alike for answers and stay so: after each list of epochs that follows both,
/// lines have the same classes, and a batch that they grow by with the same epochs has the same answers.
pub fn alike_lines()
    ensures { (procs : Procedures) (g h : History) → StayAlike procs g h → NoLineTells procs g h }
{}
