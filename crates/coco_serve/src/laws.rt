//! What holds of lines that come again, whatever the program does.

ghost use Rattle.std.specs.Prelude.{◌≡◌, ◌++◌, ◌+◌, ◌∷◌, ℕ, List, None, Some, length, map, slice_get};
ghost use Rattle.std.specs.List.{AllByRecursion};
ghost use Rattle.coco_ast.specs.Growth.{AreNew};
ghost use Rattle.coco_ast.specs.History.{History, IsOrdered};
ghost use Rattle.coco_ast.specs.Tree.{Procedures};
ghost use Rattle.coco_cluster.specs.Around.{Around, spare};
ghost use Rattle.coco_io.specs.Counts.{Rose};
ghost use Rattle.coco_lines.specs.Batches.{Batch, joined};
ghost use Rattle.coco_lines.specs.Classes.{new_of};
ghost use Rattle.coco_lines.specs.Growing.{GrowsByBatches};
ghost use Rattle.coco_lines.specs.Lines.{Line};
ghost use Rattle.coco_lines.specs.declared.class.Class.{Class as LineClass};
ghost use Rattle.coco_serve.specs.Growth.{AddsWithin, AreNumberedFrom};
ghost use Rattle.coco_serve.specs.Again.{AreAnsweredAgain, ComesAgain, IsNotFull, StandsAt, again};

/// The same lines again on the history that they left, however they are cut. No id that the history has runs a second
/// time, be its Done kept or forgotten. Without a keep number each line is answered what it was answered before, and
/// the history stays; where a crash had cut the lines off, those behind the cut are what they would be without it. With
/// a keep number the history stays too, where no line was refused for want of room.
pub fn the_same_lines_again()
    ensures once { (procs : Procedures) (g : History) (batches : List Batch) (ds : List (List LineClass)) (k : History)
        → GrowsByBatches procs g batches ds k → AreNew g (new_of (joined ds)) }
    ensures answered { (procs : Procedures) (before : History) (batches repeated : List Batch) (cs ds : List (List LineClass)) (g k : History) (others : List Line)
        → before.keep ≡ None → joined repeated ≡ joined batches ++ others → GrowsByBatches procs before batches cs g → GrowsByBatches procs g repeated ds k
        → AreAnsweredAgain procs others (joined cs) g (joined ds) k }
    ensures stays { (procs : Procedures) (before : History) (batches repeated : List Batch) (cs ds : List (List LineClass)) (g k : History)
        → before.keep ≡ None → joined repeated ≡ joined batches → GrowsByBatches procs before batches cs g → GrowsByBatches procs g repeated ds k → k ≡ g }
    ensures forgotten { (procs : Procedures) (before : History) (batches repeated : List Batch) (cs ds : List (List LineClass)) (g k : History)
        → AllByRecursion IsNotFull (joined cs) → joined repeated ≡ joined batches → GrowsByBatches procs before batches cs g → GrowsByBatches procs g repeated ds k → k ≡ g }
    ensures unbroken { (procs : Procedures) (before : History) (batches repeated whole : List Batch) (cs ds es : List (List LineClass)) (g k w : History) (others : List Line)
        → before.keep ≡ None → joined repeated ≡ joined batches ++ others → GrowsByBatches procs before batches cs g → GrowsByBatches procs g repeated ds k
        → joined whole ≡ joined repeated → GrowsByBatches procs before whole es w → map again (joined ds) ≡ map again (joined es) }
{}

/// A line that comes again, with a keep number or without, on the history that it left or on one that has grown
/// behind it, in whichever batch and behind whichever lines. Where the history before that batch keeps the Done of its
/// id, the line is the same again and is answered with that Done's text, as it was the first time; where it doesn't,
/// the line is refused as old. What was refused by the line alone, or as old, is refused so again. Where no line was
/// refused for want of room, and the same lines come again first of all, the history before each is the one that they
/// left.
pub fn a_line_again()
    ensures any { (procs : Procedures) (before g m k : History) (batches earlier later : List Batch) (own : Batch) (cs es fs : List (List LineClass)) (ds : List LineClass)
        (i j : ℕ) (line : Line) (first second : LineClass)
        → IsOrdered before → GrowsByBatches procs before batches cs g → GrowsByBatches procs g earlier es m → GrowsByBatches procs m (own ∷ later) (ds ∷ fs) k
        → StandsAt i (joined batches) (joined cs) line first → StandsAt j own ds line second → ComesAgain procs g m k line first second }
    ensures each { (procs : Procedures) (before g k : History) (batches repeated : List Batch) (cs ds : List (List LineClass)) (others : List Line)
        (i : ℕ) (line : Line) (first second : LineClass)
        → IsOrdered before → AllByRecursion IsNotFull (joined cs) → joined repeated ≡ joined batches ++ others → GrowsByBatches procs before batches cs g → GrowsByBatches procs g repeated ds k
        → StandsAt i (joined batches) (joined cs) line first → slice_get (joined ds) i ≡ Some second → ComesAgain procs g g k line first second }
{}

/// Where no node stopped before its entry, and the net lost no letter, no number is skipped: the epochs that were added
/// are numbered without a gap, and the number behind them comes next.
pub fn no_number_is_skipped()
    ensures { (before after : Around) (next end : ℕ) (opening history : History) → ¬ (Rose before.faults after.faults) → ¬ (Rose before.early after.early)
        → (adds : AddsWithin next end (spare before after) opening history) → AreNumberedFrom next adds.added × (end ≡ next + length adds.added) }
{}
