//! What holds of histories.

ghost use Rattle.std.specs.Prelude.{◌≡◌, ◌↔◌, ◌++◌, ℕ, List, None, map, nat_eq};
ghost use Rattle.std.specs.List.{AllByRecursion, IsDistinct};
ghost use Rattle.coco_ast.specs.Growth.{GrowsBy, GrowsByAll};
ghost use Rattle.coco_ast.specs.GrowthLaws.{Follows, GrowsThrough, IsGrowth, Keeps, KeepsAll, KeepsOn, KeptAreDones, NewHaveNoDone};
ghost use Rattle.coco_ast.specs.History.{Epoch, History, StayAlike, compacted};
ghost use Rattle.coco_ast.specs.HistoryExamples.{HistoryExamples};
ghost use Rattle.coco_ast.specs.Schedule.{IsNext};
ghost use Rattle.coco_ast.specs.Tree.{Procedures};
ghost use Rattle.coco_types.specs.declared.call.Request.{Request};

/// What is kept, forgotten, ordered and serial in small histories.
pub fn history_examples()
    ensures { HistoryExamples }
{}

/// What a history grew from is a prefix of it, whose Dones stay. It stays ordered where the requests
/// are new, and each of them has its Done.
pub fn growth_keeps()
    ensures grown { (h : History) (requests : List Request) (g : History) → GrowsBy h requests g → Keeps h requests g }
    ensures new { (h : History) (requests : List Request) → NewHaveNoDone h requests }
{}

/// What a history with one more epoch keeps and has forgotten, and its map, follow from those of the
/// history before. Without a keep number all is kept. What is kept
/// under an id is its Done.
pub fn kept_follows()
    ensures one_more { (ps : Procedures) (h : History) (e : Epoch) → Follows ps h e }
    ensures all { (h : History) → h.keep ≡ None → KeepsAll h }
    ensures found { (h : History) → KeptAreDones h }
{}

/// An epoch on the schedule, for requests with ids of their own, is one that the history grows by.
pub fn scheduled_growth()
    ensures { (h : History) (requests : List Request) (e : Epoch) → IsNext h requests e
        → AllByRecursion (λ d. d.epoch ≡ e.number) e.dones → IsDistinct nat_eq (map (λ r. r.id) requests) → IsGrowth h requests e }
{}

/// To grow by one list of requests after another keeps the history, too, and may be cut anywhere.
pub fn growths_keep()
    ensures grown { (h : History) (lists : List (List Request)) (g : History) → GrowsByAll h lists g → KeepsOn h g }
    ensures through { (h : History) (first more : List (List Request)) (g : History) → GrowsByAll h (first ++ more) g ↔ GrowsThrough h first more g }
{}

/// A history and its compacted one can't be told apart, whichever epochs follow both.
pub fn compacted_alike()
    ensures { (ps : Procedures) (h : History) (n : ℕ) → StayAlike ps h (compacted ps n h) }
{}
