//! Laws of logs, for whoever reads a file as one.
ghost use Rattle.std.specs.Prelude.{◌≡◌, ℕ, List};
ghost use Rattle.coco_log.specs.declared.gates.TheConstants.{MOST_ENTRY_BYTES};
ghost use Rattle.coco_log.specs.Grammar.{IsLog, FitsNoLog};

/// A file is a log of one kind and one list of entries at most. Where it is one of a kind, it is at no place no
/// log of that kind, and else at one place at most.
pub fn a_file_is_one_log()
    ensures one { (kind other : ℕ) (file : List ℕ) (bodies others : List (List ℕ)) → IsLog kind bodies file → IsLog other others file → (kind ≡ other) × (bodies ≡ others) }
    ensures fits { (kind : ℕ) (file : List ℕ) (bodies : List (List ℕ)) (at : ℕ) → IsLog kind bodies file → FitsNoLog kind file at → ⊥ }
    ensures place { (kind : ℕ) (file : List ℕ) (at other : ℕ) → FitsNoLog kind file at → FitsNoLog kind file other → at ≡ other }
{}

/// How many bytes an entry may have, in numbers.
pub fn limits()
    ensures { MOST_ENTRY_BYTES ≡ 67108864 }
{}
