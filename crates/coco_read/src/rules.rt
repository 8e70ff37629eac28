//! What the entries of a file have to keep, as a trait.
ghost use Rattle.std.specs.Prelude.{◌≡◌, ℕ, List, Ok, ◌↔◌, IsTrue};
ghost use Rattle.coco_read.specs.EntryRules.{EntryRules, Takes};

use coco_types::NoMemory;
use std::alloc::Global;

/// What the entries of one kind of file have to keep, each behind those before it.
pub trait Rules {
    /// What the entries are.
    ghost Entry: { Type 0 };

    /// What the rules stand under, which stays.
    ghost Setting: { Type 0 };

    ghost setting: { Self → Setting };

    ghost rules: { Setting → EntryRules Entry };

    /// The entries taken so far.
    ghost taken: { Self → List Entry };

    /// Takes the next entry, or answers at which byte of its body it is refused first. After that, and where
    /// memory ran out, it is of no more use.
    fn take(&mut self, alloc: Global, body: &[u8]) -> Result<Option<usize>, NoMemory>
        ensures setting { setting self.new ≡ setting self.old }
        ensures takes { Takes (rules (setting self.old)) (taken self.old) body.now result (taken self.new) };

    /// Whether something lacks behind the entries taken.
    fn lacks(&self) -> bool
        ensures { IsTrue result ↔ (rules (setting self.now)).Lacks (taken self.now) };

    /// The bytes of an entry are read as that entry.
    ghost reads: { (s : Setting) (before : List Entry) (e : Entry) → (rules s).Is e → (rules s).read before ((rules s).bytes_of e) ≡ Ok e };
}
