//! What holds the notes of a lock until it is closed.

ghost use Rattle.std.specs.Prelude.{◌≡◌};

use crate::note::Note;
use crate::seen::Seen;
use crate::stores::Stores;

/// What holds a note, and gives it up when the lock is closed.
pub trait HoldsNote<S: Stores> {
    ghost use Rattle.coco_seen.specs.Notes.{Known};

    /// The note that it gives up.
    ghost note: { Self → Known S.Entry S.Root };

    /// What is true of it beside that.
    ghost fact: { Self → Type 0 };

    /// Where it puts what it has beside the note.
    type Rests;

    /// Its note. If it holds the value, it gives that back first.
    fn into_note(self, lock: &Seen<S>, rests: &mut Self::Rests) -> Note<S>
        requires { (note self).lock ≡ lock.now.id }
        ensures note { result ≡ note self }
        ensures fact { fact self };
}

impl<S: Stores> HoldsNote<S> for Note<S> {
    ghost note = { λ n. n };

    ghost fact = { λ _. Unit {0} };

    type Rests = ();

    fn into_note(self, _lock: &Seen<S>, _rests: &mut ()) -> Note<S> {
        self
    }
}
