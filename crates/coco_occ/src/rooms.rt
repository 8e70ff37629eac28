//! The rooms of scripts that are read, for scripts to come.

ghost use Rattle.std.specs.Prelude.{◌≡◌, ⊤, []};

use crate::outcome::{Transcript, Tried};
use crate::script::Script;
use std::alloc::Global;
use std::marker::Model;

/// A transcript that is read, whose room and whose scripts' rooms serve again. Contracts see nothing of it.
#[derive(Debug, Drop)]
pub struct ScriptRooms {
    read: Vec<Tried>,
}

impl Model for ScriptRooms {
    ghost Value = { ⊤ };

    ghost view = { λ _. tt };
}

impl ScriptRooms {
    /// No rooms. It takes no memory.
    pub fn new(alloc: Global) -> ScriptRooms {
        ScriptRooms {
            read: Vec::new(alloc),
        }
    }

    /// Those of a transcript that is read. It takes no memory.
    pub fn of(transcript: Transcript) -> ScriptRooms {
        ScriptRooms {
            read: transcript.into_vec(),
        }
    }

    /// A script whose room serves again, or one without room where none is left. It takes no memory.
    pub fn next(&mut self, alloc: Global) -> Script {
        match self.read.pop() {
            Some(Tried { script, .. }) => script,
            None => Script::new(alloc),
        }
    }

    /// A transcript of nothing, in their room. It takes no memory.
    pub fn into_transcript(self) -> Transcript
        ensures { result ≡ [] }
    {
        let ScriptRooms { mut read } = self;
        read.clear();
        Transcript::from_vec(read)
    }
}
