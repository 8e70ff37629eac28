//! The file of the layouts: the last one holds.

ghost use Rattle.std.specs.Prelude.{◌≡◌, [], MatchOption};
ghost use Rattle.coco_recover.specs.Layouts.{IsLastOf};

use crate::refusal::refused;
use coco_ast::Checked;
use coco_entry::{LayoutEntry, read_layout};
use coco_io::told::Told;
use coco_read::Rules;
use coco_rules::layout_tree;
use coco_types::NoMemory;
use coco_types::limits::FILES_END;
use std::alloc::Global;
use std::marker::Model;
use std::slice;

/// Where the first gate of a log stands.
pub(crate) const FIRST_GATE: u64 = 8;

// How many bytes a gate and a length take.
const GATE_AND_LENGTH: u64 = 5;

/// A layout, with the tree of its text.
#[derive(Drop)]
pub struct LastLayout {
    pub entry: LayoutEntry,
    pub procs: Checked,
    /// Where its body begins in its file.
    pub place: u64,
}

/// The entries of the layouts' file, of which the last one is remembered. Contracts see all of them.
#[derive(Drop)]
pub struct LayoutReading {
    taken: Told<LayoutEntry>,
    last: Option<LastLayout>,
    /// Where the next gate stands.
    gate: u64,
}

impl Model for LayoutReading {
    ghost use Rattle.std.specs.Prelude.{List};
    ghost use Rattle.coco_entry.specs.declared.layout.LayoutEntry.{LayoutEntry};

    ghost Value = { List LayoutEntry };

    ghost use Rattle.coco_recover.specs.Layouts.{IsLaidOut};

    ghost view = { λ r. r.taken.items };

    ghost invariant = { λ r. IsLaidOut r.taken.items r.last r.gate };
}

impl LayoutReading {
    /// Before the first entry.
    pub fn new() -> LayoutReading
        ensures { result ≡ [] }
    {
        LayoutReading {
            taken: Told::new(),
            last: None,
            gate: FIRST_GATE,
        }
    }

    /// The last layout, if there is one.
    pub fn into_last(self) -> Option<LastLayout>
        ensures { MatchOption result (self ≡ []) (IsLastOf self) }
    {
        self.last
    }
}

impl Rules for LayoutReading {
    ghost use Rattle.std.specs.Prelude.{◌≡◌, [], List};
    ghost use Rattle.coco_entry.specs.Layouts.{IsLayout, layout_bytes, layout_in};
    ghost use Rattle.coco_entry.specs.declared.layout.LayoutEntry.{LayoutEntry};
    ghost use Rattle.coco_store.specs.Refusals.{LayoutBreaks};
    ghost use Rattle.coco_recover.specs.Layouts.{layout_rules};

    ghost Entry = { LayoutEntry };

    ghost Setting = { Unit {0} };

    ghost setting = { λ _. tt };

    ghost rules = { λ _. layout_rules };

    ghost taken = { λ entries. entries };

    fn take(&mut self, alloc: Global, body: &[u8]) -> Result<Option<usize>, NoMemory> {
        let entry = match read_layout(alloc, body) {
            Ok(entry) => entry,
            Err(fault) => return refused(fault),
        };
        match layout_tree(alloc, &entry)? {
            Ok(procs) => {
                let place = self.gate + GATE_AND_LENGTH;
                let behind = place + body.len() as u64;
                if behind >= FILES_END {
                    return Err(NoMemory);
                }
                self.taken.add(slice::from_ref(&entry));
                self.last = Some(LastLayout {
                    entry,
                    procs,
                    place,
                });
                self.gate = behind;
                Ok(None)
            }
            Err(at) => Ok(Some(at)),
        }
    }

    fn lacks(&self) -> bool {
        self.last.is_none()
    }

    ghost use Rattle.coco_recover.specs.Readings.{layout_reads};

    ghost reads = { λ _ _. layout_reads };
}
