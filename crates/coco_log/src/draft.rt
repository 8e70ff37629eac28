//! A log that is written whole into a file that nobody reads yet.
ghost use Rattle.std.specs.Prelude.{◌≡◌, ℕ, ◌+◌, ◌≤◌, List, Option, [], ◌∷◌, ◌++◌, length, IfOk, IfSome, OnOk};
ghost use Rattle.coco_host.specs.Files.{Files, Become, put_into};
ghost use Rattle.coco_log.specs.Changes.{ChangesOnly};
ghost use Rattle.coco_log.specs.Drafts.{begun, Drafts, HasLog};
ghost use Rattle.coco_log.specs.Faults.{CountsFault};
ghost use Rattle.coco_log.specs.Grammar.{entry, most_entry_bytes};

use crate::LogFault;
use crate::gates::header_of;
use coco_bytes::put_u32;
use coco_host::Host;
use coco_types::NoMemory;
use std::alloc::Global;
use std::marker::Model;

// From how many bytes on they are written.
const PIECE: usize = 1_048_576;

/// A log in the making, with all gates open but the last. Nothing of it is durable before `finish`, and a fault
/// leaves a torn file: so no layout may name the file yet.
#[derive(Drop)]
pub struct Draft {
    file: u32,
    kind: u8,
    written: u64,
    rest: Vec<u8>,
}

impl Model for Draft {
    ghost use Rattle.std.specs.Prelude.{◌<◌};
    ghost use Rattle.coco_types.specs.Limits.{files_end};
    ghost use Rattle.coco_log.specs.Drafts.{Drafted};

    ghost Value = { Drafted };

    ghost view = { λ d. record { file = d.file; kind = d.kind; written = d.written; rest = d.rest.items } };

    ghost invariant = { λ d. d.written < files_end };
}

impl Draft {
    /// Begins a log of this kind without entries. The file isn't touched yet.
    pub fn make(alloc: Global, file: u32, kind: u8) -> Result<Draft, NoMemory>
        ensures draft { IfOk result (λ draft. draft ≡ begun file kind) }
        ensures none { IfOk result (λ draft. (reads : Option Files) → Drafts draft [] reads) }
    {
        let mut rest = Vec::new(alloc);
        rest.extend_from_slice(&header_of(kind))?;
        Ok(Draft {
            file,
            kind,
            written: 0,
            rest,
        })
    }

    /// Adds an entry. What was added is written whenever a mebibyte is there. After a fault the draft is of no use.
    pub fn add<H: Host>(&mut self, host: &mut H, body: &[u8]) -> Result<(), LogFault>
        requires short { length body.now ≤ most_entry_bytes }
        requires drafts { (bodies : List (List ℕ)) × Drafts self.old bodies (H.reads host.old) }
        ensures drafts { OnOk result ((bodies : List (List ℕ)) → Drafts self.old bodies (H.reads host.old) → Drafts self.new (bodies ++ body.now ∷ []) (H.reads host.new)) }
        ensures of { OnOk result ((self.new.file ≡ self.old.file) × (self.new.kind ≡ self.old.kind)) }
        ensures changes { ChangesOnly H.Host (self.old.file ∷ []) host.old host.new }
        ensures counts { CountsFault result (H.disk_faults host.old) (H.disk_faults host.new) }
        ensures others { H.say_faults host.new ≡ H.say_faults host.old }
    {
        put_entry(&mut self.rest, body)?;
        if self.rest.len() < PIECE {
            return Ok(());
        }
        self.write(host)
    }

    /// Writes what is left and a gate that isn't open, and syncs the file, which is then the log.
    pub fn finish<H: Host>(mut self, host: &mut H) -> Result<(), LogFault>
        requires drafts { (bodies : List (List ℕ)) × Drafts self bodies (H.reads host.old) }
        ensures log { OnOk result ((bodies : List (List ℕ)) → Drafts self bodies (H.reads host.old) → HasLog self.kind bodies self.file (H.reads host.new) (H.may_leave host.new)) }
        ensures changes { ChangesOnly H.Host (self.file ∷ []) host.old host.new }
        ensures counts { CountsFault result (H.disk_faults host.old) (H.disk_faults host.new) }
        ensures others { H.say_faults host.new ≡ H.say_faults host.old }
    {
        self.rest.push(0)?;
        self.write(host)?;
        host.sync(self.file)?;
        Ok(())
    }

    // Writes all that is to come.
    fn write<H: Host>(&mut self, host: &mut H) -> Result<(), LogFault>
        requires { IfSome (H.reads host.old) (λ files. self.old.written ≤ length (files self.old.file)) }
        ensures written { OnOk result (Become (λ old new. new ≡ put_into self.old.file self.old.written self.old.rest old) (H.reads host.old) (H.reads host.new)) }
        ensures on { OnOk result (self.new ≡ record self.old { written = self.old.written + length self.old.rest; rest = [] }) }
        ensures changes { ChangesOnly H.Host (self.old.file ∷ []) host.old host.new }
        ensures counts { CountsFault result (H.disk_faults host.old) (H.disk_faults host.new) }
        ensures others { H.say_faults host.new ≡ H.say_faults host.old }
    {
        host.write_at(self.file, self.written, &self.rest)?;
        self.written += self.rest.len() as u64;
        self.rest.clear();
        Ok(())
    }
}

// Adds an entry with its gate, which is open.
fn put_entry(out: &mut Vec<u8>, body: &[u8]) -> Result<(), NoMemory>
    requires { length body.now ≤ most_entry_bytes }
    ensures { OnOk result (out.new.items ≡ out.old.items ++ entry body.now) }
{
    out.push(1)?;
    put_u32(out, body.len() as u32)?;
    out.extend_from_slice(body)?;
    Ok(())
}
