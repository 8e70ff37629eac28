//! The command `init`, step by step.

ghost use Rattle.std.specs.Prelude.{◌≡◌, ◌≢◌, ◌⊎◌, ◌<◌, ℕ, List, [], Some, Err, length, IfSome};
ghost use Rattle.coco_host.specs.Files.{Files};
ghost use Rattle.coco_ast.specs.Tree.{Procedures};
ghost use Rattle.coco_lines.specs.Reads.{Gives, source_moment};
ghost use Rattle.coco_log.specs.LogState.{IsOnlyRead};
ghost use Rattle.coco_store.specs.Rules.{IsWithinLimits};
ghost use Rattle.coco_store.specs.Texts.{IsAcceptedText};
ghost use Rattle.coco_make.specs.NewStore.{entry_of, new_layout};
ghost use Rattle.coco_init.specs.Counts.{CountsDisk, CountsReads};
ghost use Rattle.coco_init.specs.Initiating.{FindsNone, Initiates, MakesStore};

use crate::input::read_text;
use crate::text::accepted;
use coco_ending::Ending;
use coco_host::Host;
use coco_io::Source;
use coco_make::{MakeFault, make_store, new_layout};
use coco_types::{Bytes, Failed};
use std::alloc::Global;

/// Makes a store of these sizes with the procedures of a text, which the input is from its beginning to its end. It says
/// nothing, and writes only where file 0 has no byte and the text is accepted.
pub fn init<H: Host, S: Source>(
    alloc: Global,
    host: &mut H,
    input: &mut S,
    nodes: u8,
    partitions: u8,
    copies: u8,
) -> Result<(), Ending>
    requires { IsWithinLimits (entry_of (new_layout nodes partitions copies [])) }
    ensures initiates { (text : List ℕ) × Gives (source_moment S.Source input.old) (source_moment S.Source input.new) text
        × Initiates H.Host result (new_layout nodes partitions copies text) text
        (source_moment S.Source input.new) host.old host.new }

    ensures quiet { H.said host.new ≡ H.said host.old }

    // File 0 is looked at before the input.
    ensures there { (bytes : ℕ) → result ≡ Err (Ending.AlreadyThere bytes) → input.new ≡ input.old }
    ensures only_there { (files : Files) → H.reads host.old ≡ Some files → files 0 ≢ []
        → (result ≡ Err (Ending.AlreadyThere (length (files 0)))) ⊎ (result ≡ Err Ending.DiskFault) }

    ensures reads { CountsReads result (S.faults input.old) (S.faults input.new) }
    ensures disk { CountsDisk result (H.disk_faults host.old) (H.disk_faults host.new) }
{
    expect_no_store(host)?;
    let text = read_text(alloc, input)?;
    accepted(alloc, text.as_slice())?;
    make(alloc, host, nodes, partitions, copies, text)
}

// File 0 has no byte.
fn expect_no_store<H: Host>(host: &mut H) -> Result<(), Ending>
    ensures finds { FindsNone result (H.reads host.old) }
    ensures read { IsOnlyRead H.Host host.old host.new }
    ensures disk { CountsDisk result (H.disk_faults host.old) (H.disk_faults host.new) }
{
    match host.len(0) {
        Ok(0) => Ok(()),
        Ok(bytes) => Err(Ending::AlreadyThere { bytes }),
        Err(Failed) => Err(Ending::DiskFault),
    }
}

// Makes a store with an accepted text.
fn make<H: Host>(
    alloc: Global,
    host: &mut H,
    nodes: u8,
    partitions: u8,
    copies: u8,
    text: Bytes,
) -> Result<(), Ending>
    requires limits { IsWithinLimits (entry_of (new_layout nodes partitions copies [])) }
    requires accepted { (tree : Procedures) × IsAcceptedText text tree }
    requires empty { IfSome (H.reads host.old) (λ files. files 0 ≡ []) }
    ensures makes { (tree : Procedures) → IsAcceptedText text tree
        → MakesStore H.Host result (new_layout nodes partitions copies text) tree host.old host.new }
    ensures quiet { H.said host.new ≡ H.said host.old }
    ensures disk { CountsDisk result (H.disk_faults host.old) (H.disk_faults host.new) }
{
    let layout = new_layout(alloc, nodes, partitions, copies, text)?;
    if host.sync(0).is_err() {
        return Err(Ending::DiskFault);
    }
    match make_store(alloc, host, &layout) {
        Ok(()) => Ok(()),
        Err(MakeFault::Disk) => Err(Ending::DiskFault),
        Err(MakeFault::NoMemory) => Err(Ending::NoMemory),
    }
}
