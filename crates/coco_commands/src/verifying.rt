//! The command `verify`.

ghost use Rattle.std.specs.Prelude.{◌≡◌, None, IfOk};
ghost use Rattle.coco_audit.specs.Texts.{not_serial_text, serial_text};
ghost use Rattle.coco_recover.specs.Opening.{Has, IsSoundStore};
ghost use Rattle.coco_store.specs.Contents.{Contents, Holds};
ghost use Rattle.coco_host.specs.Files.{Files};
ghost use Rattle.coco_commands.specs.Telling.{EndsVerdict, IsVerdict, Verifies};

use crate::opening::ending_of_opening;
use crate::saying::say_text;
use coco_audit::{NotSerial, verify_of, write_not_serial, write_serial};
use coco_ending::Ending;
use coco_host::Host;
use coco_recover::{Opened, recover_whole};
use coco_types::NoMemory;
use std::alloc::Global;

// A line, and how a call ends that says it.
#[derive(Drop)]
struct Verdict {
    text: Vec<u8>,
    ending: Ending,
}

/// Says whether the replies of the store's epochs are those of a serial run, or which one isn't.
pub fn verify<H: Host>(alloc: Global, host: &mut H) -> Ending
    ensures { Verifies H.Host result (record { say = H.say_faults host.old; disk = H.disk_faults host.old })
        (record { say = H.say_faults host.new; disk = H.disk_faults host.new }) host.old host.new }
{
    let store = match recover_whole(alloc, host) {
        Ok(store) => store,
        Err(fault) => return ending_of_opening(fault),
    };
    match verdict_of(alloc, &store) {
        Ok(Verdict { text, ending }) => say_text(host, text.as_slice(), ending),
        Err(NoMemory) => Ending::NoMemory,
    }
}

// The verdict on an opened store.
fn verdict_of(alloc: Global, store: &Opened) -> Result<Verdict, NoMemory>
    requires { IsSoundStore store.now }
    ensures ends { IfOk result (λ verdict. EndsVerdict verdict.ending) }
    ensures verdict { IfOk result (λ verdict. (files : Files) (c : Contents) → Holds files c → Has None c store.now → IsVerdict c verdict.text.items verdict.ending) }
{
    // Those of the base.
    let first = store.kept.count_until(store.layout.base_epoch);
    match verify_of(
        alloc,
        &store.procs,
        store.base.as_slice(),
        &store.kept,
        first,
    ) {
        Ok(None) => serial_verdict(alloc, store.kept.len() - first),
        Ok(Some(found)) => not_serial_verdict(alloc, &found),
        Err(NoMemory) => Err(NoMemory),
    }
}

// The verdict that so many replies are those of a serial run.
fn serial_verdict(alloc: Global, count: u64) -> Result<Verdict, NoMemory>
    ensures { IfOk result (λ verdict. (verdict.ending ≡ Ending.Finished) × (verdict.text.items ≡ serial_text count)) }
{
    let mut text = Vec::new(alloc);
    write_serial(&mut text, count)?;
    Ok(Verdict {
        text,
        ending: Ending::Finished,
    })
}

// The verdict that this reply is the first that isn't.
fn not_serial_verdict(alloc: Global, found: &NotSerial) -> Result<Verdict, NoMemory>
    ensures { IfOk result (λ verdict. (verdict.ending ≡ Ending.NotSerial found.now.place) × (verdict.text.items ≡ not_serial_text found.now)) }
{
    let mut text = Vec::new(alloc);
    write_not_serial(&mut text, found)?;
    Ok(Verdict {
        text,
        ending: Ending::NotSerial { place: found.place },
    })
}
