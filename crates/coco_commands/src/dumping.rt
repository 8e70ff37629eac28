//! The command `dump`.

ghost use Rattle.std.specs.Prelude.{◌≡◌};
ghost use Rattle.coco_audit.specs.Dumping.{text_of};
ghost use Rattle.coco_commands.specs.Telling.{Dumps, Says};

use crate::opening::ending_of_opening;
use coco_audit::Dump;
use coco_ending::Ending;
use coco_host::{Host, say_all};
use coco_recover::recover_whole;
use coco_types::{NoMemory, OutFault};
use std::alloc::Global;

/// Says what the store has kept, and its rows, piece by piece.
pub fn dump<H: Host>(alloc: Global, host: &mut H) -> Ending
    ensures { Dumps H.Host result (record { say = H.say_faults host.old; disk = H.disk_faults host.old })
        (record { say = H.say_faults host.new; disk = H.disk_faults host.new }) host.old host.new }
{
    let store = match recover_whole(alloc, host) {
        Ok(store) => store,
        Err(fault) => return ending_of_opening(fault),
    };
    let shards = store.shards.as_slice();
    match Dump::new(alloc, &store.procs, &store.kept, shards) {
        Ok(dump) => say_pieces(alloc, host, dump),
        Err(NoMemory) => Ending::NoMemory,
    }
}

// Says a dump, each piece before the next one is made.
fn say_pieces<H: Host>(alloc: Global, host: &mut H, mut dump: Dump<'_>) -> Ending
    ensures { Says H.Host (text_of dump.entry) Ending.Finished result (record { say = H.say_faults host.old; disk = H.disk_faults host.old })
        (record { say = H.say_faults host.new; disk = H.disk_faults host.new }) host.old host.new }
{
    let mut piece = Vec::new(alloc);
    'pieces: loop {
        match dump.next(&mut piece) {
            Ok(()) => {}
            Err(NoMemory) => return Ending::NoMemory,
        }
        if piece.is_empty() {
            return Ending::Finished;
        }
        match say_all(host, piece.as_slice()) {
            Ok(()) => {}
            Err(OutFault::Failed) => return Ending::SayFault,
            Err(OutFault::NoMemory) => return Ending::NoMemory,
        }
    }
}
