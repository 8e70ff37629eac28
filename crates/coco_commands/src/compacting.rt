//! The store of a host opened, and made small.

ghost use Rattle.coco_commands.specs.Compacting.{Compacts};

use crate::migrating::ending_of_adding;
use crate::opening::ending_of_opening;
use coco_ckpt::compact_store;
use coco_ending::Ending;
use coco_host::Host;
use coco_recover::recover;
use std::alloc::Global;

/// Makes the host's store small: its map, its kept Dones and its floor become the base of new files, to which one
/// layout more switches. It says nothing, and the files of before stay.
pub fn compact<H: Host>(alloc: Global, host: &mut H) -> Ending
    ensures { Compacts H.Host result (record { say = H.say_faults host.old; disk = H.disk_faults host.old })
        (record { say = H.say_faults host.new; disk = H.disk_faults host.new }) host.old host.new }
{
    let store = match recover(alloc, host) {
        Ok(store) => store,
        Err(fault) => return ending_of_opening(fault),
    };
    ending_of_adding(compact_store(alloc, host, store))
}
