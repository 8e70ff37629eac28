//! The store of a host opened, and its layout added once more with another keep number.

ghost use Rattle.std.specs.Prelude.{◌≡◌, Some};
ghost use Rattle.coco_store.specs.Rules.{IsKeep};
ghost use Rattle.coco_commands.specs.Migrating.{Migrates, ending_of_adding};

use crate::opening::ending_of_opening;
use coco_append::add_layout;
use coco_ending::Ending;
use coco_host::Host;
use coco_log::LogFault;
use coco_recover::recover;
use std::alloc::Global;

/// Gives the host's store a keep number: from now on it keeps the replies of so many of its last epochs that have any.
/// It says nothing, and changes no file but that of the layouts, which gains one entry.
pub fn migrate<H: Host>(alloc: Global, host: &mut H, keep: u16) -> Ending
    requires { IsKeep (Some keep) }
    ensures { Migrates H.Host keep result (record { say = H.say_faults host.old; disk = H.disk_faults host.old })
        (record { say = H.say_faults host.new; disk = H.disk_faults host.new }) host.old host.new }
{
    let mut store = match recover(alloc, host) {
        Ok(store) => store,
        Err(fault) => return ending_of_opening(fault),
    };
    let log = &mut store.logs.root;
    ending_of_adding(add_layout(alloc, host, log, &store.layout, Some(keep), store.base_file))
}

/// How a call ends whose layout was added so.
pub fn ending_of_adding(added: Result<(), LogFault>) -> Ending
    ensures { result ≡ ending_of_adding added }
{
    match added {
        Ok(()) => Ending::Finished,
        Err(LogFault::NoMemory) => Ending::NoMemory,
        // An append refuses no file.
        Err(LogFault::Disk | LogFault::NotALog { .. } | LogFault::TooLong) => Ending::DiskFault,
    }
}
