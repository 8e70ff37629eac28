//! The file of a lost node, made again.

ghost use Rattle.std.specs.Prelude.{◌≡◌};
ghost use Rattle.coco_commands.specs.Rebuilding.{Rebuilds, ending_of_rebuilding};

use coco_ending::Ending;
use coco_host::Host;
use coco_rebuild::RebuildFault;
use std::alloc::Global;

/// Makes the file of a node again, out of those of the other holders of its partitions, under a new number that one
/// layout more names. It says nothing, and the node's old file isn't read.
pub fn rebuild<H: Host>(alloc: Global, host: &mut H, node: u8) -> Ending
    ensures { Rebuilds H.Host node result (record { say = H.say_faults host.old; disk = H.disk_faults host.old })
        (record { say = H.say_faults host.new; disk = H.disk_faults host.new }) host.old host.new }
{
    ending_of_rebuilding(node, coco_rebuild::rebuild(alloc, host, node))
}

// How a call ends that was to make this node's file again.
fn ending_of_rebuilding(node: u8, rebuilt: Result<(), RebuildFault>) -> Ending
    ensures { result ≡ ending_of_rebuilding node rebuilt }
{
    match rebuilt {
        Ok(()) => Ending::Finished,
        Err(RebuildFault::Disk) => Ending::DiskFault,
        Err(RebuildFault::NotAStore { file, at }) => Ending::NotAStore { file, at },
        Err(RebuildFault::NoNode { nodes }) => Ending::NoNode { node, nodes },
        Err(RebuildFault::NoHolder { partition }) => Ending::NoHolder { partition },
        Err(RebuildFault::NoMemory) => Ending::NoMemory,
    }
}
