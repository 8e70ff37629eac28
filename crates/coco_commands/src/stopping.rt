//! How a call ends that has turned to a store.

ghost use Rattle.std.specs.Prelude.{◌≡◌};
ghost use Rattle.coco_commands.specs.Stopping.{ending_of};

use coco_cluster::Stop;
use coco_ending::Ending;

// How a call ends, by what stopped it.
pub(crate) fn ending_of(done: Result<(), Stop>) -> Ending
    ensures { result ≡ ending_of done }
{
    match done {
        Ok(()) => Ending::Finished,
        Err(Stop::Read) => Ending::ReadFault,
        Err(Stop::Say) => Ending::SayFault,
        Err(Stop::Disk) => Ending::DiskFault,
        Err(Stop::NotAStore { file, at }) => Ending::NotAStore { file, at },
        Err(Stop::Unreachable) => Ending::Unreachable,
        Err(Stop::EpochsUsedUp) => Ending::EpochsUsedUp,
        Err(Stop::NoMemory) => Ending::NoMemory,
    }
}
