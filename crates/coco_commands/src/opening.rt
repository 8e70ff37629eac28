//! The store of a host opened, for a command that goes on with it.

ghost use Rattle.std.specs.Prelude.{◌≡◌, ◌≤◌, [], length, IfErr, IfOk, OnOk};
ghost use Rattle.coco_types.specs.Limits.{most_kept};
ghost use Rattle.coco_host.specs.Files.{Files};
ghost use Rattle.coco_append.specs.Gaining.{RestsOn};
ghost use Rattle.coco_cluster.specs.Standing.{AllStand, IsSound, StandsAt};
ghost use Rattle.coco_load.specs.Epochs.{IsNextOf};
ghost use Rattle.coco_log.specs.LogState.{IsOnlyRead};
ghost use Rattle.coco_members.specs.Opened.{BeginsWorld, HasEntries};
ghost use Rattle.coco_store.specs.Contents.{Contents, Holds, IsGoodStore};
ghost use Rattle.coco_world.specs.World.{World};
ghost use Rattle.coco_commands.specs.Opening.{FailsToOpen, ending_of_opening};

use coco_cluster::{Cluster, cluster_of};
use coco_ending::Ending;
use coco_host::Host;
use coco_read::OpenFault;
use coco_recover::recover;
use coco_types::NoMemory;
use std::alloc::Global;

/// How a call ends whose store can't be opened.
pub fn ending_of_opening(fault: OpenFault) -> Ending
    ensures { result ≡ ending_of_opening fault }
{
    match fault {
        OpenFault::Disk => Ending::DiskFault,
        OpenFault::NotAStore { file, at } => Ending::NotAStore { file, at },
        OpenFault::NoMemory => Ending::NoMemory,
    }
}

/// The host's store, opened to be run. Its nodes' and its coordinator's cores are the restarted ones.
pub fn open_cluster<H: Host>(alloc: Global, host: &mut H) -> Result<Cluster, Ending>
    ensures read { IsOnlyRead H.Host host.old host.new }
    ensures holds { IfOk result (λ _. (files : Files) → H.reads host.old ≡ Some files → (c : Contents) × Holds files c) }
    ensures sound { IfOk result (λ cluster. IsSound cluster []) }
    ensures stands { IfOk result (λ cluster. (files : Files) (c : Contents) → H.reads host.old ≡ Some files → IsGoodStore files c
        → RestsOn c (H.reads host.new) (H.may_leave host.new) × StandsAt c cluster) }
    ensures next { IfOk result (λ cluster. (files : Files) (c : Contents) → H.reads host.old ≡ Some files → Holds files c → IsNextOf c cluster.next_epoch) }
    ensures world { IfOk result (λ cluster. (w : World) × BeginsWorld cluster.next_epoch cluster.members w) }
    ensures entries { IfOk result (λ cluster. (files : Files) (c : Contents) → H.reads host.old ≡ Some files → Holds files c → (w : World) × BeginsWorld cluster.next_epoch cluster.members w × HasEntries c w) }
    ensures logs { IfOk result (λ cluster. AllStand cluster (H.reads host.new) (H.may_leave host.new)) }
    ensures room { IfOk result (λ cluster. length cluster.kept.dones ≤ most_kept) }
    ensures disk { OnOk result (H.disk_faults host.new ≡ H.disk_faults host.old) }
    ensures err { IfErr result (λ ending. FailsToOpen ending (H.reads host.old) (H.disk_faults host.old) (H.disk_faults host.new)) }
{
    let store = match recover(alloc, host) {
        Ok(store) => store,
        Err(fault) => return Err(ending_of_opening(fault)),
    };
    match cluster_of(alloc, store) {
        Ok(cluster) => Ok(cluster),
        Err(NoMemory) => Err(Ending::NoMemory),
    }
}
