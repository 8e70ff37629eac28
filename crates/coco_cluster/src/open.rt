//! A store opened, as a cluster of its nodes.

ghost use Rattle.std.specs.Prelude.{◌≡◌, ◌≤◌, [], length, IfOk};
ghost use Rattle.coco_types.specs.Limits.{most_kept};
ghost use Rattle.coco_host.specs.Files.{Files};
ghost use Rattle.coco_store.specs.Contents.{Contents, Holds, IsGoodStore};
ghost use Rattle.coco_members.specs.Opened.{AreMembersOf, BeginsWorld, HasEntries};
ghost use Rattle.coco_world.specs.World.{World};
ghost use Rattle.coco_cluster.specs.Standing.{IsSound, StandsAt};
ghost use Rattle.coco_recover.specs.Opening.{IsOpening, IsSoundStore, its_keep};

use crate::Cluster;
use coco_members::members_of;
use coco_recover::Opened;
use coco_types::NoMemory;
use std::alloc::Global;

/// The cluster of an opened store. Before its first turn no letter was sent.
pub fn cluster_of(alloc: Global, store: Opened) -> Result<Cluster, NoMemory>
    requires sound { IsSoundStore store }
    requires keep { store.kept.keep ≡ store.keep }
    requires few { length store.kept.dones ≤ most_kept }
    ensures sound { IfOk result (λ cluster. IsSound cluster []) }
    ensures stands { IfOk result (λ cluster. (files : Files) (c : Contents) → IsOpening its_keep files store → IsGoodStore files c → StandsAt c cluster) }
    ensures members { IfOk result (λ cluster. AreMembersOf store cluster.members) }
    ensures room { IfOk result (λ cluster. length cluster.kept.dones ≤ most_kept) }
    ensures next { IfOk result (λ cluster. cluster.next_epoch ≡ store.next_epoch) }
    // Its cores, and the letters that were sent, begin a world, whose entries are those that files hold.
    ensures world { IfOk result (λ cluster. (w : World) × BeginsWorld cluster.next_epoch cluster.members w) }
    ensures entries { IfOk result (λ cluster. (files : Files) (c : Contents) → IsOpening its_keep files store → Holds files c → (w : World) × BeginsWorld cluster.next_epoch cluster.members w × HasEntries c w) }
{
    let reopened = members_of(alloc, store)?;
    Ok(Cluster::of(alloc, reopened))
}
