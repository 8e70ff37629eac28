//! The commit entry of an epoch, and then its telling.

ghost use Rattle.std.specs.Prelude.{◌≡◌, ◌≢◌, ◌⊎◌, ℕ, ◌<◌, ◌≤◌, ◌^◌, false, List, length, OnOk};
ghost use Rattle.coco_chief.specs.Shown.{chief_of};
ghost use Rattle.coco_chief.specs.Table.{forced};
ghost use Rattle.coco_chief.specs.declared.machine.Phase.TheVariants.{Forcing};
ghost use Rattle.coco_entry.specs.Commits.{AreOf, commit_bytes, IsCommit};
ghost use Rattle.coco_entry.specs.declared.commit.Commit.{Commit};
ghost use Rattle.coco_host.specs.Files.{Become, Follows};
ghost use Rattle.coco_letters.specs.Turns.{ChiefTurns, OnlySends};
ghost use Rattle.coco_letters.specs.Worlds.{Commits, GoesOnWith};
ghost use Rattle.coco_log.specs.Faults.{CountsFault};
ghost use Rattle.coco_log.specs.LogState.{LogState, SameBut, with_entry};
ghost use Rattle.coco_node.specs.Node.{Node as NodeState};
ghost use Rattle.coco_store.specs.Contents.{Contents};
ghost use Rattle.coco_store.specs.Laws.{MayCommit, with_commit};
ghost use Rattle.coco_append.specs.Gaining.{Gains, IsChiefLog, RestsOn, Stands};

use coco_append::add_commit;
use coco_chief::ChiefCore;
use coco_host::Host;
use coco_letters::chief_forced;
use coco_log::{Log, LogFault};
use coco_net::Net;
use coco_types::Done;

/// Commits the epoch that the coordinator forces: its entry becomes durable, and then each node is told. At each moment
/// all that a crash may leave is a good store with the old history, or with the epoch behind it. Whatever comes of it,
/// no letter goes out and the core isn't told unless the entry is durable.
pub fn commit<H: Host, N: Net>(
    host: &mut H,
    net: &mut N,
    chief: &mut ChiefCore,
    log: &mut Log,
    epoch: u64,
    dones: &[Done],
    body: &mut Vec<u8>,
) -> Result<(), LogFault>
    requires few { (chief_of chief.old).nodes ≤ 8 }
    requires phase { (chief_of chief.old).phase ≡ Forcing }
    requires epoch { (chief_of chief.old).current ≡ epoch }
    requires unspent { log.old.spent ≡ false }
    requires stands { Stands log.old (H.reads host.old) (H.may_leave host.old) }
    requires count { length dones.now < 2 ^ 32 }
    requires epochs { AreOf epoch dones.now }
    ensures turns { OnOk result (ChiefTurns (forced epoch (chief_of chief.old)) (N.sent net.old) (chief_of chief.new) (N.sent net.new)) }
    ensures nodes { (chief_of chief.new).nodes ≡ (chief_of chief.old).nodes }
    ensures behind { (log.new ≡ with_entry log.old (commit_bytes (record { epoch = epoch; dones = dones.now }))) ⊎ ((chief.new ≡ chief.old) × (net.new ≡ net.old)) }
    // The files.
    ensures files { (c : Contents) → let entry : Commit = record { epoch = epoch; dones = dones.now } in
        RestsOn c (H.reads host.old) (H.may_leave host.old) → IsChiefLog c log.old → (IsCommit entry → MayCommit c entry)
        → Gains H.Host result c (with_commit entry c) host.old host.new }
    ensures log { OnOk result (log.new ≡ with_entry log.old (commit_bytes (record { epoch = epoch; dones = dones.now }))) }
    ensures stands { OnOk result (Stands log.new (H.reads host.new) (H.may_leave host.new)) }
    ensures others { (other : LogState) → other.file ≢ log.old.file → Stands other (H.reads host.old) (H.may_leave host.old) → Stands other (H.reads host.new) (H.may_leave host.new) }
    ensures read { Become (SameBut log.old.file) (H.reads host.old) (H.reads host.new) }
    ensures crash { Follows (SameBut log.old.file) (H.may_leave host.old) (H.may_leave host.new) }
    ensures said { H.said host.new ≡ H.said host.old }
    ensures disk { CountsFault result (H.disk_faults host.old) (H.disk_faults host.new) }
    ensures stream { H.say_faults host.new ≡ H.say_faults host.old }
    // The world.
    ensures world { OnOk result ((cores : List NodeState) → GoesOnWith (Commits epoch) (record { cores = cores; chief = chief_of chief.old; sent = N.sent net.old }) (record { cores = cores; chief = chief_of chief.new; sent = N.sent net.new })) }
    // The counts.
    ensures sends { OnlySends N.Net net.old net.new }
{
    add_commit(host, log, epoch, dones, body)?;
    let alloc = *body.allocator();
    Ok(chief_forced(alloc, net, chief, epoch)?)
}
