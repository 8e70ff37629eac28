//! A store that was opened, to be run: its nodes and coordinator between two epochs.

ghost use Rattle.std.specs.Prelude.{ℕ, [], Option, IfOk};
ghost use Rattle.coco_host.specs.Files.{Files};
ghost use Rattle.coco_recover.specs.Opening.{Has, HaveRows, IsSoundStore};
ghost use Rattle.coco_standing.specs.Standing.{TablesStand, none_behind};
ghost use Rattle.coco_store.specs.Contents.{Contents, Holds, map_in};
ghost use Rattle.coco_world.specs.World.{World};
ghost use Rattle.coco_members.specs.AtRest.{AreAtRest, NoneBehind, NoneLost};
ghost use Rattle.coco_members.specs.Opened.{AreMembersOf, AreOf, BeginsWorld, HandsOn, HasEntries};

use crate::Members;
use crate::nodes::{cores_of, voters_of};
use coco_ast::Checked;
use coco_chief::ChiefCore;
use coco_finish::NodeTables;
use coco_kept::Kept;
use coco_load::PackedRows;
use coco_recover::{Logs, Opened, an_opened_store_stands};
use coco_standing::{settled_shards_hold_a_map, tables_at_rest};
use coco_types::NoMemory;
use coco_world::entries_begin_a_world;
use std::alloc::Global;

/// What is in hand of a store that was opened, to be run.
#[derive(Drop)]
pub struct Reopened {
    /// Its nodes and coordinator, between two epochs.
    pub members: Members,
    pub procs: Checked,
    pub kept: Kept,
    /// The number of the epoch that comes next.
    pub next_epoch: u64,
    pub keep: Option<u16>,
    /// The rows of the base, entry by entry, for a node that loses its tables.
    pub base: Vec<PackedRows>,
}

/// The nodes and the coordinator of an opened store, between two epochs: each core begins anew from the epochs of its
/// entries, and no node is behind. On every host they are the beginning of a world, in which no letter was sent.
pub fn members_of(alloc: Global, store: Opened) -> Result<Reopened, NoMemory>
    requires sound { IsSoundStore store }
    ensures members { IfOk result (λ now. AreMembersOf store now.members) }
    ensures hands_on { IfOk result (λ now. HandsOn store now) }
    ensures rest { IfOk result (λ now. AreAtRest store.next_epoch [] now.members) }
    ensures lost { IfOk result (λ now. NoneLost now.members.voters.items) }
    ensures behind { IfOk result (λ now. NoneBehind now.members.tables) }
    // Where files hold these contents:
    ensures of { IfOk result (λ now. (keep : Option ℕ) (c : Contents) → Has keep c store → AreOf c now.members) }
    ensures tables { IfOk result (λ now. (keep : Option ℕ) (c : Contents) → Has keep c store → HaveRows c
        → TablesStand now.members.tables.layout (map_in c) none_behind now.members.tables.shards.items now.members.tables.copies.items) }
    // The world is there on every host, and its entries are those that files hold.
    ensures world { IfOk result (λ now. (w : World) × BeginsWorld store.next_epoch now.members w) }
    ensures entries { IfOk result (λ now. (keep : Option ℕ) (files : Files) (c : Contents) → Holds files c → Has keep c store
        → (w : World) × BeginsWorld store.next_epoch now.members w × HasEntries c w) }
{
    // The laws by which they are at rest, and begin a world; the calls do nothing.
    an_opened_store_stands();
    entries_begin_a_world();
    settled_shards_hold_a_map();
    tables_at_rest();
    let Opened {
        layout,
        procs,
        kept,
        shards,
        copies,
        logs,
        next_epoch,
        epochs,
        prepared,
        keep,
        base,
        ..
    } = store;
    let Logs {
        root: _,
        chief: log,
        nodes,
    } = logs;
    let chief = ChiefCore::restart(alloc, layout.nodes, epochs)?;
    let cores = cores_of(alloc, prepared.as_slice())?;
    let voters = voters_of(alloc, &layout, nodes)?;
    let behind = vec![in alloc; false; layout.nodes as usize]?;
    let tables = NodeTables {
        layout,
        shards,
        copies,
        behind,
    };
    Ok(Reopened {
        members: Members {
            chief,
            log,
            cores,
            voters,
            tables,
        },
        procs,
        kept,
        next_epoch,
        keep,
        base,
    })
}
