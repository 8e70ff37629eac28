//! What an epoch wrote, shipped to the copies of all partitions.

ghost use Rattle.std.specs.Prelude.{◌≡◌, ◌≤◌, ◌++◌, List, IfErr, IsOk, OnOk, All, Contains, length};
ghost use Rattle.coco_ast.specs.History.{rows_after};
ghost use Rattle.coco_ast.specs.Keyed.{Rows};
ghost use Rattle.coco_early.specs.Runs.{HasRun};
ghost use Rattle.coco_finish.specs.Finishing.{AreWhole as IsWhole};
ghost use Rattle.coco_parallel.specs.Ending.{Start};
ghost use Rattle.coco_parallel.specs.Traces.{Traced};
ghost use Rattle.coco_ship.specs.Letters.{AreOther};
ghost use Rattle.coco_ship.specs.Pieces.{AreShippable};
ghost use Rattle.coco_ship.specs.Placing.{IsRing};
ghost use Rattle.coco_ship.specs.Shipping.{news, AreBegun, ArePhase, AreWhole, GainOnly, HaveAnswered, OnSilent};
ghost use Rattle.coco_ship.specs.There.{AreAllThere, AreRight};
ghost use Rattle.coco_types.specs.declared.call.Done.{Done};
ghost use Rattle.coco_trial.specs.Running.{GiveAll, KeepAll, SamePlaces, ring_of};

use coco_early::pending_is_last;
use coco_finish::NodeTables;
use coco_net::Net;
use coco_ship::{Ring, ShipFault};
use coco_standing::pending_stands;
use coco_types::Piece;
use std::alloc::Global;

/// Ships the pieces of an epoch to the copies of their partitions. After Ok each copy will have, once it is promoted, the
/// rows that its primary has; and whatever it answers, to revert the tables gives the rows of before.
pub fn ship<N: Net>(
    alloc: Global,
    net: &mut N,
    tables: &mut NodeTables,
    epoch: u64,
    pieces: &[Piece],
) -> Result<(), ShipFault>
    requires ring { IsRing (ring_of tables.old.layout) }
    requires whole { IsWhole tables.old }
    requires pieces { AreShippable (ring_of tables.old.layout) pieces.now }
    requires begun { AreBegun (ring_of tables.old.layout) epoch pieces.now tables.old.copies.items }
    requires fresh { AreOther epoch (N.sent net.old) }
    // Whichever run of the epoch left these pieces, to promote all tables gives the map that its Dones leave.
    ensures give { OnOk result ((s : Start) (dones : List Done) (trace : Traced) → s.config.epoch ≡ epoch → HasRun s tables.old.shards.items dones pieces.now trace
        → KeepAll s.opening tables.old → GiveAll (rows_after s.procs s.opening dones) tables.new) }
    ensures keep { (m : Rows) → KeepAll m tables.old → KeepAll m tables.new }
    ensures places { SamePlaces tables.old tables.new }
    ensures shards { tables.new.shards ≡ tables.old.shards }
    ensures copies { length tables.new.copies.items ≡ length tables.old.copies.items }
    // Each copy has its pieces and has answered so, and each letter says what is so.
    ensures whole { OnOk result (AreWhole (ring_of tables.old.layout) epoch pieces.now tables.new.copies.items) }
    ensures answered { OnOk result (HaveAnswered (ring_of tables.old.layout) epoch (news (N.given net.old) (N.given net.new))) }
    ensures there { OnOk result (AreAllThere (ring_of tables.old.layout) epoch pieces.now tables.old.copies.items (news (N.given net.old) (N.given net.new))) }
    ensures right { AreRight (ring_of tables.old.layout) epoch pieces.now tables.old.copies.items (news (N.given net.old) (N.given net.new)) (news (N.sent net.old) (N.sent net.new)) }
    ensures gains { GainOnly (ring_of tables.old.layout) epoch (news (N.given net.old) (N.given net.new)) tables.old.copies.items tables.new.copies.items }
    // The letters. Without copies there are none.
    ensures given { N.given net.new ≡ N.given net.old ++ news (N.given net.old) (N.given net.new) }
    ensures sent { N.sent net.new ≡ N.sent net.old ++ news (N.sent net.old) (N.sent net.new) }
    ensures phase { ArePhase epoch (news (N.sent net.old) (N.sent net.new)) }
    // What is given was sent.
    ensures were_sent { All (Contains (N.sent net.new)) (news (N.given net.old) (N.given net.new)) }
    ensures alone { tables.old.layout.copies ≡ 0 → IsOk result × (net.new ≡ net.old) }
    // Silent comes only after 16 exchanges, in each of which the count of faults rose.
    ensures silent { IfErr result (OnSilent (ring_of tables.old.layout) epoch (news (N.sent net.old) (N.sent net.new)) (news (N.given net.old) (N.given net.new)) (N.faults net.old) (N.faults net.new)) }
    ensures seed { N.last_seed net.new ≡ N.last_seed net.old }
    ensures faults { N.faults net.old ≤ N.faults net.new }
{
    let ring = Ring {
        nodes: tables.layout.nodes,
        partitions: tables.layout.partitions,
        copies: tables.layout.copies,
    };
    // The laws by which a copy that has its pieces has what was written last; the calls do nothing.
    pending_is_last();
    pending_stands();
    coco_work::ship(
        alloc,
        net,
        ring,
        epoch,
        pieces,
        tables.copies.as_mut_slice(),
    )
}
