//! The pieces of an epoch, shipped to the copies where there are some.
ghost use Rattle.std.specs.Prelude.{◌≡◌, ◌++◌, ◌≤◌, All, Contains, IfErr, IsOk, OnOk};
ghost use Rattle.coco_ship.specs.Letters.{AreOther};
ghost use Rattle.coco_ship.specs.Pieces.{AreShippable};
ghost use Rattle.coco_ship.specs.Placing.{IsRing};
ghost use Rattle.coco_ship.specs.There.{AreAllThere, AreRight};
ghost use Rattle.coco_ship.specs.Shipping.{news, AreBegun, ArePhase, AreWhole, GainOnly, HaveAnswered, OnSilent};

use coco_copy::CopyTable;
use coco_net::Net;
use coco_ship::{Ring, ShipFault, ship_epoch};
use coco_types::Piece;
use std::alloc::Global;

/// Ships the pieces of an epoch to the copies of their partitions. After Ok each copy has the pending rows of its
/// pieces, by greatest time. Without copies there is nothing to do, and the net is left alone.
pub fn ship<N: Net>(
    alloc: Global,
    net: &mut N,
    ring: Ring,
    epoch: u64,
    pieces: &[Piece],
    copies: &mut [CopyTable],
) -> Result<(), ShipFault>
    requires ring { IsRing ring }
    requires pieces { AreShippable ring pieces.now }
    requires tables { AreBegun ring epoch pieces.now copies.old }
    requires fresh { AreOther epoch (N.sent net.old) }
    ensures whole { OnOk result (AreWhole ring epoch pieces.now copies.new) }
    ensures answered { OnOk result (HaveAnswered ring epoch (news (N.given net.old) (N.given net.new))) }
    // After Ok each piece is there: it came early, or was given in this call.
    ensures there { OnOk result (AreAllThere ring epoch pieces.now copies.old (news (N.given net.old) (N.given net.new))) }
    // Whatever the answer, each letter says what is so.
    ensures right { AreRight ring epoch pieces.now copies.old (news (N.given net.old) (N.given net.new)) (news (N.sent net.old) (N.sent net.new)) }
    // Whatever the answer, the copies have some of the pieces' rows and no others.
    ensures tables { AreBegun ring epoch pieces.now copies.new }
    ensures gains { GainOnly ring epoch (news (N.given net.old) (N.given net.new)) copies.old copies.new }
    ensures given { N.given net.new ≡ N.given net.old ++ news (N.given net.old) (N.given net.new) }
    ensures sent { N.sent net.new ≡ N.sent net.old ++ news (N.sent net.old) (N.sent net.new) }
    ensures phase { ArePhase epoch (news (N.sent net.old) (N.sent net.new)) }
    // What is given was sent.
    ensures were_sent { All (Contains (N.sent net.new)) (news (N.given net.old) (N.given net.new)) }
    // Without copies nothing changes, and it is Ok.
    ensures alone { ring.copies ≡ 0 → IsOk result × (net.new ≡ net.old) × (copies.new ≡ copies.old) }
    // Silent comes only after 16 exchanges, in each of which the count of faults rose.
    ensures silent { IfErr result (OnSilent ring epoch (news (N.sent net.old) (N.sent net.new)) (news (N.given net.old) (N.given net.new)) (N.faults net.old) (N.faults net.new)) }
    // Whatever the answer, no disturbance is asked for, and the count of faults doesn't fall.
    ensures seed { N.last_seed net.new ≡ N.last_seed net.old }
    ensures faults { N.faults net.old ≤ N.faults net.new }
{
    if ring.copies == 0 {
        return Ok(());
    }
    ship_epoch(alloc, net, ring, epoch, pieces, copies)
}
