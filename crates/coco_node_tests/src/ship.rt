//! Three nodes with a copy of each partition on the two others.

ghost use Rattle.std.specs.Prelude.{◌≡◌, List, [], Contains, IfOk, OnOk};
ghost use Rattle.coco_types.specs.declared.call.Piece.{Piece as Part};
ghost use Rattle.coco_ship.specs.Examples.{three, AreNumbered, IsNumber};
ghost use Rattle.coco_ship.specs.Pieces.{IsWritten};
ghost use Rattle.coco_ship.specs.Shipping.{AreBegun};

use coco_copy::CopyTable;
use coco_net::{FloodNet, Lose, Net, QuietNet, ScriptNet};
use coco_ship::{Ring, ShipFault, ship_epoch};
use coco_types::{Key, NoMemory, PackedWrite, Piece, Sequence, Value, Write};
use std::alloc::Global;
use std::test::Fail;

const RING: Ring = Ring {
    nodes: 3,
    partitions: 3,
    copies: 2,
};

const FIVE: Key = Key { table: 0, row: 5 };

// The piece of this number writes one of four rows.
fn piece(alloc: Global, number: u8) -> Result<Piece, NoMemory>
    ensures { IfOk result (λ x. IsNumber number x) }
{
    let key = Key {
        table: 0,
        row: u64::from(number % 4) + 5,
    };
    let value = Some(Value::Int(i64::from(number) + 70));
    let write = PackedWrite::of(alloc, &Write { key, value })?;
    let writes = Sequence::from_vec(vec![in alloc; write]?);
    Ok(Piece {
        place: u32::from(number),
        partition: (number % 3 + 2) % 3,
        time: u64::from(number) + 1,
        writes,
    })
}

// So many pieces. The first is at place 0 of partition 2 at time 1, and writes 70 to row 5.
fn pieces(alloc: Global, count: u8) -> Result<Vec<Piece>, NoMemory>
    ensures { IfOk result (λ pieces. AreNumbered pieces.items) }
{
    let mut pieces = Vec::new(alloc);
    for number in 0..count {
        let one = piece(alloc, number)?;
        pieces.push(one)?;
    }
    Ok(pieces)
}

// A piece comes early where it is of this partition.
fn put_early(table: &mut CopyTable, piece: &Piece, partition: u8) -> Result<(), NoMemory>
    requires { table.old.epoch ≡ 1 }
    ensures epoch { OnOk result (table.new.epoch ≡ 1) }
    ensures written { OnOk result ((pieces : List Part) → Contains pieces piece.now → IsWritten pieces partition table.old → IsWritten pieces partition table.new) }
{
    if piece.partition != partition {
        return Ok(());
    }
    for write in piece.writes.as_slice() {
        table.put(1, piece.time, write.try_clone()?)?;
    }
    Ok(())
}

// A copy of a partition that began epoch 1, with the partition's pieces where they came early.
fn table(alloc: Global, pieces: &[Piece], partition: u8, early: bool) -> Result<CopyTable, NoMemory>
    ensures epoch { IfOk result (λ t. t.epoch ≡ 1) }
    ensures written { IfOk result (λ t. IsWritten pieces.now partition t) }
{
    let mut table = CopyTable::new(alloc);
    table.begin(1);
    if !early {
        return Ok(table);
    }
    for piece in pieces {
        put_early(&mut table, piece, partition)?;
    }
    Ok(table)
}

// The six copies.
fn tables(alloc: Global, pieces: &[Piece], early: bool) -> Result<Vec<CopyTable>, NoMemory>
    ensures { IfOk result (λ tables. AreBegun three 1 pieces.now tables.items) }
{
    let mut tables = Vec::new(alloc);
    for number in 0..6u8 {
        let copy = table(alloc, pieces, number / 2, early)?;
        tables.push(copy)?;
    }
    Ok(tables)
}

// So many pieces are shipped over a new net: the answer, and the tables afterwards.
fn ship<N: Net>(
    alloc: Global,
    net: &mut N,
    count: u8,
    early: bool,
) -> Result<(Result<(), ShipFault>, Vec<CopyTable>), NoMemory>
    requires { N.sent net.old ≡ [] }
{
    let pieces = pieces(alloc, count)?;
    let all = pieces.as_slice();
    let mut tables = tables(alloc, all, early)?;
    let answer = ship_epoch(alloc, net, RING, 1, all, &mut tables);
    Ok((answer, tables))
}

// Whether a row of 70 pends in both copies of partition 2, or none does, and none in the four other copies.
fn are_left(tables: &[CopyTable], pends: bool) -> bool {
    let mut copy = 0u8;
    for table in tables {
        let row = if pends && copy >= 4 {
            Some((1, Some(Value::Int(70))))
        } else {
            None
        };
        if table.pending(FIVE) != row {
            return false;
        }
        copy = copy.saturating_add(1);
    }
    copy == 6
}

// Whether one piece that is shipped over a new net comes to both copies of its partition.
fn comes<N: Net>(alloc: Global, net: &mut N, early: bool) -> Result<bool, NoMemory>
    requires { N.sent net.old ≡ [] }
{
    let (answer, tables) = ship(alloc, net, 1, early)?;
    Ok(answer == Ok(()) && are_left(tables.as_slice(), true))
}

#[test]
fn a_quiet_net_ships_and_early_deliveries_stay(rt: HostRuntime) -> Result<(), Fail> {
    let alloc = rt.alloc();
    for early in [false, true] {
        assert!(rt;
            comes(alloc, &mut QuietNet::new(alloc), early)?,
            "early: {early}"
        );
    }
    Ok(())
}

#[test]
fn first_sends_are_lost_and_the_copies_are_whole(rt: HostRuntime) -> Result<(), Fail> {
    let alloc = rt.alloc();
    let mut net = ScriptNet::new(alloc, Lose::FirstSend, true, 2);
    assert!(rt; comes(alloc, &mut net, false)?);
    Ok(())
}

#[test]
fn a_primary_that_hears_nothing_finds_a_copy_silent(rt: HostRuntime) -> Result<(), Fail> {
    let alloc = rt.alloc();
    let mut net = ScriptNet::new(alloc, Lose::To(2), false, 1);
    let (answer, _) = ship(alloc, &mut net, 1, false)?;
    // In each exchange asks to node 2 are lost in the first round, and Alls to it in the second.
    assert!(rt; answer == Err(ShipFault::Silent { node: 0 }) && net.faults() == 32);
    Ok(())
}

#[test]
fn nothing_comes_where_all_is_lost(rt: HostRuntime) -> Result<(), Fail> {
    let alloc = rt.alloc();
    let mut net = ScriptNet::new(alloc, Lose::All, false, 1);
    let (answer, tables) = ship(alloc, &mut net, 1, false)?;
    let is_silent = answer == Err(ShipFault::Silent { node: 0 });
    // Nothing is answered, so the second round of an exchange has nothing to lose.
    let is_well = is_silent && net.faults() == 16 && are_left(tables.as_slice(), false);
    assert!(rt; is_well);
    Ok(())
}

// What pends of the first nine pieces for a row in the copies of a partition: the last that writes it.
fn last(partition: u8, row: u8) -> Option<(u64, Option<Value>)> {
    let mut last = None;
    for number in 0..9u8 {
        if (number % 3 + 2) % 3 == partition && number % 4 == row {
            last = Some((
                u64::from(number) + 1,
                Some(Value::Int(i64::from(number) + 70)),
            ));
        }
    }
    last
}

// Whether that pends for each row in each table.
fn are_whole(tables: &[CopyTable]) -> bool {
    let mut copy = 0u8;
    for table in tables {
        for row in 0..4u8 {
            let key = Key {
                table: 0,
                row: u64::from(row) + 5,
            };
            if table.pending(key) != last(copy / 2, row) {
                return false;
            }
        }
        copy = copy.saturating_add(1);
    }
    true
}

// Whether nine pieces that are shipped over a new net make whole copies.
fn are_shipped<N: Net>(alloc: Global, net: &mut N, early: bool) -> Result<bool, NoMemory>
    requires { N.sent net.old ≡ [] }
{
    let (answer, tables) = ship(alloc, net, 9, early)?;
    Ok(answer.is_ok() && are_whole(tables.as_slice()))
}

#[test]
fn floods_and_repeats_change_nothing(rt: HostRuntime) -> Result<(), Fail> {
    let alloc = rt.alloc();
    for early in [false, true] {
        let flooded = are_shipped(alloc, &mut FloodNet::new(alloc), early)?;
        let mut net = ScriptNet::new(alloc, Lose::Nothing, true, 200);
        assert!(rt;
            flooded && are_shipped(alloc, &mut net, early)?,
            "early: {early}"
        );
    }
    Ok(())
}
