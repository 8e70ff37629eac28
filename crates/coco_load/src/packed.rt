//! Rows as a store keeps those of its base.

ghost use Rattle.std.specs.Prelude.{◌≡◌, IfOk};

use coco_types::{Key, MapRows, NoMemory, Sequence, Text, Value};
use std::alloc::Global;
use std::marker::Model;

#[derive(Drop)]
enum Kind {
    Int(i64),
    Text(Box<Text>),
}

/// A row, kept so that one without a text takes little room. Contracts see its key with its value.
#[derive(Drop)]
pub struct PackedRow {
    key: Key,
    kind: Kind,
}

/// Rows as they are kept.
pub type PackedRows = Sequence<PackedRow>;

impl Model for PackedRow {
    ghost use Rattle.coco_types.specs.RowKey.{RowKey};
    ghost use Rattle.coco_types.specs.declared.value.Value.{Value as Datum};
    ghost use Rattle.coco_load.specs.Packing.{value_of};

    ghost Value = { RowKey × Datum };

    ghost view = { λ r. (r.key, value_of r.kind) };
}

impl PackedRow {
    /// The row, its text on this heap. Only a text takes memory.
    pub fn of(alloc: Global, key: Key, value: &Value) -> Result<PackedRow, NoMemory>
        ensures { IfOk result (λ row. row ≡ (key, value.now)) }
    {
        let kind = match value {
            Value::Int(number) => Kind::Int(*number),
            Value::Text(text) => Kind::Text(boxed(alloc, text)?),
        };
        Ok(PackedRow { key, kind })
    }

    /// The key of the row.
    pub fn key(&self) -> Key
        ensures { result ≡ self.now.0 }
    {
        self.key
    }

    /// What the row holds.
    pub fn value(&self) -> Value
        ensures { result ≡ self.now.1 }
    {
        match &self.kind {
            Kind::Int(number) => Value::Int(*number),
            Kind::Text(text) => Value::Text(*text.as_ref()),
        }
    }
}

// A text on this heap.
fn boxed(alloc: Global, text: &Text) -> Result<Box<Text>, NoMemory>
    ensures { IfOk result (λ boxed. boxed.value ≡ text.now) }
{
    Ok(Box::new(alloc, *text)?)
}

/// These rows, as they are kept. The list that they came in is let go.
pub fn packed_rows(alloc: Global, rows: MapRows) -> Result<PackedRows, NoMemory>
    ensures { IfOk result (λ packed. packed ≡ rows) }
{
    let mut packed = Vec::with_capacity(alloc, rows.len())?;
    for (key, value) in rows.as_slice() {
        packed.push(PackedRow::of(alloc, *key, value)?)?;
    }
    Ok(PackedRows::from_vec(packed))
}
