//! The rows of the report.
ghost use Rattle.std.specs.Prelude.{◌≡◌, ◌+◌, ◌++◌, ◌∷◌, [], List, Option, OnOk, IfOk, map};
ghost use Rattle.listeners_support.specs.Map as idmap;
ghost use Rattle.listeners_support.specs.Map.{entries_from};
ghost use Rattle.ir_event.specs.types.declared.bits.Bits.{Bits as Known};
ghost use Rattle.ir_event.specs.declared.row.Row.{Row as Line};
ghost use Rattle.constants.specs.Tables.{cells_of, entries_about, entry_at, entry_of};

use crate::packed::PackedBits;
use ir_event::row::{Cell, Row};
use ir_event::subject::Subject;
use ir_event::trees::value::Value;
use ir_event::types::bits::Bits;
use ir_event::types::ids::OpId;
use listeners_support::IdMap;
use std::alloc::{AllocError, Global};
use std::collections::BTreeMap;

/// Returns the row of a known value.
fn line(alloc: Global, op: OpId, bits: &Bits) -> Result<Row, AllocError>
    ensures { IfOk result (λ row. row.cells.items ≡ cells_of (op, bits.now)) }
{
    let mut cells = Vec::with_capacity(alloc, 2)?;
    cells.push(Cell::Val(Value::Result(op, 0)))?;
    cells.push(Cell::Bits(*bits))?;
    Ok(Row { cells })
}

/// Appends the row of a known value.
fn push_line(alloc: Global, op: OpId, bits: &Bits, out: &mut Vec<Row>) -> Result<(), AllocError>
    ensures { OnOk result (map (λ (r : Line). r.cells.items) out.new.items
        ≡ map (λ (r : Line). r.cells.items) out.old.items ++ cells_of (op, bits.now) ∷ []) }
{
    out.push(line(alloc, op, bits)?)?;
    Ok(())
}

/// Appends the row of the value of an id in a list, if it has one.
fn push_slot(
    alloc: Global,
    id: usize,
    slot: &Option<PackedBits>,
    out: &mut Vec<Row>,
) -> Result<(), AllocError>
    ensures { (rest : List (Option Known)) → OnOk result (map (λ (r : Line). r.cells.items) out.new.items
        ++ map cells_of (entries_from (id + 1) rest)
        ≡ map (λ (r : Line). r.cells.items) out.old.items ++ map cells_of (entries_from id (slot.now ∷ rest))) }
{
    let Some(packed) = slot else {
        return Ok(());
    };
    let Ok(number) = u32::try_from(id) else {
        return Err(AllocError);
    };
    push_line(alloc, OpId::new(number), &packed.bits(), out)
}

/// Appends a row for each value of the ids in a list.
fn push_near(
    alloc: Global,
    near: &[Option<PackedBits>],
    out: &mut Vec<Row>,
) -> Result<(), AllocError>
    ensures { OnOk result (map (λ (r : Line). r.cells.items) out.new.items
        ≡ map (λ (r : Line). r.cells.items) out.old.items ++ map cells_of (entries_from 0 near.now)) }
{
    for (id, slot) in near.iter().enumerate() {
        push_slot(alloc, id, slot, out)?;
    }
    Ok(())
}

/// Appends a row for each value of the ids in a sorted map.
fn push_far(
    alloc: Global,
    far: &BTreeMap<u32, PackedBits>,
    out: &mut Vec<Row>,
) -> Result<(), AllocError>
    ensures { OnOk result (map (λ (r : Line). r.cells.items) out.new.items
        ≡ map (λ (r : Line). r.cells.items) out.old.items ++ map cells_of far.now.entries) }
{
    for (id, packed) in far {
        push_line(alloc, OpId::new(*id), &packed.bits(), out)?;
    }
    Ok(())
}

/// Appends a row for each known value.
fn push_lines(
    alloc: Global,
    table: &IdMap<PackedBits>,
    out: &mut Vec<Row>,
) -> Result<(), AllocError>
    ensures { OnOk result (map (λ (r : Line). r.cells.items) out.new.items
        ≡ map (λ (r : Line). r.cells.items) out.old.items ++ map cells_of table.now.entries) }
{
    let (near, far) = table.parts();
    push_near(alloc, near, out)?;
    push_far(alloc, far, out)
}

/// Returns a row for each known value, ordered by id.
pub(crate) fn lines(alloc: Global, table: &IdMap<PackedBits>) -> Result<Vec<Row>, AllocError>
    ensures rows { IfOk result (λ out. map (λ (r : Line). r.cells.items) out.items ≡ map cells_of table.now.entries) }
    ensures ordered { IfOk result (λ _. idmap.IsOrdered table.now) }
{
    table.ordered();
    let mut out = Vec::new(alloc);
    push_lines(alloc, table, &mut out)?;
    Ok(out)
}

/// Returns the row about the result of an operation or about a value, if its value is known.
pub(crate) fn lines_about(
    alloc: Global,
    table: &IdMap<PackedBits>,
    subject: &Subject,
) -> Result<Vec<Row>, AllocError>
    ensures { IfOk result (λ out. map (λ (r : Line). r.cells.items) out.items
        ≡ map cells_of (entries_about subject.now table.now)) }
{
    match subject {
        Subject::Op(op) => lines_of(alloc, table, *op),
        Subject::Val(value) => lines_of_value(alloc, table, value),
    }
}

/// Returns the row of a value, if it is known.
fn lines_of_value(
    alloc: Global,
    table: &IdMap<PackedBits>,
    value: &Value,
) -> Result<Vec<Row>, AllocError>
    ensures { IfOk result (λ out. map (λ (r : Line). r.cells.items) out.items
        ≡ map cells_of (entry_at value.now table.now)) }
{
    match *value {
        Value::Result(op, place) if place == 0 => lines_of(alloc, table, op),
        Value::Result(_, _) => Ok(Vec::new(alloc)),
        Value::Arg(_, _, _) => Ok(Vec::new(alloc)),
    }
}

/// Returns the row of an operation's result, if its value is known.
fn lines_of(alloc: Global, table: &IdMap<PackedBits>, op: OpId) -> Result<Vec<Row>, AllocError>
    ensures { IfOk result (λ out. map (λ (r : Line). r.cells.items) out.items ≡ map cells_of (entry_of op table.now)) }
{
    match table.get(op.number()) {
        None => Ok(Vec::new(alloc)),
        Some(packed) => one_line(alloc, op, &packed.bits()),
    }
}

/// Returns the row of a known value, alone.
fn one_line(alloc: Global, op: OpId, bits: &Bits) -> Result<Vec<Row>, AllocError>
    ensures { IfOk result (λ out. map (λ (r : Line). r.cells.items) out.items ≡ cells_of (op, bits.now) ∷ []) }
{
    let mut out = Vec::new(alloc);
    push_line(alloc, op, bits, &mut out)?;
    Ok(out)
}
