//! Selects the report rows about one operation or one value.
ghost use Rattle.std.specs.Prelude.{◌≡◌, List, map};
ghost use Rattle.op_registry.specs.types.Things.{ContextModel};
ghost use Rattle.ir_store.specs.trees.Frames.{owner_of};
ghost use Rattle.ir_store.specs.trees.Uses.{same_value};
ghost use Rattle.ir_event.specs.Rows.{RowTerm, Shows, cell_meaning, row_meaning};
ghost use Rattle.ir_event.specs.Subjects.{defines, is_about, is_of_op, is_of_value, names, place_about, rows_about};

use crate::row::{Cell, Row};
use crate::subject::Subject;
use crate::tag::Tag;
use ir_store::trees::value::Value;
use op_registry::types::ids::OpId;

/// Returns whether a row with this word defines a symbol.
fn defines(tag: u8) -> bool
    ensures { result ≡ defines tag }
{
    tag == Tag::Def.number() || tag == Tag::Duplicate.number()
}

/// Returns the index of the cell that names the subject of a row.
fn place_about(cells: &[Cell]) -> usize
    ensures { (c : ContextModel) → result ≡ place_about (map (cell_meaning c) cells.now) }
{
    match cells {
        [Cell::Tag(tag), ..] => { if defines(*tag) { 3 } else { 1 } }
        _ => 0,
    }
}

/// Returns the operation that defines a value, or whose block has it as an argument.
fn owner(value: Value) -> OpId
    ensures { result ≡ (owner_of value).0 }
{
    match value {
        Value::Result(op, _) => op,
        Value::Arg(op, _, _) => op,
    }
}

/// Returns whether two values are the same.
fn same(one: Value, other: Value) -> bool
    ensures { result ≡ same_value one other }
{
    one == other
}

/// Returns whether a cell is an operation or a value that belongs to it.
fn is_of_op(op: OpId, cell: &Cell) -> bool
    ensures { (c : ContextModel) → result ≡ is_of_op op (cell_meaning c cell.now) }
{
    match cell {
        Cell::Op(it) => *it == op,
        Cell::Val(value) => owner(*value) == op,
        _ => false,
    }
}

/// Returns whether a cell is a value.
fn is_of_value(value: Value, cell: &Cell) -> bool
    ensures { (c : ContextModel) → result ≡ is_of_value value (cell_meaning c cell.now) }
{
    match cell {
        Cell::Val(it) => same(*it, value),
        _ => false,
    }
}

/// Returns whether a cell names an operation or a value.
fn names(subject: &Subject, cell: &Cell) -> bool
    ensures { (c : ContextModel) → result ≡ names subject.now (cell_meaning c cell.now) }
{
    match subject {
        Subject::Op(op) => is_of_op(*op, cell),
        Subject::Val(value) => is_of_value(*value, cell),
    }
}

/// Returns whether a row with these cells is about an operation or a value.
fn is_about(subject: &Subject, cells: &[Cell]) -> bool
    ensures { (c : ContextModel) → result ≡ is_about subject.now (map (cell_meaning c) cells.now) }
{
    match cells.get(place_about(cells)) {
        None => false,
        Some(cell) => names(subject, cell),
    }
}

/// Keeps the rows about an operation or a value, in order, and drops the others. Needs no memory. A listener that can't
/// find these rows faster calls this on its whole report.
pub fn keep_rows_about(subject: &Subject, rows: &mut Vec<Row>)
    ensures { (c : ContextModel) (terms : List RowTerm) → Shows c rows.old.items terms → Shows c rows.new.items (rows_about subject.now terms) }
{
    rows.retain(
        |row: &Row| -> bool
            ensures { (c : ContextModel) → result ≡ is_about subject.entry.now (row_meaning c row.now) }
        { is_about(subject, &row.cells) },
    );
}
