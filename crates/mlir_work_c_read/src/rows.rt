//! The cells of report rows as numbers.
ghost use Rattle.std.specs.Prelude.{◌≡◌, ◌≤◌, ◌+◌, length, min};
ghost use Rattle.mlir_work_c_read.specs.Bulk.{WritesFirst};
ghost use Rattle.mlir_work_c_read.specs.Filled.{over, over_from};
ghost use Rattle.mlir_work_c_read.specs.Rows.{cell_numbers, cell_with, cells_numbers, no_value, rows_numbers, width_number};

use crate::numbers::{CellNumbers, ValueNumbers, numbers_of};
use ir_event::row::{Cell, Row};
use ir_event::types::bits::BitsKind;

/// The number of values of 64 bits.
pub(crate) const WORD: u128 = 18446744073709551616;

/// Writes the cells of rows, one row after the other, as many as there is space for, and returns how many it wrote.
pub fn write_rows(rows: &[Row], into: &mut [CellNumbers]) -> usize
    ensures { WritesFirst (rows_numbers rows.now) into.old into.new result }
{
    let mut at = 0;
    let mut rest = rows;
    'rows: while let [row, tail @ ..] = rest {
        at = write_cells(&row.cells, into, at);
        rest = tail;
    }
    at
}

/// Returns the number of the cells of rows; 2^64 - 1 if there are more.
pub fn count_cells(rows: &[Row]) -> usize
    ensures { result ≡ min (length (rows_numbers rows.now)) 18446744073709551615 }
{
    let mut count: usize = 0;
    let mut rest = rows;
    'rows: while let [row, tail @ ..] = rest {
        count = count.saturating_add(row.cells.len());
        rest = tail;
    }
    count
}

/// Writes cells from a place on, and returns the place after the last one.
fn write_cells(cells: &[Cell], into: &mut [CellNumbers], at: usize) -> usize
    requires { at ≤ length into.old }
    ensures written { into.new ≡ over_from at (cells_numbers cells.now) into.old }
    ensures count { result ≡ min (at + length cells.now) (length into.old) }
{
    let count = cells.len().min(into.len() - at);
    write_each_cell(cells, &mut into[at..]);
    at + count
}

/// Writes the cells of a row, as many as there is space for.
fn write_each_cell(cells: &[Cell], into: &mut [CellNumbers])
    ensures { into.new ≡ over (cells_numbers cells.now) into.old }
{
    let mut rest = cells;
    for numbers in into {
        let [cell, tail @ ..] = rest else {
            return;
        };
        *numbers = cell_numbers(cell, tail.len());
        rest = tail;
    }
}

/// Returns a value that only names an operation or a width.
fn value_with(operation: u32, place: u32) -> ValueNumbers
    ensures { result ≡ record no_value { operation = operation; place = place } }
{
    ValueNumbers {
        operation,
        region: 0,
        place,
    }
}

/// Returns a cell of a kind.
fn cell_of(kind: u32, value: ValueNumbers, low: u64, high: u64, left: usize) -> CellNumbers
    ensures { result ≡ cell_with kind value low high left }
{
    CellNumbers {
        kind,
        value,
        low,
        high,
        left,
    }
}

/// Returns the width of a constant, and 0 for index.
fn width_number(kind: BitsKind) -> u32
    ensures { result ≡ width_number kind }
{
    match kind {
        BitsKind::Int(width) => width,
        BitsKind::Index => 0,
    }
}

/// Returns a cell, before so many cells of its row.
fn cell_numbers(cell: &Cell, left: usize) -> CellNumbers
    ensures { result ≡ cell_numbers cell.now left }
{
    match *cell {
        Cell::Op(op) => cell_of(0, value_with(op.number(), 0), 0, 0, left),
        Cell::Val(value) => cell_of(1, numbers_of(value), 0, 0, left),
        Cell::Num(number) => cell_of(2, value_with(0, 0), u64::from(number), 0, left),
        Cell::Name(name) => cell_of(3, value_with(0, 0), u64::from(name.number()), 0, left),
        Cell::Path(path) => cell_of(4, value_with(0, 0), u64::from(path.number()), 0, left),
        Cell::Bits(bits) => {
            let low = (bits.value % WORD) as u64;
            let high = (bits.value / WORD) as u64;
            cell_of(5, value_with(0, width_number(bits.kind)), low, high, left)
        }
        Cell::Rule(rule) => cell_of(6, value_with(0, 0), u64::from(rule), 0, left),
        Cell::Tag(tag) => cell_of(7, value_with(0, 0), u64::from(tag), 0, left),
    }
}
