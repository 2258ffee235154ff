//! Writes the text of report rows.
ghost use Rattle.std.specs.Prelude.{◌≡◌, ◌<◌, ◌++◌, [], if◌then◌else◌, true, map, codes, OnOk, IfOk};
ghost use Rattle.std.specs.Fmt.{decimal, signed_decimal};
ghost use Rattle.std.specs.List.{All};
ghost use Rattle.ir_event.specs.types.Bits.{type_of, width_of};
ghost use Rattle.ir_event.specs.types.Readings.{signed_of};
ghost use Rattle.ir_event.specs.types.Terms.{name_term};
ghost use Rattle.ir_event.specs.types.Things.{IsName};
ghost use Rattle.ir_event.specs.trees.declared.value.Value.{Value as TreeValue};
ghost use Rattle.ir_event.specs.trees.declared.value.Value.TheVariants.{Result as ResultOf, Arg};
ghost use Rattle.ir_event.specs.Rows.{CellIsOf, RowIsOf, cell_meaning, row_meaning, rows_meaning};
ghost use Rattle.ir_text.specs.Public.{symbol_text};
ghost use Rattle.ir_text.specs.Rows.{parted};
ghost use Rattle.ir_text.specs.AttrText.{integer_text, number_text};
ghost use Rattle.mlir_work_script_base.specs.Values.{op_text, value_text};
ghost use Rattle.mlir_work_session_base.specs.RowText.{tag_text, cell_text, row_text, rows_text};

use ir_event::row::{Cell, Row};
use ir_event::trees::value::Value;
use ir_event::types::bits::{Bits, BitsKind};
use ir_event::types::context::Context;
use ir_event::types::ids::{NameId, OpId};
use ir_text::attributes::print_attr;
use ir_text::printer::print_symbol;
use itoa::Buffer;
use std::alloc::{AllocError, Global};

fn write_number(out: &mut Vec<u8>, number: u32) -> Result<(), AllocError>
    ensures { OnOk result (out.new.items ≡ out.old.items ++ decimal number) }
{
    let mut buffer = Buffer::new();
    out.extend_from_slice(buffer.format(number).as_bytes())
}

fn write_op(out: &mut Vec<u8>, op: OpId) -> Result<(), AllocError>
    ensures { OnOk result (out.new.items ≡ out.old.items ++ op_text op) }
{
    out.push(b'#')?;
    write_number(out, op.number())
}

/// Appends a result: `%v2.0`.
fn write_result(out: &mut Vec<u8>, op: OpId, place: u32) -> Result<(), AllocError>
    ensures { OnOk result (out.new.items ≡ out.old.items ++ value_text (ResultOf op place)) }
{
    out.extend_from_slice(b"%v")?;
    write_number(out, op.number())?;
    out.push(b'.')?;
    write_number(out, place)
}

/// Appends a block argument: `%a1.0.0`.
fn write_argument(out: &mut Vec<u8>, op: OpId, region: u32, place: u32) -> Result<(), AllocError>
    ensures { OnOk result (out.new.items ≡ out.old.items ++ value_text (Arg op region place)) }
{
    out.extend_from_slice(b"%a")?;
    write_number(out, op.number())?;
    out.push(b'.')?;
    write_number(out, region)?;
    out.push(b'.')?;
    write_number(out, place)
}

fn write_value(out: &mut Vec<u8>, value: Value) -> Result<(), AllocError>
    ensures { OnOk result (out.new.items ≡ out.old.items ++ value_text value) }
{
    match value {
        Value::Result(op, place) => write_result(out, op, place),
        Value::Arg(op, region, place) => write_argument(out, op, region, place),
    }
}

/// Appends an integer without its type: a decimal number, or `true` or `false` for an `i1`.
fn write_signed(out: &mut Vec<u8>, truth: bool, number: i128) -> Result<(), AllocError>
    ensures { OnOk result (out.new.items ≡ out.old.items ++ number_text truth number) }
{
    if truth {
        let word: &[u8] = if number == 0 { b"false" } else { b"true" };
        return out.extend_from_slice(word);
    }
    let mut buffer = Buffer::new();
    out.extend_from_slice(buffer.format(number).as_bytes())
}

/// Appends a constant value as its attribute.
fn write_bits(out: &mut Vec<u8>, bits: &Bits) -> Result<(), AllocError>
    ensures { OnOk result (out.new.items ≡ out.old.items ++ integer_text (type_of bits.now.kind) (signed_of (width_of bits.now.kind) bits.now.value)) }
{
    let number = bits.number();
    match bits.kind {
        BitsKind::Index => {
            write_signed(out, false, number)?;
            out.extend_from_slice(b" : index")
        }
        BitsKind::Int(width) => {
            if width == 1 {
                return write_signed(out, true, number);
            }
            write_signed(out, false, number)?;
            out.extend_from_slice(b" : i")?;
            write_number(out, width)
        }
    }
}

fn name_of(ctx: &Context, id: NameId) -> &[u8]
    requires { IsName ctx.now id }
    ensures { result.now ≡ name_term ctx.now id }
{
    ctx.name_bytes(id)
}

/// Returns the word of a tag.
fn tag_word(tag: u8) -> &'static [u8]
    requires { tag < 10 }
    ensures { result.now ≡ tag_text tag }
{
    match tag {
        0 => b"def",
        1 => b"duplicate",
        2 => b"use",
        3 => b"unresolved",
        4 => b"mismatch",
        5 => b"unknown",
        6 => b"allocate",
        7 => b"free",
        8 => b"read",
        _ => b"write",
    }
}

fn write_rule(out: &mut Vec<u8>, rule: u8) -> Result<(), AllocError>
    ensures { OnOk result (out.new.items ≡ out.old.items ++ (codes "V" ++ decimal rule)) }
{
    out.push(b'V')?;
    write_number(out, u32::from(rule))
}

/// Appends a cell.
fn write_cell(ctx: &Context, out: &mut Vec<u8>, cell: &Cell) -> Result<(), AllocError>
    requires { CellIsOf ctx.now cell.now }
    ensures { OnOk result (out.new.items ≡ out.old.items ++ cell_text (cell_meaning ctx.now cell.now)) }
{
    match cell {
        Cell::Op(op) => write_op(out, *op),
        Cell::Val(value) => write_value(out, *value),
        Cell::Num(number) => write_number(out, *number),
        Cell::Name(name) => print_symbol(out, name_of(ctx, *name)),
        Cell::Path(path) => print_attr(ctx, out, *path),
        Cell::Bits(bits) => write_bits(out, bits),
        Cell::Rule(rule) => write_rule(out, *rule),
        Cell::Tag(tag) => out.extend_from_slice(tag_word(*tag)),
    }
}

/// Appends a space, unless the next cell is the first of its row.
fn write_space(out: &mut Vec<u8>, first: bool) -> Result<(), AllocError>
    ensures { OnOk result (out.new.items ≡ out.old.items ++ (if first then [] else codes " ")) }
{
    if first {
        return Ok(());
    }
    out.push(b' ')?;
    Ok(())
}

/// Appends cells separated by spaces.
fn write_cells(ctx: &Context, out: &mut Vec<u8>, cells: &[Cell]) -> Result<(), AllocError>
    requires { All (CellIsOf ctx.now) cells.now }
    ensures { OnOk result (out.new.items ≡ out.old.items ++ parted (codes " ") true (map cell_text (map (cell_meaning ctx.now) cells.now))) }
{
    let mut first = true;
    'cells: for cell in cells {
        write_space(out, first)?;
        first = false;
        write_cell(ctx, out, cell)?;
    }
    Ok(())
}

/// Appends a row.
pub(crate) fn write_row(ctx: &Context, out: &mut Vec<u8>, row: &Row) -> Result<(), AllocError>
    requires { RowIsOf ctx.now row.now }
    ensures { OnOk result (out.new.items ≡ out.old.items ++ row_text (row_meaning ctx.now row.now)) }
{
    write_cells(ctx, out, &row.cells)?;
    out.push(b'\n')?;
    Ok(())
}

/// Appends rows.
fn write_rows(ctx: &Context, out: &mut Vec<u8>, rows: &[Row]) -> Result<(), AllocError>
    requires { All (RowIsOf ctx.now) rows.now }
    ensures { OnOk result (out.new.items ≡ out.old.items ++ rows_text (rows_meaning ctx.now rows.now)) }
{
    'rows: for row in rows {
        write_row(ctx, out, row)?;
    }
    Ok(())
}

/// Returns the text of rows.
pub fn text_of_rows(alloc: Global, ctx: &Context, rows: &[Row]) -> Result<Vec<u8>, AllocError>
    requires { All (RowIsOf ctx.now) rows.now }
    ensures { IfOk result (λ text. text.items ≡ rows_text (rows_meaning ctx.now rows.now)) }
{
    let mut out = Vec::new(alloc);
    match write_rows(ctx, &mut out, rows) {
        Ok(()) => Ok(out),
        Err(e) => Err(e),
    }
}
