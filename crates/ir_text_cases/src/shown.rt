//! Formats a line of the output.
use ir_text::reader::ReadError;
use ir_tree::numbered::numbered;
use ir_tree::tree::{TreeOp, TreeRegion};
use ir_tree::value::Value;
use ir_types::refusal::Refusal;
use std::alloc::{AllocError, Global};
use std::fmt::Write;

/// The length limit of a text that is printed in full.
const MOST_SHOWN: usize = 4_096;

/// Returns the reason why a text is refused, and its offset.
pub fn refused(alloc: Global, error: ReadError) -> Result<String, Refusal> {
    match error {
        ReadError::Memory => Err(Refusal::Memory),
        ReadError::Full { offset } => Ok(format!(in alloc; "full at {offset}")?),
        ReadError::Refused { refusal, offset } => Ok(format!(in alloc; "{refusal} at {offset}")?),
    }
}

fn write_byte(out: &mut String, byte: u8) -> Result<(), AllocError> {
    match byte {
        b'\n' => out.push_str("~0A~"),
        b'~' => out.push_str("~7E~"),
        _ => out.push(char::from(byte)),
    }
}

/// Appends bytes in one line.
pub fn write_bytes(out: &mut String, bytes: &[u8]) -> Result<(), AllocError> {
    for byte in bytes {
        write_byte(out, *byte)?;
    }
    Ok(())
}

/// Appends a text in one line, or its length if it is too long.
fn write_text(out: &mut String, text: &[u8]) -> Result<(), AllocError> {
    if text.len() > MOST_SHOWN {
        write!(out, "{} bytes", text.len())
    } else {
        write_bytes(out, text)
    }
}

fn write_value(out: &mut String, value: Value) -> Result<(), AllocError> {
    match value {
        Value::Result(op, place) => write!(out, "%v{}.{place} ", op.number()),
        Value::Arg(op, region, place) => write!(out, "%a{}.{region}.{place} ", op.number()),
    }
}

/// Appends the id of an operation, and its operands.
fn write_op(out: &mut String, op: &TreeOp) -> Result<(), AllocError> {
    write!(out, "#{} ", op.id.number())?;
    for value in op.operands.as_slice() {
        write_value(out, *value)?;
    }
    Ok(())
}

/// Returns the first operation of an operation's first region.
fn first_inside(op: &TreeOp) -> Option<&TreeOp> {
    match op.regions.as_slice().first() {
        Some(TreeRegion::Block { ops, .. }) => ops.as_slice().first(),
        _ => None,
    }
}

/// Appends the ids and operands of an operation and of its first nested operations, three levels deep.
fn write_firsts(out: &mut String, op: &TreeOp) -> Result<(), AllocError> {
    let mut here = Some(op);
    for _ in 0..3u8 {
        let Some(op) = here else {
            return Ok(());
        };
        write_op(out, op)?;
        here = first_inside(op);
    }
    Ok(())
}

/// Returns a text in one line.
pub fn shown(alloc: Global, text: &[u8]) -> Result<String, AllocError> {
    let mut out = String::new(alloc);
    write_text(&mut out, text)?;
    Ok(out)
}

/// Appends a note if the ids inside an operation aren't consecutive in pre-order.
fn write_numbered(out: &mut String, op: &TreeOp) -> Result<(), AllocError> {
    if numbered(op, op.id.number()) {
        Ok(())
    } else {
        out.push_str("not in pre-order ")
    }
}

fn write_all(out: &mut String, op: &TreeOp, text: &[u8]) -> Result<(), AllocError> {
    write_firsts(out, op)?;
    write_numbered(out, op)?;
    write_text(out, text)
}

/// Returns the first ids of an operation, and its text in one line.
pub fn shown_op(alloc: Global, op: &TreeOp, text: &[u8]) -> Result<String, AllocError> {
    let mut out = String::new(alloc);
    write_all(&mut out, op, text)?;
    Ok(out)
}
