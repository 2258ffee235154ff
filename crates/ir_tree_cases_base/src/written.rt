//! Writes trees as a line of words, in the form that `build` parses, and other answers.
use ir_tree::tree::{TreeOp, TreeRegion};
use ir_tree::value::Value;
use ir_types::ids::{AttrId, NameId, OpId, TypeId};
use ir_types::refusal::Refusal;
use std::alloc::{AllocError, Global};
use std::fmt::Write;

/// Writes a text followed by a number.
pub fn write_number(out: &mut String, before: &str, number: u64) -> Result<(), AllocError> {
    write!(out, "{before}{number}")
}

/// Writes a text followed by an id.
pub fn write_id(out: &mut String, before: &str, id: u32) -> Result<(), AllocError> {
    write_number(out, before, u64::from(id))
}

/// Writes a value.
pub fn write_value(out: &mut String, value: &Value) -> Result<(), AllocError> {
    match value {
        Value::Result(op, place) => {
            write_id(out, " use:", op.number())?;
            write_id(out, ".", *place)
        }
        Value::Arg(op, region, place) => {
            write_id(out, " use:", op.number())?;
            write_id(out, ".", *region)?;
            write_id(out, ".", *place)
        }
    }
}

/// Writes operands.
pub fn write_values(out: &mut String, values: &[Value]) -> Result<(), AllocError> {
    for value in values {
        write_value(out, value)?;
    }
    Ok(())
}

/// Writes types, each after a word.
pub fn write_types(out: &mut String, kind: &str, types: &[TypeId]) -> Result<(), AllocError> {
    for ty in types {
        write_id(out, kind, ty.number())?;
    }
    Ok(())
}

/// Writes an entry after a word.
fn write_entry(out: &mut String, kind: &str, entry: &(NameId, AttrId)) -> Result<(), AllocError> {
    write_id(out, kind, entry.0.number())?;
    write_id(out, "=", entry.1.number())
}

/// Writes entries, each after a word.
pub fn write_entries(
    out: &mut String,
    kind: &str,
    entries: &[(NameId, AttrId)],
) -> Result<(), AllocError> {
    for entry in entries {
        write_entry(out, kind, entry)?;
    }
    Ok(())
}

/// Writes the words of an operation's head.
fn write_head(out: &mut String, op: &TreeOp) -> Result<(), AllocError> {
    write_id(out, "op:", op.id.number())?;
    write_id(out, " name:", op.name.number())?;
    write_values(out, &op.operands)?;
    write_types(out, " res:", &op.results)?;
    write_entries(out, " prop:", &op.props)?;
    write_entries(out, " attr:", &op.attrs)
}

/// Writes a tree.
#[cycle(put)]
pub fn write_op(out: &mut String, op: &TreeOp) -> Result<(), AllocError> {
    write_head(out, op)?;
    for region in &op.regions {
        write_region(out, region)?;
    }
    out.push_str(" end")
}

#[cycle(put)]
fn write_region(out: &mut String, region: &TreeRegion) -> Result<(), AllocError> {
    match region {
        TreeRegion::Empty => out.push_str(" hole"),
        TreeRegion::Block { args, ops } => {
            write_block(out, args)?;
            for op in ops {
                out.push_str(" ")?;
                write_op(out, op)?;
            }
            Ok(())
        }
    }
}

/// Writes the start of a block.
pub fn write_block(out: &mut String, args: &[TypeId]) -> Result<(), AllocError> {
    out.push_str(" block")?;
    write_types(out, " arg:", args)
}

/// Returns the words of a tree.
pub fn tree(alloc: Global, op: &TreeOp) -> Result<String, AllocError> {
    let mut out = String::new(alloc);
    write_op(&mut out, op)?;
    Ok(out)
}

fn write_ids(out: &mut String, ids: &[OpId]) -> Result<(), AllocError> {
    out.push_str("ids:")?;
    for id in ids {
        write_id(out, " ", id.number())?;
    }
    Ok(())
}

/// Returns the ids of operations as text.
pub fn ids(alloc: Global, ids: &[OpId]) -> Result<String, AllocError> {
    let mut out = String::new(alloc);
    write_ids(&mut out, ids)?;
    Ok(out)
}

fn write_use(out: &mut String, user: &(OpId, usize)) -> Result<(), AllocError> {
    write_id(out, " ", user.0.number())?;
    write_number(out, ".", user.1 as u64)
}

fn write_uses(out: &mut String, uses: &[(OpId, usize)]) -> Result<(), AllocError> {
    out.push_str("uses:")?;
    for user in uses {
        write_use(out, user)?;
    }
    Ok(())
}

/// Returns the uses of a value as text: `7.0`.
pub fn uses(alloc: Global, uses: &[(OpId, usize)]) -> Result<String, AllocError> {
    let mut out = String::new(alloc);
    write_uses(&mut out, uses)?;
    Ok(out)
}

/// Returns a number as text.
pub fn number(alloc: Global, number: u64) -> Result<String, AllocError> {
    format!(in alloc; "{number}")
}

/// Returns a refusal as text.
pub fn refusal(alloc: Global, refusal: Refusal) -> Result<String, AllocError> {
    format!(in alloc; "{refusal}")
}

/// Returns a word as text.
pub fn word(alloc: Global, word: &str) -> Result<String, AllocError> {
    String::from_str(alloc, word)
}

/// Returns `true` or `false`.
pub fn truth(alloc: Global, answer: bool) -> Result<String, AllocError> {
    word(alloc, if answer { "true" } else { "false" })
}

/// Returns `ok`, or a refusal as text.
pub fn done(alloc: Global, answer: Result<(), Refusal>) -> Result<String, AllocError> {
    match answer {
        Ok(()) => word(alloc, "ok"),
        Err(reason) => refusal(alloc, reason),
    }
}
