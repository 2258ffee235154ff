//! Events in a line: words that `_` joins.
use crate::texts::write_bytes;
use ir_event::event::Event;
use ir_event::trees::place::{Part, Place};
use ir_event::trees::value::Value;
use ir_event::types::context::Context;
use ir_event::types::ids::{AttrId, NameId, OpId};
use std::alloc::{AllocError, Global};
use std::fmt::Write;

/// A place, as `_#1_0_#4`, or `_#1_0_end`.
fn write_place(out: &mut String, place: &Place) -> Result<(), AllocError> {
    write!(out, "_#{}_{}", place.parent.number(), place.region)?;
    match place.before {
        Some(next) => write!(out, "_#{}", next.number()),
        None => out.push_str("_end"),
    }
}

/// A value, as `_%v3.0`, or `_%a1.0.0`.
fn write_value(out: &mut String, value: &Value) -> Result<(), AllocError> {
    match value {
        Value::Result(op, place) => write!(out, "_%v{}.{place}", op.number()),
        Value::Arg(op, region, place) => write!(out, "_%a{}.{region}.{place}", op.number()),
    }
}

/// A put or a take, as `put_#5_#1_0_end_fresh`.
fn write_bare(
    out: &mut String,
    word: &str,
    op: OpId,
    place: &Place,
    fresh: bool,
) -> Result<(), AllocError> {
    write!(out, "{word}_#{}", op.number())?;
    write_place(out, place)?;
    out.push_str(if fresh { "_fresh" } else { "_old" })
}

/// A key: its bytes.
fn write_key(out: &mut String, ctx: &Context, key: NameId) -> Result<(), AllocError> {
    if ctx.has_name(key) {
        return write_bytes(out, ctx.name_bytes(key));
    }
    out.push('?')
}

/// Whether there is an entry.
fn entry(attribute: &Option<AttrId>) -> &'static str {
    match attribute {
        Some(_) => "_some",
        None => "_none",
    }
}

/// An entry that was set, as `entry_#3_props_value_some_none`.
fn write_entry(
    out: &mut String,
    ctx: &Context,
    op: OpId,
    part: &Part,
    key: NameId,
) -> Result<(), AllocError> {
    let part = match part {
        Part::Props => "props",
        Part::Attrs => "attrs",
    };
    write!(out, "entry_#{}_{part}_", op.number())?;
    write_key(out, ctx, key)
}

/// Writes an event.
pub fn write_event(out: &mut String, ctx: &Context, event: &Event) -> Result<(), AllocError> {
    match event {
        Event::Put { op, place, fresh } => write_bare(out, "put", *op, place, *fresh),
        Event::Take { op, place, fresh } => write_bare(out, "take", *op, place, *fresh),
        Event::SetOperand { op, k, old, new } => {
            write!(out, "set_#{}_{k}", op.number())?;
            write_value(out, old)?;
            write_value(out, new)
        }
        Event::SetEntry {
            op,
            part,
            key,
            old,
            new,
        } => {
            write_entry(out, ctx, *op, part, *key)?;
            out.push_str(entry(old))?;
            out.push_str(entry(new))
        }
        Event::Shift { op, old, new } => {
            write!(out, "shift_#{}", op.number())?;
            write_place(out, old)?;
            write_place(out, new)
        }
    }
}
