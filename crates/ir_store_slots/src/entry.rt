//! Sets and removes dictionary entries in slots.
ghost use Rattle.std.specs.Prelude.{◌≡◌, true, None, IsOk, OnOk, OnErr, Some, is_some, MatchOption};
ghost use Rattle.std.specs.FinMap as finmap;
ghost use Rattle.ir_store_arena.specs.trees.Edits.{entry_at, part_of as the_part};
ghost use Rattle.ir_store_arena.specs.trees.Meaning.{key_before_in, rises};
ghost use Rattle.ir_store_arena.specs.tree_laws.Reasons.{entry_reason};
ghost use Rattle.ir_store_arena.specs.Slots.{has_key, has_slot as is_slot};
ghost use Rattle.ir_store_arena.specs.Contents.{no_slots};
ghost use Rattle.ir_store_slots.specs.Rows.{row_at, live_slot};
ghost use Rattle.ir_store_slots.specs.Entered.{slots_in, row_with_entry, entry_in};

use crate::find::{Keys, find, slot};
use ir_store_arena::trees::limits::MOST_ITEMS;
use ir_store_arena::trees::place::Part;
use ir_store_arena::types::context::Context;
use ir_store_arena::types::ids::{AttrId, NameId, OpId};
use ir_store_arena::types::refusal::Refusal;
use ir_store_arena::{Dictionary, Slots};

/// Returns whether a key has a slot in one dictionary of a row.
pub fn has_slot_at(slots: &Slots, at: usize, part: Part, key: NameId) -> bool
    ensures { result ≡ is_slot key (slots_in part (row_at slots.now at)) }
{
    match slots.dictionary(at, part) {
        None => false,
        Some(entries) => entries.has_slot(key),
    }
}

/// Returns the reason that a key of a dictionary can't be set or removed, or `None`.
fn entry_fault(
    ctx: &Context,
    entries: &Dictionary,
    key: NameId,
    value: &Option<AttrId>,
) -> Option<Refusal>
    ensures { result ≡ entry_reason (key_before_in ctx.now) key value.now entries.now.present }
{
    let there = entries.get(ctx, key).is_some();
    match value {
        None => {
            if there {
                None
            } else {
                Some(Refusal::NoSuchKey)
            }
        }
        Some(_) => {
            if entries.len() < MOST_ITEMS || there {
                None
            } else {
                Some(Refusal::Full)
            }
        }
    }
}

/// Returns the reason that a key of one dictionary of the operation in a slot can't be set or removed, or `None`.
fn row_fault(
    ctx: &Context,
    slots: &Slots,
    at: usize,
    part: Part,
    key: NameId,
    value: &Option<AttrId>,
) -> Option<Refusal>
    ensures { result ≡ entry_reason (key_before_in ctx.now) key value.now (slots_in part (row_at slots.now at)).present }
{
    match slots.dictionary(at, part) {
        Some(entries) => entry_fault(ctx, entries, key, value),
        None => match value {
            None => Some(Refusal::NoSuchKey),
            Some(_) => None,
        },
    }
}

/// Returns the slot of an operation of the module in which a key of one dictionary can be set or removed, or the reason
/// that it can't.
pub fn find_entry(
    ctx: &Context,
    slots: &Slots,
    keys: &Keys,
    op: OpId,
    part: Part,
    key: NameId,
    value: &Option<AttrId>,
) -> Result<usize, Refusal>
    ensures { result ≡ entry_in slots.now (key_before_in ctx.now) part key value.now (live_slot slots.now (finmap.get keys.now) op) }
{
    let Some(at) = find(slots, keys, op) else {
        return Err(Refusal::NoSuchOp);
    };
    match row_fault(ctx, slots, at, part, key, value) {
        None => Ok(at),
        Some(refusal) => Err(refusal),
    }
}
