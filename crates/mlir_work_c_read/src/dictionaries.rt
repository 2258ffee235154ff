//! The dictionaries of a new operation, as the reader makes those of an operation text: which entries are refused, and
//! in which dictionary and in which order the others are. Language Reference, "Attributes" and "Properties".
//!
//! The functions that sort are those of `ir_text_operations`, where they are private.
ghost use Rattle.std.specs.Prelude.{◌≡◌, ◌≤◌, IfOk, OnOk, Some, [], length, not};
ghost use Rattle.std.specs.List.{prefix_len};
ghost use Rattle.ir_event.specs.trees.Meaning.{key_before_in};
ghost use Rattle.ir_text_operations.specs.attributes.Keyed.{insert_sorted, insert_entries};
ghost use Rattle.ir_text_operations.specs.Entries.{attributes_of, moved, no_headroom, properties_of, staying};
ghost use Rattle.ir_text_operations.specs.EntryReading.{is_property_in};
ghost use Rattle.mlir_work_c_read.specs.Headers.{dictionaries_fault, entries_fault, entry_fault};

use ir_event::trees::sound::comes_before;
use ir_event::types::context::Context;
use ir_event::types::ids::NameId;
use ir_event::types::limits::MOST_ENTRIES;
use ir_event::types::refusal::Refusal;
use ir_text_operations::attributes::dictionaries::{Entry, has_key};
use std::alloc::{AllocError, Global};

/// Returns whether a key is a property of the operation even if it is given among the attributes.
fn is_property(ctx: &Context, op: &Option<NameId>, key: NameId) -> bool
    ensures { result ≡ is_property_in ctx.now op.now key }
{
    match op {
        Some(name) => ctx.inherent(*name, key),
        None => false,
    }
}

fn moved_count(ctx: &Context, op: &Option<NameId>, entries: &[Entry]) -> usize
    ensures { result ≡ length (moved (is_property_in ctx.now op.now) entries.now) }
{
    entries
        .iter()
        .filter(|entry| is_property(ctx, op, entry.0))
        .count()
}

fn staying_count(ctx: &Context, op: &Option<NameId>, entries: &[Entry]) -> usize
    ensures { result ≡ length (staying (is_property_in ctx.now op.now) entries.now) }
{
    entries
        .iter()
        .filter(|entry| !is_property(ctx, op, entry.0))
        .count()
}

/// Returns whether the dictionary that a key belongs to is full.
fn no_headroom(
    ctx: &Context,
    op: &Option<NameId>,
    properties: &[Entry],
    key: NameId,
    entries: &[Entry],
) -> bool
    ensures { result ≡ no_headroom (is_property_in ctx.now op.now) properties.now key entries.now }
{
    if is_property(ctx, op, key) {
        properties
            .len()
            .saturating_add(moved_count(ctx, op, entries))
            >= MOST_ENTRIES
    } else {
        staying_count(ctx, op, entries) >= MOST_ENTRIES
    }
}

/// Returns why an entry with this key can't follow the entries of `before`: `DuplicateKey` or `TooMany`.
fn entry_fault(
    ctx: &Context,
    op: &Option<NameId>,
    properties: &[Entry],
    key: NameId,
    before: &[Entry],
) -> Option<Refusal>
    ensures { result ≡ entry_fault ctx.now op.now properties.now key before.now }
{
    if has_key(key, properties) || has_key(key, before) {
        return Some(Refusal::DuplicateKey);
    }
    if no_headroom(ctx, op, properties, key, before) {
        return Some(Refusal::TooMany);
    }
    None
}

/// Returns why the first entry that is refused can't follow the entries before it.
fn entries_fault(
    ctx: &Context,
    op: &Option<NameId>,
    properties: &[Entry],
    entries: &[Entry],
) -> Option<Refusal>
    ensures { result ≡ entries_fault ctx.now op.now properties.now [] entries.now }
{
    let mut count = 0;
    let mut rest = entries;
    'entries: while let [entry, tail @ ..] = rest {
        if let Some(refusal) = entry_fault(ctx, op, properties, entry.0, &entries[..count]) {
            return Some(refusal);
        }
        count += 1;
        rest = tail;
    }
    None
}

/// Returns why an operation of this name can't have these properties and these attributes, in the order of a text: the
/// properties first.
pub(crate) fn dictionaries_fault(
    ctx: &Context,
    name: NameId,
    properties: &[Entry],
    attributes: &[Entry],
) -> Option<Refusal>
    ensures { result ≡ dictionaries_fault ctx.now name properties.now attributes.now }
{
    if let Some(refusal) = entries_fault(ctx, &None, &[], properties) {
        return Some(refusal);
    }
    entries_fault(ctx, &Some(name), properties, attributes)
}

/// Returns the number of leading entries whose keys are not greater than `key`: the index at which `key` is inserted.
fn place_of(ctx: &Context, sorted: &[Entry], key: NameId) -> usize
    ensures place { result ≡ prefix_len (λ f. not (key_before_in ctx.now key f.0)) sorted.now }
    ensures within { result ≤ length sorted.now }
{
    sorted
        .iter()
        .take_while(|other| !comes_before(ctx, key, other.0))
        .count()
}

/// Inserts an entry into a sorted list.
fn push_among(ctx: &Context, sorted: &mut Vec<Entry>, entry: Entry) -> Result<(), AllocError>
    ensures { OnOk result (sorted.new.items ≡ insert_sorted (key_before_in ctx.now) entry sorted.old.items) }
{
    let place = place_of(ctx, sorted, entry.0);
    sorted.insert(place, entry)?;
    Ok(())
}

/// Inserts the entries that are properties into a sorted list, the last one first.
fn insert_properties(
    ctx: &Context,
    op: &Option<NameId>,
    sorted: &mut Vec<Entry>,
    entries: &[Entry],
) -> Result<(), AllocError>
    ensures { OnOk result (sorted.new.items ≡ insert_entries (key_before_in ctx.now) sorted.old.items (moved (is_property_in ctx.now op.now) entries.now)) }
{
    let [entry, trailing @ ..] = entries else {
        return Ok(());
    };
    insert_properties(ctx, op, sorted, trailing)?;
    if is_property(ctx, op, entry.0) {
        push_among(ctx, sorted, *entry)?;
    }
    Ok(())
}

/// Inserts the entries that are no properties into a sorted list, the last one first. Without a name these are all
/// entries.
fn insert_attributes(
    ctx: &Context,
    op: &Option<NameId>,
    sorted: &mut Vec<Entry>,
    entries: &[Entry],
) -> Result<(), AllocError>
    ensures { OnOk result (sorted.new.items ≡ insert_entries (key_before_in ctx.now) sorted.old.items (staying (is_property_in ctx.now op.now) entries.now)) }
{
    let [entry, trailing @ ..] = entries else {
        return Ok(());
    };
    insert_attributes(ctx, op, sorted, trailing)?;
    if !is_property(ctx, op, entry.0) {
        push_among(ctx, sorted, *entry)?;
    }
    Ok(())
}

/// Returns the sorted properties of an operation, including those that were given among its attributes.
pub(crate) fn properties_of(
    alloc: Global,
    ctx: &Context,
    op: NameId,
    properties: &[Entry],
    attributes: &[Entry],
) -> Result<Vec<Entry>, AllocError>
    ensures { IfOk result (λ v. v.items ≡ properties_of (is_property_in ctx.now (Some op)) (key_before_in ctx.now) properties.now attributes.now) }
{
    let mut sorted = Vec::with_capacity(alloc, properties.len())?;
    insert_properties(ctx, &Some(op), &mut sorted, attributes)?;
    insert_attributes(ctx, &None, &mut sorted, properties)?;
    Ok(sorted)
}

/// Returns the sorted attributes of an operation, without its properties.
pub(crate) fn attributes_of(
    alloc: Global,
    ctx: &Context,
    op: NameId,
    attributes: &[Entry],
) -> Result<Vec<Entry>, AllocError>
    ensures { IfOk result (λ v. v.items ≡ attributes_of (is_property_in ctx.now (Some op)) (key_before_in ctx.now) attributes.now) }
{
    let mut sorted = Vec::with_capacity(alloc, attributes.len())?;
    insert_attributes(ctx, &Some(op), &mut sorted, attributes)?;
    Ok(sorted)
}
