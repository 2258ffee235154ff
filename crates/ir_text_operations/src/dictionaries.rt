//! Entries of dictionaries by their keys. Language Reference, "Attributes" and "Properties".
ghost use Rattle.std.specs.Prelude.{◌≡◌, ◌≤◌, OnOk, IfOk, not, length, Some};
ghost use Rattle.std.specs.List.{prefix_len};
ghost use Rattle.ir_tree.specs.Meaning.{key_before_in};
ghost use Rattle.ir_text_attributes.specs.Keyed.{insert_sorted, insert_entries};
ghost use Rattle.ir_text_operations.specs.Entries.{moved, staying, no_headroom, properties_of, attributes_of};
ghost use Rattle.ir_text_operations.specs.EntryReading.{is_property_in, refused_in};

use ir_text_attributes::dictionaries::Entry;
use ir_tree::sound::comes_before;
use ir_types::context::Context;
use ir_types::ids::NameId;
use ir_types::limits::MOST_ENTRIES;
use std::alloc::{AllocError, Global};

/// Returns whether a key is a property of the operation even if it is written among the attributes.
fn is_property(ctx: &Context, op: &Option<NameId>, key: NameId) -> bool
    ensures { result ≡ is_property_in ctx.now op.now key }
{
    match op {
        Some(name) => ctx.inherent(*name, key),
        None => false,
    }
}

fn moved_count(ctx: &Context, op: &Option<NameId>, entries: &[Entry]) -> usize
    ensures { result ≡ length (moved (is_property_in ctx.now op.now) entries.now) }
{
    entries
        .iter()
        .filter(|entry| is_property(ctx, op, entry.0))
        .count()
}

fn staying_count(ctx: &Context, op: &Option<NameId>, entries: &[Entry]) -> usize
    ensures { result ≡ length (staying (is_property_in ctx.now op.now) entries.now) }
{
    entries
        .iter()
        .filter(|entry| !is_property(ctx, op, entry.0))
        .count()
}

/// Returns whether the dictionary that a key belongs to is full.
pub fn no_headroom(
    ctx: &Context,
    op: &Option<NameId>,
    properties: &[Entry],
    key: NameId,
    entries: &[Entry],
) -> bool
    ensures { result ≡ no_headroom (is_property_in ctx.now op.now) properties.now key entries.now }
{
    if let [] = properties {
        if entries.len() < MOST_ENTRIES {
            return false;
        }
    }
    if is_property(ctx, op, key) {
        properties
            .len()
            .saturating_add(moved_count(ctx, op, entries))
            >= MOST_ENTRIES
    } else {
        staying_count(ctx, op, entries) >= MOST_ENTRIES
    }
}

/// Returns the number of leading entries whose keys are not greater than `key`: the index at which `key` is inserted.
fn place_of(ctx: &Context, sorted: &[Entry], key: NameId) -> usize
    ensures place { result ≡ prefix_len (λ f. not (key_before_in ctx.now key f.0)) sorted.now }
    ensures within { result ≤ length sorted.now }
{
    sorted
        .iter()
        .take_while(|other| !comes_before(ctx, key, other.0))
        .count()
}

/// Inserts an entry into a sorted list.
fn push_among(ctx: &Context, sorted: &mut Vec<Entry>, entry: Entry) -> Result<(), AllocError>
    ensures { OnOk result (sorted.new.items ≡ insert_sorted (key_before_in ctx.now) entry sorted.old.items) }
{
    let place = place_of(ctx, sorted, entry.0);
    sorted.insert(place, entry)?;
    Ok(())
}

/// Inserts entries into a sorted list, the last one first.
fn push_all(ctx: &Context, sorted: &mut Vec<Entry>, entries: &[Entry]) -> Result<(), AllocError>
    ensures { OnOk result (sorted.new.items ≡ insert_entries (key_before_in ctx.now) sorted.old.items entries.now) }
{
    let [entry, trailing @ ..] = entries else {
        return Ok(());
    };
    push_all(ctx, sorted, trailing)?;
    push_among(ctx, sorted, *entry)
}

/// Inserts the entries that are properties into a sorted list, the last one first.
fn insert_properties(
    ctx: &Context,
    op: &Option<NameId>,
    sorted: &mut Vec<Entry>,
    entries: &[Entry],
) -> Result<(), AllocError>
    ensures { OnOk result (sorted.new.items ≡ insert_entries (key_before_in ctx.now) sorted.old.items (moved (is_property_in ctx.now op.now) entries.now)) }
{
    let [entry, trailing @ ..] = entries else {
        return Ok(());
    };
    insert_properties(ctx, op, sorted, trailing)?;
    if is_property(ctx, op, entry.0) {
        push_among(ctx, sorted, *entry)?;
    }
    Ok(())
}

/// Inserts the entries that are no properties into a sorted list, the last one first.
fn insert_attributes(
    ctx: &Context,
    op: &Option<NameId>,
    sorted: &mut Vec<Entry>,
    entries: &[Entry],
) -> Result<(), AllocError>
    ensures { OnOk result (sorted.new.items ≡ insert_entries (key_before_in ctx.now) sorted.old.items (staying (is_property_in ctx.now op.now) entries.now)) }
{
    let [entry, trailing @ ..] = entries else {
        return Ok(());
    };
    insert_attributes(ctx, op, sorted, trailing)?;
    if !is_property(ctx, op, entry.0) {
        push_among(ctx, sorted, *entry)?;
    }
    Ok(())
}

/// Returns the sorted properties of an operation, including those that were written among its attributes.
#[tactic(auto, using(crate::proofs::Placing::put_both))]
pub fn properties_of(
    alloc: Global,
    ctx: &Context,
    op: NameId,
    properties: &[Entry],
    attributes: &[Entry],
) -> Result<Vec<Entry>, AllocError>
    ensures { IfOk result (λ v. v.items ≡ properties_of (is_property_in ctx.now (Some op)) (key_before_in ctx.now) properties.now attributes.now) }
{
    let mut sorted = Vec::with_capacity(alloc, properties.len())?;
    insert_properties(ctx, &Some(op), &mut sorted, attributes)?;
    push_all(ctx, &mut sorted, properties)?;
    Ok(sorted)
}

/// Returns the sorted attributes of an operation, without its properties.
pub fn attributes_of(
    alloc: Global,
    ctx: &Context,
    op: NameId,
    attributes: &[Entry],
) -> Result<Vec<Entry>, AllocError>
    ensures { IfOk result (λ v. v.items ≡ attributes_of (is_property_in ctx.now (Some op)) (key_before_in ctx.now) attributes.now) }
{
    let mut sorted = Vec::with_capacity(alloc, attributes.len())?;
    insert_attributes(ctx, &Some(op), &mut sorted, attributes)?;
    Ok(sorted)
}
