//! The operations of the module in pre-order.
ghost use Rattle.std.specs.Prelude.{◌≡◌, ℕ, ◌∷◌, [], None, map, OnOk};
ghost use Rattle.ir_store_slots.specs.Lists.{IsHead, Laws, list_at};
ghost use Rattle.ir_store_slots.specs.Rows.{row_at, shape_of};
ghost use Rattle.ir_store_slots.specs.Plans.{AllHeads};
ghost use Rattle.ir_store_slots.specs.Right.{Live};
ghost use Rattle.ir_store_reads.specs.Added.{AddsOp, AddsOps, AddsRegions};
ghost use Rattle.ir_store_reads.specs.Ends.{last_in, later};

use ir_store_slots::row::RegionData;
use ir_store_slots::types::ids::OpId;
use ir_store_slots::{OrderedLists, Slots};
use std::alloc::AllocError;

/// Appends the operation of a slot and those inside it. An `AllocError` if it has more levels than given.
#[cycle(push)]
pub fn push_op(
    slots: &Slots,
    sibs: &OrderedLists,
    key: usize,
    levels: u32,
    out: &mut Vec<OpId>,
) -> Result<(), AllocError>
    requires slots { (k : ℕ) → Live slots.now k → AllHeads sibs.now.homes (row_at slots.now k).shapes }
    requires laws { Laws sibs.now.lists sibs.now.homes }
    ensures { OnOk result (AddsOp slots.now sibs.now.lists key out.old.items out.new.items) }
{
    if levels == 0 || !slots.is_live(key) {
        return Err(AllocError);
    }
    out.push(slots.id(key))?;
    push_areas(slots, sibs, slots.areas(key), levels - 1, out)
}

/// Appends the operations in some regions.
#[cycle(push)]
fn push_areas(
    slots: &Slots,
    sibs: &OrderedLists,
    areas: &[RegionData],
    levels: u32,
    out: &mut Vec<OpId>,
) -> Result<(), AllocError>
    requires slots { (k : ℕ) → Live slots.now k → AllHeads sibs.now.homes (row_at slots.now k).shapes }
    requires laws { Laws sibs.now.lists sibs.now.homes }
    requires heads { AllHeads sibs.now.homes (map shape_of areas.now) }
    ensures { OnOk result (AddsRegions slots.now sibs.now.lists (map shape_of areas.now) out.old.items out.new.items) }
{
    let mut rest = areas;
    'areas: while let [area, tail @ ..] = rest {
        push_area(slots, sibs, area, levels, out)?;
        rest = tail;
    }
    Ok(())
}

/// Appends the operations in a region.
#[cycle(push)]
fn push_area(
    slots: &Slots,
    sibs: &OrderedLists,
    area: &RegionData,
    levels: u32,
    out: &mut Vec<OpId>,
) -> Result<(), AllocError>
    requires slots { (k : ℕ) → Live slots.now k → AllHeads sibs.now.homes (row_at slots.now k).shapes }
    requires laws { Laws sibs.now.lists sibs.now.homes }
    requires heads { AllHeads sibs.now.homes (shape_of area.now ∷ []) }
    ensures { OnOk result (AddsRegions slots.now sibs.now.lists (shape_of area.now ∷ []) out.old.items out.new.items) }
{
    match area {
        RegionData::Empty => Ok(()),
        RegionData::Block { head, .. } => push_list(slots, sibs, *head, levels, out),
    }
}

/// Appends the operations in the list of a head, and those inside them.
#[cycle(push)]
fn push_list(
    slots: &Slots,
    sibs: &OrderedLists,
    head: usize,
    levels: u32,
    out: &mut Vec<OpId>,
) -> Result<(), AllocError>
    requires slots { (k : ℕ) → Live slots.now k → AllHeads sibs.now.homes (row_at slots.now k).shapes }
    requires laws { Laws sibs.now.lists sibs.now.homes }
    requires head { IsHead sibs.now.homes head }
    ensures { OnOk result (AddsOps slots.now sibs.now.lists (list_at sibs.now.lists head) out.old.items out.new.items) }
{
    let mut at = sibs.first(head);
    'ops: while let Some(key) = at {
        push_item(slots, sibs, key, levels, out)?;
        at = sibs.next(key);
    }
    Ok(())
}

/// Appends the operation of a slot and those inside it. An operation without regions, the common case, needs no call.
#[cycle(push)]
#[inline(always)]
fn push_item(
    slots: &Slots,
    sibs: &OrderedLists,
    key: usize,
    levels: u32,
    out: &mut Vec<OpId>,
) -> Result<(), AllocError>
    requires slots { (k : ℕ) → Live slots.now k → AllHeads sibs.now.homes (row_at slots.now k).shapes }
    requires laws { Laws sibs.now.lists sibs.now.homes }
    ensures { OnOk result (AddsOp slots.now sibs.now.lists key out.old.items out.new.items) }
{
    if !slots.areas(key).is_empty() {
        return push_op(slots, sibs, key, levels, out);
    }
    if levels == 0 || !slots.is_live(key) {
        return Err(AllocError);
    }
    out.push(slots.id(key))?;
    Ok(())
}

/// Returns the last slot of the last nonempty block of a slot, or `None` if all its blocks are empty.
pub fn last_slot(slots: &Slots, sibs: &OrderedLists, key: usize) -> Option<usize>
    requires { AllHeads sibs.now.homes (row_at slots.now key).shapes }
    ensures { result ≡ last_in sibs.now.lists None (row_at slots.now key).shapes }
{
    last_listed(sibs, slots.areas(key))
}

/// Returns the last slot of the last nonempty block of some regions, or `None` if all blocks are empty.
fn last_listed(sibs: &OrderedLists, areas: &[RegionData]) -> Option<usize>
    requires { AllHeads sibs.now.homes (map shape_of areas.now) }
    ensures { result ≡ last_in sibs.now.lists None (map shape_of areas.now) }
{
    let mut last = None;
    let mut rest = areas;
    'areas: while let [area, tail @ ..] = rest {
        last = last_or(sibs, area, last);
        rest = tail;
    }
    last
}

/// Returns the last slot of a region, or `other` if the region is empty.
fn last_or(sibs: &OrderedLists, area: &RegionData, other: Option<usize>) -> Option<usize>
    requires { AllHeads sibs.now.homes (shape_of area.now ∷ []) }
    ensures { result ≡ later sibs.now.lists other (shape_of area.now) }
{
    match area {
        RegionData::Empty => other,
        RegionData::Block { head, .. } => match sibs.last(*head) {
            None => other,
            Some(key) => Some(key),
        },
    }
}
