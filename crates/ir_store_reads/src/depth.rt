//! The nesting depth of operations.
ghost use Rattle.std.specs.Prelude.{◌≡◌, ℕ, ◌∷◌, [], map};
ghost use Rattle.std.specs.List.{list_all};
ghost use Rattle.ir_store_slots.specs.Lists.{IsHead, Laws, list_at};
ghost use Rattle.ir_store_slots.specs.Rows.{row_at, shape_of};
ghost use Rattle.ir_store_slots.specs.Plans.{AllHeads};
ghost use Rattle.ir_store_slots.specs.Right.{Live};
ghost use Rattle.ir_store_slots.specs.Walks.{slot_fits, shapes_pass};

use ir_store_slots::row::RegionData;
use ir_store_slots::{OrderedLists, Slots};

/// Returns whether the operation of a slot has fewer than `room` levels inside it.
#[cycle(fits_in)]
pub fn op_fits(slots: &Slots, sibs: &OrderedLists, key: usize, headroom: u32) -> bool
    requires slots { (k : ℕ) → Live slots.now k → AllHeads sibs.now.homes (row_at slots.now k).shapes }
    requires laws { Laws sibs.now.lists sibs.now.homes }
    ensures { result ≡ slot_fits slots.now sibs.now.lists headroom key }
{
    if headroom == 0 || !slots.is_live(key) {
        return false;
    }
    areas_fit(slots, sibs, slots.areas(key), headroom - 1)
}

/// Returns whether each operation in some regions has fewer than `room` levels inside it.
#[cycle(fits_in)]
fn areas_fit(slots: &Slots, sibs: &OrderedLists, areas: &[RegionData], headroom: u32) -> bool
    requires slots { (k : ℕ) → Live slots.now k → AllHeads sibs.now.homes (row_at slots.now k).shapes }
    requires laws { Laws sibs.now.lists sibs.now.homes }
    requires heads { AllHeads sibs.now.homes (map shape_of areas.now) }
    ensures { result ≡ shapes_pass sibs.now.lists (slot_fits slots.now sibs.now.lists headroom) (map shape_of areas.now) }
{
    let mut rest = areas;
    'areas: while let [area, tail @ ..] = rest {
        if !area_fits(slots, sibs, area, headroom) {
            return false;
        }
        rest = tail;
    }
    true
}

/// Returns whether each operation in a region has fewer than `room` levels inside it.
#[cycle(fits_in)]
fn area_fits(slots: &Slots, sibs: &OrderedLists, area: &RegionData, headroom: u32) -> bool
    requires slots { (k : ℕ) → Live slots.now k → AllHeads sibs.now.homes (row_at slots.now k).shapes }
    requires laws { Laws sibs.now.lists sibs.now.homes }
    requires heads { AllHeads sibs.now.homes (shape_of area.now ∷ []) }
    ensures { result ≡ shapes_pass sibs.now.lists (slot_fits slots.now sibs.now.lists headroom) (shape_of area.now ∷ []) }
{
    match area {
        RegionData::Empty => true,
        RegionData::Block { head, .. } => list_fits(slots, sibs, *head, headroom),
    }
}

/// Returns whether each operation in the list of a head has fewer than `room` levels inside it.
#[cycle(fits_in)]
fn list_fits(slots: &Slots, sibs: &OrderedLists, head: usize, headroom: u32) -> bool
    requires slots { (k : ℕ) → Live slots.now k → AllHeads sibs.now.homes (row_at slots.now k).shapes }
    requires laws { Laws sibs.now.lists sibs.now.homes }
    requires head { IsHead sibs.now.homes head }
    ensures { result ≡ list_all (slot_fits slots.now sibs.now.lists headroom) (list_at sibs.now.lists head) }
{
    let mut at = sibs.first(head);
    'ops: while let Some(key) = at {
        if !op_fits(slots, sibs, key, headroom) {
            return false;
        }
        at = sibs.next(key);
    }
    true
}
