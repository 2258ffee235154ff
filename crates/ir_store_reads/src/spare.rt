//! Reuse of free slots. Whether a free slot fits is checked directly, so no invariant about free slots is needed.
ghost use Rattle.std.specs.Prelude.{◌≡◌, ◌<◌, [], true, map, IfOk, IfSome};
ghost use Rattle.ir_store_slots.specs.Lists.{IsFree, IsHead, list_at};
ghost use Rattle.ir_store_slots.specs.trees.View.{region_view};
ghost use Rattle.ir_store_slots.specs.Rows.{row_at, shape_of};
ghost use Rattle.ir_store_slots.specs.Index.{cells_of, cell_at};
ghost use Rattle.ir_store_slots.specs.Emptied.{emptied_region};
ghost use Rattle.ir_store_slots.specs.Grows.{parts_of, IsBlock, AreBlocks, AreEmptied, Grown, bare_region};
ghost use Rattle.ir_store_reads.specs.Again.{HeadsOf, NodesOf, BlockFits, RowFits};
ghost use Rattle.ir_store_slots.specs.trees.Tree.{head};

use ir_store_slots::row::{RegionData, UseNode};
use ir_store_slots::trees::tree::{TreeOp, TreeRegion};
use ir_store_slots::types::ids::OpId;
use ir_store_slots::{Draft, LinkedLists, OrderedLists, Slots};
use std::alloc::{AllocError, Global};

/// The number for no slot.
pub const NO_SLOT: u32 = u32::MAX;

/// The number of free slots that are tried for an operation.
const MOST_LOOKS: u32 = 8;

/// A free slot, and the operation to be written into it.
#[derive(Drop)]
pub struct FreeSlot {
    /// The slot before it in the free list, which was freed later, or `NO_SLOT`.
    pub trailing: u32,
    /// The slot after it in the free list, which was freed earlier, or `NO_SLOT`.
    pub before: u32,
    pub slot: usize,
    pub draft: Draft,
}

/// Returns true only if a node has the cell of this operand or value of a slot.
fn is_cell(cells: &Vec<UseNode>, node: usize, row: usize, place: usize) -> bool
    ensures { result ≡ true → cell_at (cells_of cells.now.items) node ≡ (row, place) }
{
    match cells.get(node) {
        None => false,
        Some(cell) => cell.row as usize == row && cell.place as usize == place,
    }
}

/// Returns true only if a node is a head.
fn is_head(uses: &LinkedLists, node: usize) -> bool
    ensures { result ≡ true → IsHead uses.now.homes node }
{
    if node >= uses.len() {
        return false;
    }
    match uses.head_of(node) {
        None => false,
        Some(home) => home == node,
    }
}

/// Returns true only if a node is free: in no list, and no head.
fn is_unlinked(uses: &LinkedLists, node: usize) -> bool
    ensures { result ≡ true → IsFree uses.now.homes node }
{
    if node >= uses.len() {
        return false;
    }
    uses.head_of(node).is_none()
}

/// Returns true only if a slot is the head of an empty block.
fn is_bare_head(sibs: &OrderedLists, node: usize) -> bool
    ensures { result ≡ true → IsHead sibs.now.homes node × (list_at sibs.now.lists node ≡ []) }
{
    if node >= sibs.len() {
        return false;
    }
    match sibs.home(node) {
        None => false,
        Some(home) => home == node && sibs.first(node).is_none(),
    }
}

/// Returns true only if a slot is in no block, and isn't the head of one.
fn is_out(sibs: &OrderedLists, node: usize) -> bool
    ensures { result ≡ true → IsFree sibs.now.homes node }
{
    if node >= sibs.len() {
        return false;
    }
    sibs.home(node).is_none()
}

/// Returns true only if `count` nodes are the heads of the values of a slot.
fn has_heads(
    uses: &LinkedLists,
    cells: &Vec<UseNode>,
    row: usize,
    base: usize,
    count: usize,
) -> bool
    ensures { result ≡ true → HeadsOf uses.now.homes (cells_of cells.now.items) row base count }
{
    uses.laws();
    let mut at = base;
    let mut place = 0;
    'heads: while place < count {
        if !is_head(uses, at) {
            return false;
        }
        if !is_cell(cells, at, row, place) {
            return false;
        }
        at += 1;
        place += 1;
    }
    true
}

/// Returns true only if `count` nodes are those of the operands of a slot, and in no list.
fn has_nodes(
    uses: &LinkedLists,
    cells: &Vec<UseNode>,
    row: usize,
    base: usize,
    count: usize,
) -> bool
    ensures { result ≡ true → NodesOf uses.now.homes (cells_of cells.now.items) row base count }
{
    uses.laws();
    let mut at = base;
    let mut place = 0;
    'nodes: while place < count {
        if !is_unlinked(uses, at) {
            return false;
        }
        if !is_cell(cells, at, row, place) {
            return false;
        }
        at += 1;
        place += 1;
    }
    true
}

/// Returns true only if a slot is the head of an empty block with this number of arguments, for this region of this
/// slot.
fn block_fits(
    slots: &Slots,
    sibs: &OrderedLists,
    uses: &LinkedLists,
    cells: &Vec<UseNode>,
    owner: usize,
    number: u32,
    head: usize,
    count: usize,
) -> bool
    ensures { result ≡ true → BlockFits (parts_of slots.now sibs.now uses.now cells.now.items) owner number head count }
{
    if slots.owner(head) as usize != owner || slots.region(head) != number {
        return false;
    }
    if !is_bare_head(sibs, head) {
        return false;
    }
    has_heads(uses, cells, head, slots.values(head), count)
}

/// Returns the region of a free slot for a region like another, with `head` as the head of its block, or `None` if it
/// doesn't fit.
fn fit_area(
    alloc: Global,
    slots: &Slots,
    sibs: &OrderedLists,
    uses: &LinkedLists,
    cells: &Vec<UseNode>,
    owner: usize,
    number: u32,
    head: usize,
    region: &TreeRegion,
) -> Result<Option<RegionData>, AllocError>
    ensures { IfOk result (λ o. IfSome o (λ a. (bare_region (shape_of a) ≡ emptied_region (region_view region.now))
        × IsBlock (parts_of slots.now sibs.now uses.now cells.now.items) 0 owner number (shape_of a))) }
{
    match region {
        TreeRegion::Empty => Ok(Some(RegionData::Empty)),
        TreeRegion::Block { args, .. } => {
            if !block_fits(slots, sibs, uses, cells, owner, number, head, args.len()) {
                return Ok(None);
            }
            match Vec::from_slice(alloc, args) {
                Ok(args) => Ok(Some(RegionData::Block { args, head })),
                Err(e) => Err(e),
            }
        }
    }
}

/// Returns the slot of the head of the next block, after a region.
fn head_after(head: usize, region: &TreeRegion) -> usize {
    match region {
        TreeRegion::Empty => head,
        TreeRegion::Block { .. } => head.saturating_add(1),
    }
}

/// Returns the regions of a free slot for regions like others, or `None` if they don't fit. The heads of a slot's
/// blocks are in the slots directly after it.
fn fit_areas(
    alloc: Global,
    slots: &Slots,
    sibs: &OrderedLists,
    uses: &LinkedLists,
    cells: &Vec<UseNode>,
    owner: usize,
    regions: &[TreeRegion],
) -> Result<Option<Vec<RegionData>>, AllocError>
    ensures { IfOk result (λ o. IfSome o (λ a. AreEmptied (map shape_of a.items) (map region_view regions.now)
        × AreBlocks (parts_of slots.now sibs.now uses.now cells.now.items) 0 owner (map shape_of a.items))) }
{
    let mut fitted = Vec::with_capacity(alloc, regions.len())?;
    let mut number = 0;
    let mut head = owner.saturating_add(1);
    let mut rest = regions;
    'regions: while let [region, tail @ ..] = rest {
        let area = match fit_area(alloc, slots, sibs, uses, cells, owner, number, head, region) {
            Ok(Some(area)) => area,
            Ok(None) => return Ok(None),
            Err(e) => return Err(e),
        };
        match fitted.push(area) {
            Ok(()) => {}
            Err(_) => return Err(AllocError),
        }
        number = match number.checked_add(1) {
            None => return Err(AllocError),
            Some(number) => number,
        };
        head = head_after(head, region);
        rest = tail;
    }
    Ok(Some(fitted))
}

/// Returns true only if a free slot has the nodes that an operation like a header needs for its values and operands.
fn row_fits(
    slots: &Slots,
    sibs: &OrderedLists,
    uses: &LinkedLists,
    cells: &Vec<UseNode>,
    slot: usize,
    header: &TreeOp,
) -> bool
    ensures { result ≡ true → RowFits sibs.now.homes uses.now.homes (cells_of cells.now.items) slot (row_at slots.now slot) (head header.now) }
{
    if slots.is_used(slot) || slots.is_live(slot) || !is_out(sibs, slot) {
        return false;
    }
    if !has_heads(uses, cells, slot, slots.values(slot), header.results.len()) {
        return false;
    }
    has_nodes(uses, cells, slot, slots.uses(slot), header.operands.len())
}

/// Returns the row to write into a free slot for an operation like a header, or `None` if it doesn't fit.
fn fit_row(
    alloc: Global,
    slots: &Slots,
    sibs: &OrderedLists,
    uses: &LinkedLists,
    cells: &Vec<UseNode>,
    slot: usize,
    op: OpId,
    header: &TreeOp,
) -> Result<Option<Draft>, AllocError>
    ensures { IfOk result (λ o. IfSome o (λ r. Grown 0 (parts_of slots.now sibs.now uses.now cells.now.items) op header.now slot r)) }
{
    if slot >= slots.len() || !row_fits(slots, sibs, uses, cells, slot, header) {
        return Ok(None);
    }
    let fitted = fit_areas(alloc, slots, sibs, uses, cells, slot, &header.regions);
    let areas = match fitted {
        Ok(Some(areas)) => areas,
        Ok(None) => return Ok(None),
        Err(e) => return Err(e),
    };
    match Draft::new(
        alloc,
        op,
        header,
        areas,
        slots.uses(slot),
        slots.values(slot),
    ) {
        Ok(draft) => Ok(Some(draft)),
        Err(e) => Err(e),
    }
}

/// Returns the next slot of the free list.
fn spare_before(slots: &Slots, slot: usize) -> u32 {
    match slots.spare(slot) {
        None => NO_SLOT,
        Some(before) => before,
    }
}

/// Returns a free slot for an operation like a header, or `None` if none fits. Only the newest `MOST_LOOKS` free slots
/// are tried.
pub fn find_spare(
    alloc: Global,
    slots: &Slots,
    sibs: &OrderedLists,
    uses: &LinkedLists,
    cells: &Vec<UseNode>,
    newest: u32,
    op: OpId,
    header: &TreeOp,
) -> Result<Option<FreeSlot>, AllocError>
    ensures { IfOk result (λ o. IfSome o (λ p. Grown 0 (parts_of slots.now sibs.now uses.now cells.now.items) op header.now p.slot p.draft)) }
{
    let mut trailing = NO_SLOT;
    let mut at = newest;
    let mut looks = MOST_LOOKS;
    'spare: while looks > 0 && at != NO_SLOT {
        let slot = at as usize;
        let before = spare_before(slots, slot);
        match fit_row(alloc, slots, sibs, uses, cells, slot, op, header) {
            Ok(Some(draft)) => {
                return Ok(Some(FreeSlot {
                    trailing,
                    before,
                    slot,
                    draft,
                }));
            }
            Ok(None) => {}
            Err(e) => return Err(e),
        }
        trailing = at;
        at = before;
        looks -= 1;
    }
    Ok(None)
}

/// Removes a slot between two others from the free list, and returns the head of the list.
pub fn take_spare(slots: &mut Slots, newest: u32, trailing: u32, before: u32) -> u32
    ensures { slots.new ≡ slots.old }
{
    if trailing == NO_SLOT {
        return before;
    }
    slots.set_spare(trailing as usize, before);
    newest
}
