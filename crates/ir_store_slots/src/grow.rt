//! Adds slots and nodes.
ghost use Rattle.std.specs.Prelude.{◌≡◌, true, false, ℕ, ◌+◌, ◌<◌, ◌≤◌, ◌++◌, ◌∷◌, [], length, map, IfOk, MatchResult, IfSome};
ghost use Rattle.ir_store_arena.specs.trees.View.{region_view};
ghost use Rattle.ir_store_arena.specs.trees.Tree.{block, no_ops, head};
ghost use Rattle.ir_store_slots.specs.Rows.{shape_of};
ghost use Rattle.ir_store_slots.specs.Index.{cells_of};
ghost use Rattle.ir_store_slots.specs.Grows.{parts_of, IsEven, Wider, Runs, AddsSlot, KeepsSlots, AreBlocks, IsBlock, Grown, AreEmptied, row_spare, row_held, bare_region};
ghost use Rattle.ir_store_slots.specs.Emptied.{emptied_region};
ghost use Rattle.ir_store_lists.specs.Lists.{free};
ghost use Rattle.std.specs.Prelude.{if◌then◌else◌};

use crate::row::{RegionData, UseNode};
use ir_store_arena::trees::tree::{TreeOp, TreeRegion};
use ir_store_arena::trees::value::Value;
use ir_store_arena::types::ids::{OpId, TypeId};
use ir_store_arena::{Draft, Slots};
use ir_store_lists::{LinkedLists, OrderedLists};
use std::alloc::{AllocError, Global};

/// Adds a free slot.
fn add_spare(slots: &mut Slots, sibs: &mut OrderedLists) -> Result<(), AllocError>
    ensures { MatchResult result
        (λ _. AddsSlot false (row_spare 0 0 0) slots.old slots.new sibs.old sibs.new)
        (λ _. KeepsSlots slots.old slots.new sibs.old sibs.new) }
{
    match slots.push_spare() {
        Ok(()) => {}
        Err(e) => return Err(e),
    }
    match add_block_node(sibs, false) {
        Ok(()) => Ok(()),
        Err(e) => {
            slots.pop();
            Err(e)
        }
    }
}

/// Adds a slot for the head of a block, with its owner and the index of its region.
fn add_head(
    slots: &mut Slots,
    sibs: &mut OrderedLists,
    owner: u32,
    region: u32,
    values: usize,
) -> Result<(), AllocError>
    requires { values < free }
    ensures { MatchResult result
        (λ _. AddsSlot true (row_spare owner region values) slots.old slots.new sibs.old sibs.new)
        (λ _. KeepsSlots slots.old slots.new sibs.old sibs.new) }
{
    match slots.push_head(owner, region, values as u32) {
        Ok(()) => {}
        Err(e) => return Err(e),
    }
    match add_block_node(sibs, true) {
        Ok(()) => Ok(()),
        Err(e) => {
            slots.pop();
            Err(e)
        }
    }
}

/// Adds a node of blocks, which is a head or free.
fn add_block_node(nodes: &mut OrderedLists, head: bool) -> Result<(), AllocError>
    ensures { MatchResult result
        (λ _. (nodes.new.lists ≡ nodes.old.lists ++ [] ∷ []) × (nodes.new.homes ≡ nodes.old.homes ++ (if head then length nodes.old.homes else free) ∷ []))
        (λ _. nodes.new ≡ nodes.old) }
{
    if head {
        match nodes.add_head() {
            Ok(_) => Ok(()),
            Err(e) => Err(e),
        }
    } else {
        match nodes.add_node() {
            Ok(_) => Ok(()),
            Err(e) => Err(e),
        }
    }
}

/// Adds a node, which is a head or free.
fn add_node(nodes: &mut LinkedLists, head: bool) -> Result<(), AllocError>
    ensures { MatchResult result
        (λ _. (nodes.new.lists ≡ nodes.old.lists ++ [] ∷ []) × (nodes.new.homes ≡ nodes.old.homes ++ (if head then length nodes.old.homes else free) ∷ []))
        (λ _. nodes.new ≡ nodes.old) }
{
    if head {
        match nodes.add_head() {
            Ok(_) => Ok(()),
            Err(e) => Err(e),
        }
    } else {
        match nodes.add_node() {
            Ok(_) => Ok(()),
            Err(e) => Err(e),
        }
    }
}

/// Adds a cell and its node.
fn add_use(
    uses: &mut LinkedLists,
    cells: &mut Vec<UseNode>,
    cell: UseNode,
    head: bool,
) -> Result<(), AllocError>
    ensures { MatchResult result
        (λ _. (uses.new.homes ≡ uses.old.homes ++ (if head then length uses.old.homes else free) ∷ []) × (cells.new.items ≡ cells.old.items ++ cell ∷ []))
        (λ _. (uses.new.homes ≡ uses.old.homes) × (cells.new.items ≡ cells.old.items)) }
{
    match cells.push(cell) {
        Ok(()) => {}
        Err(_) => return Err(AllocError),
    }
    match add_node(uses, head) {
        Ok(()) => Ok(()),
        Err(e) => {
            let _ = cells.pop();
            Err(e)
        }
    }
}

/// Adds nodes for the values of a slot (heads), or for its operands (free nodes). Returns the first one.
fn add_run(
    uses: &mut LinkedLists,
    cells: &mut Vec<UseNode>,
    row: usize,
    count: usize,
    heads: bool,
) -> Result<usize, AllocError>
    requires even { length uses.old.homes ≡ length cells.old.items }
    requires row { row < free }
    ensures { MatchResult result
        (λ base. (base ≡ length uses.old.homes) × Runs heads row count uses.old.homes uses.new.homes (cells_of cells.old.items) (cells_of cells.new.items))
        (λ _. (n : ℕ) × Runs heads row n uses.old.homes uses.new.homes (cells_of cells.old.items) (cells_of cells.new.items)) }
{
    let base = cells.len();
    let mut place = 0;
    'nodes: while place < count {
        uses.laws();
        let cell = UseNode {
            row: row as u32,
            place: place as u32,
        };
        match add_use(uses, cells, cell, heads) {
            Ok(()) => {}
            Err(e) => return Err(e),
        }
        place += 1;
    }
    Ok(base)
}

/// Returns the number of rows.
fn row_count(slots: &Slots) -> usize
    ensures { result ≡ length slots.now }
{
    slots.len()
}

/// Returns the number of types.
fn type_count(types: &[TypeId]) -> usize
    ensures { result ≡ length types.now }
{
    types.len()
}

/// Returns the number of operands.
fn operand_count(operands: &[Value]) -> usize
    ensures { result ≡ length operands.now }
{
    operands.len()
}

/// Adds the region of a slot, without operations.
fn add_area(
    alloc: Global,
    slots: &mut Slots,
    sibs: &mut OrderedLists,
    uses: &mut LinkedLists,
    cells: &mut Vec<UseNode>,
    owner: u32,
    number: u32,
    region: &TreeRegion,
) -> Result<RegionData, AllocError>
    requires { IsEven (parts_of slots.old sibs.old uses.old cells.old.items) }
    ensures wider { Wider (parts_of slots.old sibs.old uses.old cells.old.items) (parts_of slots.new sibs.new uses.new cells.new.items) }
    ensures area { IfOk result (λ a. (bare_region (shape_of a) ≡ emptied_region (region_view region.now))
        × IsBlock (parts_of slots.new sibs.new uses.new cells.new.items) (length uses.old.homes) owner number (shape_of a)) }
{
    match region {
        TreeRegion::Empty => Ok(RegionData::Empty),
        TreeRegion::Block { args, .. } => {
            let args = match Vec::from_slice(alloc, args) {
                Ok(args) => args,
                Err(e) => return Err(e),
            };
            add_block(slots, sibs, uses, cells, owner, number, args)
        }
    }
}

/// Adds a block of a slot, without operations.
fn add_block(
    slots: &mut Slots,
    sibs: &mut OrderedLists,
    uses: &mut LinkedLists,
    cells: &mut Vec<UseNode>,
    owner: u32,
    number: u32,
    args: Vec<TypeId>,
) -> Result<RegionData, AllocError>
    requires { IsEven (parts_of slots.old sibs.old uses.old cells.old.items) }
    ensures wider { Wider (parts_of slots.old sibs.old uses.old cells.old.items) (parts_of slots.new sibs.new uses.new cells.new.items) }
    ensures area { IfOk result (λ a. (bare_region (shape_of a) ≡ block args.items no_ops)
        × IsBlock (parts_of slots.new sibs.new uses.new cells.new.items) (length uses.old.homes) owner number (shape_of a)) }
{
    sibs.laws();
    uses.laws();
    let head = row_count(slots);
    let count = type_count(&args);
    let values = match add_run(uses, cells, head, count, true) {
        Ok(values) => values,
        Err(e) => return Err(e),
    };
    match add_head(slots, sibs, owner, number, values) {
        Ok(()) => Ok(RegionData::Block { args, head }),
        Err(e) => Err(e),
    }
}

/// Adds the regions of a slot, without operations.
fn add_areas(
    alloc: Global,
    slots: &mut Slots,
    sibs: &mut OrderedLists,
    uses: &mut LinkedLists,
    cells: &mut Vec<UseNode>,
    owner: u32,
    regions: &[TreeRegion],
) -> Result<Vec<RegionData>, AllocError>
    requires { IsEven (parts_of slots.old sibs.old uses.old cells.old.items) }
    ensures wider { Wider (parts_of slots.old sibs.old uses.old cells.old.items) (parts_of slots.new sibs.new uses.new cells.new.items) }
    ensures areas { IfOk result (λ a. AreEmptied (map shape_of a.items) (map region_view regions.now)
        × AreBlocks (parts_of slots.new sibs.new uses.new cells.new.items) (length uses.old.homes) owner (map shape_of a.items)) }
{
    let mut areas = Vec::with_capacity(alloc, regions.len())?;
    let mut number = 0;
    let mut rest = regions;
    'regions: while let [region, tail @ ..] = rest {
        let area = match add_area(alloc, slots, sibs, uses, cells, owner, number, region) {
            Ok(area) => area,
            Err(e) => return Err(e),
        };
        match areas.push(area) {
            Ok(()) => {}
            Err(_) => return Err(AllocError),
        }
        number = match number.checked_add(1) {
            None => return Err(AllocError),
            Some(number) => number,
        };
        rest = tail;
    }
    Ok(areas)
}

/// Adds a slot for an operation, with the nodes of its values and operands. Returns the slot and the row to write into
/// it.
pub fn grow_slot(
    alloc: Global,
    slots: &mut Slots,
    sibs: &mut OrderedLists,
    uses: &mut LinkedLists,
    cells: &mut Vec<UseNode>,
    op: OpId,
    header: &TreeOp,
) -> Result<(usize, Draft), AllocError>
    requires { IsEven (parts_of slots.old sibs.old uses.old cells.old.items) }
    ensures wider { Wider (parts_of slots.old sibs.old uses.old cells.old.items) (parts_of slots.new sibs.new uses.new cells.new.items) }
    ensures grown { IfOk result (λ p. Grown (length uses.old.homes) (parts_of slots.new sibs.new uses.new cells.new.items) op header.now p.0 p.1) }
{
    sibs.laws();
    let slot = row_count(slots);
    match add_spare(slots, sibs) {
        Ok(()) => {}
        Err(e) => return Err(e),
    }
    let areas = match add_areas(
        alloc,
        slots,
        sibs,
        uses,
        cells,
        slot as u32,
        &header.regions,
    ) {
        Ok(areas) => areas,
        Err(e) => return Err(e),
    };
    let values = match add_run(uses, cells, slot, type_count(&header.results), true) {
        Ok(values) => values,
        Err(e) => return Err(e),
    };
    let base = match add_run(uses, cells, slot, operand_count(&header.operands), false) {
        Ok(base) => base,
        Err(e) => return Err(e),
    };
    match Draft::new(alloc, op, header, areas, base, values) {
        Ok(row) => Ok((slot, row)),
        Err(e) => Err(e),
    }
}
