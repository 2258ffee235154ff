//! An operation without the operations in its blocks.
ghost use Rattle.std.specs.Prelude.{◌≡◌, length, map, slice_get, option_map, option_and_then};
ghost use Rattle.ir_store_slots.specs.Rows.{row_at, node_row, shape_of, shape_arguments};

use ir_store_slots::Slots;
use ir_store_slots::row::RegionData;
use ir_store_slots::trees::place::Part;
use ir_store_slots::trees::value::Value;
use ir_store_slots::types::ids::{AttrId, NameId, TypeId};
use std::marker::Model;

/// A view of an operation, of the module or held.
#[derive(Drop)]
pub struct Node<'a> {
    slots: &'a Slots,
    slot: usize,
}

impl<'a> Model for Node<'a> {
    ghost use Rattle.ir_store_slots.specs.Nodes.{Node, node_code};
    ghost use Rattle.ir_store_slots.specs.Rows.{row_at, node_row};

    ghost Value = { Node };

    ghost coded = { node_code };

    ghost view = { λ n. node_row (row_at n.slots.now n.slot) };
}

impl<'a> Node<'a> {
    /// Returns a view of the operation in a slot.
    pub fn new(slots: &'a Slots, slot: usize) -> Node<'a>
        ensures { result ≡ node_row (row_at slots.now slot) }
    {
        Node { slots, slot }
    }

    /// Returns the name of the operation.
    pub fn name(&self) -> NameId
        ensures { result ≡ self.now.head.name }
    {
        self.slots.name(self.slot)
    }

    /// Returns the operands, in order.
    pub fn operands(&self) -> &[Value]
        ensures { result.now ≡ self.now.head.operands }
    {
        self.slots.operands(self.slot)
    }

    /// Returns the types of the results, in order.
    pub fn results(&self) -> &[TypeId]
        ensures { result.now ≡ self.now.head.results }
    {
        self.slots.results(self.slot)
    }

    /// Returns the properties, in the order of their keys.
    pub fn properties(&self) -> &[(NameId, AttrId)]
        ensures { result.now ≡ self.now.head.properties }
    {
        self.slots.entries(self.slot, Part::Props)
    }

    /// Returns the discardable attributes, in the order of their keys.
    pub fn attributes(&self) -> &[(NameId, AttrId)]
        ensures { result.now ≡ self.now.head.attributes }
    {
        self.slots.entries(self.slot, Part::Attrs)
    }

    /// Returns the number of regions.
    pub fn region_count(&self) -> usize
        ensures { result ≡ length self.now.arguments }
    {
        self.slots.areas(self.slot).len()
    }

    /// Returns the types of the arguments of the block of a region, or `None` if there is no such region or it has no
    /// block.
    pub fn arguments(&self, region: usize) -> Option<&[TypeId]>
        ensures { option_map (λ a. a.now) result ≡ option_and_then (λ a. a) (slice_get self.now.arguments region) }
    {
        block_arguments(self.slots.areas(self.slot), region)
    }
}

/// Returns the types of the arguments of a region's block, or `None` if there is no such block.
fn block_arguments(areas: &[RegionData], region: usize) -> Option<&[TypeId]>
    ensures { option_map (λ a. a.now) result ≡ option_and_then shape_arguments (slice_get (map shape_of areas.now) region) }
{
    match areas.get(region)? {
        RegionData::Empty => None,
        RegionData::Block { args, .. } => Some(args),
    }
}
