//! Slots and their contents.
ghost use Rattle.std.specs.Prelude.{◌≡◌, List, ◌<◌, ◌≤◌, ◌++◌, ◌∷◌, [], ◌||◌, true, false, nat_lt, map, length, slice_get, slice_set, Some, None, is_some, IfOk, IsOk, OnOk, OnErr, MatchOption};
ghost use Rattle.ir_store_arena.specs.trees.Edits.{entry_at, part_of as the_part};
ghost use Rattle.ir_store_arena.specs.trees.Meaning.{key_before_in, rises};
ghost use Rattle.ir_store_arena.specs.Slots.{has_key, has_slot as is_slot, NeedsNoSlot};
ghost use Rattle.ir_store_arena.specs.Contents.{no_slots};
ghost use Rattle.ir_store_arena.specs.Gone.{none_gone};
ghost use Rattle.ir_store_arena.specs.Shapes.{shape_of};
ghost use Rattle.ir_store_arena.specs.Registry.{is_key, keyless_contents, vacated_held, respared};
ghost use Rattle.ir_store_arena.specs.Rows.{Row as RowModel, row_at, row_spare, row_with_operand, row_with_entry, slots_in, vacated};

use crate::draft::Draft;
use crate::op_arena::{OpArena, growth};
use crate::slot_kind::{Slot, SlotKind};
use crate::trees::place::Part;
use crate::trees::value::Value;
use crate::types::context::Context;
use crate::types::ids::{AttrId, NameId, OpId, TypeId};
use crate::{Dictionary, RegionData};
use slab::Slab;
use std::alloc::{AllocError, Global};
use std::marker::Model;

/// Slots: operations of the module, held operations, heads of blocks, and free slots.
pub struct Slots {
    slots: Vec<Slot>,
    registry: OpArena,
}

impl Drop for Slots {
    /// Frees the slots. It is written out, so that the crates above call one function.
    fn drop(self) {
        let Slots {
            slots: _,
            registry: _,
        } = self;
    }
}

impl Model for Slots {
    ghost use Rattle.std.specs.Prelude.{List};
    ghost use Rattle.std.specs.Coded.{coded_list};
    ghost use Rattle.ir_store_arena.specs.Rows.{Row, row_code, rows_in, IsSound};

    ghost Value = { List Row };

    ghost coded = { coded_list row_code };

    ghost view = { λ s. rows_in s.registry s.slots.items };

    ghost invariant = { λ s. IsSound s.registry s.slots.items };
}

impl Slots {
    /// Returns no slots.
    pub fn new(alloc: Global) -> Slots
        ensures { result ≡ [] }
    {
        Slots {
            slots: Vec::new(alloc),
            registry: OpArena {
                short: Slab::new(alloc),
                simple: Slab::new(alloc),
                entered: Slab::new(alloc),
                whole: Slab::new(alloc),
            },
        }
    }

    /// Returns the number of slots.
    pub fn len(&self) -> usize
        ensures { result ≡ length self.now }
    {
        self.slots.len()
    }

    /// Returns whether a slot has an operation.
    pub fn is_used(&self, slot: usize) -> bool
        ensures { result ≡ (row_at self.now slot).used }
    {
        match self.slots.get(slot) {
            None => false,
            Some(row) => row.used,
        }
    }

    /// Returns whether a slot has an operation of the module.
    pub fn is_live(&self, slot: usize) -> bool
        ensures { result ≡ (row_at self.now slot).live }
    {
        match self.slots.get(slot) {
            None => false,
            Some(row) => row.live,
        }
    }

    /// Returns the id of the operation in a slot.
    pub fn id(&self, slot: usize) -> OpId
        ensures { result ≡ (row_at self.now slot).head.id }
    {
        match self.slots.get(slot) {
            None => OpId::new(0),
            Some(row) => row.id,
        }
    }

    /// Returns the name of the operation in a slot.
    pub fn name(&self, slot: usize) -> NameId
        ensures { result ≡ (row_at self.now slot).head.name }
    {
        match self.slots.get(slot) {
            None => NameId::new(0),
            Some(row) => row.name,
        }
    }

    /// Returns the use node of the operation's first operand.
    pub fn uses(&self, slot: usize) -> usize
        ensures { result ≡ (row_at self.now slot).uses }
    {
        match self.slots.get(slot) {
            None => 0,
            Some(row) => row.uses as usize,
        }
    }

    /// Returns the head of the use list of the operation's first result, or of a block's first argument.
    pub fn values(&self, slot: usize) -> usize
        ensures { result ≡ (row_at self.now slot).values }
    {
        match self.slots.get(slot) {
            None => 0,
            Some(row) => row.values as usize,
        }
    }

    /// Returns the slot of the parent operation, for the head of a block.
    pub fn owner(&self, slot: usize) -> u32
        ensures { result ≡ (row_at self.now slot).owner }
    {
        match self.slots.get(slot) {
            None => 0,
            Some(row) => match row.held {
                SlotKind::BlockHead { owner, .. } => owner,
                _ => 0,
            },
        }
    }

    /// Returns the index of the region, for the head of a block.
    pub fn region(&self, slot: usize) -> u32
        ensures { result ≡ (row_at self.now slot).region }
    {
        match self.slots.get(slot) {
            None => 0,
            Some(row) => match row.held {
                SlotKind::BlockHead { region, .. } => region,
                _ => 0,
            },
        }
    }

    /// Returns the operands of the operation in a slot, in order.
    #[inline(always)]
    pub fn operands(&self, slot: usize) -> &[Value]
        ensures { result.now ≡ (row_at self.now slot).head.operands }
    {
        match self.slots.get(slot) {
            None => &[],
            Some(row) => self.registry.operands(&row.held),
        }
    }

    /// Returns the types of the operation's results, in order.
    #[inline(always)]
    pub fn results(&self, slot: usize) -> &[TypeId]
        ensures { result.now ≡ (row_at self.now slot).head.results }
    {
        match self.slots.get(slot) {
            None => &[],
            Some(row) => self.registry.results(&row.held),
        }
    }

    /// Returns the operands of the operation in a slot and the types of its results, in order.
    #[inline(always)]
    pub fn lists(&self, slot: usize) -> (&[Value], &[TypeId])
        ensures operands { result.0.now ≡ (row_at self.now slot).head.operands }
        ensures results { result.1.now ≡ (row_at self.now slot).head.results }
    {
        match self.slots.get(slot) {
            None => (&[], &[]),
            Some(row) => self.registry.lists(&row.held),
        }
    }

    /// Returns the regions of the operation in a slot.
    pub fn areas(&self, slot: usize) -> &[RegionData]
        ensures { map shape_of result.now ≡ (row_at self.now slot).shapes }
    {
        match self.slots.get(slot) {
            None => &[],
            Some(row) => self.registry.areas(&row.held),
        }
    }

    /// Returns a dictionary of the operation in a slot, or `None` if the operation has no dictionaries.
    pub fn dictionary(&self, slot: usize, part: Part) -> Option<&Dictionary>
        ensures { MatchOption result (slots_in part (row_at self.now slot) ≡ no_slots) (λ d. d.now ≡ slots_in part (row_at self.now slot)) }
    {
        match self.slots.get(slot) {
            None => None,
            Some(row) => self.registry.dictionary(&row.held, part),
        }
    }

    /// Returns the entries of a dictionary of the operation in a slot, in the order of their keys.
    pub fn entries(&self, slot: usize, part: Part) -> &[(NameId, AttrId)]
        ensures { result.now ≡ (slots_in part (row_at self.now slot)).present }
    {
        match self.dictionary(slot, part) {
            None => &[],
            Some(entries) => entries.as_slice(),
        }
    }

    /// Returns whether a dictionary of the operation has the slot of a removed key.
    pub fn has_gone(&self, slot: usize) -> bool
        ensures { result ≡ (nat_lt 0 (length (row_at self.now slot).gone.properties) || nat_lt 0 (length (row_at self.now slot).gone.attributes)) }
    {
        match self.slots.get(slot) {
            None => false,
            Some(row) => self.registry.has_gone(&row.held),
        }
    }

    /// Returns the next slot of the free list, for a free slot.
    pub fn spare(&self, slot: usize) -> Option<u32> {
        match self.slots.get(slot) {
            None => None,
            Some(row) => match row.held {
                SlotKind::Free(before) => Some(before),
                _ => None,
            },
        }
    }
}

impl Slots {
    /// Adds a free slot.
    pub fn push_spare(&mut self) -> Result<(), AllocError>
        ensures ok { OnOk result (self.new ≡ self.old ++ row_spare 0 0 0 ∷ []) }
        ensures err { OnErr result (self.new ≡ self.old) }
    {
        self.push(SlotKind::Free(0), 0)
    }

    /// Adds a slot for the head of the block of a region. `owner` is the slot of the operation, and `values` the head
    /// of the block's first argument.
    pub fn push_head(&mut self, owner: u32, region: u32, values: u32) -> Result<(), AllocError>
        ensures ok { OnOk result (self.new ≡ self.old ++ row_spare owner region values ∷ []) }
        ensures err { OnErr result (self.new ≡ self.old) }
    {
        self.push(SlotKind::BlockHead { owner, region }, values)
    }

    /// Adds a slot without an operation.
    fn push(&mut self, held: SlotKind, values: u32) -> Result<(), AllocError>
        requires { is_key held ≡ false }
        ensures ok { OnOk result (self.new ≡ self.old ++ record (row_spare 0 0 values) { owner = (keyless_contents held).owner; region = (keyless_contents held).region } ∷ []) }
        ensures err { OnErr result (self.new ≡ self.old) }
    {
        let row = Slot {
            used: false,
            live: false,
            id: OpId::new(0),
            name: NameId::new(0),
            uses: 0,
            values,
            held,
        };
        match push_row(&mut self.slots, row) {
            Ok(()) => {}
            Err(e) => return Err(e),
        }
        Ok(())
    }

    /// Removes the last slot.
    pub fn pop(&mut self)
        ensures { (slots : List RowModel) (r : RowModel) → self.old ≡ slots ++ r ∷ [] → self.new ≡ slots }
    {
        if let Some(row) = self.slots.pop() {
            self.registry.remove(&row.held);
        }
    }

    /// Marks the operation in a slot as one of the module, or as taken out.
    pub fn set_live(&mut self, slot: usize, live: bool)
        requires { slot < length self.old }
        ensures { self.new ≡ slice_set self.old slot (record (row_at self.old slot) { live = live }) }
    {
        let row = &mut self.slots[slot];
        row.live = live;
    }

    /// Sets an operand to a value and returns the previous operand.
    pub fn put_operand(&mut self, slot: usize, place: usize, value: Value) -> Value
        requires { place < length (row_at self.old slot).head.operands }
        ensures put { self.new ≡ slice_set self.old slot (row_with_operand place value (row_at self.old slot)) }
        ensures was { slice_get (row_at self.old slot).head.operands place ≡ Some result }
    {
        let held = self.slots[slot].held;
        self.registry.put_operand(&held, place, value)
    }

    /// Sets a key of one dictionary of the operation in a slot to an attribute, or removes the key.
    pub fn change(
        &mut self,
        alloc: Global,
        ctx: &Context,
        slot: usize,
        part: Part,
        key: NameId,
        value: Option<AttrId>,
    ) -> Result<(), AllocError>
        requires inside { slot < length self.old }
        requires entry { value ≡ None → is_some (entry_at (key_before_in ctx.now) key (the_part part (row_at self.old slot).head)) ≡ true }
        ensures ok { OnOk result (self.new ≡ slice_set self.old slot (row_with_entry (key_before_in ctx.now) part key value (row_at self.old slot))) }
        ensures err { OnErr result (self.new ≡ self.old) }
        ensures slot { rises (key_before_in ctx.now) (slots_in part (row_at self.old slot)).present ≡ true → NeedsNoSlot key value (slots_in part (row_at self.old slot)) → IsOk result }
    {
        let row = &mut self.slots[slot];
        self.registry
            .change(alloc, ctx, &mut row.held, part, key, value)
    }

    /// Sets a key that has a slot in one dictionary of the operation, or removes the key. Needs no memory.
    pub fn revert(
        &mut self,
        ctx: &Context,
        slot: usize,
        part: Part,
        key: NameId,
        value: Option<AttrId>,
    )
        requires inside { slot < length self.old }
        requires sorted { rises (key_before_in ctx.now) (slots_in part (row_at self.old slot)).present ≡ true }
        requires slot { is_slot key (slots_in part (row_at self.old slot)) ≡ true }
        requires entry { value ≡ None → has_key key (slots_in part (row_at self.old slot)).present ≡ true }
        ensures { self.new ≡ slice_set self.old slot (row_with_entry (key_before_in ctx.now) part key value (row_at self.old slot)) }
    {
        let held = self.slots[slot].held;
        self.registry.revert(ctx, &held, part, key, value);
    }

    /// Releases the slots of the removed keys of the operation in a slot.
    pub fn drop_gone(&mut self, slot: usize)
        requires { slot < length self.old }
        ensures { self.new ≡ slice_set self.old slot (record (row_at self.old slot) { gone = none_gone }) }
    {
        let held = self.slots[slot].held;
        self.registry.drop_gone(&held);
    }

    /// Writes a held operation into a slot and replaces its contents. If memory runs out, nothing changes.
    pub fn write_op(&mut self, slot: usize, draft: Draft) -> Result<(), AllocError>
        requires { slot < length self.old }
        ensures ok { OnOk result (self.new ≡ slice_set self.old slot draft) }
        ensures err { OnErr result (self.new ≡ self.old) }
    {
        let Draft {
            id,
            name,
            uses,
            values,
            made,
        } = draft;
        let held = match self.registry.add(made) {
            Ok(held) => held,
            Err(e) => return Err(e),
        };
        let old = self.slots[slot].held;
        self.slots[slot] = Slot {
            used: true,
            live: false,
            id,
            name,
            uses,
            values,
            held,
        };
        self.registry.remove(&old);
        Ok(())
    }

    /// Frees a slot. The key of its operation becomes vacant, and `before` is the next slot of the free list.
    pub fn free(&mut self, slot: usize, before: u32)
        requires { slot < length self.old }
        ensures { self.new ≡ slice_set self.old slot (vacated (row_at self.old slot)) }
    {
        let row = &mut self.slots[slot];
        let given = row.held;
        row.used = false;
        row.held = vacated(&given, before);
        self.registry.remove(&given);
    }

    /// Sets the next slot of the free list, if the slot is free.
    pub fn set_spare(&mut self, slot: usize, before: u32)
        ensures { self.new ≡ self.old }
    {
        if slot >= self.slots.len() {
            return;
        }
        let row = &mut self.slots[slot];
        row.held = spare_before(&row.held, before);
    }

    /// Returns no slots, with the given capacity for slots and for the operations of each of the four kinds.
    pub fn with_capacity(
        alloc: Global,
        slots: usize,
        short: usize,
        simple: usize,
        entered: usize,
        whole: usize,
    ) -> Result<Slots, AllocError>
        ensures { IfOk result (λ r. r ≡ []) }
    {
        Ok(Slots {
            slots: Vec::with_capacity(alloc, slots)?,
            registry: OpArena {
                short: Slab::with_capacity(alloc, short)?,
                simple: Slab::with_capacity(alloc, simple)?,
                entered: Slab::with_capacity(alloc, entered)?,
                whole: Slab::with_capacity(alloc, whole)?,
            },
        })
    }
}

/// Adds a row.
fn push_row(slots: &mut Vec<Slot>, row: Slot) -> Result<(), AllocError>
    ensures ok { OnOk result (slots.new.items ≡ slots.old.items ++ row ∷ []) }
    ensures err { OnErr result (slots.new.items ≡ slots.old.items) }
{
    if slots.len() == slots.capacity() {
        match slots.reserve_exact(growth(slots.len())) {
            Ok(()) => {}
            Err(e) => return Err(e),
        }
    }
    match slots.push(row) {
        Ok(()) => Ok(()),
        Err(_) => Err(AllocError),
    }
}

/// Returns what a slot keeps after its operation is freed.
fn vacated(held: &SlotKind, before: u32) -> SlotKind
    ensures { result ≡ vacated_held before held.now }
{
    match held {
        SlotKind::BlockHead { owner, region } => SlotKind::BlockHead {
            owner: *owner,
            region: *region,
        },
        _ => SlotKind::Free(before),
    }
}

/// Returns what a free slot keeps with `before` as the next slot of the free list.
fn spare_before(held: &SlotKind, before: u32) -> SlotKind
    ensures { result ≡ respared before held.now }
{
    match held {
        SlotKind::Free(_) => SlotKind::Free(before),
        _ => *held,
    }
}
