//! The data of operations, under keys, in four slabs by size.
ghost use Rattle.std.specs.Prelude.{◌≡◌, ◌<◌, ◌≤◌, [], ◌||◌, true, nat_lt, map, length, slice_get, Some, None, is_some, option_copied, IfOk, IsOk, OnOk, OnErr, MatchOption, MatchResult};
ghost use Rattle.std.specs.Borrow.{sem};
ghost use Rattle.std.specs.Option.{option_copied_mut};
ghost use Rattle.slab.specs.Slab.{get, HasRoomFor, Updates};
ghost use Rattle.ir_store_arena.specs.trees.Edits.{entry_at};
ghost use Rattle.ir_store_arena.specs.trees.Meaning.{key_before_in, rises};
ghost use Rattle.ir_store_arena.specs.Slots.{has_key, has_slot as is_slot, with_change, NeedsNoSlot};
ghost use Rattle.ir_store_arena.specs.Shapes.{shape_of};
ghost use Rattle.ir_store_arena.specs.Contents.{no_slots, with_operand, dictionary_in, with_dictionary, without_gone, HasNoEntries};
ghost use Rattle.ir_store_arena.specs.Made.{short_contents, plain_contents, made_contents};
ghost use Rattle.ir_store_arena.specs.Registry.{found, contents_at, plain_found, entries_found, AllSame, Adds, Takes, Moves, Swaps, AllAlike};
ghost use Rattle.ir_store_arena.specs.Lending.{LendsPlain, LendsEntries};

use crate::slot_kind::SlotKind;
use crate::trees::place::Part;
use crate::trees::value::Value;
use crate::types::context::Context;
use crate::types::ids::{AttrId, NameId, TypeId};
use crate::{Dictionary, Entries, FullData, InlineData, ListData, OpData, RegionData, WithEntries};
use slab::Slab;
use std::alloc::{AllocError, Global};

/// The data of operations, under keys.
#[derive(Drop)]
pub struct OpArena {
    /// Operations with few operands and results, and without entries and regions.
    pub(crate) short: Slab<InlineData>,
    /// Operations without entries and regions.
    pub(crate) simple: Slab<ListData>,
    /// Operations without regions.
    pub(crate) entered: Slab<WithEntries>,
    /// Operations of any kind.
    pub(crate) whole: Slab<FullData>,
}

impl OpArena {
    /// Returns the operands of a slot's operation and the types of its results, in order.
    #[inline(always)]
    pub(crate) fn lists(&self, held: &SlotKind) -> (&[Value], &[TypeId])
        ensures operands { result.0.now ≡ (contents_at self.now held.now).operands }
        ensures results { result.1.now ≡ (contents_at self.now held.now).results }
    {
        match held {
            SlotKind::Free(_) | SlotKind::BlockHead { .. } => (&[], &[]),
            SlotKind::InlineOp(key) => match self.short.get(*key as usize) {
                None => (&[], &[]),
                Some(it) => (it.operands.as_slice(), it.results.as_slice()),
            },
            SlotKind::ListOp(key) => match self.simple.get(*key as usize) {
                None => (&[], &[]),
                Some(it) => (it.operands.as_slice(), it.results.as_slice()),
            },
            SlotKind::OpWithEntries(key) => match self.entered.get(*key as usize) {
                None => (&[], &[]),
                Some(it) => (it.simple.operands.as_slice(), it.simple.results.as_slice()),
            },
            SlotKind::FullOp(key) => match self.whole.get(*key as usize) {
                None => (&[], &[]),
                Some(it) => (it.simple.operands.as_slice(), it.simple.results.as_slice()),
            },
        }
    }

    /// Returns the operands of a slot's operation, in order.
    #[inline(never)]
    pub(crate) fn operands(&self, held: &SlotKind) -> &[Value]
        ensures { result.now ≡ (contents_at self.now held.now).operands }
    {
        self.lists(held).0
    }

    /// Returns the types of the operation's results, in order.
    #[inline(never)]
    pub(crate) fn results(&self, held: &SlotKind) -> &[TypeId]
        ensures { result.now ≡ (contents_at self.now held.now).results }
    {
        self.lists(held).1
    }

    /// Returns the regions of the operation.
    pub(crate) fn areas(&self, held: &SlotKind) -> &[RegionData]
        ensures { map shape_of result.now ≡ (contents_at self.now held.now).shapes }
    {
        match held {
            SlotKind::FullOp(key) => match self.whole.get(*key as usize) {
                None => &[],
                Some(it) => &it.areas,
            },
            _ => &[],
        }
    }

    /// Returns the dictionaries of the operation, or `None` if its kind has none.
    #[inline]
    fn entries(&self, held: &SlotKind) -> Option<&Entries>
        ensures { option_copied result ≡ entries_found self.now held.now }
    {
        match held {
            SlotKind::OpWithEntries(key) => match self.entered.get(*key as usize) {
                None => None,
                Some(it) => Some(&it.entries),
            },
            SlotKind::FullOp(key) => match self.whole.get(*key as usize) {
                None => None,
                Some(it) => Some(&it.entries),
            },
            _ => None,
        }
    }

    /// Borrows the dictionaries of the operation mutably, or returns `None` if its kind has none.
    #[inline]
    fn entries_mut(&mut self, held: &SlotKind) -> Option<&mut Entries>
        ensures* writes_back { sem 𝓛 (LendsEntries self.entry held.now result) }
        ensures value { option_copied_mut result ≡ entries_found self.old held.now }
    {
        match held {
            SlotKind::OpWithEntries(key) => match self.entered.get_mut(*key as usize) {
                None => None,
                Some(it) => Some(&mut it.entries),
            },
            SlotKind::FullOp(key) => match self.whole.get_mut(*key as usize) {
                None => None,
                Some(it) => Some(&mut it.entries),
            },
            _ => None,
        }
    }

    /// Borrows the operands and results of the operation mutably, or returns `None` if it is an `InlineOp`.
    #[inline]
    fn plain_mut(&mut self, held: &SlotKind) -> Option<&mut ListData>
        ensures* writes_back { sem 𝓛 (LendsPlain self.entry held.now result) }
        ensures value { option_copied_mut result ≡ plain_found self.old held.now }
    {
        match held {
            SlotKind::ListOp(key) => match self.simple.get_mut(*key as usize) {
                None => None,
                Some(it) => Some(it),
            },
            SlotKind::OpWithEntries(key) => match self.entered.get_mut(*key as usize) {
                None => None,
                Some(it) => Some(&mut it.simple),
            },
            SlotKind::FullOp(key) => match self.whole.get_mut(*key as usize) {
                None => None,
                Some(it) => Some(&mut it.simple),
            },
            _ => None,
        }
    }

    /// Returns a dictionary of the operation, or `None` if its kind has none.
    pub(crate) fn dictionary(&self, held: &SlotKind, part: Part) -> Option<&Dictionary>
        ensures { MatchOption result (dictionary_in part (contents_at self.now held.now) ≡ no_slots) (λ d. d.now ≡ dictionary_in part (contents_at self.now held.now)) }
    {
        match self.entries(held) {
            None => None,
            Some(entries) => Some(entries.part(part)),
        }
    }

    /// Returns whether a dictionary of the operation has the slot of a removed key.
    pub(crate) fn has_gone(&self, held: &SlotKind) -> bool
        ensures { result ≡ (nat_lt 0 (length (contents_at self.now held.now).properties.gone) || nat_lt 0 (length (contents_at self.now held.now).attributes.gone)) }
    {
        match self.entries(held) {
            None => false,
            Some(entries) => entries.has_gone(),
        }
    }

    /// Sets an operand to a value and returns the previous operand.
    pub(crate) fn put_operand(&mut self, held: &SlotKind, place: usize, value: Value) -> Value
        requires { place < length (contents_at self.old held.now).operands }
        ensures put { Swaps self.old self.new held.now held.now (with_operand place value (contents_at self.old held.now)) }
        ensures was { slice_get (contents_at self.old held.now).operands place ≡ Some result }
    {
        match held {
            SlotKind::InlineOp(key) => self.short[*key as usize].put_operand(place, value),
            _ => match self.plain_mut(held) {
                None => unreachable!(),
                Some(it) => it.put_operand(place, value),
            },
        }
    }

    /// Sets a key of a dictionary to an attribute, or removes the key. An operation without dictionaries gets a new key
    /// of the arena for that, and keeps it even if memory runs out afterwards.
    pub(crate) fn change(
        &mut self,
        alloc: Global,
        ctx: &Context,
        held: &mut SlotKind,
        part: Part,
        key: NameId,
        value: Option<AttrId>,
    ) -> Result<(), AllocError>
        requires there { is_some (found self.old held.old) ≡ true }
        requires entry { value ≡ None → is_some (entry_at (key_before_in ctx.now) key (dictionary_in part (contents_at self.old held.old)).present) ≡ true }
        ensures swaps { MatchResult result
            (λ _. Swaps self.old self.new held.old held.new (with_dictionary part (with_change (key_before_in ctx.now) key value (dictionary_in part (contents_at self.old held.old))) (contents_at self.old held.old)))
            (λ _. Swaps self.old self.new held.old held.new (contents_at self.old held.old)) }
        ensures slot { rises (key_before_in ctx.now) (dictionary_in part (contents_at self.old held.old)).present ≡ true → NeedsNoSlot key value (dictionary_in part (contents_at self.old held.old)) → IsOk result }
    {
        match self.widen(alloc, held) {
            Ok(()) => {}
            Err(e) => return Err(e),
        }
        self.change_entry(ctx, held, part, key, value)
    }

    /// Sets a key of a dictionary of an operation that has dictionaries, or removes the key. The operation keeps its
    /// key of the arena.
    fn change_entry(
        &mut self,
        ctx: &Context,
        held: &SlotKind,
        part: Part,
        key: NameId,
        value: Option<AttrId>,
    ) -> Result<(), AllocError>
        requires there { is_some (found self.old held.now) ≡ true }
        requires entry { value ≡ None → is_some (entry_at (key_before_in ctx.now) key (dictionary_in part (contents_at self.old held.now)).present) ≡ true }
        ensures swaps { MatchResult result
            (λ _. Swaps self.old self.new held.now held.now (with_dictionary part (with_change (key_before_in ctx.now) key value (dictionary_in part (contents_at self.old held.now))) (contents_at self.old held.now)))
            (λ _. Swaps self.old self.new held.now held.now (contents_at self.old held.now)) }
        ensures slot { rises (key_before_in ctx.now) (dictionary_in part (contents_at self.old held.now)).present ≡ true → NeedsNoSlot key value (dictionary_in part (contents_at self.old held.now)) → IsOk result }
    {
        match self.entries_mut(held) {
            None => Err(AllocError),
            Some(entries) => entries.change(ctx, part, key, value),
        }
    }

    /// Moves an operation without dictionaries to a kind with dictionaries.
    fn widen(&mut self, alloc: Global, held: &mut SlotKind) -> Result<(), AllocError>
        requires { is_some (found self.old held.old) ≡ true }
        ensures same { Swaps self.old self.new held.old held.new (contents_at self.old held.old) }
        ensures none { OnErr result (HasNoEntries (contents_at self.old held.old)) }
    {
        let at = match held {
            SlotKind::InlineOp(key) => lengthened(alloc, &mut self.short, &mut self.entered, *key)?,
            SlotKind::ListOp(key) => widened(alloc, &mut self.simple, &mut self.entered, *key)?,
            _ => return Ok(()),
        };
        *held = SlotKind::OpWithEntries(at);
        Ok(())
    }

    /// Sets a key that has a slot in a dictionary, or removes the key. Needs no memory.
    pub(crate) fn revert(
        &mut self,
        ctx: &Context,
        held: &SlotKind,
        part: Part,
        key: NameId,
        value: Option<AttrId>,
    )
        requires sorted { rises (key_before_in ctx.now) (dictionary_in part (contents_at self.old held.now)).present ≡ true }
        requires slot { is_slot key (dictionary_in part (contents_at self.old held.now)) ≡ true }
        requires entry { value ≡ None → has_key key (dictionary_in part (contents_at self.old held.now)).present ≡ true }
        ensures { Swaps self.old self.new held.now held.now (with_dictionary part (with_change (key_before_in ctx.now) key value (dictionary_in part (contents_at self.old held.now))) (contents_at self.old held.now)) }
    {
        match self.entries_mut(held) {
            None => unreachable!(),
            Some(entries) => entries.revert(ctx, part, key, value),
        }
    }

    /// Releases the slots of removed keys.
    pub(crate) fn drop_gone(&mut self, held: &SlotKind)
        requires { is_some (found self.old held.now) ≡ true }
        ensures { Swaps self.old self.new held.now held.now (without_gone (contents_at self.old held.now)) }
    {
        match self.entries_mut(held) {
            None => {}
            Some(entries) => entries.drop_gone(),
        }
    }

    /// Stores the data of an operation under a vacant key.
    pub(crate) fn add(&mut self, made: OpData) -> Result<SlotKind, AllocError>
        ensures { MatchResult result (λ h. Adds self.old self.new h (made_contents made)) (λ _. AllAlike self.old self.new) }
    {
        match made {
            OpData::Inline(it) => match add(&mut self.short, it) {
                Ok(key) => Ok(SlotKind::InlineOp(key)),
                Err(e) => Err(e),
            },
            OpData::Lists(it) => match add(&mut self.simple, it) {
                Ok(key) => Ok(SlotKind::ListOp(key)),
                Err(e) => Err(e),
            },
            OpData::WithEntries(it) => match add(&mut self.entered, it) {
                Ok(key) => Ok(SlotKind::OpWithEntries(key)),
                Err(e) => Err(e),
            },
            OpData::Full(it) => match add(&mut self.whole, it) {
                Ok(key) => Ok(SlotKind::FullOp(key)),
                Err(e) => Err(e),
            },
        }
    }

    /// Removes the data of an operation, if there is any. The key becomes vacant.
    pub(crate) fn remove(&mut self, held: &SlotKind)
        ensures { Takes self.old self.new held.now }
    {
        match held {
            SlotKind::Free(_) | SlotKind::BlockHead { .. } => {}
            SlotKind::InlineOp(key) => {
                self.short.try_remove(*key as usize);
            }
            SlotKind::ListOp(key) => {
                self.simple.try_remove(*key as usize);
            }
            SlotKind::OpWithEntries(key) => {
                self.entered.try_remove(*key as usize);
            }
            SlotKind::FullOp(key) => {
                self.whole.try_remove(*key as usize);
            }
        }
    }
}

/// Returns the capacity to add when a slab is full: an eighth of its length, plus a few.
pub(crate) fn growth(len: usize) -> usize
    ensures { 1 ≤ result }
{
    len / 8 + 8
}

/// Reserves capacity for one more value and returns its key.
fn vacant_key<T>(slab: &mut Slab<T>) -> Result<u32, AllocError>
    ensures headroom { OnOk result (HasRoomFor slab.new 1) }
    ensures key { IfOk result (λ k. k ≡ slab.new.vacant_key) }
    ensures same { AllSame slab.old slab.new }
{
    let more = if slab.len() < slab.capacity() {
        1
    } else {
        growth(slab.len())
    };
    match slab.reserve_exact(more) {
        Ok(()) => {}
        Err(e) => return Err(e),
    }
    match u32::try_from(slab.vacant_key()) {
        Ok(key) => Ok(key),
        Err(_) => Err(AllocError),
    }
}

/// Stores a value under a vacant key.
fn add<T: Drop>(slab: &mut Slab<T>, value: T) -> Result<u32, AllocError>
    ensures { MatchResult result (λ k. (get slab.old k ≡ None) × Updates slab.old slab.new k (Some value)) (λ _. AllSame slab.old slab.new) }
{
    match vacant_key(slab) {
        Ok(key) => {
            slab.insert_reserved(value);
            Ok(key)
        }
        Err(e) => Err(e),
    }
}

/// Moves an operation without dictionaries to a kind with dictionaries, under another key. If memory runs out, nothing
/// changes.
fn widened(
    alloc: Global,
    simple: &mut Slab<ListData>,
    entered: &mut Slab<WithEntries>,
    key: u32,
) -> Result<u32, AllocError>
    requires { is_some (get simple.old key) ≡ true }
    ensures { MatchResult result (λ at. Moves plain_contents simple.old simple.new entered.old entered.new key at) (λ _. AllSame simple.old simple.new × AllSame entered.old entered.new) }
{
    let at = match vacant_key(entered) {
        Ok(at) => at,
        Err(e) => return Err(e),
    };
    let it = simple.remove(key as usize);
    let entries = Entries::empty(alloc);
    entered.insert_reserved(WithEntries {
        simple: it,
        entries,
    });
    Ok(at)
}

/// Moves an operation with few operands and results to a kind with dictionaries, under another key. If memory runs out,
/// nothing changes.
fn lengthened(
    alloc: Global,
    short: &mut Slab<InlineData>,
    entered: &mut Slab<WithEntries>,
    key: u32,
) -> Result<u32, AllocError>
    requires { is_some (get short.old key) ≡ true }
    ensures { MatchResult result (λ at. Moves short_contents short.old short.new entered.old entered.new key at) (λ _. AllSame short.old short.new × AllSame entered.old entered.new) }
{
    let at = match vacant_key(entered) {
        Ok(at) => at,
        Err(e) => return Err(e),
    };
    let simple = match short[key as usize].to_lists(alloc) {
        Ok(simple) => simple,
        Err(e) => return Err(e),
    };
    short.remove(key as usize);
    let entries = Entries::empty(alloc);
    entered.insert_reserved(WithEntries { simple, entries });
    Ok(at)
}
