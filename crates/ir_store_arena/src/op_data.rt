//! The data of an operation, apart from its name and its nodes.
ghost use Rattle.std.specs.Prelude.{◌≡◌, ◌<◌, [], ◌||◌, true, nat_lt, map, length, slice_get, slice_set, Some, None, is_some, IfOk, IsOk, IfSome, OnOk, OnErr};
ghost use Rattle.ir_tree_laws.specs.trees.Edits.{entry_at};
ghost use Rattle.ir_tree_laws.specs.trees.Meaning.{key_before_in, rises};
ghost use Rattle.ir_tree_laws.specs.trees.Tree.{head};
ghost use Rattle.ir_store_arena.specs.Slots.{has_key, has_slot as is_slot, with_change, NeedsNoSlot};
ghost use Rattle.ir_store_arena.specs.Shapes.{shape_of};
ghost use Rattle.ir_store_arena.specs.Contents.{contents_with, with_operand, no_entries, entries_with, entries_at, with_part, entries_kept};
ghost use Rattle.ir_store_arena.specs.Made.{short_contents, plain_contents, made_contents};

use crate::area::RegionData;
use crate::dictionary::Dictionary;
use arrayvec::ArrayVec;
use ir_tree_laws::trees::place::Part;
use ir_tree_laws::trees::tree::TreeOp;
use ir_tree_laws::trees::value::Value;
use ir_tree_laws::types::context::Context;
use ir_tree_laws::types::ids::{AttrId, NameId, TypeId};
use smallvec::SmallVec;
use std::alloc::{AllocError, Global};
use std::mem::replace;

/// The limit of operands, and of results, of an operation with short lists.
pub const FEW: usize = 2;

/// The data of an operation with two short lists, the common case: with the tag of the slab it takes one cache line.
#[derive(Drop)]
pub struct InlineData {
    pub operands: ArrayVec<Value, 2>,
    pub results: ArrayVec<TypeId, 2>,
}

/// The operands and the results of an operation. Short lists are inline.
#[derive(Drop)]
pub struct ListData {
    pub operands: SmallVec<Value, 2>,
    pub results: SmallVec<TypeId, 4>,
}

/// The two dictionaries of an operation.
#[derive(Drop)]
pub struct Entries {
    /// The properties, with the slots of removed ones.
    pub props: Dictionary,
    /// The discardable attributes, with the slots of removed ones.
    pub attrs: Dictionary,
}

/// An operation with dictionaries.
#[derive(Drop)]
pub struct WithEntries {
    pub simple: ListData,
    pub entries: Entries,
}

/// An operation with dictionaries and regions.
#[derive(Drop)]
pub struct FullData {
    pub simple: ListData,
    pub entries: Entries,
    pub areas: Vec<RegionData>,
}

/// The data of an operation before it is stored under a key, in the smallest kind that fits.
#[derive(Drop)]
pub enum OpData {
    Inline(InlineData),
    Lists(ListData),
    WithEntries(WithEntries),
    Full(FullData),
}

impl InlineData {
    /// Returns the operands and results of a header, or `None` if they aren't few.
    fn new(header: &TreeOp) -> Option<InlineData>
        ensures operands { IfSome result (λ p. p.operands.items ≡ (head header.now).operands) }
        ensures results { IfSome result (λ p. p.results.items ≡ (head header.now).results) }
    {
        let mut operands = ArrayVec::new();
        let mut results = ArrayVec::new();
        match operands.try_extend_from_slice(&header.operands) {
            Ok(()) => {}
            Err(_) => return None,
        }
        match results.try_extend_from_slice(&header.results) {
            Ok(()) => {}
            Err(_) => return None,
        }
        Some(InlineData { operands, results })
    }

    /// Returns the same operands and results in lists of any length.
    pub fn to_lists(&self, alloc: Global) -> Result<ListData, AllocError>
        ensures { IfOk result (λ p. plain_contents p ≡ short_contents self.now) }
    {
        Ok(ListData {
            operands: SmallVec::from_slice(alloc, self.operands.as_slice())?,
            results: SmallVec::from_slice(alloc, self.results.as_slice())?,
        })
    }

    /// Sets an operand to a value and returns the previous operand.
    pub fn put_operand(&mut self, place: usize, value: Value) -> Value
        requires { place < length self.old.operands.items }
        ensures put { self.new.operands.items ≡ slice_set self.old.operands.items place value }
        ensures rest { self.new.results ≡ self.old.results }
        ensures was { slice_get self.old.operands.items place ≡ Some result }
    {
        replace(&mut self.operands[place], value)
    }
}

impl ListData {
    /// Returns the operands and the results of a header.
    fn new(alloc: Global, header: &TreeOp) -> Result<ListData, AllocError>
        ensures operands { IfOk result (λ p. p.operands.items ≡ (head header.now).operands) }
        ensures results { IfOk result (λ p. p.results.items ≡ (head header.now).results) }
    {
        Ok(ListData {
            operands: SmallVec::from_slice(alloc, &header.operands)?,
            results: SmallVec::from_slice(alloc, &header.results)?,
        })
    }

    /// Sets an operand to a value and returns the previous operand.
    pub fn put_operand(&mut self, place: usize, value: Value) -> Value
        requires { place < length self.old.operands.items }
        ensures put { self.new.operands.items ≡ slice_set self.old.operands.items place value }
        ensures rest { self.new.results ≡ self.old.results }
        ensures was { slice_get self.old.operands.items place ≡ Some result }
    {
        replace(&mut self.operands[place], value)
    }
}

impl Entries {
    /// Returns two empty dictionaries.
    pub fn empty(alloc: Global) -> Entries
        ensures { result ≡ no_entries }
    {
        Entries {
            props: Dictionary::new(alloc),
            attrs: Dictionary::new(alloc),
        }
    }

    /// Returns the entries of a header.
    fn new(alloc: Global, header: &TreeOp) -> Result<Entries, AllocError>
        ensures { IfOk result (λ e. e ≡ entries_with (head header.now)) }
    {
        Ok(Entries {
            props: Dictionary::from_slice(alloc, &header.props)?,
            attrs: Dictionary::from_slice(alloc, &header.attrs)?,
        })
    }

    /// Returns one of the two dictionaries.
    pub fn part(&self, part: Part) -> &Dictionary
        ensures { result.now ≡ entries_at part self.now }
    {
        match part {
            Part::Props => &self.props,
            Part::Attrs => &self.attrs,
        }
    }

    /// Sets a key of one dictionary to an attribute, or removes the key.
    pub fn change(
        &mut self,
        ctx: &Context,
        part: Part,
        key: NameId,
        value: Option<AttrId>,
    ) -> Result<(), AllocError>
        requires { value ≡ None → is_some (entry_at (key_before_in ctx.now) key (entries_at part self.old).present) ≡ true }
        ensures ok { OnOk result (self.new ≡ with_part part (with_change (key_before_in ctx.now) key value (entries_at part self.old)) self.old) }
        ensures err { OnErr result (self.new ≡ self.old) }
        ensures slot { rises (key_before_in ctx.now) (entries_at part self.old).present ≡ true → NeedsNoSlot key value (entries_at part self.old) → IsOk result }
    {
        match part {
            Part::Props => change(ctx, &mut self.props, key, value),
            Part::Attrs => change(ctx, &mut self.attrs, key, value),
        }
    }

    /// Sets a key that has a slot in one dictionary, or removes the key. Needs no memory.
    pub fn revert(&mut self, ctx: &Context, part: Part, key: NameId, value: Option<AttrId>)
        requires sorted { rises (key_before_in ctx.now) (entries_at part self.old).present ≡ true }
        requires slot { is_slot key (entries_at part self.old) ≡ true }
        requires entry { value ≡ None → has_key key (entries_at part self.old).present ≡ true }
        ensures { self.new ≡ with_part part (with_change (key_before_in ctx.now) key value (entries_at part self.old)) self.old }
    {
        match part {
            Part::Props => self.props.revert(ctx, key, value),
            Part::Attrs => self.attrs.revert(ctx, key, value),
        }
    }

    /// Releases the slots of removed keys.
    pub fn drop_gone(&mut self)
        ensures { self.new ≡ entries_kept self.old }
    {
        self.props.drop_gone();
        self.attrs.drop_gone();
    }

    /// Returns whether a dictionary has the slot of a removed key.
    pub fn has_gone(&self) -> bool
        ensures { result ≡ (nat_lt 0 (length self.now.props.gone) || nat_lt 0 (length self.now.attrs.gone)) }
    {
        self.props.has_gone() || self.attrs.has_gone()
    }
}

impl OpData {
    /// Returns the data of an operation like `header`, with the regions `areas`.
    pub fn new(alloc: Global, header: &TreeOp, areas: Vec<RegionData>) -> Result<OpData, AllocError>
        ensures { IfOk result (λ m. made_contents m ≡ contents_with (head header.now) (map shape_of areas.items)) }
    {
        if !areas.is_empty() {
            made_whole(alloc, header, areas)
        } else if header.props.is_empty() && header.attrs.is_empty() {
            made_plain(alloc, header)
        } else {
            made_entered(alloc, header)
        }
    }
}

/// Returns the data of an operation without entries and regions.
fn made_plain(alloc: Global, header: &TreeOp) -> Result<OpData, AllocError>
    requires properties { (head header.now).properties ≡ [] }
    requires attributes { (head header.now).attributes ≡ [] }
    ensures { IfOk result (λ m. made_contents m ≡ contents_with (head header.now) []) }
{
    match InlineData::new(header) {
        Some(it) => Ok(OpData::Inline(it)),
        None => Ok(OpData::Lists(ListData::new(alloc, header)?)),
    }
}

/// Returns the data of an operation without regions.
fn made_entered(alloc: Global, header: &TreeOp) -> Result<OpData, AllocError>
    ensures { IfOk result (λ m. made_contents m ≡ contents_with (head header.now) []) }
{
    Ok(OpData::WithEntries(WithEntries {
        simple: ListData::new(alloc, header)?,
        entries: Entries::new(alloc, header)?,
    }))
}

/// Returns the data of any operation.
fn made_whole(alloc: Global, header: &TreeOp, areas: Vec<RegionData>) -> Result<OpData, AllocError>
    ensures { IfOk result (λ m. made_contents m ≡ contents_with (head header.now) (map shape_of areas.items)) }
{
    Ok(OpData::Full(FullData {
        simple: ListData::new(alloc, header)?,
        entries: Entries::new(alloc, header)?,
        areas,
    }))
}

/// Sets a key of a dictionary to an attribute, or removes the key.
fn change(
    ctx: &Context,
    entries: &mut Dictionary,
    key: NameId,
    value: Option<AttrId>,
) -> Result<(), AllocError>
    requires { value ≡ None → is_some (entry_at (key_before_in ctx.now) key entries.old.present) ≡ true }
    ensures ok { OnOk result (entries.new ≡ with_change (key_before_in ctx.now) key value entries.old) }
    ensures err { OnErr result (entries.new ≡ entries.old) }
    ensures slot { rises (key_before_in ctx.now) entries.old.present ≡ true → NeedsNoSlot key value entries.old → IsOk result }
{
    match value {
        None => {
            entries.remove(ctx, key);
            Ok(())
        }
        Some(attr) => entries.set(ctx, key, attr),
    }
}
