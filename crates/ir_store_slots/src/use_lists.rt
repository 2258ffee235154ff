//! The use lists of values.
ghost use Rattle.std.specs.Prelude.{◌≡◌, ◌<◌, ℕ, List, map, length, slice_get, Some, option_and_then};
ghost use Rattle.ir_store_slots.specs.Rows.{row_at, shape_of};
ghost use Rattle.ir_store_slots.specs.Index.{AreHeads, ArgHeads, CanFree, HasHeads, all_idle, args_idle, row_idle, freed, result_head, argument_head, slot_head};
ghost use Rattle.std.specs.Prelude.{eqb};
ghost use Rattle.std.specs.FinMap as finmap;
ghost use Rattle.std.specs.Ordering.{nat_cmp};
ghost use Rattle.ir_store_lists.specs.Lists.{free, IsHead};
ghost use Rattle.ir_store_arena.specs.trees.Frames.{owner_of};
ghost use Rattle.ir_store_slots.specs.Rows.{live_slot};
ghost use Rattle.ir_store_slots.specs.Right.{Live};
ghost use Rattle.ir_store_slots.specs.Plans.{AllHeads, leaf_in, operand_in};
ghost use Rattle.ir_store_slots.specs.Reasoned.{idle_in, with_head};
ghost use Rattle.ir_store_slots.specs.Index.{shape_type, type_in};
ghost use Rattle.ir_store_slots.specs.Index.{CanLead, all_led, value_head, use_at};

use crate::find::{Keys, find, find_leaf, find_operand, slot};
use crate::row::RegionData;
use ir_store_arena::Slots;
use ir_store_arena::trees::value::Value;
use ir_store_arena::types::ids::{OpId, TypeId};
use ir_store_arena::types::refusal::Refusal;
use ir_store_lists::{LinkedLists, OrderedLists};

/// Returns whether the lists of some heads are empty.
fn all_idle(uses: &LinkedLists, base: usize, count: usize) -> bool
    requires { AreHeads base count uses.now.homes }
    ensures { result ≡ all_idle uses.now.lists base count }
{
    let mut at = base;
    let mut left = count;
    'heads: while left > 0 {
        if uses.first(at).is_some() {
            return false;
        }
        at += 1;
        left -= 1;
    }
    true
}

/// Returns the first head of the values of a slot.
#[inline(always)]
fn first_value(slots: &Slots, key: usize) -> usize
    ensures { result ≡ (row_at slots.now key).values }
{
    slots.values(key)
}

/// Returns whether the arguments of some blocks have no uses.
fn args_idle(uses: &LinkedLists, slots: &Slots, areas: &[RegionData]) -> bool
    requires { ArgHeads slots.now uses.now.homes (map shape_of areas.now) }
    ensures { result ≡ args_idle slots.now uses.now.lists (map shape_of areas.now) }
{
    let mut rest = areas;
    'areas: while let [area, tail @ ..] = rest {
        if let RegionData::Block { args, head } = area {
            if !all_idle(uses, first_value(slots, *head), args.len()) {
                return false;
            }
        }
        rest = tail;
    }
    true
}

/// Returns whether the values of the operation in a slot have no uses.
pub fn is_unused(uses: &LinkedLists, slots: &Slots, key: usize) -> bool
    requires { HasHeads slots.now uses.now.homes key }
    ensures { result ≡ row_idle slots.now uses.now.lists key }
{
    all_idle(uses, slots.values(key), slots.results(key).len())
        && args_idle(uses, slots, slots.areas(key))
}

/// Removes consecutive nodes from their lists.
pub fn free_uses(uses: &mut LinkedLists, base: usize, count: usize)
    requires { CanFree base count uses.old.homes }
    ensures { uses.new.homes ≡ freed base count uses.old.homes }
{
    let mut at = base;
    let mut left = count;
    'nodes: while left > 0 {
        uses.remove(at);
        at += 1;
        left -= 1;
    }
}

/// Returns the head of the use list of a result, or `None` if there is no such result.
#[inline(always)]
fn result_head(slots: &Slots, key: usize, place: usize) -> Option<usize>
    requires { (h : ℕ) → result_head place (row_at slots.now key) ≡ Some h → h < free }
    ensures { result ≡ result_head place (row_at slots.now key) }
{
    let count = slots.results(key).len();
    if place < count {
        Some(slots.values(key) + place)
    } else {
        None
    }
}

/// Returns the head of the use list of a block argument, or `None` if there is no such argument.
fn argument_head(slots: &Slots, area: &RegionData, place: usize) -> Option<usize>
    requires { (h : ℕ) → argument_head slots.now place (shape_of area.now) ≡ Some h → h < free }
    ensures { result ≡ argument_head slots.now place (shape_of area.now) }
{
    match area {
        RegionData::Empty => None,
        RegionData::Block { args, head } => {
            let base = first_value(slots, *head);
            if place < args.len() {
                Some(base + place)
            } else {
                None
            }
        }
    }
}

/// Returns the head of the use list of an argument of the block of a region of the operation in a slot.
#[inline(never)]
fn area_head(slots: &Slots, key: usize, region: usize, place: usize) -> Option<usize>
    requires { (h : ℕ) → option_and_then (argument_head slots.now place) (slice_get (row_at slots.now key).shapes region) ≡ Some h → h < free }
    ensures { result ≡ option_and_then (argument_head slots.now place) (slice_get (row_at slots.now key).shapes region) }
{
    argument_head(slots, slots.areas(key).get(region)?, place)
}

/// Returns the head of the use list of a value whose operation is in a slot. The common case, a result, is inlined into
/// the caller.
#[inline(always)]
pub fn slot_head(slots: &Slots, key: usize, value: &Value) -> Option<usize>
    requires { (h : ℕ) → slot_head slots.now value.now key ≡ Some h → h < free }
    ensures { result ≡ slot_head slots.now value.now key }
{
    match value {
        Value::Result(_, place) => result_head(slots, key, *place as usize),
        Value::Arg(_, region, place) => area_head(slots, key, *region as usize, *place as usize),
    }
}

/// Returns the head of the use list of a value, or `None` if the value's operation has no slot or no such value.
pub fn value_head(slots: &Slots, keys: &Keys, uses: &LinkedLists, value: &Value) -> Option<usize>
    requires head { (h : ℕ) → value_head slots.now (finmap.get keys.now) value.now ≡ Some h → IsHead uses.now.homes h }
    requires few { length uses.now.homes < free }
    ensures { result ≡ value_head slots.now (finmap.get keys.now) value.now }
{
    let key = slot(keys, owner(value))?;
    slot_head(slots, key, value)
}

/// Returns the operation that defines a value, or that has the block of the argument.
pub fn owner(value: &Value) -> OpId
    ensures { result ≡ (owner_of value.now).0 }
{
    match value {
        Value::Result(op, _) => *op,
        Value::Arg(op, _, _) => *op,
    }
}

/// Appends consecutive nodes to the use lists of `operands`.
pub fn link_uses(
    uses: &mut LinkedLists,
    slots: &Slots,
    keys: &Keys,
    base: usize,
    operands: &[Value],
)
    requires { CanLead (value_head slots.now (finmap.get keys.now)) base operands.now uses.old.homes }
    ensures { uses.new.homes ≡ all_led (value_head slots.now (finmap.get keys.now)) base operands.now uses.old.homes }
{
    let mut at = base;
    let mut rest = operands;
    'operands: while let [value, tail @ ..] = rest {
        if let Some(head) = value_head(slots, keys, uses, value) {
            uses.push_back(at, head);
        }
        at += 1;
        rest = tail;
    }
}

/// Returns the nodes of the operands of a slot: the first one, and their number.
pub fn use_run(slots: &Slots, key: usize) -> (usize, usize)
    ensures { result ≡ ((row_at slots.now key).uses, length (row_at slots.now key).head.operands) }
{
    (slots.uses(key), slots.operands(key).len())
}

/// Returns the slot of an operation that isn't the root, has no operations inside it, and has no uses; or the reason
/// that it isn't one.
pub fn find_idle(
    slots: &Slots,
    keys: &Keys,
    sibs: &OrderedLists,
    uses: &LinkedLists,
    root: usize,
    op: OpId,
) -> Result<usize, Refusal>
    requires blocks { (k : ℕ) → Live slots.now k → AllHeads sibs.now.homes (row_at slots.now k).shapes }
    requires values { (k : ℕ) → Live slots.now k → HasHeads slots.now uses.now.homes k }
    ensures { result ≡ idle_in slots.now uses.now.lists (leaf_in slots.now sibs.now.lists root (live_slot slots.now (finmap.get keys.now) op)) }
{
    let key = match find_leaf(slots, keys, sibs, root, op) {
        Ok(key) => key,
        Err(e) => return Err(e),
    };
    if is_unused(uses, slots, key) {
        Ok(key)
    } else {
        Err(Refusal::HasUses)
    }
}

/// Returns the head of the use list of a value of the module, or `None` if the module has no such value.
fn live_head(slots: &Slots, keys: &Keys, uses: &LinkedLists, value: &Value) -> Option<usize>
    requires head { (h : ℕ) → value_head slots.now (finmap.get keys.now) value.now ≡ Some h → IsHead uses.now.homes h }
    requires few { length uses.now.homes < free }
    ensures { result ≡ value_head slots.now (live_slot slots.now (finmap.get keys.now)) value.now }
{
    let key = find(slots, keys, owner(value))?;
    slot_head(slots, key, value)
}

/// Returns the slot of an operation of the module that has this operand, and the head of the use list of `value`, a
/// value of the module. The head is looked up first. Values are mostly in the cache, so the row of the operation is
/// then read together with the reads of the caller that unlinks the operand.
pub fn find_rewire(
    slots: &Slots,
    keys: &Keys,
    uses: &LinkedLists,
    op: OpId,
    place: usize,
    value: &Value,
) -> Result<(usize, usize), Refusal>
    requires head { (h : ℕ) → value_head slots.now (finmap.get keys.now) value.now ≡ Some h → IsHead uses.now.homes h }
    requires few { length uses.now.homes < free }
    ensures { result ≡ with_head (operand_in slots.now place (live_slot slots.now (finmap.get keys.now) op)) (value_head slots.now (live_slot slots.now (finmap.get keys.now)) value.now) }
{
    let head = live_head(slots, keys, uses, value);
    let key = match find_operand(slots, keys, op, place) {
        Ok(key) => key,
        Err(e) => return Err(e),
    };
    match head {
        None => Err(Refusal::NoSuchValue),
        Some(head) => Ok((key, head)),
    }
}

/// Returns the node of an operand.
pub fn use_node(slots: &Slots, key: usize, place: usize) -> usize
    requires { use_at slots.now key place < free }
    ensures { result ≡ use_at slots.now key place }
{
    let base = use_run(slots, key).0;
    base + place
}

/// Appends the nodes of a slot's operands to the use lists of the operands.
pub fn link_operands(uses: &mut LinkedLists, slots: &Slots, keys: &Keys, key: usize)
    requires { CanLead (value_head slots.now (finmap.get keys.now)) (row_at slots.now key).uses (row_at slots.now key).head.operands uses.old.homes }
    ensures { uses.new.homes ≡ all_led (value_head slots.now (finmap.get keys.now)) (row_at slots.now key).uses (row_at slots.now key).head.operands uses.old.homes }
{
    link_uses(uses, slots, keys, slots.uses(key), slots.operands(key));
}

/// Returns the id of the operation in a slot.
pub fn id_at(slots: &Slots, key: usize) -> OpId
    ensures { result ≡ (row_at slots.now key).head.id }
{
    slots.id(key)
}

/// Returns the type of a value of the module, or `None` if the module has no such value.
pub fn live_type(slots: &Slots, keys: &Keys, value: &Value) -> Option<TypeId>
    ensures { result ≡ type_in slots.now (live_slot slots.now (finmap.get keys.now)) value.now }
{
    let key = find(slots, keys, owner(value))?;
    match value {
        Value::Result(_, place) => slots.results(key).get(*place as usize).copied(),
        Value::Arg(_, region, place) => arg_type(
            slots.areas(key).get(*region as usize)?,
            *place as usize,
        ),
    }
}

/// Returns the type of a block argument, or `None` if there is no such argument.
fn arg_type(area: &RegionData, place: usize) -> Option<TypeId>
    ensures { result ≡ shape_type place (shape_of area.now) }
{
    match area {
        RegionData::Empty => None,
        RegionData::Block { args, .. } => args.get(place).copied(),
    }
}
