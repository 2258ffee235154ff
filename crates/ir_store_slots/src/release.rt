//! Releases held operations.
ghost use Rattle.std.specs.Prelude.{◌≡◌, ◌<◌, true, length, if◌then◌else◌, ◌-◌};
ghost use Rattle.std.specs.FinMap as finmap;
ghost use Rattle.ir_store_lists.specs.Lists.{free, has, list_at, without};
ghost use Rattle.ir_store_slots.specs.Releases.{is_given, given_up, forgetting, IsKeyed, GivenUp, Forgets, Released, ReleasesId, ReleasesSlot};
ghost use Rattle.ir_store_slots.specs.Marks.{Marked};
ghost use Rattle.ir_store_slots.specs.Rows.{row_at};

use crate::find::Keys;
use ir_store_arena::Slots;
use ir_store_lists::LinkedLists;

/// Frees a slot if it holds an operation to be released, and returns whether it does. The slot is added to the free
/// list, and the id loses its slot.
fn release_slot(slots: &mut Slots, keys: &mut Keys, spare: &mut u32, key: usize, from: u32) -> bool
    requires inside { key < length slots.old }
    requires small { key < free }
    ensures slot { ReleasesSlot from key slots.old slots.new keys.old keys.new }
    ensures given { result ≡ is_given from (row_at slots.old key) }
{
    if !is_given(slots, key, from) {
        return false;
    }
    let op = slots.id(key);
    slots.free(key, *spare);
    *spare = key as u32;
    keys.remove(op.number());
    true
}

/// Returns whether a slot holds an operation to be released.
fn is_given(slots: &Slots, key: usize, from: u32) -> bool
    ensures { result ≡ is_given from (row_at slots.now key) }
{
    slots.is_used(key) && !slots.is_live(key) && slots.id(key).number() >= from
}

/// Frees the slot of a node in the list of held operations, if its operation is to be released.
fn release_node(
    slots: &mut Slots,
    keys: &mut Keys,
    marks: &mut LinkedLists,
    spare: &mut u32,
    node: usize,
    from: u32,
)
    requires there { has node (list_at marks.old.lists 0) ≡ true }
    requires marked { Marked slots.old marks.old.homes }
    ensures slot { ReleasesSlot from (node - 2) slots.old slots.new keys.old keys.new }
    ensures list { list_at marks.new.lists 0 ≡ (if is_given from (row_at slots.old (node - 2)) then without node (list_at marks.old.lists 0) else list_at marks.old.lists 0) }
    ensures marked { Marked slots.new marks.new.homes }
{
    marks.laws();
    if release_slot(slots, keys, spare, node - 2, from) {
        marks.remove(node);
    }
}

/// Frees the slot of an id, if it has one and its operation is to be released.
fn release_id(
    slots: &mut Slots,
    keys: &mut Keys,
    marks: &mut LinkedLists,
    spare: &mut u32,
    id: u32,
    from: u32,
)
    requires marked { Marked slots.old marks.old.homes }
    ensures slot { ReleasesId from (finmap.get keys.old id) slots.old slots.new keys.old keys.new }
    ensures marked { Marked slots.new marks.new.homes }
{
    let Some(key) = keys.get(id) else { return };
    if !is_given(slots, key, from) {
        return;
    }
    marks.laws();
    release_node(slots, keys, marks, spare, key + 2, from);
}

/// Releases the held operations with ids from `from` on, by descending id.
fn release_ids(
    slots: &mut Slots,
    keys: &mut Keys,
    marks: &mut LinkedLists,
    spare: &mut u32,
    from: u32,
)
    requires keyed { IsKeyed slots.old (finmap.get keys.old) }
    requires marked { Marked slots.old marks.old.homes }
    ensures given { GivenUp from slots.old slots.new (finmap.get keys.old) (finmap.get keys.new) }
    ensures marked { Marked slots.new marks.new.homes }
{
    let mut end = keys.end();
    'ids: while end > from as usize {
        end -= 1;
        release_id(slots, keys, marks, spare, end as u32, from);
    }
}

/// Releases the held operations with ids from `from` on, by a walk through the list of held operations.
fn release_held(
    slots: &mut Slots,
    keys: &mut Keys,
    marks: &mut LinkedLists,
    spare: &mut u32,
    from: u32,
)
    requires keyed { IsKeyed slots.old (finmap.get keys.old) }
    requires marked { Marked slots.old marks.old.homes }
    ensures given { GivenUp from slots.old slots.new (finmap.get keys.old) (finmap.get keys.new) }
    ensures marked { Marked slots.new marks.new.homes }
{
    marks.laws();
    let mut at = marks.first(0);
    'held: while let Some(node) = at {
        marks.laws();
        at = marks.next(node);
        release_node(slots, keys, marks, spare, node, from);
    }
}

/// Releases the held operations with ids from `from` on. If there are at most as many such ids as slots, it goes by id,
/// so the cost is the number of these ids, whatever else is held.
fn release_from(
    slots: &mut Slots,
    keys: &mut Keys,
    marks: &mut LinkedLists,
    spare: &mut u32,
    from: u32,
)
    requires keyed { IsKeyed slots.old (finmap.get keys.old) }
    requires marked { Marked slots.old marks.old.homes }
    ensures given { GivenUp from slots.old slots.new (finmap.get keys.old) (finmap.get keys.new) }
    ensures marked { Marked slots.new marks.new.homes }
{
    if from > 0 && keys.end().saturating_sub(from as usize) <= slots.len() {
        release_ids(slots, keys, marks, spare, from);
    } else {
        release_held(slots, keys, marks, spare, from);
    }
}

/// Releases the slots of removed keys of each operation of the module.
fn forget_keys(slots: &mut Slots, marks: &mut LinkedLists)
    requires { Marked slots.old marks.old.homes }
    ensures forgets { Forgets slots.old slots.new }
    ensures marked { Marked slots.new marks.new.homes }
{
    let mut at = marks.first(1);
    'lacking: while let Some(node) = at {
        marks.laws();
        slots.drop_gone(node - 2);
        marks.remove(node);
        at = marks.first(1);
    }
    marks.laws();
}

/// Releases the held operations with ids from `from` on, and for 0 also the slots of removed keys. Returns the head of
/// the free list.
pub fn release_slots(
    slots: &mut Slots,
    keys: &mut Keys,
    marks: &mut LinkedLists,
    spare: &mut u32,
    from: u32,
)
    requires keyed { IsKeyed slots.old (finmap.get keys.old) }
    requires marked { Marked slots.old marks.old.homes }
    ensures released { Released from slots.old slots.new (finmap.get keys.old) (finmap.get keys.new) }
    ensures marked { Marked slots.new marks.new.homes }
{
    release_from(slots, keys, marks, spare, from);
    if from == 0 {
        forget_keys(slots, marks);
    }
}
