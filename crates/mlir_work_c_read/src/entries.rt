//! Reads of the properties and the discardable attributes of operations.
ghost use Rattle.std.specs.Prelude.{◌≡◌, slice_get};
ghost use Rattle.mlir_work_c_read.specs.Entries.{at_key, attribute_at, attribute_by_key, property_at, property_by_key};
ghost use Rattle.mlir_work_c_read.specs.Operations.{tree_in};

use ir_event::types::ids::{AttrId, NameId, OpId};
use ir_event::world::World;

/// Returns the property of an operation at an index, in the order of the keys, or `None` if there is none.
pub fn property_at(world: &World, op: OpId, index: usize) -> Option<(NameId, AttrId)>
    ensures { result ≡ property_at op index (tree_in world.now) }
{
    let Some(node) = world.shown(op) else {
        return None;
    };
    entry_at(node.properties(), index)
}

/// Returns the discardable attribute of an operation at an index, in the order of the keys, or `None` if there is none.
pub fn attribute_at(world: &World, op: OpId, index: usize) -> Option<(NameId, AttrId)>
    ensures { result ≡ attribute_at op index (tree_in world.now) }
{
    let Some(node) = world.shown(op) else {
        return None;
    };
    entry_at(node.attributes(), index)
}

/// Returns the number of the property of an operation at a key, or `None` if there is none. Takes time proportional to the
/// properties.
pub fn property_by_key(world: &World, op: OpId, key: NameId) -> Option<u32>
    ensures { result ≡ property_by_key op key (tree_in world.now) }
{
    let Some(node) = world.shown(op) else {
        return None;
    };
    find_key(node.properties(), key)
}

/// Returns the number of the discardable attribute of an operation at a key, or `None` if there is none. Takes time proportional to
/// the attributes.
pub fn attribute_by_key(world: &World, op: OpId, key: NameId) -> Option<u32>
    ensures { result ≡ attribute_by_key op key (tree_in world.now) }
{
    let Some(node) = world.shown(op) else {
        return None;
    };
    find_key(node.attributes(), key)
}

/// Returns the entry at an index, or `None` if there is none.
fn entry_at(entries: &[(NameId, AttrId)], index: usize) -> Option<(NameId, AttrId)>
    ensures { result ≡ slice_get entries.now index }
{
    match entries.get(index) {
        Some(entry) => Some(*entry),
        None => None,
    }
}

/// Returns the number of the attribute at a key, or `None` if there is none.
fn find_key(entries: &[(NameId, AttrId)], key: NameId) -> Option<u32>
    ensures { result ≡ at_key key entries.now }
{
    let mut rest = entries;
    'entries: while let [(name, attr), tail @ ..] = rest {
        if name.number() == key.number() {
            return Some(attr.number());
        }
        rest = tail;
    }
    None
}
