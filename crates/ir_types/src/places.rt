//! Interning in ordered sets: a known item is found, and a new one is appended.
ghost use Rattle.std.specs.Prelude.{◌≡◌, ◌≤◌, ◌⊎◌, [], ◌∷◌, ◌++◌, true, IfOk, IsOk, OnOk, OnErr, map, length};
ghost use Rattle.std.specs.List.{list_any, position_or_len};
ghost use Rattle.std.specs.Map.{keys_of};
ghost use Rattle.std.specs.Str.{bytes_eq};
ghost use Rattle.ir_types_interner.specs.Interned.{AreApart, with_last};
ghost use Rattle.ir_types.specs.Limits.{most_things};
ghost use Rattle.ir_types.specs.Same.{same_type, same_attr};
ghost use Rattle.ir_types.specs.Reasons.{IsRefusedFor, full_reason};

use crate::limits::MOST_THINGS;
use crate::node::{AttrNode, TypeNode};
use crate::refusal::Refusal;
use indexmap::{IndexMap, IndexSet};
use ir_types_interner::intern::intern;
use ir_types_interner::keyed::Keyed;
use std::alloc::Global;

/// Returns the index of a name, and adds the name if it is new. A known name needs no memory.
pub fn intern_name(
    names: &mut IndexSet<Vec<u8>, Keyed>,
    alloc: Global,
    bytes: &[u8],
) -> Result<u32, Refusal>
    requires { length names.old.keys ≤ most_things }
    ensures place { IfOk result (λ n. n ≡ position_or_len (bytes_eq bytes.now) (map (λ v. v.items) names.old.keys)) }
    ensures names { OnOk result (map (λ v. v.items) names.new.keys ≡ with_last (bytes_eq bytes.now) bytes.now (map (λ v. v.items) names.old.keys)) }
    ensures within { length names.new.keys ≤ most_things }
    ensures refused { IsRefusedFor (full_reason (bytes_eq bytes.now) (map (λ v. v.items) names.old.keys)) result }
    ensures known { list_any (bytes_eq bytes.now) (map (λ v. v.items) names.old.keys) ≡ true → IsOk result }
    ensures err { OnErr result (names.new.keys ≡ names.old.keys) }
{
    if let Some(place) = names.get_index_of(bytes) {
        return Ok(place as u32);
    }
    let place = names.len();
    if place >= MOST_THINGS as usize {
        return Err(Refusal::TooMany);
    }
    names.insert(Vec::from_slice(alloc, bytes)?)?;
    Ok(place as u32)
}

/// Returns the index of a type, and adds the type with its depth if it is new.
pub fn intern_type(
    types: &mut IndexMap<TypeNode, u32, Keyed>,
    node: TypeNode,
    depth: u32,
) -> Result<u32, Refusal>
    requires { length types.old.entries ≤ most_things }
    ensures place { IfOk result (λ n. n ≡ position_or_len (same_type node) (keys_of types.old.entries)) }
    ensures types { OnOk result (keys_of types.new.entries ≡ with_last (same_type node) node (keys_of types.old.entries)) }
    ensures entries { OnOk result ((types.new.entries ≡ types.old.entries) ⊎ (types.new.entries ≡ types.old.entries ++ (node, depth) ∷ [])) }
    ensures within { length types.new.entries ≤ most_things }
    ensures refused { IsRefusedFor (full_reason (same_type node) (keys_of types.old.entries)) result }
    ensures known { list_any (same_type node) (keys_of types.old.entries) ≡ true → IsOk result }
    ensures err { OnErr result (types.new.entries ≡ types.old.entries) }
{
    match intern(types, MOST_THINGS, node, depth) {
        Ok(place) => Ok(place),
        Err(fault) => Err(Refusal::from(fault)),
    }
}

/// Returns the index of an attribute, and adds the attribute with its depth if it is new.
pub fn intern_attr(
    attrs: &mut IndexMap<AttrNode, u32, Keyed>,
    node: AttrNode,
    depth: u32,
) -> Result<u32, Refusal>
    requires { length attrs.old.entries ≤ most_things }
    ensures place { IfOk result (λ n. n ≡ position_or_len (same_attr node) (keys_of attrs.old.entries)) }
    ensures attrs { OnOk result (keys_of attrs.new.entries ≡ with_last (same_attr node) node (keys_of attrs.old.entries)) }
    ensures entries { OnOk result ((attrs.new.entries ≡ attrs.old.entries) ⊎ (attrs.new.entries ≡ attrs.old.entries ++ (node, depth) ∷ [])) }
    ensures within { length attrs.new.entries ≤ most_things }
    ensures refused { IsRefusedFor (full_reason (same_attr node) (keys_of attrs.old.entries)) result }
    ensures known { list_any (same_attr node) (keys_of attrs.old.entries) ≡ true → IsOk result }
    ensures err { OnErr result (attrs.new.entries ≡ attrs.old.entries) }
{
    match intern(attrs, MOST_THINGS, node, depth) {
        Ok(place) => Ok(place),
        Err(fault) => Err(Refusal::from(fault)),
    }
}

/// Lemma: all names are distinct.
pub fn names_apart(names: &IndexSet<Vec<u8>, Keyed>)
    ensures { AreApart (map (λ v. v.items) names.now.keys) }
{
    let _count = names.len();
}

/// Lemma: all types are distinct.
pub fn types_apart(types: &IndexMap<TypeNode, u32, Keyed>)
    ensures { AreApart (keys_of types.now.entries) }
{
    let _count = types.len();
}

/// Lemma: all attributes are distinct.
pub fn attrs_apart(attrs: &IndexMap<AttrNode, u32, Keyed>)
    ensures { AreApart (keys_of attrs.now.entries) }
{
    let _count = attrs.len();
}
