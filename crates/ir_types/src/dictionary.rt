//! Sorts dictionaries by the bytes of their keys.
ghost use Rattle.std.specs.Prelude.{◌≡◌, ◌<◌, ℕ, true, false, map, length, slice_index_or, IsPermutation, []};
ghost use Rattle.std.specs.List.{All};
ghost use Rattle.std.specs.List.Sorted.{IsSortedBy};
ghost use Rattle.ir_types.specs.Dictionaries.{comes_before, has_adjacent_duplicate, has_duplicate, sorted, duplicate_after};
ghost use Rattle.ir_types.specs.Sound.{IsRising};

use crate::ids::{AttrId, NameId};
use crate::places::names_apart;
use indexmap::IndexSet;
use ir_types_interner::keyed::Keyed;

/// Returns the bytes of a name, or no bytes if the id isn't a name's.
pub fn bytes_or_none(names: &IndexSet<Vec<u8>, Keyed>, name: NameId) -> &[u8]
    ensures { result.now ≡ slice_index_or (map (λ v. v.items) names.now.keys) name [] }
{
    match names.get_index(name.number() as usize) {
        Some(bytes) => bytes.as_slice(),
        None => &[],
    }
}

/// Sorts entries by the bytes of their keys, and returns whether a key occurs twice. Needs no memory.
pub fn sort_entries(names: &IndexSet<Vec<u8>, Keyed>, entries: &mut Vec<(NameId, AttrId)>) -> bool
    requires { All (λ (e : ℕ × ℕ). e.0 < length names.now.keys) entries.old.items }
    ensures duplicate { result ≡ has_duplicate (map (λ (e : ℕ × ℕ). e.0) entries.old.items) }
    ensures moved { IsPermutation entries.old.items entries.new.items }
    ensures sorted { result ≡ false → entries.new.items ≡ sorted (map (λ v. v.items) names.now.keys) entries.old.items }
    ensures rising { result ≡ false → IsRising (map (λ v. v.items) names.now.keys) entries.new.items }
{
    names_apart(names);
    order_entries(names, entries);
    has_duplicate_next_door(entries.as_slice())
}

/// Sorts entries by the bytes of their keys.
fn order_entries(names: &IndexSet<Vec<u8>, Keyed>, entries: &mut Vec<(NameId, AttrId)>)
    ensures moved { IsPermutation entries.old.items entries.new.items }
    ensures sorted { IsSortedBy (comes_before (map (λ v. v.items) names.now.keys)) entries.new.items }
{
    entries.sort_unstable_by(|a, b| bytes_or_none(names, a.0).cmp(bytes_or_none(names, b.0)));
}

/// Returns whether two adjacent entries have the same key.
fn has_duplicate_next_door(entries: &[(NameId, AttrId)]) -> bool
    ensures { result ≡ has_adjacent_duplicate entries.now }
{
    let Some((first, rest)) = entries.split_first() else {
        return false;
    };
    let mut last = first.0;
    for entry in rest {
        if entry.0 == last {
            return true;
        }
        last = entry.0;
    }
    false
}
