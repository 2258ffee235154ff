//! Interning by index.
ghost use Rattle.std.specs.Prelude.{◌≡◌, ◌≤◌, ◌⊎◌, [], ◌∷◌, ◌++◌, Bool, true, false, IfOk, OnOk, OnErr, IsErrOf, IsOk, IfSome, ◌↔◌};
ghost use Rattle.std.specs.List.{position_or_len, list_any};
ghost use Rattle.indexmap.specs.IndexMap.{keys, index_map_len};
ghost use Rattle.ir_types_interner.specs.Interned.{with_last};

use crate::keyed::Keyed;
use indexmap::IndexMap;
use std::alloc::AllocFailed;
use std::hash::Hash;
use thiserror::Error;

/// The reason that an item isn't interned.
#[derive(Clone, Copy, Debug, PartialEq, Eq, Error)]
pub enum InternFault {
    /// The map is full, and the item is new.
    #[error("the map is full")]
    TooMany,
    /// Memory was refused.
    #[error("memory was refused")]
    Memory,
}

impl<T: Drop> From<AllocFailed<T>> for InternFault {
    ghost use Rattle.std.specs.Prelude.{◌≡◌};
    ghost use Rattle.ir_types_interner.specs.declared.intern.InternFault.TheVariants.{Memory};

    ghost from_gives = { λ _ fault. fault ≡ Memory };

    fn from(_error: AllocFailed<T>) -> InternFault {
        InternFault::Memory
    }
}

/// The number of keys that are compared one by one.
const FIRST: usize = 4;

/// Returns the index of a key if it is one of the first keys of a map, and otherwise `None`.
fn among_first<K: Eq + Hash + Drop, V: Drop>(map: &IndexMap<K, V, Keyed>, key: &K) -> Option<u32>
    ensures { IfSome result (λ n. (list_any (K.eq key.now) (keys map.now) ≡ true) × (n ≡ position_or_len (K.eq key.now) (keys map.now))) }
{
    let mut place = 0u32;
    'places: while (place as usize) < FIRST {
        match map.get_index(place as usize) {
            Some((there, _)) => {
                if key == there {
                    return Some(place);
                }
            }
            None => return None,
        }
        place += 1;
    }
    None
}

/// Returns the index of a key, looked up by its hash, and appends the key if it is new.
fn intern_hashed<K: Eq + Hash + Drop, V: Drop>(
    map: &mut IndexMap<K, V, Keyed>,
    limit: u32,
    key: K,
    value: V,
) -> Result<u32, InternFault>
    requires { index_map_len map.old ≤ limit }
    ensures place { IfOk result (λ n. n ≡ position_or_len (K.eq key) (keys map.old)) }
    ensures keys { OnOk result (keys map.new ≡ with_last (K.eq key) key (keys map.old)) }
    ensures entries { OnOk result ((map.new.entries ≡ map.old.entries) ⊎ (map.new.entries ≡ map.old.entries ++ (key, value) ∷ [])) }
    ensures within { index_map_len map.new ≤ limit }
    ensures full { IsErrOf result InternFault.TooMany ↔ ((limit ≤ index_map_len map.old) × (list_any (K.eq key) (keys map.old) ≡ false)) }
    ensures known { list_any (K.eq key) (keys map.old) ≡ true → IsOk result }
    ensures err { OnErr result (map.new.entries ≡ map.old.entries) }
{
    if let Some(index) = map.get_index_of(&key) {
        return Ok(index as u32);
    }
    let count = map.len();
    if count >= limit as usize {
        return Err(InternFault::TooMany);
    }
    map.insert(key, value)?;
    Ok(count as u32)
}

/// Returns the index of a key in a map of at most `limit` keys. A new key is appended, with the value. A known key
/// needs no memory, and one of the first keys isn't hashed, since most texts use few types repeatedly.
pub fn intern<K: Eq + Hash + Drop, V: Drop>(
    map: &mut IndexMap<K, V, Keyed>,
    limit: u32,
    key: K,
    value: V,
) -> Result<u32, InternFault>
    requires { index_map_len map.old ≤ limit }
    ensures place { IfOk result (λ n. n ≡ position_or_len (K.eq key) (keys map.old)) }
    ensures keys { OnOk result (keys map.new ≡ with_last (K.eq key) key (keys map.old)) }
    ensures entries { OnOk result ((map.new.entries ≡ map.old.entries) ⊎ (map.new.entries ≡ map.old.entries ++ (key, value) ∷ [])) }
    ensures within { index_map_len map.new ≤ limit }
    ensures full { IsErrOf result InternFault.TooMany ↔ ((limit ≤ index_map_len map.old) × (list_any (K.eq key) (keys map.old) ≡ false)) }
    ensures known { list_any (K.eq key) (keys map.old) ≡ true → IsOk result }
    ensures err { OnErr result (map.new.entries ≡ map.old.entries) }
{
    if let Some(place) = among_first(map, &key) {
        return Ok(place);
    }
    intern_hashed(map, limit, key, value)
}
