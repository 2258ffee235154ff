//! The names that a text has bound, by scope.
ghost use Rattle.std.specs.Prelude.{◌≡◌, [], ◌∷◌, ◌++◌, OnOk, OnErr, IfOk, IsTrue, true, false, not, is_some, option_map, take};
ghost use Rattle.std.specs.Str.{bytes_eq};
ghost use Rattle.std.specs.HashMap.{get};
ghost use Rattle.ir_text_tokens.specs.Scopes.{Scopes, bound, entered, find, left};
ghost use Rattle.ir_text_tokens.specs.Places.{Agrees, is_from, joined, key_eq, pick, top, views};

use ir_types_interner::keyed::Keyed;
use std::alloc::{AllocError, Global};
use std::collections::HashMap;
use std::marker::Model;

/// The number of names for which a cleared list and map keep their capacity.
const KEPT: usize = 2_048;

/// A name, its value, and the index of the entry of the same name that it shadows.
#[derive(Drop)]
pub(crate) struct Entry<'a, T> {
    pub name: &'a [u8],
    pub value: T,
    pub hidden: Option<usize>,
}

/// The number of entries at the start of a region, and the index of the first entry that was visible there.
#[derive(Clone, Copy)]
pub(crate) struct ScopeStart {
    pub count: usize,
    pub first: usize,
}

/// The names that are bound, and which of them are visible. MLIR Language Reference, "Regions".
#[derive(Drop)]
pub struct ScopedNames<'a, T> {
    latest: HashMap<&'a [u8], Option<usize>, Keyed>,
    entries: Vec<Entry<'a, T>>,
    floors: Vec<ScopeStart>,
    first: usize,
}

impl<'a, T> Model for ScopedNames<'a, T> {
    ghost use Rattle.ir_text_tokens.specs.Scopes.{Scopes, scopes_code};

    ghost Value = { Scopes T };

    ghost coded = { scopes_code T.code };

    ghost use Rattle.ir_text_tokens.specs.Inside.{scopes_of, Holds};

    ghost view = { scopes_of };

    ghost invariant = { Holds };
}

/// Returns the index that the map has for a name.
fn place_of<'a>(latest: &HashMap<&'a [u8], Option<usize>, Keyed>, name: &'a [u8]) -> Option<usize>
    ensures { result ≡ joined (get key_eq latest.now name.entry) }
{
    match latest.get(&name) {
        Some(place) => *place,
        None => None,
    }
}

/// Returns whether two names are equal. The last bytes are compared first, since most names differ there.
#[inline(always)]
fn is_same(one: &[u8], other: &[u8]) -> bool
    ensures { IsTrue result → bytes_eq one.now other.now ≡ true }
{
    let [.., last] = one else {
        return false;
    };
    let [.., end] = other else {
        return false;
    };
    *last == *end && one == other
}

/// Returns the index of the last entry of a name. The last of all entries is compared first, since most values are
/// used by the next operation.
#[inline(always)]
#[tactic(auto, using(crate::proofs::Kept::top_at_end))]
fn latest_place<'a, T>(
    latest: &HashMap<&'a [u8], Option<usize>, Keyed>,
    entries: &[Entry<'a, T>],
    name: &'a [u8],
) -> Option<usize>
    requires { Agrees latest.now entries.now }
    ensures { result ≡ top name.now (views entries.now) }
{
    if let [.., last] = entries {
        if is_same(last.name, name) {
            return Some(entries.len() - 1);
        }
    }
    place_of(latest, name)
}

/// Returns the value bound at an index, if it is visible.
fn pick<'s, 'a, T>(entries: &'s [Entry<'a, T>], first: usize, place: Option<usize>) -> Option<&'s T>
    ensures { option_map (λ value. value.now) result ≡ pick (views entries.now) first place }
{
    let place = place?;
    if place < first {
        return None;
    }
    let entry = entries.get(place)?;
    Some(&entry.value)
}

/// Returns the index that a map had for a name, or `None` if the map had none.
fn joined(place: Option<Option<usize>>) -> Option<usize>
    ensures { result ≡ joined place }
{
    match place {
        Some(place) => place,
        None => None,
    }
}

/// Returns whether a name with this last entry is visible.
fn is_visible(place: Option<usize>, first: usize) -> bool
    ensures { result ≡ is_from first place }
{
    match place {
        Some(place) => place >= first,
        None => false,
    }
}

/// Appends an entry for a name, and returns the index of the entry that it shadows. The name is looked up once.
fn push_entry<'a, T: Drop>(
    latest: &mut HashMap<&'a [u8], Option<usize>, Keyed>,
    entries: &mut Vec<Entry<'a, T>>,
    name: &'a [u8],
    value: T,
) -> Result<Option<usize>, AllocError>
    requires { Agrees latest.old entries.old.items }
    ensures agrees { Agrees latest.new entries.new.items }
    ensures shadowed { IfOk result (λ place. place ≡ top name.now (views entries.old.items)) }
    ensures ok { OnOk result (views entries.new.items ≡ views entries.old.items ++ (record { name = name.now; value = value }) ∷ []) }
    ensures err { OnErr result (entries.new.items ≡ entries.old.items) }
{
    match entries.reserve(1) {
        Ok(()) => {}
        Err(_) => return Err(AllocError),
    }
    let place = entries.len();
    match latest.insert(name, Some(place)) {
        Ok(old) => {
            let hidden = joined(old);
            entries.push_reserved(Entry {
                name,
                value,
                hidden,
            });
            Ok(hidden)
        }
        Err(_) => Err(AllocError),
    }
}

/// Removes all entries. The list and the map keep capacity for `KEPT` names. A large block is shrunk before it is freed:
/// otherwise the C library keeps later blocks of up to its size in one heap, in which lists that grow leave holes.
fn clear<'a, T: Drop>(
    latest: &mut HashMap<&'a [u8], Option<usize>, Keyed>,
    entries: &mut Vec<Entry<'a, T>>,
)
    ensures agrees { Agrees latest.new entries.new.items }
    ensures cleared { entries.new.items ≡ [] }
{
    latest.clear();
    latest.shrink_to(KEPT);
    entries.clear();
    entries.shrink_to(KEPT);
}

/// Removes entries from the end until `count` are left. If `count` is 0 and at least a quarter of the map's capacity
/// is used, the map is cleared without looking up any name.
fn cut<'a, T: Drop>(
    latest: &mut HashMap<&'a [u8], Option<usize>, Keyed>,
    entries: &mut Vec<Entry<'a, T>>,
    count: usize,
)
    requires { Agrees latest.old entries.old.items }
    ensures agrees { Agrees latest.new entries.new.items }
    ensures cut { entries.new.items ≡ take count entries.old.items }
{
    if count == 0 && entries.len() >= latest.capacity() / 4 {
        clear(latest, entries);
        return;
    }
    'entries: while entries.len() > count {
        if let Some(entry) = entries.pop() {
            if let Some(slot) = latest.get_mut(&entry.name) {
                *slot = entry.hidden;
            }
        }
    }
}

impl<'a, T: Drop> ScopedNames<'a, T> {
    /// Returns an empty set of names whose hash key is `keyed`.
    pub fn new(alloc: Global, keyed: Keyed) -> ScopedNames<'a, T>
        ensures { result ≡ record { here = []; outer = [] } }
    {
        ScopedNames {
            latest: HashMap::with_hasher(alloc, keyed),
            entries: Vec::new(alloc),
            floors: Vec::new(alloc),
            first: 0,
        }
    }

    /// Returns the value of a visible name, or `None`. A name that isn't the last is looked up by hash.
    pub fn find(&self, name: &'a [u8]) -> Option<&T>
        ensures { option_map (λ value. value.now) result ≡ find name.now self.now.here }
    {
        let place = latest_place(&self.latest, &self.entries, name);
        pick(&self.entries, self.first, place)
    }

    /// Binds a name. The binding shadows an earlier one of the same name.
    pub fn bind(&mut self, name: &'a [u8], value: T) -> Result<(), AllocError>
        ensures ok { OnOk result (self.new ≡ bound name.now value self.old) }
        ensures err { OnErr result (self.new ≡ self.old) }
    {
        push_entry(&mut self.latest, &mut self.entries, name, value)?;
        Ok(())
    }

    /// Binds a name if it isn't visible, and returns whether it bound the name. The name is looked up once.
    pub fn bind_new(&mut self, name: &'a [u8], value: T) -> Result<bool, AllocError>
        ensures visible { IfOk result (λ is_new. is_new ≡ not (is_some (find name.now self.old.here))) }
        ensures bound { IfOk result (λ is_new. is_new ≡ true → self.new ≡ bound name.now value self.old) }
        ensures same { IfOk result (λ is_new. is_new ≡ false → self.new ≡ self.old) }
        ensures err { OnErr result (self.new ≡ self.old) }
    {
        let count = self.entries.len();
        let shadowed = push_entry(&mut self.latest, &mut self.entries, name, value)?;
        if is_visible(shadowed, self.first) {
            cut(&mut self.latest, &mut self.entries, count);
            return Ok(false);
        }
        Ok(true)
    }

    /// Enters a region. In the region of an isolated operation no outer name is visible.
    pub fn enter(&mut self, isolated: bool) -> Result<(), AllocError>
        ensures ok { OnOk result (self.new ≡ entered isolated self.old) }
        ensures err { OnErr result (self.new ≡ self.old) }
    {
        let count = self.entries.len();
        self.floors.push(ScopeStart {
            count,
            first: self.first,
        })?;
        if isolated {
            self.first = count;
        }
        Ok(())
    }

    /// Leaves a region. Exactly the names that were visible at its start are visible again.
    pub fn leave(&mut self)
        ensures { self.new ≡ left self.old }
    {
        if let Some(floor) = self.floors.pop() {
            cut(&mut self.latest, &mut self.entries, floor.count);
            self.first = floor.first;
        }
    }
}
