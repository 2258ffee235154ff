//! Maps from ids.
ghost use Rattle.std.specs.Prelude.{◌≡◌, ◌≤◌, ◌+◌, ◌++◌, ◌∷◌, ℕ, [], length, Some, None, OnOk, OnErr, IfOk};
ghost use Rattle.std.specs.Prelude.{MatchResult, false, is_some};
ghost use Rattle.std.specs.Option.{option_copied};
ghost use Rattle.std.specs.Bool.{OnTrue};
ghost use Rattle.std.specs.Ordering.{nat_cmp};
ghost use Rattle.std.specs.BTreeMap as tree;
ghost use Rattle.std.specs.BTreeMap.{is_at, insert_entry};
ghost use Rattle.std.specs.Map.{set_value};
ghost use Rattle.listeners_support.specs.Map.{get, entries_from, IsEmpty, IsOrdered, IsUnchanged, Updates};

use std::alloc::{AllocError, Global};
use std::collections::BTreeMap;
use std::marker::Model;

/// The greatest number of unused ids that are skipped so that the next id is found in one step.
const PASSED: usize = 64;

/// A map from ids to values.
#[derive(Drop)]
pub struct IdMap<V> {
    /// The values of the ids below its length.
    near: Vec<Option<V>>,
    /// The values of the other ids.
    far: BTreeMap<u32, V>,
}

impl<V> Model for IdMap<V> {
    ghost use Rattle.std.specs.Prelude.{◌++◌, length};
    ghost use Rattle.listeners_support.specs.Map.{IdMap as VisibleValues, entries_from, AreAfter};

    ghost Value = { VisibleValues V };

    ghost view = { λ m. record { entries = entries_from 0 m.near.items ++ m.far.entries } };

    ghost invariant = { λ m. AreAfter (length m.near.items) m.far };
}

impl<V> IdMap<V> {
    /// Returns an empty map.
    pub fn new(alloc: Global) -> IdMap<V>
        ensures { IsEmpty result }
    {
        IdMap {
            near: Vec::new(alloc),
            far: BTreeMap::new(alloc),
        }
    }

    /// Returns the value of an id, if it has one.
    pub fn get(&self, id: u32) -> Option<&V>
        ensures { option_copied result ≡ get self.now id }
    {
        let place = id as usize;
        if place < self.near.len() {
            self.near[place].as_ref()
        } else {
            self.far.get(&id)
        }
    }

    /// Returns whether an id has a value.
    pub fn contains_key(&self, id: u32) -> bool
        ensures { result ≡ is_some (get self.now id) }
    {
        self.get(id).is_some()
    }

    /// States that the ids of the entries ascend.
    pub fn ordered(&self)
        ensures { IsOrdered self.now }
    {
        let _ = self.far.len();
    }

    /// Returns the values of the ids below the length of the list, and the values of the others.
    pub fn parts(&self) -> (&[Option<V>], &BTreeMap<u32, V>)
        ensures { self.now.entries ≡ entries_from 0 result.0.now ++ result.1.now.entries }
    {
        (&self.near, &self.far)
    }
}

impl<V: Drop> IdMap<V> {
    /// Returns an empty map in which ids below `bound` will be found in one step.
    pub fn with_headroom(alloc: Global, bound: usize) -> Result<IdMap<V>, AllocError>
        ensures { IfOk result (λ m. IsEmpty m) }
    {
        let mut near = Vec::with_capacity(alloc, bound)?;
        pass(&mut near, bound)?;
        Ok(IdMap {
            near,
            far: BTreeMap::new(alloc),
        })
    }

    /// Sets the value of an id.
    pub fn insert(&mut self, id: u32, value: V) -> Result<(), AllocError>
        ensures updates { OnOk result (Updates self.old self.new id (Some value)) }
        ensures entries { OnOk result (self.new.entries ≡ insert_entry nat_cmp self.old.entries id value) }
        ensures absent { OnErr result (get self.old id ≡ None) }
        ensures err { OnErr result (IsUnchanged self.old self.new) }
    {
        let place = id as usize;
        if place < self.near.len() {
            self.near[place] = Some(value);
            return Ok(());
        }
        if self.far.is_empty() && place - self.near.len() < PASSED {
            return add(&mut self.near, place, value);
        }
        insert_far(&mut self.far, id, value)
    }

    /// Removes the value of an id, and returns it if there was one. Needs no memory.
    pub fn remove(&mut self, id: u32) -> Option<V>
        ensures value { result ≡ get self.old id }
        ensures updates { Updates self.old self.new id None }
    {
        let place = id as usize;
        if place < self.near.len() {
            self.near[place].take()
        } else {
            self.far.remove(&id)
        }
    }

    /// Replaces the value of an id. Returns `false` and changes nothing if the id has no value.
    pub fn write(&mut self, id: u32, value: V) -> bool
        ensures had { result ≡ is_some (get self.old id) }
        ensures updates { OnTrue result (Updates self.old self.new id (Some value)) }
        ensures entries { OnTrue result (self.new.entries ≡ set_value (is_at (nat_cmp id)) self.old.entries value) }
        ensures none { result ≡ false → IsUnchanged self.old self.new }
    {
        let place = id as usize;
        if place < self.near.len() {
            if self.near[place].is_none() {
                return false;
            }
            self.near[place] = Some(value);
            return true;
        }
        write_far(&mut self.far, id, value)
    }
}

/// Replaces the value of an id in a sorted map.
fn write_far<V: Drop>(far: &mut BTreeMap<u32, V>, id: u32, value: V) -> bool
    ensures had { result ≡ is_some (tree.get nat_cmp far.old id) }
    ensures updates { OnTrue result (tree.Updates nat_cmp far.old far.new id (Some value)) }
    ensures entries { OnTrue result (far.new.entries ≡ set_value (is_at (nat_cmp id)) far.old.entries value) }
    ensures none { result ≡ false → far.new ≡ far.old }
{
    match far.get_mut(&id) {
        Some(slot) => {
            *slot = value;
            true
        }
        None => false,
    }
}

/// Adds the value of an id that is past the end of the list.
fn add<V: Drop>(near: &mut Vec<Option<V>>, place: usize, value: V) -> Result<(), AllocError>
    requires { length near.old.items ≤ place }
    ensures added { OnOk result
        (entries_from 0 near.new.items ≡ entries_from 0 near.old.items ++ (place, value) ∷ []) }
    ensures refused { OnErr result (entries_from 0 near.new.items ≡ entries_from 0 near.old.items) }
{
    pass(near, place)?;
    push(near, Some(value))
}

/// Extends the list to length `bound` by ids without values.
fn pass<V: Drop>(near: &mut Vec<Option<V>>, bound: usize) -> Result<(), AllocError>
    requires { length near.old.items ≤ bound }
    ensures same { (x : ℕ) → entries_from x near.new.items ≡ entries_from x near.old.items }
    ensures long { OnOk result (length near.new.items ≡ bound) }
{
    'slots: while near.len() < bound {
        pass_one(near)?;
    }
    Ok(())
}

/// Extends the list by one id without a value.
fn pass_one<V: Drop>(near: &mut Vec<Option<V>>) -> Result<(), AllocError>
    ensures same { (x : ℕ) → entries_from x near.new.items ≡ entries_from x near.old.items }
    ensures long { OnOk result (length near.new.items ≡ length near.old.items + 1) }
{
    push(near, None)
}

/// Extends the list by one id.
fn push<V: Drop>(near: &mut Vec<Option<V>>, slot: Option<V>) -> Result<(), AllocError>
    ensures { MatchResult result (λ _. near.new.items ≡ near.old.items ++ slot ∷ [])
        (λ _. near.new.items ≡ near.old.items) }
{
    match near.push(slot) {
        Ok(()) => Ok(()),
        Err(_) => Err(AllocError),
    }
}

/// Sets the value of an id in a sorted map.
fn insert_far<V: Drop>(far: &mut BTreeMap<u32, V>, id: u32, value: V) -> Result<(), AllocError>
    ensures updates { OnOk result (tree.Updates nat_cmp far.old far.new id (Some value)) }
    ensures entries { OnOk result (far.new.entries ≡ insert_entry nat_cmp far.old.entries id value) }
    ensures absent { OnErr result (tree.get nat_cmp far.old id ≡ None) }
    ensures err { OnErr result (tree.IsUnchanged far.old far.new) }
{
    match far.insert(id, value) {
        Ok(_) => Ok(()),
        Err(_) => Err(AllocError),
    }
}
