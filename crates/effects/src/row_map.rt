//! A map of entries in which only operations with counts take memory for them.
ghost use Rattle.std.specs.Prelude.{◌≡◌, ℕ, ◌+◌, true, false, cond, is_some, Some, None, OnOk, OnErr};
ghost use Rattle.std.specs.Bool.{OnTrue};
ghost use Rattle.std.specs.Ordering.{nat_cmp};
ghost use Rattle.std.specs.BTreeMap.{is_at};
ghost use Rattle.listeners_support.specs.Map.{get, IsEmpty, IsOrdered, IsUnchanged, Updates};
ghost use Rattle.effects.specs.declared.row.Row.{Row as Kept};
ghost use Rattle.effects.specs.declared.effect_kinds.EffectKinds.{EffectKinds as Set};
ghost use Rattle.effects.specs.RowMaps.{counts_at, whole, zero_counts};
ghost use Rattle.effects.specs.Walks.{total};

use crate::packed::PackedHead;
use crate::row::{Counts, Row, RowHead};
use ir_event::types::ids::OpId;
use listeners_support::IdMap;
use std::alloc::{AllocError, Global};
use std::marker::Model;

// The checker has no proof of the loans of a function that moves an entry, unless the function has a value of each type in
// it: so some make an `OpId` that nothing uses.

/// A map of entries. A contract describes it as a map from ids to entries.
///
/// Most operations have no regions, so their counts are 0. The counts are in a map of their own, which has no entry for
/// them.
#[derive(Drop)]
pub struct RowMap {
    heads: IdMap<PackedHead>,
    /// The counts that aren't 0, and those of operations with regions.
    sums: IdMap<Counts>,
}

impl Model for RowMap {
    ghost use Rattle.listeners_support.specs.Map.{IdMap as VisibleValues};
    ghost use Rattle.effects.specs.declared.row.Row.{Row as Kept};

    ghost Value = { VisibleValues Kept };

    ghost use Rattle.effects.specs.RowMaps.{whole};

    ghost view = { λ m. whole m.sums m.heads };
}

impl RowMap {
    /// Returns an empty map.
    pub(crate) fn new(alloc: Global) -> RowMap
        ensures { IsEmpty result }
    {
        RowMap {
            heads: IdMap::new(alloc),
            sums: IdMap::new(alloc),
        }
    }

    /// States that the ids of the entries ascend.
    pub(crate) fn ordered(&self)
        ensures { IsOrdered self.now }
    {
        self.heads.ordered();
    }

    /// Returns the entry of an id, if it has one.
    pub(crate) fn get(&self, id: u32) -> Option<Row>
        ensures { result ≡ get self.now id }
    {
        row_in(&self.heads, &self.sums, id)
    }

    /// Sets the entry of an id. All its counts are 0. If `inner`, later changes of them need no memory. If memory runs
    /// out, the map is unchanged.
    pub(crate) fn insert(&mut self, id: u32, row: &Row, inner: bool) -> Result<(), AllocError>
        requires { row.now.counts ≡ zero_counts }
        ensures updates { OnOk result (Updates self.old self.new id (Some row.now)) }
        ensures err { OnErr result (IsUnchanged self.old self.new) }
    {
        insert_in(&mut self.heads, &mut self.sums, id, row, inner)
    }

    /// Removes the entry of an id, and returns it if there was one. Needs no memory.
    pub(crate) fn remove(&mut self, id: u32) -> Option<Row>
        ensures value { result ≡ get self.old id }
        ensures updates { Updates self.old self.new id None }
    {
        remove_in(&mut self.heads, &mut self.sums, id)
    }

    /// Replaces the entry of an id. Returns `false` and changes nothing if the id has no entry, or if memory runs out,
    /// which can't happen if the counts stay 0 or weren't 0.
    pub(crate) fn write(&mut self, id: u32, row: &Row) -> bool
        ensures had { result ≡ true → is_some (get self.old id) ≡ true }
        ensures kept { (r : Kept) → get self.old id ≡ Some r → (r.counts ≡ zero_counts → row.now.counts ≡ zero_counts)
            → result ≡ true }
        ensures updates { OnTrue result (Updates self.old self.new id (Some row.now)) }
        ensures total { OnTrue result ((f : Set → ℕ) (r : Kept) → get self.old id ≡ Some r
            → total f self.new.entries + f r.has ≡ total f self.old.entries + f row.now.has) }
        ensures none { result ≡ false → IsUnchanged self.old self.new }
    {
        write_in(&mut self.heads, &mut self.sums, id, row)
    }
}

/// Returns an entry without its counts, if there is one.
fn head_in(heads: &IdMap<PackedHead>, id: u32) -> Option<RowHead>
    ensures { result ≡ get heads.now id }
{
    match heads.get(id) {
        None => None,
        Some(packed) => Some(packed.head()),
    }
}

/// Returns the counts of an operation.
fn counts_in(sums: &IdMap<Counts>, id: u32) -> Counts
    ensures { result ≡ counts_at sums.now id }
{
    match sums.get(id) {
        None => Counts::zero(),
        Some(counts) => *counts,
    }
}

/// Returns the entry of an id, if it has one.
fn row_in(heads: &IdMap<PackedHead>, sums: &IdMap<Counts>, id: u32) -> Option<Row>
    ensures { result ≡ get (whole sums.now heads.now) id }
{
    let Some(head) = head_in(heads, id) else {
        return None;
    };
    Some(head.row(&counts_in(sums, id)))
}

/// Adds counts of an operation that are 0, if `inner` and it has none. Returns `false` and changes nothing if memory runs
/// out.
fn reserve_counts(sums: &mut IdMap<Counts>, id: u32, inner: bool) -> bool
    ensures { (y : ℕ) → counts_at sums.new y ≡ counts_at sums.old y }
{
    if !inner || sums.contains_key(id) {
        return true;
    }
    match sums.insert(id, Counts::zero()) {
        Ok(()) => true,
        Err(_) => false,
    }
}

/// Sets the counts of an operation to 0. Needs no memory.
fn clear_counts(sums: &mut IdMap<Counts>, id: u32)
    ensures { (y : ℕ) → counts_at sums.new y ≡ cond (is_at (nat_cmp id) y) zero_counts (counts_at sums.old y) }
{
    let _ = sums.write(id, Counts::zero());
}

/// Sets the entry of an id. All its counts are 0. If memory runs out, the entries are unchanged.
fn insert_in(
    heads: &mut IdMap<PackedHead>,
    sums: &mut IdMap<Counts>,
    id: u32,
    row: &Row,
    inner: bool,
) -> Result<(), AllocError>
    requires { row.now.counts ≡ zero_counts }
    ensures updates { OnOk result (Updates (whole sums.old heads.old) (whole sums.new heads.new) id (Some row.now)) }
    ensures err { OnErr result (IsUnchanged (whole sums.old heads.old) (whole sums.new heads.new)) }
{
    let _op = OpId::new(id);
    if !reserve_counts(sums, id, inner) {
        return Err(AllocError);
    }
    match heads.insert(id, PackedHead::new(&row.head())) {
        Ok(()) => {
            clear_counts(sums, id);
            Ok(())
        }
        Err(_) => Err(AllocError),
    }
}

/// Removes the entry of an id, and returns it if there was one. Needs no memory.
fn remove_in(heads: &mut IdMap<PackedHead>, sums: &mut IdMap<Counts>, id: u32) -> Option<Row>
    ensures value { result ≡ get (whole sums.old heads.old) id }
    ensures updates { Updates (whole sums.old heads.old) (whole sums.new heads.new) id None }
{
    let row = row_in(heads, sums, id);
    heads.remove(id);
    sums.remove(id);
    row
}

/// Sets the counts of an operation. Returns `false` and changes nothing if memory runs out, which can't happen if the
/// counts stay 0 or weren't 0.
fn write_counts(sums: &mut IdMap<Counts>, id: u32, counts: &Counts) -> bool
    ensures counts { OnTrue result ((y : ℕ)
        → counts_at sums.new y ≡ cond (is_at (nat_cmp id) y) counts.now (counts_at sums.old y)) }
    ensures kept { (counts_at sums.old id ≡ zero_counts → counts.now ≡ zero_counts) → result ≡ true }
    ensures none { result ≡ false → IsUnchanged sums.old sums.new }
{
    if sums.write(id, *counts) {
        return true;
    }
    if counts.are_zero() {
        return true;
    }
    match sums.insert(id, *counts) {
        Ok(()) => true,
        Err(_) => false,
    }
}

/// Replaces the entry of an id.
fn write_in(heads: &mut IdMap<PackedHead>, sums: &mut IdMap<Counts>, id: u32, row: &Row) -> bool
    ensures had { result ≡ true → is_some (get (whole sums.old heads.old) id) ≡ true }
    ensures kept { (r : Kept) → get (whole sums.old heads.old) id ≡ Some r
        → (r.counts ≡ zero_counts → row.now.counts ≡ zero_counts) → result ≡ true }
    ensures updates { OnTrue result (Updates (whole sums.old heads.old) (whole sums.new heads.new) id (Some row.now)) }
    ensures total { OnTrue result ((f : Set → ℕ) (r : Kept) → get (whole sums.old heads.old) id ≡ Some r
        → total f (whole sums.new heads.new).entries + f r.has ≡ total f (whole sums.old heads.old).entries + f row.now.has) }
    ensures none { result ≡ false → IsUnchanged (whole sums.old heads.old) (whole sums.new heads.new) }
{
    let _op = OpId::new(id);
    if !heads.contains_key(id) {
        return false;
    }
    if !write_counts(sums, id, &row.counts) {
        return false;
    }
    heads.write(id, PackedHead::new(&row.head()))
}
