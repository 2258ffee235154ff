//! The place, the parent and the next operation of an operation.
ghost use Rattle.std.specs.Prelude.{◌≡◌, ◌<◌, Some, is_some};
ghost use Rattle.ir_store_reads.specs.trees.Places.{place_of};
ghost use Rattle.ir_store_reads.specs.tree_laws.Reads.{parent_of, next_of};

use crate::store::Store;
use ir_store_reads::find::find;
use ir_store_reads::position::place_at;
use ir_store_reads::trees::place::Place;
use ir_store_reads::types::ids::OpId;

impl Store {
    /// Returns the place of `op`, or `None` if `op` isn't in the module or is its root.
    pub fn place(&self, op: OpId) -> Option<Place>
        ensures { result ≡ place_of op self.now.module_of.tree }
    {
        self.sibs.laws();
        let Some(key) = find(&self.slots, &self.keys, op) else {
            return None;
        };
        if key == self.root {
            return None;
        }
        place_at(&self.slots, &self.sibs, key)
    }

    /// Returns whether `op` is in the module and isn't its root.
    pub(crate) fn is_nested(&self, op: OpId) -> bool
        ensures { result ≡ is_some (place_of op self.now.module_of.tree) }
    {
        self.sibs.laws();
        let Some(key) = find(&self.slots, &self.keys, op) else {
            return false;
        };
        if key == self.root {
            return false;
        }
        true
    }

    /// Returns the parent operation of `op`, or `None` if `op` isn't in the module or is its root.
    pub fn parent(&self, op: OpId) -> Option<OpId>
        ensures { result ≡ parent_of op self.now.module_of.tree }
    {
        match self.place(op) {
            None => None,
            Some(place) => Some(place.parent),
        }
    }

    /// Returns the operation directly after `op` in its block, or `None` if there is none.
    pub fn next(&self, op: OpId) -> Option<OpId>
        ensures { result ≡ next_of op self.now.module_of.tree }
    {
        match self.place(op) {
            None => None,
            Some(place) => place.before,
        }
    }
}
