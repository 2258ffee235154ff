//! The neighbours of an operation in its block, and the ends of a block.
ghost use Rattle.std.specs.Prelude.{◌≡◌};
ghost use Rattle.ir_store_reads.specs.tree_laws.Reads.{first_at, last_at, prev_of, is_before};

use crate::store::Store;
use ir_store_reads::find::find;
use ir_store_reads::neighbours::{find_block, goes_before, id_of};
use ir_store_reads::types::ids::OpId;

impl Store {
    /// Returns the first operation of the block of a region, or `None` if the block is empty or doesn't exist.
    pub fn first(&self, op: OpId, region: u32) -> Option<OpId>
        ensures { result ≡ first_at op region self.now.module_of.tree }
    {
        let Some(head) = find_block(&self.slots, &self.keys, op, region) else {
            return None;
        };
        id_of(&self.slots, self.sibs.first(head))
    }

    /// Returns the last operation of the block of a region, or `None` if the block is empty or doesn't exist.
    pub fn last(&self, op: OpId, region: u32) -> Option<OpId>
        ensures { result ≡ last_at op region self.now.module_of.tree }
    {
        let Some(head) = find_block(&self.slots, &self.keys, op, region) else {
            return None;
        };
        id_of(&self.slots, self.sibs.last(head))
    }

    /// Returns the operation directly before `op` in its block, or `None` if there is none.
    pub fn prev(&self, op: OpId) -> Option<OpId>
        ensures { result ≡ prev_of op self.now.module_of.tree }
    {
        self.sibs.laws();
        let Some(key) = find(&self.slots, &self.keys, op) else {
            return None;
        };
        if key == self.root {
            return None;
        }
        id_of(&self.slots, self.sibs.prev(key))
    }

    /// Returns whether `op` and `other` are in one block and `op` is earlier.
    pub fn is_before(&self, op: OpId, other: OpId) -> bool
        ensures { result ≡ is_before op other self.now.module_of.tree }
    {
        self.sibs.laws();
        let Some(key) = find(&self.slots, &self.keys, op) else {
            return false;
        };
        let Some(trailing) = find(&self.slots, &self.keys, other) else {
            return false;
        };
        goes_before(&self.sibs, key, trailing)
    }
}
