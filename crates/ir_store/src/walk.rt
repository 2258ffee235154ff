//! The operations of the module in pre-order.
ghost use Rattle.std.specs.Prelude.{◌≡◌, ◌∷◌, ◌++◌, [], ℕ, List, IfOk, IfErr, MatchOption, None, true};
ghost use Rattle.ir_store_reads.specs.trees.Ids.{find as the_first, has_id, ids};
ghost use Rattle.ir_store.specs.Ends.{IsLastIn, ids_in};

use crate::store::Store;
use ir_store_reads::find::find;
use ir_store_reads::types::ids::OpId;
use ir_store_reads::types::refusal::Refusal;
use ir_store_reads::use_lists::id_at;
use ir_store_reads::walk::{last_slot, push_op};

/// A depth limit above the largest nesting depth of a module.
const LEVELS: u32 = 1_000;

impl Store {
    /// Returns all operations of the module in pre-order: each before the operations inside it, which follow the order
    /// of the regions and blocks.
    ///
    /// Refusals: `Memory`.
    pub fn operations(&self) -> Result<Vec<OpId>, Refusal>
        ensures listed { IfOk result (λ v. v.items ≡ ids self.now.module_of.tree) }
        ensures refused { IfErr result (λ e. e ≡ Refusal.Memory) }
    {
        self.sibs.laws();
        let mut ops = Vec::with_capacity(self.alloc, self.count as usize)?;
        push_op(&self.slots, &self.sibs, self.root, LEVELS, &mut ops)?;
        Ok(ops)
    }
}

impl Store {
    /// Returns the last operation in pre-order among `op`, an operation of the module, and the operations inside it.
    /// `None` if `op` isn't in the module.
    pub fn last_within(&self, op: OpId) -> Option<OpId>
        ensures { MatchOption result (the_first op self.now.module_of.tree ≡ None) (λ y. (ys : List ℕ) × (ids_in (the_first op self.now.module_of.tree) ≡ ys ++ y ∷ [])) }
    {
        if !self.in_tree(op) {
            return None;
        }
        self.distinct();
        let mut at = op;
        'inside: while let Some(last) = self.last_inside(at) {
            at = last;
        }
        Some(at)
    }

    /// Returns the last operation of the last nonempty block of `op`, or `None` if all its blocks are empty.
    fn last_inside(&self, op: OpId) -> Option<OpId>
        requires { has_id op self.now.module_of.tree ≡ true }
        ensures { MatchOption result (ids_in (the_first op self.now.module_of.tree) ≡ op ∷ []) (λ y. IsLastIn op y self.now.module_of.tree) }
    {
        self.sibs.laws();
        let Some(key) = find(&self.slots, &self.keys, op) else {
            return None;
        };
        let Some(last) = last_slot(&self.slots, &self.sibs, key) else {
            return None;
        };
        Some(id_at(&self.slots, last))
    }
}
