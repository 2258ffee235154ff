//! Copies the tree of a store.
ghost use Rattle.std.specs.Prelude.{◌≡◌, IfOk, IfErr};

use crate::store::Store;
use ir_store_reads::copy::copy_op;
use ir_store_reads::trees::tree::TreeOp;
use ir_store_reads::types::refusal::Refusal;

/// A depth limit above the largest nesting depth of a module.
const LEVELS: u32 = 1_000;

impl Store {
    /// Returns a copy of the module's tree.
    ///
    /// Refusals: `Memory`.
    pub fn tree(&self) -> Result<TreeOp, Refusal>
        ensures tree { IfOk result (λ t. t ≡ self.now.module_of.tree) }
        ensures refused { IfErr result (λ e. e ≡ Refusal.Memory) }
    {
        let tree = copy_op(self.alloc, &self.slots, &self.sibs, &self.root, LEVELS)?;
        Ok(tree)
    }
}
