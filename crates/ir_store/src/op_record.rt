//! Reads of an operation with the uses of its results.
ghost use Rattle.std.specs.Prelude.{◌≡◌, IfSome, length, option_map};
ghost use Rattle.ir_store_reads.specs.trees.Ids.{find as the_first};
ghost use Rattle.ir_store.specs.OpRecords.{AreResultUses, lists_in};

use crate::store::Store;
use ir_store_reads::find::find;
use ir_store_reads::result_uses::ResultUses;
use ir_store_reads::trees::value::Value;
use ir_store_reads::types::ids::{NameId, OpId, TypeId};

/// An operation of the module: its name, its operands, and its results by their types and uses.
#[derive(Drop)]
pub struct OpRecord<'a> {
    pub name: NameId,
    pub operands: &'a [Value],
    pub results: &'a [TypeId],
    /// The uses of each result.
    pub uses: ResultUses<'a>,
}

impl Store {
    /// Returns the name, the operands and the results of an operation of the module, or `None` if the module has no such
    /// operation.
    #[inline(always)]
    pub fn op_record(&self, op: OpId) -> Option<OpRecord<'_>>
        ensures lists { option_map (λ r. (r.name, (r.operands.now, r.results.now))) result ≡ option_map lists_in (the_first op self.now.module_of.tree) }
        ensures count { IfSome result (λ r. length r.uses ≡ length r.results.now) }
        ensures uses { IfSome result (λ r. AreResultUses op self.now.module_of.tree r.uses) }
    {
        self.uses.laws();
        let Some(key) = find(&self.slots, &self.keys, op) else {
            return None;
        };
        let (operands, results) = self.slots.lists(key);
        Some(OpRecord {
            name: self.slots.name(key),
            operands,
            results,
            uses: ResultUses::new(
                &self.slots,
                &self.cells,
                &self.uses,
                self.slots.values(key),
                results.len(),
            ),
        })
    }
}
