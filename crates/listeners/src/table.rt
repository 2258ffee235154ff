//! The table of uses.
ghost use Rattle.std.specs.Prelude.{◌≡◌, [], ◌++◌, IfOk};
ghost use Rattle.std.specs.Bool.{OnTrue};
ghost use Rattle.listeners.specs.Uses.{operand_uses, in_order};
ghost use Rattle.listeners.specs.Others.{others};
ghost use Rattle.listeners.specs.Tables.{table_uses};

use crate::listing::Listing;
use crate::operand_change::{OperandChange, Operands};
use ir_event::trees::value::Value;
use ir_event::types::ids::OpId;
use listeners_support::IdMap;
use std::alloc::{AllocError, Global};

/// The uses of a module: the uses that were listed when the listener began, and the current operands of each operation
/// that changed since. The latter replace the listed ones.
#[derive(Drop)]
pub(crate) struct UseTable {
    pub(crate) listed: Listing,
    pub(crate) changed: IdMap<OperandChange>,
}

impl UseTable {
    /// Returns the table of listed uses.
    pub(crate) fn new(alloc: Global, listed: Listing) -> UseTable
        ensures { table_uses result ≡ listed }
    {
        UseTable {
            listed,
            changed: IdMap::new(alloc),
        }
    }

    /// Returns the table of listed uses. A change of an operation with an id below `bound` is found in one step.
    pub(crate) fn with_headroom(
        alloc: Global,
        listed: Listing,
        bound: usize,
    ) -> Result<UseTable, AllocError>
        ensures { IfOk result (λ table. table_uses table ≡ listed) }
    {
        let changed = IdMap::with_headroom(alloc, bound)?;
        Ok(UseTable { listed, changed })
    }

    /// Sets the operands of an operation. Returns `false` if memory ran out.
    pub(crate) fn set_operands(&mut self, alloc: Global, op: OpId, operands: &[Value]) -> bool
        ensures { OnTrue result (in_order (table_uses self.new)
            ≡ in_order (operand_uses op 0 operands.now ++ others op (table_uses self.old))) }
    {
        let Ok(operands) = Operands::from_slice(alloc, operands) else {
            return false;
        };
        self.changed.ordered();
        match self.changed.insert(op.number(), OperandChange { operands }) {
            Ok(_) => true,
            Err(_) => false,
        }
    }

    /// Removes the operands of an operation, if it has some. Succeeds also if memory runs out.
    pub(crate) fn take(&mut self, op: OpId)
        ensures { in_order (table_uses self.new) ≡ in_order (others op (table_uses self.old)) }
    {
        let operands = Operands::new();
        self.changed.ordered();
        match self.changed.insert(op.number(), OperandChange { operands }) {
            Ok(_) => {}
            Err(_) => self.listed.forget(op),
        }
    }
}
