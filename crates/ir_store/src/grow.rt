//! Adds held operations to the store, in free slots or in new slots.
ghost use Rattle.std.specs.Prelude.{◌≡◌, None, IfOk, OnOk, OnErr, if◌then◌else◌};
ghost use Rattle.ir_store_reads.specs.Stored.{known};
ghost use Rattle.ir_store_reads.specs.Emptied.{after_grow};

use crate::store::Store;
use ir_store_reads::grow::grow_slot;
use ir_store_reads::marks::{link_slot, reach};
use ir_store_reads::spare::{find_spare, take_spare};
use ir_store_reads::trees::tree::TreeOp;
use ir_store_reads::types::ids::OpId;
use std::alloc::AllocError;

impl Store {
    /// Creates a held operation like `header`, without the operations in its blocks.
    pub(crate) fn create(&mut self, op: OpId, header: &TreeOp) -> Result<(), AllocError>
        requires { known op self.old ≡ None }
        ensures ok { OnOk result (self.new ≡ after_grow op header.now self.old) }
        ensures err { OnErr result (self.new ≡ self.old) }
    {
        match self.refill(op, header) {
            Ok(true) => Ok(()),
            Ok(false) => self.extend(op, header),
            Err(e) => Err(e),
        }
    }

    /// Creates a held operation like `header` in a free slot. Returns false, and changes nothing, if no free slot fits.
    fn refill(&mut self, op: OpId, header: &TreeOp) -> Result<bool, AllocError>
        requires { known op self.old ≡ None }
        ensures ok { IfOk result (λ b. self.new ≡ (if b then after_grow op header.now self.old else self.old)) }
        ensures err { OnErr result (self.new ≡ self.old) }
    {
        self.sibs.laws();
        self.uses.laws();
        let found = find_spare(
            self.alloc,
            &self.slots,
            &self.sibs,
            &self.uses,
            &self.cells,
            self.spare,
            op,
            header,
        );
        let found = match found {
            Ok(Some(found)) => found,
            Ok(None) => return Ok(false),
            Err(e) => return Err(e),
        };
        match reach(&mut self.marks, self.slots.len()) {
            Ok(()) => {}
            Err(e) => return Err(e),
        }
        let key = found.slot;
        match self.keys.insert(op.number(), key) {
            Ok(()) => {}
            Err(e) => return Err(e),
        }
        match self.slots.write_op(key, found.draft) {
            Ok(()) => {}
            Err(e) => {
                self.keys.remove(op.number());
                return Err(e);
            }
        }
        self.spare = take_spare(&mut self.slots, self.spare, found.trailing, found.before);
        link_slot(&mut self.marks, &self.slots, key);
        Ok(true)
    }
}

impl Store {
    /// Creates a held operation like `header` in a new slot.
    fn extend(&mut self, op: OpId, header: &TreeOp) -> Result<(), AllocError>
        requires { known op self.old ≡ None }
        ensures ok { OnOk result (self.new ≡ after_grow op header.now self.old) }
        ensures err { OnErr result (self.new ≡ self.old) }
    {
        self.sibs.laws();
        let grown = grow_slot(
            self.alloc,
            &mut self.slots,
            &mut self.sibs,
            &mut self.uses,
            &mut self.cells,
            op,
            header,
        );
        self.sibs.laws();
        self.uses.laws();
        let (key, draft) = match grown {
            Ok(grown) => grown,
            Err(e) => return Err(e),
        };
        match reach(&mut self.marks, self.slots.len()) {
            Ok(()) => {}
            Err(e) => return Err(e),
        }
        match self.keys.insert(op.number(), key) {
            Ok(()) => {}
            Err(e) => return Err(e),
        }
        match self.slots.write_op(key, draft) {
            Ok(()) => {}
            Err(e) => {
                self.keys.remove(op.number());
                return Err(e);
            }
        }
        link_slot(&mut self.marks, &self.slots, key);
        Ok(())
    }
}
