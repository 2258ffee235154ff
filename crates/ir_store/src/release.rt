//! Releases held operations.
ghost use Rattle.ir_store.specs.Calls.{Releases};

use crate::store::Store;
use ir_store_reads::release::release_slots;

impl Store {
    /// Releases the held operations whose id is at least `from`. With `from` 0, also releases the slots of removed
    /// dictionary keys of the module's operations. Needs no memory.
    pub fn release(&mut self, from: u32)
        ensures { Releases from self.old self.new }
    {
        release_slots(
            &mut self.slots,
            &mut self.keys,
            &mut self.marks,
            &mut self.spare,
            from,
        );
    }
}
