//! Sets and removes dictionary entries.
ghost use Rattle.std.specs.Prelude.{◌≡◌, None, OnOk, OnErr, IfErr, IfSome, MatchResult, Some};
ghost use Rattle.ir_store_reads.specs.types.Reasons.{IsRefusedFor};
ghost use Rattle.ir_store_reads.specs.types.Things.{IsName, IsAttr};
ghost use Rattle.ir_store_reads.specs.trees.Meaning.{isolated_in, key_before_in, IsSoundIn};
ghost use Rattle.ir_store_reads.specs.trees.WellFormed.{IsWellFormed};
ghost use Rattle.ir_store_reads.specs.tree_laws.Reasons.{set_entry_reason};
ghost use Rattle.ir_store_reads.specs.Stored.{has_slot};
ghost use Rattle.ir_store.specs.Calls.{after_entry, CanRevert, NeedsNoSlot};

use crate::store::Store;
use ir_store_reads::entry::{find_entry, has_slot_at};
use ir_store_reads::find::{find, slot};
use ir_store_reads::marks::link_slot;
use ir_store_reads::trees::place::Part;
use ir_store_reads::types::context::Context;
use ir_store_reads::types::ids::{AttrId, NameId, OpId};
use ir_store_reads::types::refusal::Refusal;

impl Store {
    /// Returns whether a dictionary of `op` has a slot for `key`: the key is in the dictionary, or was removed and its
    /// slot is kept. `op` is in the module or held.
    pub fn has_slot(&self, op: OpId, part: Part, key: NameId) -> bool
        ensures { result ≡ has_slot op part key self.now }
    {
        let Some(at) = slot(&self.keys, op) else {
            return false;
        };
        has_slot_at(&self.slots, at, part, key)
    }

    /// Sets `key` in one dictionary of an operation of the module to an attribute, or removes the key. The slot of a
    /// removed key is kept. Memory is needed only to set a key that has no slot.
    ///
    /// Refusals, in order: `NoSuchOp`; `NoSuchKey` if there is no entry to remove; `Full` if the dictionary is at its
    /// capacity; `Memory`.
    pub fn set_entry(
        &mut self,
        ctx: &Context,
        op: OpId,
        part: Part,
        key: NameId,
        value: Option<AttrId>,
    ) -> Result<(), Refusal>
        requires key { IsName ctx.now key }
        requires value { IfSome value (λ a. IsAttr ctx.now a) }
        requires sound { IsSoundIn ctx.now self.old.module_of.tree }
        ensures ok { OnOk result (self.new ≡ after_entry (key_before_in ctx.now) op part key value self.old) }
        ensures refused { MatchResult result (λ _. set_entry_reason (key_before_in ctx.now) op part key value self.old.module_of.tree ≡ None)
            (λ e. IsRefusedFor {A = Unit {0}} (set_entry_reason (key_before_in ctx.now) op part key value self.old.module_of.tree) (Err e)) }
        ensures sound { IsSoundIn ctx.now self.new.module_of.tree }
        ensures wellformed { IsWellFormed (isolated_in ctx.now) self.old.module_of → IsWellFormed (isolated_in ctx.now) self.new.module_of }
        ensures err { OnErr result (self.new ≡ self.old) }
        ensures slot { NeedsNoSlot op part key value self.old → IfErr result (λ e. set_entry_reason (key_before_in ctx.now) op part key value self.old.module_of.tree ≡ Some e) }
    {
        self.enter(ctx, op, part, key, value)
    }
}

impl Store {
    /// Sets `key` in one dictionary of `op` to an attribute, or removes the key.
    fn enter(
        &mut self,
        ctx: &Context,
        op: OpId,
        part: Part,
        key: NameId,
        value: Option<AttrId>,
    ) -> Result<(), Refusal>
        ensures done { MatchResult result
            (λ _. (set_entry_reason (key_before_in ctx.now) op part key value self.old.module_of.tree ≡ None) × (self.new ≡ after_entry (key_before_in ctx.now) op part key value self.old))
            (λ e. IsRefusedFor {A = Unit {0}} (set_entry_reason (key_before_in ctx.now) op part key value self.old.module_of.tree) (Err e) × (self.new ≡ self.old)) }
        ensures slot { IsSoundIn ctx.now self.old.module_of.tree → NeedsNoSlot op part key value self.old → IfErr result (λ e. set_entry_reason (key_before_in ctx.now) op part key value self.old.module_of.tree ≡ Some e) }
    {
        let at = match find_entry(ctx, &self.slots, &self.keys, op, part, key, &value) {
            Ok(at) => at,
            Err(e) => return Err(e),
        };
        match self.slots.change(self.alloc, ctx, at, part, key, value) {
            Ok(()) => {}
            Err(_) => return Err(Refusal::Memory),
        }
        link_slot(&mut self.marks, &self.slots, at);
        Ok(())
    }
}

impl Store {
    /// Sets `key`, which has a slot, in one dictionary of an operation of the module, or removes the key. Needs no
    /// memory.
    pub fn revert_entry(
        &mut self,
        ctx: &Context,
        op: OpId,
        part: Part,
        key: NameId,
        value: Option<AttrId>,
    )
        requires can { CanRevert op part key value self.old }
        requires key { IsName ctx.now key }
        requires value { IfSome value (λ a. IsAttr ctx.now a) }
        requires sound { IsSoundIn ctx.now self.old.module_of.tree }
        ensures done { self.new ≡ after_entry (key_before_in ctx.now) op part key value self.old }
        ensures sound { IsSoundIn ctx.now self.new.module_of.tree }
    {
        let Some(at) = find(&self.slots, &self.keys, op) else {
            return;
        };
        self.slots.revert(ctx, at, part, key, value);
        link_slot(&mut self.marks, &self.slots, at);
    }
}
