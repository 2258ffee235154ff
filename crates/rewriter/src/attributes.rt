//! Sets and removes entries of operations, in the dictionary to which the key belongs.
ghost use Rattle.std.specs.Prelude.{◌≡◌, is_some, None, Some, OnOk, OnErr, IfSome};
ghost use Rattle.ir_event.specs.types.Things.{IsName, IsAttr};
ghost use Rattle.ir_event.specs.trees.Edits.{entry_at};
ghost use Rattle.ir_event.specs.trees.Meaning.{key_before_in};
ghost use Rattle.ir_event.specs.store.Calls.{after_entry};
ghost use Rattle.rewriter.specs.Contents.{edit_meaning, tests_in};
ghost use Rattle.rewriter.specs.Edits.{DropAttr, SetAttr, part_for};
ghost use Rattle.ir_event.specs.tree_laws.Reasons.{set_entry_reason};
ghost use Rattle.rewriter.specs.Machine.{Do};
ghost use Rattle.rewriter.specs.Moves.{IsAnswered};
ghost use Rattle.rewriter.specs.RewriterCalls.{Does, JournalAfter, Led, Made, reply_of};

use crate::bench::Bench;
use crate::marks::settle;
use ir_event::analysis::Analysis;
use ir_event::store::store::Store;
use ir_event::trees::place::Part;
use ir_event::trees::sound::comes_before;
use ir_event::types::context::Context;
use ir_event::types::ids::{AttrId, NameId, OpId};
use ir_event::types::refusal::Refusal;

/// Returns whether one of `entries` has `key`.
fn has_entry(ctx: &Context, entries: &[(NameId, AttrId)], key: NameId) -> bool
    ensures { result ≡ is_some (entry_at (key_before_in ctx.now) key entries.now) }
{
    let mut rest = entries;
    while let [entry, tail @ ..] = rest {
        if !comes_before(ctx, key, entry.0) && !comes_before(ctx, entry.0, key) {
            return true;
        }
        rest = tail;
    }
    false
}

/// Returns the dictionary of `op` to which `key` belongs: the properties if the key is inherent or they have it,
/// otherwise the attributes.
fn part_for(ctx: &Context, store: &Store, op: OpId, key: NameId) -> Part
    ensures { result ≡ part_for (tests_in ctx.now) op key store.now.module_of.tree }
{
    if !store.in_tree(op) {
        return Part::Attrs;
    }
    let Some(node) = store.node(op) else {
        return Part::Attrs;
    };
    if ctx.inherent(node.name(), key) {
        return Part::Props;
    }
    if has_entry(ctx, node.properties(), key) {
        return Part::Props;
    }
    Part::Attrs
}

impl<L: Analysis> Bench<L> {
    /// Sets `key` of `op` to an attribute. The entry is a property if the key is inherent to the operation or its
    /// properties have it, otherwise an attribute (Language Reference, "Operations", on inherent and discardable
    /// attributes).
    ///
    /// Refusals, in order: `NoSuchOp`; `Full` if the dictionary is at its capacity; and `Memory`.
    pub fn set_attr(&mut self, op: OpId, key: NameId, attr: AttrId) -> Result<(), Refusal>
        requires key { IsName self.old.transaction.ctx key }
        requires attr { IsAttr self.old.transaction.ctx attr }
        ensures ok { OnOk result
            (Made L.meaning (after_entry (key_before_in self.old.transaction.ctx) op
            (part_for (tests_in self.old.transaction.ctx) op key self.old.transaction.store.module_of.tree) key
            (Some attr) self.old.transaction.store) self.old self.new) }
        ensures err { OnErr result (self.new ≡ self.old) }
        ensures does { Does L.meaning (Do (edit_meaning self.old.transaction.ctx (SetAttr op key attr)))
            (reply_of result) self.old self.new }
        ensures led { Led L.meaning self.old self.new }
        ensures ctx { self.new.transaction.ctx ≡ self.old.transaction.ctx }
        ensures journal { JournalAfter L.meaning result self.old self.new }
    {
        self.enter(op, key, Some(attr))
    }

    /// Removes the entry at `key` of `op`.
    ///
    /// Refusals, in order: `NoSuchOp`; `NoSuchKey`; and `Memory`.
    pub fn drop_attr(&mut self, op: OpId, key: NameId) -> Result<(), Refusal>
        requires key { IsName self.old.transaction.ctx key }
        ensures ok { OnOk result
            (Made L.meaning (after_entry (key_before_in self.old.transaction.ctx) op
            (part_for (tests_in self.old.transaction.ctx) op key self.old.transaction.store.module_of.tree) key None
            self.old.transaction.store) self.old self.new) }
        ensures err { OnErr result (self.new ≡ self.old) }
        ensures does { Does L.meaning (Do (edit_meaning self.old.transaction.ctx (DropAttr op key)))
            (reply_of result) self.old self.new }
        ensures led { Led L.meaning self.old self.new }
        ensures ctx { self.new.transaction.ctx ≡ self.old.transaction.ctx }
        ensures journal { JournalAfter L.meaning result self.old self.new }
    {
        self.enter(op, key, None)
    }
}

impl<L: Analysis> Bench<L> {
    /// Sets the entry at `key` of `op`, or removes it.
    fn enter(&mut self, op: OpId, key: NameId, value: Option<AttrId>) -> Result<(), Refusal>
        requires key { IsName self.old.transaction.ctx key }
        requires value { IfSome value (λ a. IsAttr self.old.transaction.ctx a) }
        ensures ok { OnOk result
            (Made L.meaning (after_entry (key_before_in self.old.transaction.ctx) op
            (part_for (tests_in self.old.transaction.ctx) op key self.old.transaction.store.module_of.tree) key value
            self.old.transaction.store) self.old self.new) }
        ensures refused { IsAnswered (Unit {0})
            (set_entry_reason (key_before_in self.old.transaction.ctx) op
            (part_for (tests_in self.old.transaction.ctx) op key self.old.transaction.store.module_of.tree) key value
            self.old.transaction.store.module_of.tree) result }
        ensures err { OnErr result (self.new ≡ self.old) }
        ensures led { Led L.meaning self.old self.new }
        ensures ctx { self.new.transaction.ctx ≡ self.old.transaction.ctx }
        ensures journal { JournalAfter L.meaning result self.old self.new }
    {
        let world = self.transaction.world();
        let part = part_for(&world.ctx, &world.store, op, key);
        match self.transaction.set_entry(op, part, key, value) {
            Err(refusal) => Err(refusal),
            Ok(event) => {
                self.panel.tell(self.transaction.world(), event);
                settle(&mut self.transaction);
                Ok(())
            }
        }
    }
}
