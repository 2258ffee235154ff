//! The edits of an IR state: each returns its event.
ghost use Rattle.std.specs.Prelude.{◌≡◌, Some, None, true, IfOk, OnOk, OnErr, IfErr, IfSome, MatchResult, Err};
ghost use Rattle.std.specs.FinMap as finmap;
ghost use Rattle.op_registry.specs.types.Reasons.{IsRefusedFor};
ghost use Rattle.op_registry.specs.types.Terms.{name_term};
ghost use Rattle.op_registry.specs.types.Things.{IsName, IsAttr};
ghost use Rattle.op_registry.specs.types.Words.{is_table};
ghost use Rattle.ir_store.specs.trees.Edits.{entry_at};
ghost use Rattle.ir_store.specs.trees.Meaning.{IsSoundIn, isolated_in, key_before_in};
ghost use Rattle.ir_store.specs.trees.WellFormed.{IsWellFormed};
ghost use Rattle.ir_store.specs.tree_laws.Changes.{entry_in};
ghost use Rattle.ir_store.specs.tree_laws.Reasons.{holds_none, put_reason, set_entry_reason, set_operand_reason, shift_reason, take_reason};
ghost use Rattle.ir_store.specs.Calls.{NeedsNoSlot, after_entry, after_operand, after_put, after_shift, after_take};
ghost use Rattle.ir_event.specs.declared.event.Event.TheVariants.{Put};
ghost use Rattle.ir_event.specs.Modules.{context_model, module_in, node_of_op};
ghost use Rattle.ir_event.specs.Listener.{ShowsTaken};
ghost use Rattle.ir_event.specs.Step.{IsOperandEvent, IsOperandStep};
ghost use Rattle.ir_event.specs.Edits.{IsEntryEvent, IsEntryStep, IsPutStep, IsShiftEvent, IsShiftStep, IsTakeStep};

use crate::event::Event;
use crate::world::World;
use ir_store::store::Store;
use ir_store::trees::place::{Part, Place};
use ir_store::trees::sound::comes_before;
use ir_store::trees::tree::TreeOp;
use ir_store::trees::value::Value;
use op_registry::types::context::Context;
use op_registry::types::ids::{AttrId, NameId, OpId};
use op_registry::types::refusal::Refusal;

impl World {
    /// Inserts an operation like `header` at `place` and returns the event. The id of the operation is the next free
    /// one. The blocks of `header` hold no operations, and the id of `header` is ignored.
    ///
    /// Refusals, in this order: `NoSuchOp` if the parent of `place` isn't in the module; `NoSuchIndex` if the parent
    /// has no such place; `Full`; `IdsExhausted`; `TooDeepHere`; `NoSuchValue`; `NotVisible` if an operand isn't
    /// visible at `place`; and `Memory`.
    pub fn put(&mut self, place: Place, header: &TreeOp) -> Result<Event, Refusal>
        requires sound { IsSoundIn self.old.ctx header.now }
        requires bare { holds_none (Some header.now) ≡ true }
        requires unheld { finmap.get self.old.store.held self.old.store.module_of.next ≡ None }
        ensures step { IfOk result (λ e. IsPutStep place e (context_model self.old) (module_in self.old) (module_in self.new)) }
        ensures store { OnOk result (self.new.store ≡ after_put place header.now self.old.store) }
        ensures ctx { self.new.ctx ≡ self.old.ctx }
        ensures refused { MatchResult result (λ _. put_reason (isolated_in self.old.ctx) place header.now self.old.store.module_of.next self.old.store.module_of.tree ≡ None)
            (λ e. IsRefusedFor {A = Unit {0}} (put_reason (isolated_in self.old.ctx) place header.now self.old.store.module_of.next self.old.store.module_of.tree) (Err e)) }
        ensures err { OnErr result (self.new.store ≡ self.old.store) }
    {
        put_in(&self.ctx, &mut self.store, &place, header)
    }

    /// Takes an operation out of the module and returns the event. The operation is held, unchanged.
    ///
    /// Refusals, in order: `NoSuchOp`; `IsRoot`; `NotEmpty`; `HasUses`.
    pub fn take(&mut self, op: OpId) -> Result<Event, Refusal>
        ensures step { IfOk result (λ e. IsTakeStep op e (context_model self.old) (module_in self.old) (module_in self.new)) }
        ensures shown { IfOk result (λ e. ShowsTaken e (module_in self.old) (node_of_op self.new)) }
        ensures store { OnOk result (self.new.store ≡ after_take op self.old.store) }
        ensures ctx { self.new.ctx ≡ self.old.ctx }
        ensures refused { MatchResult result (λ _. take_reason op self.old.store.module_of.tree ≡ None) (λ e. take_reason op self.old.store.module_of.tree ≡ Some e) }
        ensures err { OnErr result (self.new.store ≡ self.old.store) }
    {
        let place = self.store.place(op);
        match self.store.take(op) {
            Ok(()) => {}
            Err(refusal) => return Err(refusal),
        }
        let Some(place) = place else {
            return Err(Refusal::NoSuchOp);
        };
        Ok(Event::Take {
            op,
            place,
            fresh: false,
        })
    }

    /// Sets operand `k` of `op` to `value` and returns the event. Needs no memory.
    ///
    /// Refusals, in order: `NoSuchOp`; `NoSuchIndex` if `op` has no such operand; `NoSuchValue`; `NotVisible` if
    /// `value` isn't visible at `op`.
    pub fn set_operand(&mut self, op: OpId, k: u32, value: Value) -> Result<Event, Refusal>
        ensures step { IfOk result (λ e. IsOperandStep op k value e (context_model self.old) (module_in self.old) (module_in self.new)) }
        ensures store { OnOk result (self.new.store ≡ after_operand op k value self.old.store) }
        ensures ctx { self.new.ctx ≡ self.old.ctx }
        ensures refused { MatchResult result (λ _. set_operand_reason (isolated_in self.old.ctx) op k value self.old.store.module_of.tree ≡ None)
            (λ e. set_operand_reason (isolated_in self.old.ctx) op k value self.old.store.module_of.tree ≡ Some e) }
        ensures err { OnErr result (self.new.store ≡ self.old.store) }
    {
        set_in(&self.ctx, &mut self.store, op, k, &value)
    }

    /// Sets a key of one dictionary of an operation to an attribute, or removes the key, and returns the event. Memory
    /// is needed only if the key has no slot.
    ///
    /// Refusals, in order: `NoSuchOp`; `NoSuchKey` if there is no entry to remove; `Full` if the dictionary is at its
    /// capacity; and `Memory`.
    pub fn set_entry(
        &mut self,
        op: OpId,
        part: Part,
        key: NameId,
        value: Option<AttrId>,
    ) -> Result<Event, Refusal>
        requires key { IsName self.old.ctx key }
        requires value { IfSome value (λ a. IsAttr self.old.ctx a) }
        ensures step { IfOk result (λ e. IsEntryStep op part key value e (context_model self.old) (module_in self.old) (module_in self.new)) }
        ensures store { OnOk result (self.new.store ≡ after_entry (key_before_in self.old.ctx) op part key value self.old.store) }
        ensures ctx { self.new.ctx ≡ self.old.ctx }
        ensures refused { MatchResult result (λ _. set_entry_reason (key_before_in self.old.ctx) op part key value self.old.store.module_of.tree ≡ None)
            (λ e. IsRefusedFor {A = Unit {0}} (set_entry_reason (key_before_in self.old.ctx) op part key value self.old.store.module_of.tree) (Err e)) }
        ensures slot { NeedsNoSlot op part key value self.old.store → IfErr result (λ e. set_entry_reason (key_before_in self.old.ctx) op part key value self.old.store.module_of.tree ≡ Some e) }
        ensures err { OnErr result (self.new.store ≡ self.old.store) }
    {
        enter_in(&self.ctx, &mut self.store, op, &part, key, &value)
    }

    /// Moves `op`, with everything inside it, to `place` and returns the event. Needs no memory.
    ///
    /// Refusals, in order: `NoSuchOp` if `op` or the parent of `place` isn't in the module; `IsRoot`; `NoSuchIndex` if
    /// there is no such place; `IntoItself`; `OtherTable` if the nearest symbol table around `place` is another one;
    /// `TooDeepHere`; `NotVisible` if an operand would no longer be visible.
    pub fn shift(&mut self, op: OpId, place: Place) -> Result<Event, Refusal>
        ensures step { IfOk result (λ e. IsShiftStep op place e (context_model self.old) (module_in self.old) (module_in self.new)) }
        ensures store { OnOk result (self.new.store ≡ after_shift op place self.old.store) }
        ensures ctx { self.new.ctx ≡ self.old.ctx }
        ensures refused { MatchResult result (λ _. shift_reason (isolated_in self.old.ctx) (λ n. is_table (name_term self.old.ctx n)) op place self.old.store.module_of.tree ≡ None)
            (λ e. shift_reason (isolated_in self.old.ctx) (λ n. is_table (name_term self.old.ctx n)) op place self.old.store.module_of.tree ≡ Some e) }
        ensures err { OnErr result (self.new.store ≡ self.old.store) }
    {
        shift_in(&self.ctx, &mut self.store, op, &place)
    }
}

/// Inserts an operation into a store's module and returns the event.
fn put_in(
    ctx: &Context,
    store: &mut Store,
    place: &Place,
    header: &TreeOp,
) -> Result<Event, Refusal>
    requires sound { IsSoundIn ctx.now header.now }
    requires bare { holds_none (Some header.now) ≡ true }
    requires unheld { finmap.get store.old.held store.old.module_of.next ≡ None }
    ensures ok { IfOk result (λ e. (e ≡ Put store.old.module_of.next place.now true) × (store.new ≡ after_put place.now header.now store.old)) }
    ensures refused { MatchResult result (λ _. put_reason (isolated_in ctx.now) place.now header.now store.old.module_of.next store.old.module_of.tree ≡ None)
        (λ e. IsRefusedFor {A = Unit {0}} (put_reason (isolated_in ctx.now) place.now header.now store.old.module_of.next store.old.module_of.tree) (Err e)) }
    ensures wellformed { IsWellFormed (isolated_in ctx.now) store.old.module_of → IsWellFormed (isolated_in ctx.now) store.new.module_of }
    ensures err { OnErr result (store.new ≡ store.old) }
{
    match store.put(ctx, *place, header) {
        Ok(op) => Ok(Event::Put {
            op,
            place: *place,
            fresh: true,
        }),
        Err(refusal) => Err(refusal),
    }
}

/// Sets or removes an entry in a store's module and returns the event.
fn enter_in(
    ctx: &Context,
    store: &mut Store,
    op: OpId,
    part: &Part,
    key: NameId,
    value: &Option<AttrId>,
) -> Result<Event, Refusal>
    requires key { IsName ctx.now key }
    requires value { IfSome value.now (λ a. IsAttr ctx.now a) }
    requires sound { IsSoundIn ctx.now store.old.module_of.tree }
    ensures event { IfOk result (λ e. IsEntryEvent (key_before_in ctx.now) op part.now key value.now store.old.module_of.tree e) }
    ensures store { OnOk result (store.new ≡ after_entry (key_before_in ctx.now) op part.now key value.now store.old) }
    ensures refused { MatchResult result (λ _. set_entry_reason (key_before_in ctx.now) op part.now key value.now store.old.module_of.tree ≡ None)
        (λ e. IsRefusedFor {A = Unit {0}} (set_entry_reason (key_before_in ctx.now) op part.now key value.now store.old.module_of.tree) (Err e)) }
    ensures slot { NeedsNoSlot op part.now key value.now store.old → IfErr result (λ e. set_entry_reason (key_before_in ctx.now) op part.now key value.now store.old.module_of.tree ≡ Some e) }
    ensures sound { IsSoundIn ctx.now store.new.module_of.tree }
    ensures wellformed { IsWellFormed (isolated_in ctx.now) store.old.module_of → IsWellFormed (isolated_in ctx.now) store.new.module_of }
    ensures err { OnErr result (store.new ≡ store.old) }
{
    let Some(old) = entry_of(ctx, store, op, *part, key) else {
        return Err(Refusal::NoSuchOp);
    };
    match store.set_entry(ctx, op, *part, key, *value) {
        Ok(()) => {}
        Err(refusal) => return Err(refusal),
    }
    Ok(Event::SetEntry {
        op,
        part: *part,
        key,
        old,
        new: *value,
    })
}

/// Sets an operand in a store's module and returns the event.
fn set_in(
    ctx: &Context,
    store: &mut Store,
    op: OpId,
    k: u32,
    value: &Value,
) -> Result<Event, Refusal>
    ensures event { IfOk result (λ e. IsOperandEvent op k value.now store.old.module_of.tree e) }
    ensures store { OnOk result (store.new ≡ after_operand op k value.now store.old) }
    ensures refused { MatchResult result (λ _. set_operand_reason (isolated_in ctx.now) op k value.now store.old.module_of.tree ≡ None)
        (λ e. set_operand_reason (isolated_in ctx.now) op k value.now store.old.module_of.tree ≡ Some e) }
    ensures wellformed { IsWellFormed (isolated_in ctx.now) store.old.module_of → IsWellFormed (isolated_in ctx.now) store.new.module_of }
    ensures err { OnErr result (store.new ≡ store.old) }
{
    let old = match store.set_operand(ctx, op, k, *value) {
        Ok(old) => old,
        Err(refusal) => return Err(refusal),
    };
    Ok(Event::SetOperand {
        op,
        k,
        old,
        new: *value,
    })
}

/// Moves an operation in a store's module and returns the event.
fn shift_in(ctx: &Context, store: &mut Store, op: OpId, place: &Place) -> Result<Event, Refusal>
    requires { IsWellFormed (isolated_in ctx.now) store.old.module_of }
    ensures event { IfOk result (λ e. IsShiftEvent op place.now store.old.module_of.tree e) }
    ensures store { OnOk result (store.new ≡ after_shift op place.now store.old) }
    ensures refused { MatchResult result (λ _. shift_reason (isolated_in ctx.now) (λ n. is_table (name_term ctx.now n)) op place.now store.old.module_of.tree ≡ None)
        (λ e. shift_reason (isolated_in ctx.now) (λ n. is_table (name_term ctx.now n)) op place.now store.old.module_of.tree ≡ Some e) }
    ensures wellformed { IsWellFormed (isolated_in ctx.now) store.new.module_of }
    ensures err { OnErr result (store.new ≡ store.old) }
{
    let old = store.place(op);
    match store.shift(ctx, op, *place) {
        Ok(()) => {}
        Err(refusal) => return Err(refusal),
    }
    let Some(old) = old else {
        return Err(Refusal::NoSuchOp);
    };
    Ok(Event::Shift {
        op,
        old,
        new: *place,
    })
}

/// Returns the attribute at a key among entries, or `None` if there is none.
fn entry_among(ctx: &Context, entries: &[(NameId, AttrId)], key: NameId) -> Option<AttrId>
    ensures { result ≡ entry_at (key_before_in ctx.now) key entries.now }
{
    let mut rest = entries;
    while let [entry, tail @ ..] = rest {
        if !comes_before(ctx, key, entry.0) && !comes_before(ctx, entry.0, key) {
            return Some(entry.1);
        }
        rest = tail;
    }
    None
}

/// Returns the attribute at a key of one dictionary of an operation, or `None` if there is no such entry or operation.
fn entry_of(
    ctx: &Context,
    store: &Store,
    op: OpId,
    part: Part,
    key: NameId,
) -> Option<Option<AttrId>>
    ensures { result ≡ entry_in (key_before_in ctx.now) op part key store.now.module_of.tree }
{
    if !store.in_tree(op) {
        return None;
    }
    let node = store.node(op)?;
    match part {
        Part::Props => Some(entry_among(ctx, node.properties(), key)),
        Part::Attrs => Some(entry_among(ctx, node.attributes(), key)),
    }
}
