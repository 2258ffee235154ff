//! Edits of a transaction. Each edit first reserves capacity in the journal, so that recording an accepted edit can't
//! fail.
ghost use Rattle.std.specs.Prelude.{◌≡◌, ◌≢◌, [], Some, None, true, IfOk, IfErr, IfSome, OnErr};
ghost use Rattle.ir_event.specs.types.Terms.{name_term};
ghost use Rattle.ir_event.specs.types.Things.{IsName, IsAttr};
ghost use Rattle.ir_event.specs.types.Words.{is_table};
ghost use Rattle.ir_event.specs.trees.Meaning.{IsSoundIn, isolated_in, key_before_in};
ghost use Rattle.ir_event.specs.tree_laws.Reasons.{holds_none, put_reason, set_entry_reason, set_operand_reason};
ghost use Rattle.ir_event.specs.tree_laws.Reasons.{shift_reason, take_reason};
ghost use Rattle.ir_event.specs.store.Calls.{after_entry, after_operand, after_put, after_shift, after_take};
ghost use Rattle.ir_event.specs.declared.event.Event.TheVariants.{Put};
ghost use Rattle.rewriter_machine.specs.Journals.{HasNoStaleIds};
ghost use Rattle.rewriter.specs.Moves.{Edited, IsAnswered};

use crate::claims::{claim, note};
use crate::moving::shift_unchecked;
use crate::putting::put_unchecked;
use crate::transaction::Transaction;
use ir_event::event::Event;
use ir_event::trees::place::{Part, Place};
use ir_event::trees::tree::TreeOp;
use ir_event::trees::value::Value;
use ir_event::types::ids::{AttrId, NameId, OpId};
use ir_event::types::refusal::Refusal;

impl Transaction {
    /// Inserts an operation like `header` at `place` and returns the event. The id of the operation is the next free
    /// one. The blocks of `header` hold no operations, and the id of `header` is ignored.
    ///
    /// Refusals: those of the same edit of `World`; `Memory`.
    pub fn put(&mut self, place: Place, header: &TreeOp) -> Result<Event, Refusal>
        requires sound { IsSoundIn self.old.ctx header.now }
        requires bare { holds_none (Some header.now) ≡ true }
        requires tidy { HasNoStaleIds self.old.store }
        ensures ok { IfOk result (λ e. Edited e (after_put place header.now self.old.store) self.old self.new) }
        ensures event { IfOk result (λ e. e ≡ Put self.old.store.module_of.next place true) }
        ensures err { OnErr result (self.new ≡ self.old) }
        ensures refused { IsAnswered (Unit {0})
            (put_reason (isolated_in self.old.ctx) place header.now self.old.store.module_of.next
            self.old.store.module_of.tree) result }
        ensures tidy { HasNoStaleIds self.new.store }
    {
        let Ok(()) = claim(&mut self.journal, &self.marks) else {
            return Err(Refusal::Memory);
        };
        self.world.ctx.sound();
        let made = self.world.put(place, header);
        note(&mut self.journal, &self.marks, &made);
        made
    }

    /// Inserts an operation like `header` at `place` and returns the event, without checks. The insertion has no reason
    /// for a refusal.
    ///
    /// Refusals: `Memory`.
    pub fn put_unchecked(&mut self, place: Place, header: &TreeOp) -> Result<Event, Refusal>
        requires sound { IsSoundIn self.old.ctx header.now }
        requires bare { holds_none (Some header.now) ≡ true }
        requires tidy { HasNoStaleIds self.old.store }
        requires free { put_reason (isolated_in self.old.ctx) place header.now self.old.store.module_of.next
            self.old.store.module_of.tree ≡ None }
        ensures ok { IfOk result (λ e. Edited e (after_put place header.now self.old.store) self.old self.new) }
        ensures event { IfOk result (λ e. e ≡ Put self.old.store.module_of.next place true) }
        ensures err { OnErr result (self.new ≡ self.old) }
        ensures refused { IfErr result (λ e. e ≡ Refusal.Memory) }
        ensures tidy { HasNoStaleIds self.new.store }
    {
        let Ok(()) = claim(&mut self.journal, &self.marks) else {
            return Err(Refusal::Memory);
        };
        self.world.ctx.sound();
        let made = put_unchecked(&mut self.world, place, header);
        note(&mut self.journal, &self.marks, &made);
        made
    }

    /// Takes an operation out of the module and returns the event. The operation is held, unchanged.
    ///
    /// Refusals: those of the same edit of `World`; `Memory` if a mark is open.
    pub fn take(&mut self, op: OpId) -> Result<Event, Refusal>
        ensures ok { IfOk result (λ e. Edited e (after_take op self.old.store) self.old self.new) }
        ensures err { OnErr result (self.new ≡ self.old) }
        ensures refused { IsAnswered (self.old.marks ≢ []) (take_reason op self.old.store.module_of.tree) result }
        ensures tidy { HasNoStaleIds self.old.store → HasNoStaleIds self.new.store }
    {
        let Ok(()) = claim(&mut self.journal, &self.marks) else {
            return Err(Refusal::Memory);
        };
        self.world.ctx.sound();
        let made = self.world.take(op);
        note(&mut self.journal, &self.marks, &made);
        made
    }

    /// Sets operand `k` of `op` to `value` and returns the event.
    ///
    /// Refusals: those of the same edit of `World`; `Memory` if a mark is open.
    pub fn set_operand(&mut self, op: OpId, k: u32, value: Value) -> Result<Event, Refusal>
        ensures ok { IfOk result (λ e. Edited e (after_operand op k value self.old.store) self.old self.new) }
        ensures err { OnErr result (self.new ≡ self.old) }
        ensures refused { IsAnswered (self.old.marks ≢ [])
            (set_operand_reason (isolated_in self.old.ctx) op k value self.old.store.module_of.tree) result }
        ensures tidy { HasNoStaleIds self.old.store → HasNoStaleIds self.new.store }
    {
        let Ok(()) = claim(&mut self.journal, &self.marks) else {
            return Err(Refusal::Memory);
        };
        self.world.ctx.sound();
        let made = self.world.set_operand(op, k, value);
        note(&mut self.journal, &self.marks, &made);
        made
    }

    /// Sets a key of one dictionary of `op` to an attribute, or removes the key, and returns the event.
    ///
    /// Refusals: those of the same edit of `World`; `Memory`.
    pub fn set_entry(
        &mut self,
        op: OpId,
        part: Part,
        key: NameId,
        value: Option<AttrId>,
    ) -> Result<Event, Refusal>
        requires key { IsName self.old.ctx key }
        requires value { IfSome value (λ a. IsAttr self.old.ctx a) }
        ensures ok { IfOk result
            (λ e. Edited e (after_entry
            (key_before_in self.old.ctx) op part key value self.old.store) self.old self.new) }
        ensures err { OnErr result (self.new ≡ self.old) }
        ensures refused { IsAnswered (Unit {0})
            (set_entry_reason (key_before_in self.old.ctx) op part key value self.old.store.module_of.tree) result }
        ensures tidy { HasNoStaleIds self.old.store → HasNoStaleIds self.new.store }
    {
        let Ok(()) = claim(&mut self.journal, &self.marks) else {
            return Err(Refusal::Memory);
        };
        self.world.ctx.sound();
        let made = self.world.set_entry(op, part, key, value);
        note(&mut self.journal, &self.marks, &made);
        made
    }

    /// Moves `op`, with everything inside it, to `place` and returns the event.
    ///
    /// Refusals: those of the same edit of `World`; `Memory` if a mark is open.
    pub fn shift(&mut self, op: OpId, place: Place) -> Result<Event, Refusal>
        ensures ok { IfOk result (λ e. Edited e (after_shift op place self.old.store) self.old self.new) }
        ensures err { OnErr result (self.new ≡ self.old) }
        ensures refused { IsAnswered (self.old.marks ≢ [])
            (shift_reason (isolated_in self.old.ctx)
            (λ n. is_table (name_term self.old.ctx n)) op place self.old.store.module_of.tree) result }
        ensures tidy { HasNoStaleIds self.old.store → HasNoStaleIds self.new.store }
    {
        let Ok(()) = claim(&mut self.journal, &self.marks) else {
            return Err(Refusal::Memory);
        };
        self.world.ctx.sound();
        let made = self.world.shift(op, place);
        note(&mut self.journal, &self.marks, &made);
        made
    }

    /// Moves `op`, with everything inside it, to `place` and returns the event, without checks. The move has no reason
    /// for a refusal.
    ///
    /// Refusals: `Memory` if a mark is open.
    pub fn shift_unchecked(&mut self, op: OpId, place: Place) -> Result<Event, Refusal>
        requires { shift_reason (isolated_in self.old.ctx)
            (λ n. is_table (name_term self.old.ctx n)) op place self.old.store.module_of.tree ≡ None }
        ensures ok { IfOk result (λ e. Edited e (after_shift op place self.old.store) self.old self.new) }
        ensures err { OnErr result (self.new ≡ self.old) }
        ensures refused { IfErr result (λ e. (e ≡ Refusal.Memory) × (self.old.marks ≢ [])) }
        ensures tidy { HasNoStaleIds self.old.store → HasNoStaleIds self.new.store }
    {
        let Ok(()) = claim(&mut self.journal, &self.marks) else {
            return Err(Refusal::Memory);
        };
        self.world.ctx.sound();
        let made = shift_unchecked(&mut self.world, op, place);
        note(&mut self.journal, &self.marks, &made);
        made
    }
}
