//! Edits of one event each. The listeners are notified of the event.
ghost use Rattle.std.specs.Prelude.{◌≡◌, ◌≢◌, [], Some, None, true, IfOk, OnOk, OnErr};
ghost use Rattle.ir_event.specs.types.Terms.{name_term};
ghost use Rattle.ir_event.specs.types.Words.{is_table};
ghost use Rattle.ir_event.specs.trees.Meaning.{IsSoundIn, isolated_in};
ghost use Rattle.ir_event.specs.tree_laws.Reasons.{holds_none, put_reason};
ghost use Rattle.ir_event.specs.tree_laws.Reasons.{set_operand_reason, shift_reason, take_reason};
ghost use Rattle.ir_event.specs.store.Calls.{after_operand, after_put, after_shift, after_take};
ghost use Rattle.rewriter.specs.Contents.{edit_meaning, tests_in};
ghost use Rattle.rewriter.specs.Edits.{Make, Move, SetOperand, reason_by};
ghost use Rattle.rewriter.specs.Machine.{Do};
ghost use Rattle.rewriter.specs.Moves.{IsAnswered};
ghost use Rattle.rewriter.specs.RewriterCalls.{Does, JournalAfter, Led, Made, id_reply_of, reply_of};

use crate::bench::Bench;
use crate::marks::settle;
use ir_event::analysis::Analysis;
use ir_event::trees::place::Place;
use ir_event::trees::tree::TreeOp;
use ir_event::trees::value::Value;
use ir_event::types::ids::OpId;
use ir_event::types::refusal::Refusal;

impl<L: Analysis> Bench<L> {
    /// Inserts an operation like `header` at `place` and returns its id, which is the next free id. The blocks of
    /// `header` hold no operations, and the id of `header` is ignored.
    ///
    /// Refusals, in this order: `NoSuchOp` if the parent of `place` isn't in the module; `NoSuchIndex` if the parent
    /// has no such place; `Full`; `IdsExhausted`; `TooDeepHere`; `NoSuchValue`; `NotVisible` if an operand isn't
    /// visible at `place` (Language Reference, "Regions", on value scoping); and `Memory`.
    pub fn make(&mut self, place: Place, header: &TreeOp) -> Result<OpId, Refusal>
        requires sound { IsSoundIn self.old.transaction.ctx header.now }
        requires bare { holds_none (Some header.now) ≡ true }
        ensures id { IfOk result (λ x. x ≡ self.old.transaction.store.module_of.next) }
        ensures ok { OnOk result (Made L.meaning (after_put place header.now self.old.transaction.store) self.old self.new) }
        ensures refused { IsAnswered (Unit {0})
            (put_reason (isolated_in self.old.transaction.ctx) place header.now self.old.transaction.store.module_of.next
            self.old.transaction.store.module_of.tree) result }
        ensures err { OnErr result (self.new ≡ self.old) }
        ensures does { Does L.meaning (Do (edit_meaning self.old.transaction.ctx (Make place header.now)))
            (id_reply_of result) self.old self.new }
        ensures led { Led L.meaning self.old self.new }
        ensures ctx { self.new.transaction.ctx ≡ self.old.transaction.ctx }
        ensures journal { JournalAfter L.meaning result self.old self.new }
    {
        let op = OpId::new(self.transaction.world().store.next_id());
        match self.transaction.put(place, header) {
            Err(refusal) => Err(refusal),
            Ok(event) => {
                self.panel.tell(self.transaction.world(), event);
                settle(&mut self.transaction);
                Ok(op)
            }
        }
    }

    /// Inserts an operation like `header` at `place` and returns its id, which is the next free id. Nothing is checked:
    /// the insertion has no reason for a refusal.
    ///
    /// Refusals: `Memory`.
    pub fn make_unchecked(&mut self, place: Place, header: &TreeOp) -> Result<OpId, Refusal>
        requires sound { IsSoundIn self.old.transaction.ctx header.now }
        requires bare { holds_none (Some header.now) ≡ true }
        requires free { reason_by (tests_in self.old.transaction.ctx) (Make place header.now)
            self.old.transaction.store.module_of ≡ None }
        ensures does { Does L.meaning (Do (edit_meaning self.old.transaction.ctx (Make place header.now)))
            (id_reply_of result) self.old self.new }
        ensures led { Led L.meaning self.old self.new }
        ensures ctx { self.new.transaction.ctx ≡ self.old.transaction.ctx }
        ensures journal { JournalAfter L.meaning result self.old self.new }
    {
        let op = OpId::new(self.transaction.world().store.next_id());
        match self.transaction.put_unchecked(place, header) {
            Err(refusal) => Err(refusal),
            Ok(event) => {
                self.panel.tell(self.transaction.world(), event);
                settle(&mut self.transaction);
                Ok(op)
            }
        }
    }

    /// Takes an operation with no operations inside it out of the module. It is held while a mark is open.
    ///
    /// Refusals, in order: `NoSuchOp`; `IsRoot`; `NotEmpty` if a block of `op` holds operations; `HasUses` if a value
    /// of `op` is used; and `Memory` if a mark is open.
    pub(crate) fn take(&mut self, op: OpId) -> Result<(), Refusal>
        ensures ok { OnOk result (Made L.meaning (after_take op self.old.transaction.store) self.old self.new) }
        ensures refused { IsAnswered (self.old.transaction.marks ≢ [])
            (take_reason op self.old.transaction.store.module_of.tree) result }
        ensures err { OnErr result (self.new ≡ self.old) }
        ensures led { Led L.meaning self.old self.new }
        ensures ctx { self.new.transaction.ctx ≡ self.old.transaction.ctx }
        ensures journal { JournalAfter L.meaning result self.old self.new }
    {
        match self.transaction.take(op) {
            Err(refusal) => Err(refusal),
            Ok(event) => {
                self.panel.tell(self.transaction.world(), event);
                settle(&mut self.transaction);
                Ok(())
            }
        }
    }

    /// Sets operand `k` of `op` to `value`. The types may differ.
    ///
    /// Refusals, in order: `NoSuchOp`; `NoSuchIndex` if `op` has no such operand; `NoSuchValue`; `NotVisible` if
    /// `value` isn't visible at `op` (Language Reference, "Regions", on value scoping); and `Memory` if a mark is open.
    pub fn set_operand(&mut self, op: OpId, k: u32, value: Value) -> Result<(), Refusal>
        ensures ok { OnOk result (Made L.meaning (after_operand op k value self.old.transaction.store) self.old self.new) }
        ensures refused { IsAnswered (self.old.transaction.marks ≢ [])
            (set_operand_reason (isolated_in self.old.transaction.ctx) op k value self.old.transaction.store.module_of.tree) result }
        ensures err { OnErr result (self.new ≡ self.old) }
        ensures does { Does L.meaning (Do (edit_meaning self.old.transaction.ctx (SetOperand op k value)))
            (reply_of result) self.old self.new }
        ensures led { Led L.meaning self.old self.new }
        ensures ctx { self.new.transaction.ctx ≡ self.old.transaction.ctx }
        ensures journal { JournalAfter L.meaning result self.old self.new }
    {
        match self.transaction.set_operand(op, k, value) {
            Err(refusal) => Err(refusal),
            Ok(event) => {
                self.panel.tell(self.transaction.world(), event);
                settle(&mut self.transaction);
                Ok(())
            }
        }
    }

    /// Moves `op`, with everything inside it, to `place`.
    ///
    /// Refusals, in order: `NoSuchOp` if `op` or the parent of `place` isn't in the module; `IsRoot`; `NoSuchIndex` if
    /// there is no such place; `IntoItself`; `OtherTable` if the nearest symbol table around `place` is another one;
    /// `TooDeepHere`; `NotVisible` if an operand of the module would no longer be visible; and `Memory` if a mark is
    /// open.
    pub fn move_op(&mut self, op: OpId, place: Place) -> Result<(), Refusal>
        ensures ok { OnOk result (Made L.meaning (after_shift op place self.old.transaction.store) self.old self.new) }
        ensures refused { IsAnswered (self.old.transaction.marks ≢ [])
            (shift_reason (isolated_in self.old.transaction.ctx)
            (λ n. is_table (name_term self.old.transaction.ctx n)) op place self.old.transaction.store.module_of.tree) result }
        ensures err { OnErr result (self.new ≡ self.old) }
        ensures does { Does L.meaning (Do (edit_meaning self.old.transaction.ctx (Move op place)))
            (reply_of result) self.old self.new }
        ensures led { Led L.meaning self.old self.new }
        ensures ctx { self.new.transaction.ctx ≡ self.old.transaction.ctx }
        ensures journal { JournalAfter L.meaning result self.old self.new }
    {
        match self.transaction.shift(op, place) {
            Err(refusal) => Err(refusal),
            Ok(event) => {
                self.panel.tell(self.transaction.world(), event);
                settle(&mut self.transaction);
                Ok(())
            }
        }
    }

    /// Moves `op`, with everything inside it, to `place`. Nothing is checked: the move has no reason for a refusal.
    ///
    /// Refusals: `Memory` if a mark is open.
    pub fn move_unchecked(&mut self, op: OpId, place: Place) -> Result<(), Refusal>
        requires { reason_by (tests_in self.old.transaction.ctx) (Move op place) self.old.transaction.store.module_of ≡ None }
        ensures does { Does L.meaning (Do (edit_meaning self.old.transaction.ctx (Move op place)))
            (reply_of result) self.old self.new }
        ensures led { Led L.meaning self.old self.new }
        ensures ctx { self.new.transaction.ctx ≡ self.old.transaction.ctx }
        ensures journal { JournalAfter L.meaning result self.old self.new }
    {
        match self.transaction.shift_unchecked(op, place) {
            Err(refusal) => Err(refusal),
            Ok(event) => {
                self.panel.tell(self.transaction.world(), event);
                settle(&mut self.transaction);
                Ok(())
            }
        }
    }
}
