//! Erases an operation with everything inside it.
ghost use Rattle.std.specs.Prelude.{◌≡◌, None, OnOk};
ghost use Rattle.rewriter.specs.Contents.{edit_meaning, tests_in};
ghost use Rattle.rewriter.specs.Edits.{Erase, edited_by, reason_by};
ghost use Rattle.rewriter.specs.Machine.{Do};
ghost use Rattle.rewriter.specs.RewriterCalls.{Does, JournalAfter, Led, reply_of};
ghost use Rattle.rewriter.specs.Wholes.{IsDoneOrNoted, Onward};

use crate::bench::Bench;
use crate::faults::erase_fault;
use crate::finish::close_mark;
use crate::laws::led_benches_are_kept;
use ir_event::analysis::Analysis;
use ir_event::types::ids::OpId;
use ir_event::types::refusal::Refusal;
use rewriter_machine::step_laws::erasing_by_last;

/// Takes out an operation and those inside it, the last in pre-order first. Erasing it has no reason for a refusal.
fn take_all<L: Analysis>(bench: &mut Bench<L>, op: OpId) -> Result<(), Refusal>
    requires { reason_by (tests_in bench.old.transaction.ctx) (Erase op) bench.old.transaction.store.module_of ≡ None }
    ensures onward { Onward L.meaning bench.old bench.new }
    ensures ok { OnOk result
        (bench.new.transaction.store.module_of
        ≡ edited_by (tests_in bench.old.transaction.ctx) (Erase op) bench.old.transaction.store.module_of) }
    ensures refused { IsDoneOrNoted bench.old.transaction result }
{
    erasing_by_last::<u32, u32, u32>();
    led_benches_are_kept::<L>();
    bench.is_wellformed();
    'rest: while let Some(last) = bench.world().store.last_within(op) {
        if let Err(refusal) = bench.take(last) {
            return Err(refusal);
        }
        if last == op {
            return Ok(());
        }
    }
    Ok(())
}

impl<L: Analysis> Bench<L> {
    /// Removes `op` and everything inside it from the module. A refused call leaves the module unchanged. An operation
    /// that is empty and unused, the common case, is taken out directly.
    ///
    /// Refusals, in order: `NoSuchOp`; `IsRoot`; `HasUses` if an operation outside of `op` uses a value defined inside;
    /// and `Memory` if a mark is open.
    pub fn erase(&mut self, op: OpId) -> Result<(), Refusal>
        ensures does { Does L.meaning (Do (edit_meaning self.old.transaction.ctx (Erase op)))
            (reply_of result) self.old self.new }
        ensures led { Led L.meaning self.old self.new }
        ensures ctx { self.new.transaction.ctx ≡ self.old.transaction.ctx }
        ensures journal { JournalAfter L.meaning result self.old self.new }
    {
        self.is_wellformed();
        match self.take(op) {
            Ok(()) => Ok(()),
            Err(_) => self.erase_whole(op),
        }
    }

    /// Removes `op` and everything inside it from the module. Nothing is checked: erasing it has no reason for a
    /// refusal. A refused call leaves the module unchanged.
    ///
    /// Refusals: `Memory` if a mark is open.
    pub fn erase_unchecked(&mut self, op: OpId) -> Result<(), Refusal>
        requires { reason_by (tests_in self.old.transaction.ctx) (Erase op) self.old.transaction.store.module_of ≡ None }
        ensures does { Does L.meaning (Do (edit_meaning self.old.transaction.ctx (Erase op)))
            (reply_of result) self.old self.new }
        ensures led { Led L.meaning self.old self.new }
        ensures ctx { self.new.transaction.ctx ≡ self.old.transaction.ctx }
        ensures journal { JournalAfter L.meaning result self.old self.new }
    {
        match self.take(op) {
            Ok(()) => Ok(()),
            Err(_) => self.erase_inside(op),
        }
    }

    /// Removes `op` and everything inside it from the module. The reasons for a refusal are checked first.
    fn erase_whole(&mut self, op: OpId) -> Result<(), Refusal>
        ensures does { Does L.meaning (Do (edit_meaning self.old.transaction.ctx (Erase op)))
            (reply_of result) self.old self.new }
        ensures led { Led L.meaning self.old self.new }
        ensures ctx { self.new.transaction.ctx ≡ self.old.transaction.ctx }
        ensures journal { JournalAfter L.meaning result self.old self.new }
    {
        led_benches_are_kept::<L>();
        if let Some(refusal) = erase_fault(self.world(), op) {
            return Err(refusal);
        }
        self.erase_inside(op)
    }

    /// Takes out `op` and the operations inside it. If a mark is open, they are taken out under a mark of this call.
    fn erase_inside(&mut self, op: OpId) -> Result<(), Refusal>
        requires { reason_by (tests_in self.old.transaction.ctx) (Erase op) self.old.transaction.store.module_of ≡ None }
        ensures does { Does L.meaning (Do (edit_meaning self.old.transaction.ctx (Erase op)))
            (reply_of result) self.old self.new }
        ensures led { Led L.meaning self.old self.new }
        ensures ctx { self.new.transaction.ctx ≡ self.old.transaction.ctx }
        ensures journal { JournalAfter L.meaning result self.old self.new }
    {
        led_benches_are_kept::<L>();
        self.is_wellformed();
        if !self.is_marked() {
            return take_all(self, op);
        }
        if let Err(refusal) = self.step() {
            return Err(refusal);
        }
        match take_all(self, op) {
            Ok(()) => {
                close_mark(self, true);
                Ok(())
            }
            Err(refusal) => {
                close_mark(self, false);
                Err(refusal)
            }
        }
    }
}
