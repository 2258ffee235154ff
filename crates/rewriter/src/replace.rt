//! Replaces all uses of a value.
ghost use Rattle.std.specs.Prelude.{◌≡◌, false, None, OnOk};
ghost use Rattle.ir_event.specs.trees.Uses.{same_value};
ghost use Rattle.rewriter.specs.Contents.{edit_meaning, tests_in};
ghost use Rattle.rewriter.specs.Edits.{Replace, edited_by, reason_by};
ghost use Rattle.rewriter.specs.Machine.{Do};
ghost use Rattle.rewriter.specs.RewriterCalls.{Does, JournalAfter, Led, reply_of};
ghost use Rattle.rewriter.specs.Wholes.{IsDoneOrNoted, Onward};

use crate::bench::Bench;
use crate::faults::replace_fault;
use crate::finish::close_mark;
use crate::laws::led_benches_are_kept;
use ir_event::analysis::Analysis;
use ir_event::trees::uses::is_same;
use ir_event::trees::value::Value;
use ir_event::types::refusal::Refusal;
use rewriter_machine::step_laws::replacing_by_uses;

/// Sets each use of `old` to `new`, another value. The replacement has no reason for a refusal.
fn set_uses<L: Analysis>(bench: &mut Bench<L>, old: &Value, new: &Value) -> Result<(), Refusal>
    requires free { reason_by (tests_in bench.old.transaction.ctx) (Replace old.now new.now) bench.old.transaction.store.module_of
        ≡ None }
    requires differ { same_value old.now new.now ≡ false }
    ensures onward { Onward L.meaning bench.old bench.new }
    ensures ok { OnOk result
        (bench.new.transaction.store.module_of
        ≡ edited_by (tests_in bench.old.transaction.ctx) (Replace old.now new.now) bench.old.transaction.store.module_of) }
    ensures refused { IsDoneOrNoted bench.old.transaction result }
{
    replacing_by_uses::<u32, u32, u32>();
    led_benches_are_kept::<L>();
    bench.is_wellformed();
    'uses: while let Some(site) = bench.world().store.first_use(*old) {
        if let Err(refusal) = bench.set_operand(site.0, site.1, *new) {
            return Err(refusal);
        }
    }
    Ok(())
}

impl<L: Analysis> Bench<L> {
    /// Replaces all uses of `old` by `new`. The types must be equal. If `old` is `new`, nothing changes. A refused call
    /// leaves the module unchanged.
    ///
    /// Refusals, in order: `NoSuchValue` if `old` or `new` isn't a value of the module; `TypeDiffers`; `NotVisible` if
    /// `new` isn't visible at a user of `old` (Language Reference, "Regions", on value scoping); and `Memory` if a mark
    /// is open.
    pub fn replace_all(&mut self, old: Value, new: Value) -> Result<(), Refusal>
        ensures does { Does L.meaning (Do (edit_meaning self.old.transaction.ctx (Replace old new)))
            (reply_of result) self.old self.new }
        ensures led { Led L.meaning self.old self.new }
        ensures ctx { self.new.transaction.ctx ≡ self.old.transaction.ctx }
        ensures journal { JournalAfter L.meaning result self.old self.new }
    {
        led_benches_are_kept::<L>();
        if let Some(refusal) = replace_fault(self.world(), &old, &new) {
            return Err(refusal);
        }
        self.replace_unchecked(old, new)
    }

    /// Replaces all uses of `old` by `new`. Nothing is checked: the replacement has no reason for a refusal. A refused
    /// call leaves the module unchanged.
    ///
    /// Refusals: `Memory` if a mark is open.
    pub fn replace_unchecked(&mut self, old: Value, new: Value) -> Result<(), Refusal>
        requires { reason_by (tests_in self.old.transaction.ctx) (Replace old new) self.old.transaction.store.module_of ≡ None }
        ensures does { Does L.meaning (Do (edit_meaning self.old.transaction.ctx (Replace old new)))
            (reply_of result) self.old self.new }
        ensures led { Led L.meaning self.old self.new }
        ensures ctx { self.new.transaction.ctx ≡ self.old.transaction.ctx }
        ensures journal { JournalAfter L.meaning result self.old self.new }
    {
        replacing_by_uses::<u32, u32, u32>();
        led_benches_are_kept::<L>();
        self.is_wellformed();
        if is_same(&old, &new) {
            return Ok(());
        }
        if !self.is_marked() {
            return set_uses(self, &old, &new);
        }
        if let Err(refusal) = self.step() {
            return Err(refusal);
        }
        match set_uses(self, &old, &new) {
            Ok(()) => {
                close_mark(self, true);
                Ok(())
            }
            Err(refusal) => {
                close_mark(self, false);
                Err(refusal)
            }
        }
    }
}
