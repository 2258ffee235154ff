//! Carries out edits one after another.
ghost use Rattle.std.specs.Prelude.{◌≡◌, OnOk, OnErr, IfErr};
ghost use Rattle.patterns_soundness.specs.base.Contents.{all_edited};
ghost use Rattle.rewriter.specs.RewriterCalls.{Journaled, JournalAfter};
ghost use Rattle.rewriter.specs.Held.{module_held};
ghost use Rattle.patterns_soundness.specs.base.Lists.{AllFit, IsWhy, edits_meaning};
ghost use Rattle.patterns_lowering.specs.Runs.{Along, Noted};

use crate::single::carry_one;
use ir_event::analysis::Analysis;
use ir_event::types::refusal::Refusal;
use patterns_soundness::base::edit::Edit;
use rewriter::Bench;
use rewriter::laws::led_benches_are_kept;

/// Makes edits one after another, until one is refused.
fn carry<L: Analysis>(bench: &mut Bench<L>, edits: &[Edit]) -> Result<(), Refusal>
    requires fits_in { AllFit bench.old.transaction.ctx edits.now }
    ensures ok { OnOk result (module_held bench.new.transaction
        ≡ all_edited (edits_meaning bench.old.transaction.ctx edits.now) (module_held bench.old.transaction)) }
    ensures refused { IfErr result (λ e. IsWhy (edits_meaning bench.old.transaction.ctx edits.now)
        (module_held bench.old.transaction) e) }
    ensures along { Along L.meaning bench.old bench.new }
    ensures journal { OnOk result (Journaled L.meaning bench.old bench.new) }
    ensures noted { OnErr result (Noted bench.old.transaction bench.new.transaction) }
{
    led_benches_are_kept::<L>();
    bench.is_wellformed();
    let mut rest = edits;
    'edits: while let [edit, tail @ ..] = rest {
        if let Err(refusal) = carry_one(bench, edit) {
            return Err(refusal);
        }
        rest = tail;
    }
    Ok(())
}

/// Makes edits one after another. If one is refused, the module and its marks stay the same.
///
/// Errors: the refusal of the first edit that is refused; `Memory`.
pub fn apply_edits<L: Analysis>(bench: &mut Bench<L>, edits: &[Edit]) -> Result<(), Refusal>
    requires fits_in { AllFit bench.old.transaction.ctx edits.now }
    ensures ok { OnOk result (module_held bench.new.transaction
        ≡ all_edited (edits_meaning bench.old.transaction.ctx edits.now) (module_held bench.old.transaction)) }
    ensures err { OnErr result (module_held bench.new.transaction ≡ module_held bench.old.transaction) }
    ensures refused { IfErr result (λ e. IsWhy (edits_meaning bench.old.transaction.ctx edits.now)
        (module_held bench.old.transaction) e) }
    ensures along { Along L.meaning bench.old bench.new }
    ensures journal { JournalAfter L.meaning result bench.old bench.new }
{
    led_benches_are_kept::<L>();
    bench.is_wellformed();
    if let Err(refusal) = bench.step() {
        return Err(refusal);
    }
    match carry(bench, edits) {
        Ok(()) => {
            let _ = bench.commit();
            Ok(())
        }
        Err(refusal) => {
            let _ = bench.rollback();
            Err(refusal)
        }
    }
}
