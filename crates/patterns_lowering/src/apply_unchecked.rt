//! Carries out edits that aren't refused, one after another.
ghost use Rattle.std.specs.Prelude.{◌≡◌, OnOk, OnErr, IfErr};
ghost use Rattle.patterns_soundness.specs.base.Contents.{all_edited};
ghost use Rattle.rewriter.specs.RewriterCalls.{Journaled, JournalAfter};
ghost use Rattle.rewriter.specs.Held.{module_held};
ghost use Rattle.patterns_soundness.specs.base.Lists.{AllFit, Free, IsWhy, edits_meaning};
ghost use Rattle.patterns_lowering.specs.Runs.{Along, Noted};

use crate::single_unchecked::carry_unchecked;
use ir_event::analysis::Analysis;
use ir_event::types::refusal::Refusal;
use patterns_soundness::base::edit::Edit;
use rewriter::Bench;
use rewriter::laws::led_benches_are_kept;

/// Makes edits one after another that aren't refused, until memory runs out.
fn carry_all<L: Analysis>(bench: &mut Bench<L>, edits: &[Edit]) -> Result<(), Refusal>
    requires fits_in { AllFit bench.old.transaction.ctx edits.now }
    requires free { Free (edits_meaning bench.old.transaction.ctx edits.now) (module_held bench.old.transaction) }
    ensures ok { OnOk result (module_held bench.new.transaction
        ≡ all_edited (edits_meaning bench.old.transaction.ctx edits.now) (module_held bench.old.transaction)) }
    ensures refused { IfErr result (λ e. IsWhy (edits_meaning bench.old.transaction.ctx edits.now)
        (module_held bench.old.transaction) e) }
    ensures along { Along L.meaning bench.old bench.new }
    ensures journal { OnOk result (Journaled L.meaning bench.old bench.new) }
    ensures noted { OnErr result (Noted bench.old.transaction bench.new.transaction) }
{
    led_benches_are_kept::<L>();
    bench.is_wellformed();
    let mut rest = edits;
    'edits: while let [edit, tail @ ..] = rest {
        if let Err(refusal) = carry_unchecked(bench, edit) {
            return Err(refusal);
        }
        rest = tail;
    }
    Ok(())
}

/// Makes edits one after another. None of them has a reason for a refusal, so insertions, moves, replacements and
/// erasures aren't checked. If memory runs out, the module and its marks stay the same.
///
/// Errors: `Memory`.
pub fn apply_unchecked<L: Analysis>(bench: &mut Bench<L>, edits: &[Edit]) -> Result<(), Refusal>
    requires fits_in { AllFit bench.old.transaction.ctx edits.now }
    requires free { Free (edits_meaning bench.old.transaction.ctx edits.now) (module_held bench.old.transaction) }
    ensures ok { OnOk result (module_held bench.new.transaction
        ≡ all_edited (edits_meaning bench.old.transaction.ctx edits.now) (module_held bench.old.transaction)) }
    ensures err { OnErr result (module_held bench.new.transaction ≡ module_held bench.old.transaction) }
    ensures refused { IfErr result (λ e. IsWhy (edits_meaning bench.old.transaction.ctx edits.now)
        (module_held bench.old.transaction) e) }
    ensures along { Along L.meaning bench.old bench.new }
    ensures journal { JournalAfter L.meaning result bench.old bench.new }
{
    led_benches_are_kept::<L>();
    bench.is_wellformed();
    if let Err(refusal) = bench.step() {
        return Err(refusal);
    }
    match carry_all(bench, edits) {
        Ok(()) => {
            let _ = bench.commit();
            Ok(())
        }
        Err(refusal) => {
            let _ = bench.rollback();
            Err(refusal)
        }
    }
}
