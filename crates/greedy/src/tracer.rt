//! Recording of the rewrites of a run.
ghost use Rattle.std.specs.Prelude.{◌≡◌, ◌++◌, ◌∷◌, [], List, IfErr, OnOk, ⊤};
ghost use Rattle.ir_event.specs.types.declared.refusal.Refusal.TheVariants.{Memory as NoMemory};
ghost use Rattle.greedy.specs.declared.applied_rewrite.AppliedRewrite.{AppliedRewrite};

use crate::applied_rewrite::AppliedRewrite;
use ir_event::types::refusal::Refusal;

/// A recorder of rewrites.
pub trait Tracer {
    /// Says that the recorder recorded the listed rewrites, in order, between two of its states.
    ghost traced: { List AppliedRewrite → Self → Self → Type 0 };

    ghost untouched: { (t : Self) → traced [] t t };

    ghost joined: { (fs gs : List AppliedRewrite) (a b d : Self) → traced fs a b → traced gs b d → traced (fs ++ gs) a d };

    /// Records one rewrite.
    fn record_rewrite(&mut self, applied: AppliedRewrite) -> Result<(), Refusal>
        ensures reported { OnOk result (traced (applied ∷ []) self.old self.new) }
        ensures refused { IfErr result (λ e. e ≡ NoMemory) };
}

/// A tracer that records nothing.
#[derive(Drop)]
pub struct NoTracer;

impl Tracer for NoTracer {
    ghost traced = { λ fs a b. ⊤ };

    ghost untouched = { λ t. tt };

    ghost joined = { λ fs gs a b d f g. tt };

    fn record_rewrite(&mut self, _applied: AppliedRewrite) -> Result<(), Refusal> {
        Ok(())
    }
}

impl Tracer for Vec<AppliedRewrite> {
    ghost use Rattle.greedy.specs.Traced.{joined_items, untouched_items};

    ghost traced = { λ fs a b. b.items ≡ a.items ++ fs };

    ghost untouched = { λ t. untouched_items t.items };

    ghost joined = { λ fs gs a b d f g. joined_items fs gs a.items b.items d.items f g };

    fn record_rewrite(&mut self, applied: AppliedRewrite) -> Result<(), Refusal> {
        match self.push(applied) {
            Ok(()) => Ok(()),
            Err(_) => Err(Refusal::Memory),
        }
    }
}
