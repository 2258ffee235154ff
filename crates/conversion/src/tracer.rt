//! Reporting of the applied rules of a conversion, and of the operation that it can't legalize.
ghost use Rattle.std.specs.Prelude.{◌≡◌, List, Option, None, Some, IfErr, OnErr, OnOk, ⊤};
ghost use Rattle.ir_event.specs.types.declared.refusal.Refusal.TheVariants.{Memory as NoMemory};
ghost use Rattle.conversion_base.specs.declared.applied_rule.AppliedRule.{AppliedRule};
ghost use Rattle.conversion.specs.declared.match_failure.MatchFailure.{MatchFailure as Staying};

use crate::match_failure::MatchFailure;
use conversion_base::applied_rule::AppliedRule;
use ir_event::types::refusal::Refusal;

/// Receives the applied rules, in the order in which they were applied, and the reason if an operation can't be
/// legalized.
pub trait Tracer {
    /// Says that the tracer received these applied rules between two of its states.
    ghost reported: { List AppliedRule → Self → Self → Type 0 };

    /// Says that the tracer received the reason why an operation can't be legalized, or received none.
    ghost stayed: { Option Staying → Self → Self → Type 0 };

    ghost untouched: { (t : Self) → stayed None t t };

    /// Receives all applied rules. If this is refused, the tracer received no match failure.
    fn record_rules(&mut self, applied: &[AppliedRule]) -> Result<(), Refusal>
        ensures reported { OnOk result (reported applied.now self.old self.new) }
        ensures reports_nothing { OnErr result (stayed None self.old self.new) }
        ensures refused { IfErr result (λ e. e ≡ NoMemory) };

    /// Receives the reason why an operation can't be legalized.
    fn match_failed(&mut self, failure: MatchFailure)
        ensures { stayed (Some failure) self.old self.new };
}

/// A tracer that ignores everything.
#[derive(Drop)]
pub struct NoTracer;

impl Tracer for NoTracer {
    ghost reported = { λ ks a b. ⊤ };

    ghost stayed = { λ s a b. ⊤ };

    ghost untouched = { λ t. tt };

    fn record_rules(&mut self, _located: &[AppliedRule]) -> Result<(), Refusal> {
        Ok(())
    }

    fn match_failed(&mut self, _stay: MatchFailure) {}
}
