//! Finds the reason why an operation can't be legalized.
ghost use Rattle.std.specs.Prelude.{◌≡◌, IfErr, IfOk};
ghost use Rattle.ir_event.specs.types.declared.refusal.Refusal.TheVariants.{Memory as NoMemory};
ghost use Rattle.conversion.specs.MatchFailures.{last_rule, match_failure_by};

use crate::conversion_rewriter::RuleApplier;
use crate::match_failure::MatchFailure;
use conversion_base::rule::Rule;
use conversion_base::target::Target;
use ir_event::types::ids::OpId;
use ir_event::types::refusal::Refusal;
use std::alloc::Global;

/// Returns the last of some rules.
fn last_of(rules: &[Rule]) -> Option<Rule>
    ensures { result ≡ last_rule rules.now }
{
    let [first, others @ ..] = rules else {
        return None;
    };
    let mut last = *first;
    let mut rest = others;
    'rules: while let [rule, tail @ ..] = rest {
        last = *rule;
        rest = tail;
    }
    Some(last)
}

/// Returns the reason why no rule of a target legalizes `op`.
pub(crate) fn match_failure_at<B: RuleApplier>(
    alloc: Global,
    bench: &B,
    target: &Target,
    op: OpId,
) -> Result<MatchFailure, Refusal>
    ensures ok { IfOk result (λ s. s ≡ match_failure_by (last_rule target.now.rules) (B.state bench.now).held op) }
    ensures refused { IfErr result (λ e. e ≡ NoMemory) }
{
    let Some(rule) = last_of(target.rules.as_slice()) else {
        return Ok(MatchFailure::NoRule);
    };
    match bench.reason(alloc, rule, op) {
        Ok(Some(condition)) => Ok(MatchFailure::ConditionFails(rule, condition)),
        Ok(None) => Ok(MatchFailure::MakesIllegal(rule)),
        Err(refusal) => Err(refusal),
    }
}
