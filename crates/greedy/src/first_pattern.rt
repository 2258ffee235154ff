//! Tries rules and user patterns at an operation.
ghost use Rattle.std.specs.Prelude.{◌≡◌, is_some, IfOk, IfErr, OnErr, OnOk};
ghost use Rattle.patterns.specs.Applied.{Applied as IsApplied, RewriteOutcome, IsReason as IsFailure};
ghost use Rattle.patterns.specs.RewriterCalls.{Journaled, JournalAfter};
ghost use Rattle.patterns.specs.Held.{module_held};
ghost use Rattle.patterns.specs.runs.Runs.{Noted};
ghost use Rattle.greedy.specs.PatternSet.{OfUserPattern, rule_or_pattern_of, rewrite_by_entry, patterns_of, first_matching_entry, first_applicable_rewrite, traced_as};
ghost use Rattle.user_patterns_data.specs.Shapes.{pattern_model};

use crate::applied_rewrite::AppliedPattern;
use crate::pattern_set::RuleOrPattern;
use ir_event::analysis::Analysis;
use ir_event::types::ids::OpId;
use ir_event::types::refusal::Refusal;
use patterns::rewriter::Bench;
use std::alloc::Global;
use user_patterns_data::depth::is_shallow;
use user_patterns_data::pattern::Pattern;

/// Applies a user pattern at `op`, if the pattern is shallow. A shallow pattern reads no operation further from `op`
/// than the rules do. Returns whether the pattern applied. If it didn't, the module stays the same.
fn try_user_pattern<L: Analysis>(
    alloc: Global,
    bench: &mut Bench<L>,
    pattern: &Pattern,
    op: OpId,
) -> Result<bool, Refusal>
    ensures ok { IfOk result (λ done. RewriteOutcome (rewrite_by_entry (OfUserPattern (pattern_model pattern.now)) (module_held bench.old.transaction) op) done
        (module_held bench.old.transaction) (module_held bench.new.transaction)) }
    ensures err { OnErr result (module_held bench.new.transaction ≡ module_held bench.old.transaction) }
    ensures refused { IfErr result (λ e. IsFailure
        (rewrite_by_entry (OfUserPattern (pattern_model pattern.now)) (module_held bench.old.transaction) op) op
        (module_held bench.old.transaction) bench.new.transaction.ctx e) }
    ensures stays { IsApplied L.meaning bench.old bench.new }
    ensures journal { JournalAfter L.meaning result bench.old bench.new }
{
    bench.is_wellformed();
    if !is_shallow(pattern) {
        return Ok(false);
    }
    user_patterns_apply::apply::apply_pattern(alloc, bench, pattern, op)
}

/// Applies a rule or a user pattern at `op` and returns whether it applied. If it didn't, the module stays the same.
fn apply_pattern<L: Analysis>(
    alloc: Global,
    bench: &mut Bench<L>,
    candidates: &RuleOrPattern<'_>,
    op: OpId,
) -> Result<bool, Refusal>
    ensures ok { IfOk result (λ done. RewriteOutcome (rewrite_by_entry (rule_or_pattern_of candidates.now) (module_held bench.old.transaction) op) done
        (module_held bench.old.transaction) (module_held bench.new.transaction)) }
    ensures err { OnErr result (module_held bench.new.transaction ≡ module_held bench.old.transaction) }
    ensures refused { IfErr result (λ e. IsFailure (rewrite_by_entry (rule_or_pattern_of candidates.now) (module_held bench.old.transaction) op) op
        (module_held bench.old.transaction) bench.new.transaction.ctx e) }
    ensures stays { IsApplied L.meaning bench.old bench.new }
    ensures journal { JournalAfter L.meaning result bench.old bench.new }
{
    match candidates {
        RuleOrPattern::Rule(rule) => patterns::apply::apply(alloc, bench, *rule, op),
        RuleOrPattern::UserPattern(pattern) => try_user_pattern(alloc, bench, pattern, op),
    }
}

/// Returns the `AppliedPattern` that a trace records for the rule or user pattern at index `place`.
fn applied_pattern(place: usize, candidates: &RuleOrPattern<'_>) -> AppliedPattern
    ensures { result ≡ traced_as place (rule_or_pattern_of candidates.now) }
{
    match candidates {
        RuleOrPattern::Rule(rule) => AppliedPattern::Rule(*rule),
        RuleOrPattern::UserPattern(_) => AppliedPattern::UserPattern(place),
    }
}

/// Applies the first entry of a list of rules and user patterns that applies at an operation, and returns that entry.
/// If none applies, the module, its marks and the journal stay the same, and the result is `None`.
///
/// Errors, in order: `NoSuchOp` if the operation isn't in the module; `Full` if the rewrite would exceed the limit of
/// operations; `IdsExhausted` if it would exceed the limit of ids; `Full` if the context is full; `Memory` if memory
/// runs out.
pub(crate) fn apply_first_pattern<L: Analysis>(
    alloc: Global,
    bench: &mut Bench<L>,
    candidates: &[RuleOrPattern<'_>],
    op: OpId,
) -> Result<Option<AppliedPattern>, Refusal>
    ensures ok { IfOk result (λ r. RewriteOutcome (first_applicable_rewrite (patterns_of candidates.now) (module_held bench.old.transaction) op) (is_some r)
        (module_held bench.old.transaction) (module_held bench.new.transaction)) }
    ensures applied { IfOk result
        (λ r. r ≡ first_matching_entry 0 (patterns_of candidates.now) (module_held bench.old.transaction) op) }
    ensures err { OnErr result (module_held bench.new.transaction ≡ module_held bench.old.transaction) }
    ensures refused { IfErr result (λ e. IsFailure
        (first_applicable_rewrite (patterns_of candidates.now) (module_held bench.old.transaction) op) op
        (module_held bench.old.transaction) bench.new.transaction.ctx e) }
    ensures stays { IsApplied L.meaning bench.old bench.new }
    ensures journal { OnOk result (Journaled L.meaning bench.old bench.new) }
    ensures noted { Noted bench.old.transaction bench.new.transaction }
{
    bench.is_wellformed();
    let mut place = 0;
    let mut rest = candidates;
    'candidates: while let [first, tail @ ..] = rest {
        let reported = applied_pattern(place, first);
        let done = apply_pattern(alloc, bench, first, op);
        bench.is_wellformed();
        match done {
            Ok(true) => return Ok(Some(reported)),
            Ok(false) => {}
            Err(refusal) => return Err(refusal),
        }
        place += 1;
        rest = tail;
    }
    Ok(None)
}
