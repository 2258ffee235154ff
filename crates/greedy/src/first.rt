//! Applies the first entry of a list that applies at an operation.
ghost use Rattle.std.specs.Prelude.{◌≡◌, IfOk, IfErr, OnErr, OnOk, is_some, option_map};
ghost use Rattle.patterns.specs.Applied.{Applied as IsApplied, RewriteOutcome, IsReason as IsFailure};
ghost use Rattle.patterns.specs.RewriterCalls.{Journaled};
ghost use Rattle.patterns.specs.Held.{module_held};
ghost use Rattle.patterns.specs.runs.Runs.{Noted};
ghost use Rattle.greedy.specs.Ruled.{MayTry, model_of};
ghost use Rattle.greedy.specs.declared.applied_rewrite.AppliedPattern.TheVariants as by;

use crate::applied_rewrite::AppliedPattern;
use crate::first_pattern::apply_first_pattern;
use crate::pattern_set::Entries;
use ir_event::analysis::Analysis;
use ir_event::types::ids::OpId;
use ir_event::types::refusal::Refusal;
use patterns::apply_first::apply_first as apply_first_rule;
use patterns::apply_highest_priority::apply_highest_priority;
use patterns::rewriter::Bench;
use patterns_base::rule::Rule;
use std::alloc::Global;

/// Converts a rule to the `AppliedPattern` that a trace records.
fn applied_rule(rule: Option<Rule>) -> Option<AppliedPattern>
    ensures reported { result ≡ option_map by.Rule rule }
    ensures some { is_some result ≡ is_some rule }
{
    match rule {
        Some(rule) => Some(AppliedPattern::Rule(rule)),
        None => None,
    }
}

/// Applies the first entry that applies at `op`, and returns that entry. If none applies, the module, its marks and the
/// journal stay the same, and the result is `None`.
///
/// Errors, in order: `NoSuchOp` if the operation isn't in the module; `Full` if the rewrite would exceed the limit of
/// operations; `IdsExhausted` if it would exceed the limit of ids; `Full` if the context is full; `Memory` if memory
/// runs out.
pub(crate) fn apply_first<L: Analysis>(
    alloc: Global,
    bench: &mut Bench<L>,
    entries: &Entries<'_>,
    op: OpId,
) -> Result<Option<AppliedPattern>, Refusal>
    requires { MayTry entries.now }
    ensures ok { IfOk result (λ r. RewriteOutcome ((model_of entries.now).comes (module_held bench.old.transaction) op) (is_some r)
        (module_held bench.old.transaction) (module_held bench.new.transaction)) }
    ensures applied { IfOk result (λ r. r ≡ (model_of entries.now).fires (module_held bench.old.transaction) op) }
    ensures err { OnErr result (module_held bench.new.transaction ≡ module_held bench.old.transaction) }
    ensures refused { IfErr result (λ e. IsFailure ((model_of entries.now).comes (module_held bench.old.transaction) op) op
        (module_held bench.old.transaction) bench.new.transaction.ctx e) }
    ensures stays { IsApplied L.meaning bench.old bench.new }
    ensures journal { OnOk result (Journaled L.meaning bench.old bench.new) }
    ensures noted { Noted bench.old.transaction bench.new.transaction }
{
    match entries {
        Entries::Canonicalization => match apply_highest_priority(alloc, bench, op) {
            Ok(rule) => Ok(applied_rule(rule)),
            Err(refusal) => Err(refusal),
        },
        Entries::Rules(rows) => match apply_first_rule(alloc, bench, rows, op) {
            Ok(rule) => Ok(applied_rule(rule)),
            Err(refusal) => Err(refusal),
        },
        Entries::Patterns(candidates) => apply_first_pattern(alloc, bench, candidates, op),
    }
}
