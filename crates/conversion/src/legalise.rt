//! Legalizes operations. It applies a rule, then legalizes the operations that the rule made, or undoes all of it.
ghost use Rattle.std.specs.Prelude.{◌≡◌, ◌≢◌, [], ◌∷◌, ◌++◌, true, false, ◌||◌, IfErr, IfOk, OnOk};
ghost use Rattle.ir_event.specs.types.declared.refusal.Refusal.TheVariants.{Memory as NoMemory};
ghost use Rattle.patterns.specs.rewriter.Rolling.{Dropped};
ghost use Rattle.conversion_base.specs.Rewrites.{rewrite_of};
ghost use Rattle.conversion_base.specs.Legalization.{after_rule as rule_outcome, trailing, each_of};
ghost use Rattle.conversion_base.specs.Legalization.{first_rule as rules_outcome, legalization_of, made_since};
ghost use Rattle.conversion_base.specs.Legalization.{standing};
ghost use Rattle.conversion_base.specs.RuleNames.{is_converting};
ghost use Rattle.conversion.specs.States.{Closed, Comes, ComesAfter, Leads, applied_since, went_well};
ghost use Rattle.conversion_base.specs.Targets.{IsAimIn, target_model};

use crate::conversion_rewriter::{ConversionRewriter, RuleApplier};
use crate::legalization::Legalization;
use conversion_base::applied_rule::AppliedRule;
use conversion_base::rule::Rule;
use conversion_base::target::Target;
use ir_event::types::ids::OpId;
use ir_event::types::refusal::Refusal;
use std::alloc::Global;

/// Returns the result of an attempt without applied rules.
fn nothing(alloc: Global, legal: bool, limit_reached: bool) -> Legalization
    ensures legal { result.legal ≡ legal }
    ensures applied { result.applied.items ≡ [] }
    ensures limit_reached { result.limit_reached ≡ limit_reached }
{
    Legalization {
        legal,
        applied: Vec::new(alloc),
        limit_reached,
    }
}

/// Returns the result of an attempt after earlier ones. `limit_reached` says whether an earlier attempt reached the
/// depth limit.
fn joined(limit_reached: bool, legalization: Legalization) -> Legalization
    ensures legal { result.legal ≡ legalization.legal }
    ensures applied { result.applied.items ≡ legalization.applied.items }
    ensures limit_reached { result.limit_reached ≡ (limit_reached || legalization.limit_reached) }
{
    Legalization {
        legal: legalization.legal,
        applied: legalization.applied,
        limit_reached: limit_reached || legalization.limit_reached,
    }
}

/// Returns a list with one applied rule.
fn only(alloc: Global, rule: AppliedRule) -> Result<Vec<AppliedRule>, Refusal>
    ensures ok { IfOk result (λ v. v.items ≡ rule ∷ []) }
    ensures refused { IfErr result (λ e. e ≡ NoMemory) }
{
    let mut applied = Vec::new(alloc);
    match applied.push(rule) {
        Ok(()) => Ok(applied),
        Err(_) => Err(Refusal::Memory),
    }
}

/// Appends applied rules to a list.
pub(crate) fn append(applied: &mut Vec<AppliedRule>, more: &[AppliedRule]) -> Result<(), Refusal>
    ensures ok { OnOk result (applied.new.items ≡ applied.old.items ++ more.now) }
    ensures refused { IfErr result (λ e. e ≡ NoMemory) }
{
    match applied.extend_from_slice(more) {
        Ok(()) => Ok(()),
        Err(_) => Err(Refusal::Memory),
    }
}

/// Legalizes `op`, if it is still in the module. The operations that rules make are legalized up to `below` levels
/// deep. If the attempt fails or is refused, the module stays the same.
#[cycle(legalise)]
pub(crate) fn legalise<B: RuleApplier>(
    alloc: Global,
    bench: &mut B,
    target: &Target,
    below: u32,
    op: OpId,
) -> Result<Legalization, Refusal>
    requires aim { IsAimIn (B.state bench.old).things target.now }
    ensures comes { Comes (standing (legalization_of (target_model (B.state bench.old).things target.now) below)
        (B.state bench.old).held op) result (B.state bench.old) (B.state bench.new) }
    ensures leads { Leads B.state B.transaction B.led bench.old bench.new }
{
    if !bench.in_tree(op) {
        return Ok(nothing(alloc, true, false));
    }
    if bench.is_legal(target, op) {
        return Ok(nothing(alloc, true, false));
    }
    if below == 0 {
        return Ok(nothing(alloc, false, true));
    }
    first_rule(alloc, bench, target, below - 1, op)
}

/// Tries the rules of a target until one succeeds.
#[cycle(legalise)]
fn first_rule<B: RuleApplier>(
    alloc: Global,
    bench: &mut B,
    target: &Target,
    below: u32,
    op: OpId,
) -> Result<Legalization, Refusal>
    requires aim { IsAimIn (B.state bench.old).things target.now }
    ensures comes { Comes (rules_outcome
        (legalization_of (target_model (B.state bench.old).things target.now) below) target.now.rules
        (B.state bench.old).held op) result (B.state bench.old) (B.state bench.new) }
    ensures leads { Leads B.state B.transaction B.led bench.old bench.new }
{
    let mut limit_reached = false;
    let mut rest = target.rules.as_slice();
    'rules: while let [rule, tail @ ..] = rest {
        match try_rule(alloc, bench, target, below, *rule, op) {
            Ok(legalization) => {
                let legalization = joined(limit_reached, legalization);
                if legalization.legal {
                    return Ok(legalization);
                }
                limit_reached = legalization.limit_reached;
            }
            Err(refusal) => return Err(refusal),
        }
        rest = tail;
    }
    Ok(nothing(alloc, false, limit_reached))
}

/// Tries a rule under a mark. If the attempt fails or is refused, the module stays the same.
#[cycle(legalise)]
fn try_rule<B: RuleApplier>(
    alloc: Global,
    bench: &mut B,
    target: &Target,
    below: u32,
    rule: Rule,
    op: OpId,
) -> Result<Legalization, Refusal>
    requires aim { IsAimIn (B.state bench.old).things target.now }
    requires rule { is_converting rule ≡ true }
    ensures comes { Comes (rule_outcome (legalization_of (target_model (B.state bench.old).things target.now) below)
        rule op (B.state bench.old).held (rewrite_of rule (B.state bench.old).held op)) result (B.state bench.old)
        (B.state bench.new) }
    ensures leads { Leads B.state B.transaction B.led bench.old bench.new }
{
    if let Err(refusal) = bench.step() {
        return Err(refusal);
    }
    let legalization = after_rule(alloc, bench, target, below, rule, op);
    close(bench, is_well(&legalization));
    legalization
}

/// Returns whether an attempt succeeded.
fn is_well(legalization: &Result<Legalization, Refusal>) -> bool
    ensures { result ≡ went_well legalization.now }
{
    match legalization {
        Ok(legalization) => legalization.legal,
        Err(_) => false,
    }
}

/// Closes the newest mark. If `stays` is true the module is kept, and otherwise the mark's module is restored.
pub(crate) fn close<B: ConversionRewriter>(bench: &mut B, stays: bool)
    ensures closed { Closed stays (B.state bench.old) (B.state bench.new) }
    ensures dropped { (B.transaction bench.old).marks ≢ [] → Dropped stays (B.transaction bench.old) (B.transaction bench.new) }
    ensures led { B.led bench.old bench.new }
{
    if stays {
        bench.commit();
        return;
    }
    bench.rollback();
}

/// Applies a rule and legalizes the operations that it made.
#[cycle(legalise)]
fn after_rule<B: RuleApplier>(
    alloc: Global,
    bench: &mut B,
    target: &Target,
    below: u32,
    rule: Rule,
    op: OpId,
) -> Result<Legalization, Refusal>
    requires aim { IsAimIn (B.state bench.old).things target.now }
    requires rule { is_converting rule ≡ true }
    ensures comes { ComesAfter
        (rule_outcome (legalization_of (target_model (B.state bench.old).things target.now) below) rule op
        (B.state bench.old).held (rewrite_of rule (B.state bench.old).held op)) result (B.state bench.new) }
    ensures leads { Leads B.state B.transaction B.led bench.old bench.new }
{
    let from = bench.next_id();
    match bench.apply_rule(alloc, rule, op) {
        Ok(true) => each_made(alloc, bench, target, below, rule, op, from),
        Ok(false) => Ok(nothing(alloc, false, false)),
        Err(refusal) => Err(refusal),
    }
}

/// Returns the record of a rule that was applied at `op`, where `from` was the next id before.
fn located_now<B: ConversionRewriter>(bench: &B, rule: Rule, op: OpId, from: u32) -> AppliedRule
    ensures { result ≡ applied_since rule op from (B.state bench.now).held }
{
    AppliedRule {
        rule,
        op,
        from,
        until: bench.next_id(),
        stays: bench.in_tree(op),
    }
}

/// Legalizes the operations that an applied rule made, from an id on, in ascending order of their ids. The result
/// lists that rule before the rules applied to those operations.
#[cycle(legalise)]
fn each_made<B: RuleApplier>(
    alloc: Global,
    bench: &mut B,
    target: &Target,
    below: u32,
    rule: Rule,
    op: OpId,
    from: u32,
) -> Result<Legalization, Refusal>
    requires aim { IsAimIn (B.state bench.old).things target.now }
    ensures comes { ComesAfter
        (trailing (applied_since rule op from (B.state bench.old).held ∷ []) false
        (each_of (legalization_of (target_model (B.state bench.old).things target.now) below)
        (made_since from (B.state bench.old).held) (B.state bench.old).held)) result (B.state bench.new) }
    ensures leads { Leads B.state B.transaction B.led bench.old bench.new }
{
    let end = bench.next_id();
    let mut id = from;
    let mut applied = match only(alloc, located_now(bench, rule, op, from)) {
        Ok(applied) => applied,
        Err(refusal) => return Err(refusal),
    };
    let mut limit_reached = false;
    'made: while id < end {
        match legalise(alloc, bench, target, below, OpId::new(id)) {
            Ok(legalization) => {
                let legalization = joined(limit_reached, legalization);
                if !legalization.legal {
                    return Ok(legalization);
                }
                limit_reached = legalization.limit_reached;
                if let Err(refusal) = append(&mut applied, &legalization.applied) {
                    return Err(refusal);
                }
            }
            Err(refusal) => return Err(refusal),
        }
        id += 1;
    }
    Ok(Legalization {
        legal: true,
        applied,
        limit_reached,
    })
}
