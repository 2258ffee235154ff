//! The parts of a dialect conversion. The operations of a module are legalized in turn, then casts are reconciled.
ghost use Rattle.std.specs.Prelude.{◌≡◌, ℕ, ◌+◌, ◌≤◌, [], length, true, Option, IfErr, IfOk, OnErr, OnOk, is_ok};
ghost use Rattle.ir_event.specs.trees.Ids.{ids};
ghost use Rattle.ir_event.specs.Modules.{Module};
ghost use Rattle.patterns.specs.rewriter.Moves.{Recorded};
ghost use Rattle.conversion_base.specs.Conversion.{all_parts, cast_at as cast_end, casts_left, checked, converted};
ghost use Rattle.conversion_base.specs.Conversion.{conversion_of, failing as failing_of, first_illegal, has_no_cast};
ghost use Rattle.conversion_base.specs.Conversion.{in_turn, later_parts, legalised_at as legalised_end};
ghost use Rattle.conversion.specs.Converting.{applied_rules};
ghost use Rattle.conversion_base.specs.Legalization.{legalization_of, standing};
ghost use Rattle.conversion.specs.States.{Converts, Ends, EndsAfter, Leads, Stays, StopsAt, listed, most_rules};
ghost use Rattle.conversion.specs.States.{none_of};
ghost use Rattle.conversion.specs.MatchFailures.{last_rule, match_failure_by, unlegalised_op, reported_failure, staying, match_failure_after};
ghost use Rattle.conversion.specs.declared.match_failure.MatchFailure.{MatchFailure as Why};
ghost use Rattle.conversion_base.specs.Targets.{IsAimIn, IsNamedIn, target_model};

use crate::collapsing::fold_casts;
use crate::conversion_error::ConversionError;
use crate::conversion_rewriter::{ConversionRewriter, RuleApplier};
use crate::fault::Fault;
use crate::legalise::{append, close, legalise};
use crate::match_failure::MatchFailure;
use crate::tracer::Tracer;
use crate::why::match_failure_at;
use conversion_base::applied_rule::AppliedRule;
use conversion_base::target::Target;
use ir_event::types::ids::OpId;
use ir_event::types::refusal::Refusal;
use std::alloc::Global;

/// Returns the refusal for an operation of the original module that can't be legalized.
fn failing(limit_reached: bool) -> Refusal
    ensures { result ≡ failing_of limit_reached }
{
    if limit_reached {
        return Refusal::ChainTooDeep;
    }
    Refusal::NotLegalised
}

/// Returns the error of a conversion that can't legalize an operation of the original module.
fn unlegalized_error<B: RuleApplier>(
    alloc: Global,
    bench: &B,
    target: &Target,
    op: OpId,
    limit_reached: bool,
) -> ConversionError
    ensures { StopsAt limit_reached op (match_failure_by (last_rule target.now.rules) (B.state bench.now).held op) result }
{
    match match_failure_at(alloc, bench, target, op) {
        Ok(failure) => ConversionError::for_op(failing(limit_reached), op, failure),
        Err(refusal) => ConversionError::without_op(refusal),
    }
}

/// Legalizes an operation of the original module, if it is still in the module. Returns the applied rules.
fn legalise_at<B: RuleApplier>(
    alloc: Global,
    bench: &mut B,
    target: &Target,
    op: OpId,
) -> Result<Vec<AppliedRule>, ConversionError>
    requires aim { IsAimIn (B.state bench.old).things target.now }
    ensures ends { Ends (legalised_end (target_model (B.state bench.old).things target.now)
        (B.state bench.old).held op) (listed result) (B.state bench.new) }
    ensures stays { (next : Module → Option (ℕ × Why)) → IfErr result (λ e. e.failure ≡ reported_failure e.fault.id
        (match_failure_after next op (match_failure_by (last_rule target.now.rules) (B.state bench.old).held op)
        (standing (legalization_of (target_model (B.state bench.old).things target.now) target.now.depth)
        (B.state bench.old).held op))) }
    ensures few { IfOk result (λ v. length v.items + (B.state bench.old).held.next ≤ (B.state bench.new).held.next) }
    ensures leads { Leads B.state B.transaction B.led bench.old bench.new }
{
    match legalise(alloc, bench, target, target.depth, op) {
        Ok(legalization) => {
            if legalization.legal {
                return Ok(legalization.applied);
            }
            Err(unlegalized_error(alloc, bench, target, op, legalization.limit_reached))
        }
        Err(refusal) => Err(ConversionError::without_op(refusal)),
    }
}

/// Legalizes operations in turn. Returns the applied rules, in the order in which they were applied.
fn legalise_each<B: RuleApplier>(
    alloc: Global,
    bench: &mut B,
    target: &Target,
    ops: &[OpId],
) -> Result<Vec<AppliedRule>, ConversionError>
    requires aim { IsAimIn (B.state bench.old).things target.now }
    ensures ends { Ends (in_turn (legalised_end (target_model (B.state bench.old).things target.now)) ops.now
        (B.state bench.old).held) (listed result) (B.state bench.new) }
    ensures stays { Stays (staying (target_model (B.state bench.old).things target.now) ops.now (B.state bench.old).held)
        result }
    ensures few { IfOk result (λ v. length v.items ≤ most_rules) }
    ensures leads { Leads B.state B.transaction B.led bench.old bench.new }
{
    let mut applied = Vec::new(alloc);
    let mut rest = ops;
    'ops: while let [op, tail @ ..] = rest {
        match legalise_at(alloc, bench, target, *op) {
            Ok(more) => {
                if let Err(refusal) = append(&mut applied, &more) {
                    return Err(ConversionError::without_op(refusal));
                }
            }
            Err(aborted) => return Err(aborted),
        }
        rest = tail;
    }
    let _free = bench.next_id();
    Ok(applied)
}

/// Replaces `op` with an `arith.index_cast`, if `op` is still in the module and is a cast.
fn cast_at<B: ConversionRewriter>(alloc: Global, bench: &mut B, op: OpId) -> Result<(), Fault>
    ensures ends { Ends (cast_end (B.state bench.old).held op) (none_of result) (B.state bench.new) }
    ensures leads { Leads B.state B.transaction B.led bench.old bench.new }
{
    if !bench.is_cast(op) {
        return Ok(());
    }
    match bench.cast_index(alloc, op) {
        Ok(true) => Ok(()),
        Ok(false) => Err(Fault::for_op(Refusal::Unreconciled, op)),
        Err(refusal) => Err(Fault::without_op(refusal)),
    }
}

/// Replaces each of some operations in turn with an `arith.index_cast`, if the operation is still in the module and is
/// a cast.
fn cast_each<B: ConversionRewriter>(alloc: Global, bench: &mut B, ops: &[OpId]) -> Result<(), Fault>
    ensures ends { Ends (in_turn cast_end ops.now (B.state bench.old).held) (none_of result) (B.state bench.new) }
    ensures leads { Leads B.state B.transaction B.led bench.old bench.new }
{
    let mut rest = ops;
    'ops: while let [op, tail @ ..] = rest {
        match cast_at(alloc, bench, *op) {
            Ok(()) => {}
            Err(fault) => return Err(fault),
        }
        rest = tail;
    }
    Ok(())
}

/// Replaces every cast with an `arith.index_cast`.
fn cast_all<B: ConversionRewriter>(alloc: Global, bench: &mut B) -> Result<(), Fault>
    ensures ends { Ends (casts_left (B.state bench.old).held) (none_of result) (B.state bench.new) }
    ensures none { OnOk result (has_no_cast (B.state bench.new).held.tree ≡ true) }
    ensures leads { Leads B.state B.transaction B.led bench.old bench.new }
{
    bench.is_whole();
    match bench.operations() {
        Ok(ops) => cast_each(alloc, bench, &ops),
        Err(_) => Err(Fault::without_op(Refusal::Memory)),
    }
}

/// Returns the first of some operations that isn't legal.
fn illegal_of<B: ConversionRewriter>(bench: &B, target: &Target, ops: &[OpId]) -> Option<OpId>
    requires aim { IsAimIn (B.state bench.now).things target.now }
    ensures { result ≡ first_illegal (target_model (B.state bench.now).things target.now)
        (B.state bench.now).held.tree ops.now }
{
    let mut rest = ops;
    'ops: while let [op, tail @ ..] = rest {
        if !bench.is_legal(target, *op) {
            return Some(*op);
        }
        rest = tail;
    }
    None
}

/// Checks that every operation is legal, if the target is in full mode.
fn check<B: ConversionRewriter>(bench: &B, target: &Target) -> Result<(), Fault>
    requires aim { IsAimIn (B.state bench.now).things target.now }
    ensures ends { Ends (checked (target_model (B.state bench.now).things target.now) (B.state bench.now).held)
        (none_of result) (B.state bench.now) }
{
    if !target.full {
        return Ok(());
    }
    match bench.operations() {
        Ok(ops) => match illegal_of(bench, target, &ops) {
            Some(op) => Err(Fault::for_op(Refusal::NotLegalised, op)),
            None => Ok(()),
        },
        Err(_) => Err(Fault::without_op(Refusal::Memory)),
    }
}

/// Converts a module under a mark and returns the applied rules. If it is refused, the module is unspecified until the
/// mark is rolled back.
fn convert_parts<B: RuleApplier>(
    alloc: Global,
    bench: &mut B,
    target: &Target,
) -> Result<Vec<AppliedRule>, ConversionError>
    requires aim { IsAimIn (B.state bench.old).things target.now }
    ensures ends { Ends (all_parts (target_model (B.state bench.old).things target.now) (B.state bench.old).held)
        (listed result) (B.state bench.new) }
    ensures stays { Stays (staying (target_model (B.state bench.old).things target.now)
        (ids (B.state bench.old).held.tree) (B.state bench.old).held) result }
    ensures few { IfOk result (λ v. length v.items ≤ most_rules) }
    ensures none { OnOk result (has_no_cast (B.state bench.new).held.tree ≡ true) }
    ensures leads { Leads B.state B.transaction B.led bench.old bench.new }
{
    let applied = match legalise_all(alloc, bench, target) {
        Ok(applied) => applied,
        Err(aborted) => return Err(aborted),
    };
    match reconcile(alloc, bench, target) {
        Ok(()) => Ok(applied),
        Err(fault) => Err(ConversionError::from_fault(fault)),
    }
}

/// Legalizes the operations of the original module, in pre-order. Returns the applied rules.
fn legalise_all<B: RuleApplier>(
    alloc: Global,
    bench: &mut B,
    target: &Target,
) -> Result<Vec<AppliedRule>, ConversionError>
    requires aim { IsAimIn (B.state bench.old).things target.now }
    ensures ends { Ends (in_turn (legalised_end (target_model (B.state bench.old).things target.now))
        (ids (B.state bench.old).held.tree) (B.state bench.old).held) (listed result) (B.state bench.new) }
    ensures stays { Stays (staying (target_model (B.state bench.old).things target.now)
        (ids (B.state bench.old).held.tree) (B.state bench.old).held) result }
    ensures few { IfOk result (λ v. length v.items ≤ most_rules) }
    ensures leads { Leads B.state B.transaction B.led bench.old bench.new }
{
    match bench.operations() {
        Ok(ops) => legalise_each(alloc, bench, target, &ops),
        Err(_) => Err(ConversionError::without_op(Refusal::Memory)),
    }
}

/// Reconciles casts, and checks a full conversion.
fn reconcile<B: ConversionRewriter>(
    alloc: Global,
    bench: &mut B,
    target: &Target,
) -> Result<(), Fault>
    requires aim { IsAimIn (B.state bench.old).things target.now }
    ensures ends { Ends (later_parts (target_model (B.state bench.old).things target.now)
        (converted (B.state bench.old).held [])) (none_of result) (B.state bench.new) }
    ensures none { OnOk result (has_no_cast (B.state bench.new).held.tree ≡ true) }
    ensures leads { Leads B.state B.transaction B.led bench.old bench.new }
{
    if let Err(fault) = fold_casts(alloc, bench) {
        return Err(fault);
    }
    if let Err(fault) = cast_all(alloc, bench) {
        return Err(fault);
    }
    check(bench, target)
}

/// Returns the number of applied rules.
fn count_of(applied: &[AppliedRule]) -> u32
    requires { length applied.now ≤ most_rules }
    ensures { result ≡ length applied.now }
{
    applied.len() as u32
}

/// Reports to `tracer` why an operation couldn't be legalized, if one couldn't.
fn trace_match_failure<T: Tracer>(tracer: &mut T, failure: Option<MatchFailure>)
    ensures { T.stayed failure tracer.old tracer.new }
{
    if let Some(failure) = failure {
        tracer.match_failed(failure);
    }
}

/// Converts a module under a mark and reports to `tracer`. Returns the number of applied rules. If it is refused, the
/// module is unspecified until the mark is rolled back.
fn convert_marked<B: RuleApplier, T: Tracer>(
    alloc: Global,
    bench: &mut B,
    target: &Target,
    tracer: &mut T,
) -> Result<u32, Fault>
    requires aim { IsAimIn (B.state bench.old).things target.now }
    ensures reported { OnOk result (T.reported
        (applied_rules (all_parts (target_model (B.state bench.old).things target.now) (B.state bench.old).held)) tracer.old
        tracer.new) }
    ensures stays { IfErr result (λ f. T.stayed
        (reported_failure f.id (staying (target_model (B.state bench.old).things target.now) (ids (B.state bench.old).held.tree)
        (B.state bench.old).held)) tracer.old tracer.new) }
    ensures ends { EndsAfter (all_parts (target_model (B.state bench.old).things target.now) (B.state bench.old).held) result
        (B.state bench.new) }
    ensures none { OnOk result (has_no_cast (B.state bench.new).held.tree ≡ true) }
    ensures leads { Leads B.state B.transaction B.led bench.old bench.new }
{
    match convert_parts(alloc, bench, target) {
        Ok(applied) => match tracer.record_rules(&applied) {
            Ok(()) => Ok(count_of(&applied)),
            Err(refusal) => Err(Fault::without_op(refusal)),
        },
        Err(aborted) => {
            trace_match_failure(tracer, aborted.failure);
            Err(aborted.fault)
        }
    }
}

/// Returns whether a conversion succeeded.
fn is_converted(made: &Result<u32, Fault>) -> bool
    ensures { result ≡ is_ok made.now }
{
    made.is_ok()
}

/// Converts the module of a rewriter. Rules legalize each operation that isn't legal for the target, then casts
/// between types are reconciled. In full mode every operation must be legal in the end. Returns the number of applied
/// rules and reports them to `tracer`. If the conversion is refused, the module stays the same. If an operation
/// couldn't be legalized, `tracer` receives the reason.
///
/// Errors: `BadTarget`; `NotLegalised` or `ChainTooDeep` for an operation of the original module; `Unreconciled` for a
/// cast; `NotLegalised` in full mode. Each of these except `BadTarget` has the operation's id. Also `Full` or
/// `IdsExhausted` if a rule would exceed the limit of operations or of ids; `Memory` if memory runs out.
pub(crate) fn convert_with<B: RuleApplier, T: Tracer>(
    alloc: Global,
    bench: &mut B,
    target: &Target,
    tracer: &mut T,
) -> Result<u32, Fault>
    requires names { IsNamedIn (B.state bench.old).things target.now }
    ensures reported { OnOk result (T.reported
        (applied_rules (conversion_of (target_model (B.state bench.old).things target.now) (B.state bench.old).held)) tracer.old
        tracer.new) }
    ensures stays { IfErr result (λ f. T.stayed
        (reported_failure f.id (unlegalised_op (target_model (B.state bench.old).things target.now) (B.state bench.old).held)) tracer.old
        tracer.new) }
    ensures converts { Converts
        (conversion_of (target_model (B.state bench.old).things target.now) (B.state bench.old).held) result
        (B.state bench.old) (B.state bench.new) }
    ensures none { OnOk result (has_no_cast (B.state bench.new).held.tree ≡ true) }
    ensures leads { Leads B.state B.transaction B.led bench.old bench.new }
    ensures left { OnErr result (Recorded [] (B.transaction bench.old) (B.transaction bench.new)) }
{
    if !bench.is_accepted(target) {
        return Err(Fault::without_op(Refusal::BadTarget));
    }
    if let Err(refusal) = bench.step() {
        return Err(Fault::without_op(refusal));
    }
    let made = convert_marked(alloc, bench, target, tracer);
    close(bench, is_converted(&made));
    made
}
