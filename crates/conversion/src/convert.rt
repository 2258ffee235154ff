//! Dialect conversion of a rewriter's module.
ghost use Rattle.std.specs.Prelude.{◌≡◌, [], true, IfErr, MatchResult, OnOk};
ghost use Rattle.ir_event.specs.types.Things.{IsExtendedBy};
ghost use Rattle.patterns.specs.rewriter.Machine.{Change};
ghost use Rattle.patterns.specs.rewriter.RewriterCalls.{Does, Led};
ghost use Rattle.patterns.specs.rewriter.Moves.{Recorded};
ghost use Rattle.patterns.specs.Held.{module_held};
ghost use Rattle.patterns.specs.runs.Runs.{Noted};
ghost use Rattle.conversion_base.specs.Conversion.{conversion_of, has_no_cast};
ghost use Rattle.conversion_base.specs.Targets.{IsNamedIn, target_model};
ghost use Rattle.conversion.specs.Benches.{seen};
ghost use Rattle.conversion.specs.Converting.{conversion_reply, converting, applied_rules};
ghost use Rattle.conversion.specs.States.{Converts};
ghost use Rattle.conversion.specs.MatchFailures.{unlegalised_op, reported_failure};

use crate::fault::Fault;
use crate::parts::convert_with;
use crate::tracer::{NoTracer, Tracer};
use conversion_base::target::Target;
use ir_event::analysis::Analysis;
use patterns::runs::Bench;
use patterns::runs::rewriter_laws::led_benches_are_kept;
use std::alloc::Global;

/// Converts the module of a rewriter (Dialect Conversion, "Modes of Conversion") and reports the applied rules to
/// `tracer`. Rules legalize each operation that isn't legal for the target. Then casts between types are reconciled,
/// so that none is left. In full mode every operation must be legal in the end. Returns the number of applied rules.
///
/// If the conversion is refused, the module stays the same. If an operation couldn't be legalized, `tracer` receives
/// the reason.
///
/// Errors: `BadTarget`; `NotLegalised` or `ChainTooDeep` for an operation of the original module; `Unreconciled` for a
/// cast; `NotLegalised` in full mode. Each of these except `BadTarget` has the operation's id. Also `Full` or
/// `IdsExhausted` if a rule would exceed the limit of operations or of ids; `Full` if the context is full; `Memory` if
/// memory runs out.
pub fn convert_traced<L: Analysis, T: Tracer>(
    alloc: Global,
    bench: &mut Bench<L>,
    target: &Target,
    tracer: &mut T,
) -> Result<u32, Fault>
    requires names { IsNamedIn bench.old.transaction.ctx target.now }
    ensures does { Does L.meaning (Change (converting (target_model bench.old.transaction.ctx target.now)))
        (conversion_reply result) bench.old bench.new }
    ensures converts { Converts
        (conversion_of (target_model bench.old.transaction.ctx target.now) (module_held bench.old.transaction)) result (seen bench.old)
        (seen bench.new) }
    ensures reported { OnOk result (T.reported
        (applied_rules (conversion_of (target_model bench.old.transaction.ctx target.now) (module_held bench.old.transaction))) tracer.old
        tracer.new) }
    ensures stays { IfErr result (λ f. T.stayed
        (reported_failure f.id (unlegalised_op (target_model bench.old.transaction.ctx target.now) (module_held bench.old.transaction))) tracer.old
        tracer.new) }
    ensures none { OnOk result (has_no_cast (module_held bench.new.transaction).tree ≡ true) }
    ensures grows { IsExtendedBy bench.old.transaction.ctx bench.new.transaction.ctx }
    ensures led { Led L.meaning bench.old bench.new }
    ensures journal { MatchResult result (λ _. Noted bench.old.transaction bench.new.transaction)
        (λ _. Recorded [] bench.old.transaction bench.new.transaction) }
{
    led_benches_are_kept::<L>();
    bench.is_wellformed();
    convert_with(alloc, bench, target, tracer)
}

/// Converts like `convert_traced`, and reports nothing.
///
/// Errors: those of `convert_traced`.
pub fn convert<L: Analysis>(
    alloc: Global,
    bench: &mut Bench<L>,
    target: &Target,
) -> Result<u32, Fault>
    requires names { IsNamedIn bench.old.transaction.ctx target.now }
    ensures does { Does L.meaning (Change (converting (target_model bench.old.transaction.ctx target.now)))
        (conversion_reply result) bench.old bench.new }
    ensures converts { Converts
        (conversion_of (target_model bench.old.transaction.ctx target.now) (module_held bench.old.transaction)) result (seen bench.old)
        (seen bench.new) }
    ensures none { OnOk result (has_no_cast (module_held bench.new.transaction).tree ≡ true) }
    ensures grows { IsExtendedBy bench.old.transaction.ctx bench.new.transaction.ctx }
    ensures led { Led L.meaning bench.old bench.new }
    ensures journal { MatchResult result (λ _. Noted bench.old.transaction bench.new.transaction)
        (λ _. Recorded [] bench.old.transaction bench.new.transaction) }
{
    convert_traced(alloc, bench, target, &mut NoTracer)
}
