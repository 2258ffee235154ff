//! Converts the module.
ghost use Rattle.std.specs.Prelude.{◌≡◌, [], true, IfErr, IfOk, MatchResult, OnOk};
ghost use Rattle.ir_event.specs.types.Things.{IsExtendedBy};
ghost use Rattle.conversion.specs.rewriter.Machine.{Change};
ghost use Rattle.conversion.specs.rewriter.RewriterCalls.{Does, Led};
ghost use Rattle.conversion.specs.rewriter.Held.{module_held};
ghost use Rattle.conversion.specs.rewriter.Moves.{Recorded};
ghost use Rattle.conversion.specs.Runs.{Noted};
ghost use Rattle.mlir_work_script_base.specs.Clauses.{clauses_of, target_of as said_target};
ghost use Rattle.conversion.specs.Conversion.{has_no_cast};
ghost use Rattle.conversion.specs.Benches.{seen};
ghost use Rattle.conversion.specs.Converting.{command_aim, conversion, conversion_reply, conversion_to};
ghost use Rattle.conversion.specs.Converting.{match_failure_to, applied_rules};
ghost use Rattle.conversion.specs.MatchFailures.{reported_failure};
ghost use Rattle.conversion.specs.States.{Converts};
ghost use Rattle.mlir_work_transforms.specs.ConvertText.{FaultWithLine, conversion_text, match_failure_below};

use crate::convert_lines::{ConvertLines, line_of};
use crate::target::target_of;
use conversion::fault::Fault;
use conversion::match_failure::MatchFailure;
use conversion::rewriter::Bench;
use conversion::rewriter::laws::led_benches_are_kept;
use conversion::tracer::Tracer;
use ir_event::analysis::Analysis;
use ir_event::types::ids::OpId;
use ir_event::types::refusal::Refusal;
use mlir_work_script_base::clauses::Clauses;
use std::alloc::{AllocError, Global};

/// Converts the module (Dialect Conversion, "Modes of Conversion") to the target of the clauses, and reports each
/// applied rule to the tracer. First interns the names of the clauses' lists. Returns the number of applied rules.
/// Atomic: a refused call changes nothing. If an operation can't be legalized, the tracer gets the reason.
///
/// Errors: those of `conversion::convert::convert_traced`; before them `Full` or `Memory` if there is no room for a
/// listed name.
pub fn convert<L: Analysis, T: Tracer>(
    alloc: Global,
    bench: &mut Bench<L>,
    full: bool,
    clauses: &Clauses<'_>,
    tracer: &mut T,
) -> Result<u32, Fault>
    ensures does { Does L.meaning (Change (conversion (said_target full (clauses_of clauses.now))))
        (conversion_reply result) bench.old bench.new }
    ensures converts { Converts
        (conversion_to (command_aim (said_target full (clauses_of clauses.now))) (module_held bench.old.transaction)) result
        (seen bench.old) (seen bench.new) }
    ensures reported { OnOk result (T.reported
        (applied_rules (conversion_to (command_aim (said_target full (clauses_of clauses.now)))
        (module_held bench.old.transaction))) tracer.old tracer.new) }
    ensures stays { IfErr result (λ f. T.stayed
        (reported_failure f.id (match_failure_to (command_aim (said_target full (clauses_of clauses.now)))
        (module_held bench.old.transaction))) tracer.old tracer.new) }
    ensures none { OnOk result (has_no_cast (module_held bench.new.transaction).tree ≡ true) }
    ensures grows { IsExtendedBy bench.old.transaction.ctx bench.new.transaction.ctx }
    ensures led { Led L.meaning bench.old bench.new }
    ensures journal { MatchResult result (λ _. Noted bench.old.transaction bench.new.transaction)
        (λ _. Recorded [] bench.old.transaction bench.new.transaction) }
{
    led_benches_are_kept::<L>();
    bench.is_wellformed();
    let target = match target_of(alloc, bench, full, clauses) {
        Ok(target) => target,
        Err(refusal) => {
            return Err(Fault { refusal, id: None });
        }
    };
    let Some(target) = target else {
        return Err(Fault {
            refusal: Refusal::BadTarget,
            id: None,
        });
    };
    conversion::convert::convert_traced(alloc, bench, &target, tracer)
}

/// The result of a traced conversion, with the lines to show below the reply.
#[derive(Drop)]
pub struct TracedConversion {
    /// The number of applied rules, or the fault that stopped the conversion.
    pub called: Result<u32, Fault>,
    /// A line for each applied rule, or one line that says why an operation stays illegal.
    pub lines: Vec<u8>,
}

/// Returns the line below a fault: why the operation of the fault stays illegal. It is empty if the fault names no
/// operation or no reason is known.
fn line_below(
    alloc: Global,
    id: Option<OpId>,
    failure: Option<MatchFailure>,
) -> Result<Vec<u8>, AllocError>
    ensures { IfOk result (λ line. line.items ≡ match_failure_below id failure) }
{
    let Some(op) = id else {
        return Ok(Vec::new(alloc));
    };
    let Some(failure) = failure else {
        return Ok(Vec::new(alloc));
    };
    line_of(alloc, op, failure)
}

/// Returns the result of a refused conversion, with the reason why an operation stays illegal. If memory runs out for
/// the line, the fault becomes `Memory`.
fn traced_fault(alloc: Global, fault: Fault, failure: Option<MatchFailure>) -> TracedConversion
    ensures { FaultWithLine fault failure result.called result.lines.items }
{
    let Ok(line) = line_below(alloc, fault.id, failure) else {
        return TracedConversion {
            called: Err(Fault {
                refusal: Refusal::Memory,
                id: None,
            }),
            lines: Vec::new(alloc),
        };
    };
    TracedConversion {
        called: Err(fault),
        lines: line,
    }
}

/// Returns the result of a traced conversion: the lines of the applied rules, or the reason why an operation stays
/// illegal.
fn traced_conversion(
    alloc: Global,
    text: Vec<u8>,
    failure: Option<MatchFailure>,
    called: Result<u32, Fault>,
) -> TracedConversion
    ensures ok { OnOk called ((result.called ≡ called) × (result.lines.items ≡ text.items)) }
    ensures fault { IfErr called (λ f. FaultWithLine f failure result.called result.lines.items) }
{
    match called {
        Ok(count) => TracedConversion {
            called: Ok(count),
            lines: text,
        },
        Err(fault) => traced_fault(alloc, fault, failure),
    }
}

/// Converts as `convert` does, and returns a line for each applied rule, or the reason why an operation stays
/// illegal.
///
/// Errors: those of `convert`; and `Memory` if there is no memory for the lines, and then the module isn't converted.
pub fn convert_traced<L: Analysis>(
    alloc: Global,
    bench: &mut Bench<L>,
    full: bool,
    clauses: &Clauses<'_>,
) -> TracedConversion
    ensures does { Does L.meaning (Change (conversion (said_target full (clauses_of clauses.now))))
        (conversion_reply result.called) bench.old bench.new }
    ensures converts { Converts
        (conversion_to (command_aim (said_target full (clauses_of clauses.now))) (module_held bench.old.transaction))
        result.called (seen bench.old) (seen bench.new) }
    ensures lines { result.lines.items ≡ conversion_text (command_aim (said_target full (clauses_of clauses.now)))
        (module_held bench.old.transaction) (conversion_reply result.called) }
    ensures none { OnOk result.called (has_no_cast (module_held bench.new.transaction).tree ≡ true) }
    ensures grows { IsExtendedBy bench.old.transaction.ctx bench.new.transaction.ctx }
    ensures led { Led L.meaning bench.old bench.new }
    ensures journal { MatchResult result.called (λ _. Noted bench.old.transaction bench.new.transaction)
        (λ _. Recorded [] bench.old.transaction bench.new.transaction) }
{
    led_benches_are_kept::<L>();
    let mut lines = ConvertLines::new(alloc);
    let called = convert(alloc, bench, full, clauses, &mut lines);
    let ConvertLines { text, failure } = lines;
    traced_conversion(alloc, text, failure, called)
}
