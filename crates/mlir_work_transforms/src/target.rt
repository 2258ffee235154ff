//! Builds the conversion target of a command.
ghost use Rattle.std.specs.Prelude.{◌≡◌, IfOk, IfErr, IfSome, option_map};
ghost use Rattle.mlir_work_script_base.specs.Clauses.{clauses_of, target_of as said_target};
ghost use Rattle.conversion.specs.Converting.{command_aim};
ghost use Rattle.conversion.specs.States.{IsOutOfCapacity};
ghost use Rattle.conversion.specs.Targets.{IsNamedIn, target_model};
ghost use Rattle.mlir_work_transforms.specs.Interned.{Interned};

use crate::names::names_in;
use crate::rules::rules_in;
use conversion::rewriter::Bench;
use conversion::target::Target;
use ir_event::analysis::Analysis;
use ir_event::types::refusal::Refusal;
use mlir_work_script_base::clauses::Clauses;
use std::alloc::Global;

/// The depth limit of a conversion whose clauses give none.
const DEPTH: u32 = 16;

/// Returns the target of the clauses, or `None` if a rule number isn't a rule's. Interns the names of the clauses'
/// lists in the context.
pub(crate) fn target_of<L: Analysis>(
    alloc: Global,
    bench: &mut Bench<L>,
    full: bool,
    clauses: &Clauses<'_>,
) -> Result<Option<Target>, Refusal>
    ensures names { IfOk result (λ target. IfSome target (IsNamedIn bench.new.transaction.ctx)) }
    ensures aim { IfOk result
        (λ target. option_map (target_model bench.new.transaction.ctx) target
        ≡ command_aim (said_target full (clauses_of clauses.now))) }
    ensures want { IfErr result (IsOutOfCapacity bench.new.transaction.ctx) }
    ensures interned { Interned L.meaning bench.old bench.new }
{
    let legal = match names_in(alloc, bench, clauses.legal) {
        Ok(legal) => legal,
        Err(refusal) => return Err(refusal),
    };
    let illegal = match names_in(alloc, bench, clauses.illegal) {
        Ok(illegal) => illegal,
        Err(refusal) => return Err(refusal),
    };
    let dynamic = match names_in(alloc, bench, clauses.dynamic) {
        Ok(dynamic) => dynamic,
        Err(refusal) => return Err(refusal),
    };
    let rules = match rules_in(alloc, clauses.rules) {
        Ok(Some(rules)) => rules,
        Ok(None) => return Ok(None),
        Err(refusal) => return Err(refusal),
    };
    Ok(Some(Target {
        full,
        legal,
        illegal,
        dynamic,
        rules,
        depth: clauses.depth.unwrap_or(DEPTH),
    }))
}
