//! Says why rules don't match at an operation, one line a rule.
ghost use Rattle.std.specs.Prelude.{◌≡◌, ◌++◌, IfOk, OnOk, codes};
ghost use Rattle.ir_event.specs.Modules.{module_in};
ghost use Rattle.conversion.specs.reasons.Reasons.{reason_of};
ghost use Rattle.mlir_work_script_base.specs.Values.{op_text};
ghost use Rattle.mlir_work_transforms.specs.TraceText.{rule_text};
ghost use Rattle.mlir_work_transforms.specs.WhyText.{rules_to_explain, verdict, why_line, why_lines};

use crate::trace_lines::{write_op, write_rule};
use conversion::reasons::listed_rules::rules_at;
use conversion::reasons::match_failure::failing_reason;
use conversion::reasons::reason::Reason;
use greedy::patterns::rule::Rule;
use ir_event::types::ids::OpId;
use ir_event::world::World;
use std::alloc::{AllocError, Global};

/// Appends the verdict on a rule: that it applies, or its first condition that doesn't hold.
fn write_verdict(text: &mut Vec<u8>, failing: Option<Reason>) -> Result<(), AllocError>
    ensures { OnOk result (text.new.items ≡ text.old.items ++ verdict failing) }
{
    match failing {
        None => text.extend_from_slice(b"applies"),
        Some(condition) => text.extend_from_slice(condition.word().as_bytes()),
    }
}

/// Appends the beginning of a line: the operation and the rule.
fn write_requested(text: &mut Vec<u8>, op: OpId, rule: Rule) -> Result<(), AllocError>
    ensures { OnOk result (text.new.items ≡ text.old.items
        ++ (codes "why " ++ (op_text op ++ (codes " " ++ rule_text rule)))) }
{
    text.extend_from_slice(b"why ")?;
    write_op(text, op)?;
    text.extend_from_slice(b" ")?;
    write_rule(text, rule)
}

/// Appends the line of a rule at an operation; `failing` is its first condition that doesn't hold.
fn write_why(
    text: &mut Vec<u8>,
    op: OpId,
    rule: Rule,
    failing: Option<Reason>,
) -> Result<(), AllocError>
    ensures { OnOk result (text.new.items ≡ text.old.items ++ why_line op rule failing) }
{
    write_requested(text, op, rule)?;
    text.extend_from_slice(b" ")?;
    write_verdict(text, failing)?;
    text.extend_from_slice(b"\n")
}

/// Appends the line of a rule at an operation of the module.
fn write_reason(
    alloc: Global,
    world: &World,
    text: &mut Vec<u8>,
    op: OpId,
    rule: Rule,
) -> Result<(), AllocError>
    ensures { OnOk result (text.new.items ≡ text.old.items
        ++ why_line op rule (reason_of rule (module_in world.now) op)) }
{
    let failing = failing_reason(alloc, world, rule, op)?;
    write_why(text, op, rule, failing)
}

/// Returns the lines of these rules at an operation of the module.
fn lines_of(alloc: Global, world: &World, op: OpId, rules: &[Rule]) -> Result<Vec<u8>, AllocError>
    ensures { IfOk result (λ text. text.items ≡ why_lines rules.now op (module_in world.now)) }
{
    let mut text = Vec::new(alloc);
    let mut rest = rules;
    'rules: while let [rule, tail @ ..] = rest {
        write_reason(alloc, world, &mut text, op, *rule)?;
        rest = tail;
    }
    Ok(text)
}

/// Returns a line that says why a rule doesn't match at an operation of the module, or that it does. Without a rule,
/// returns a line for each rule in the table for the operation's name.
///
/// Errors: memory runs out.
pub fn match_failure(
    alloc: Global,
    world: &World,
    op: OpId,
    rule: Option<Rule>,
) -> Result<Vec<u8>, AllocError>
    ensures { IfOk result (λ text. text.items
        ≡ why_lines (rules_to_explain rule op (module_in world.now)) op (module_in world.now)) }
{
    match rule {
        Some(rule) => lines_of(alloc, world, op, &[rule]),
        None => lines_of(alloc, world, op, rules_at(world, op)),
    }
}
