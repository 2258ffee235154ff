//! The members of report rows.
ghost use Rattle.mlir_work_json.specs.Items.{HasMembers};
ghost use Rattle.mlir_work_json.specs.Rows.{use_members, constant_members, dead_members, unreached_members};
ghost use Rattle.mlir_work_json.specs.Rows.{diagnostic_members, effect_members, definition_members, reference_members};
ghost use Rattle.mlir_work_json.specs.Rows.{unresolved_members, mismatch_members, said_members, pattern_members};
ghost use Rattle.mlir_work_json.specs.Rows.{applied_members, change_members, erased_members, outcome_members, reason_members, rewritten_members};
ghost use Rattle.mlir_work_json.specs.Rows.{checked_members, fired_pattern_members, fired_rule_members, match_failure_members, stayed_members, unproved_members, verdict_members};

use crate::cuts::{BLANK, after_cell, cut_cell, without_last};
use crate::members::{Object, set_number, set_parts, set_text};
use crate::numbers::parse_number;
use mlir_work_script_base::cuts::cut_at;
use std::alloc::{AllocError, Global};

/// Sets the members of a row of `uses`: `%a1.0.0 #3 0`.
pub(crate) fn set_use(object: &mut Object, alloc: Global, line: &[u8]) -> Result<(), AllocError>
    ensures { HasMembers result object.old object.new (use_members line.now) }
{
    let (value, rest) = cut_cell(line);
    let (user, operand) = cut_cell(rest);
    set_text(object, alloc, "kind", b"uses")?;
    set_text(object, alloc, "value", value)?;
    set_text(object, alloc, "user", user)?;
    set_number(object, alloc, "operand", operand)
}

/// Sets the members of a row of `constants`: `%v2.0 0 : i32`.
pub(crate) fn set_constant(
    object: &mut Object,
    alloc: Global,
    line: &[u8],
) -> Result<(), AllocError>
    ensures { HasMembers result object.old object.new (constant_members line.now) }
{
    let (value, attribute) = cut_cell(line);
    set_text(object, alloc, "kind", b"constants")?;
    set_text(object, alloc, "value", value)?;
    set_text(object, alloc, "attribute", attribute)
}

/// Sets the members of a row of `dead`: `#3`.
pub(crate) fn set_dead(object: &mut Object, alloc: Global, line: &[u8]) -> Result<(), AllocError>
    ensures { HasMembers result object.old object.new (dead_members line.now) }
{
    set_text(object, alloc, "kind", b"dead")?;
    set_text(object, alloc, "op", line)
}

/// Sets the members of a row of `unreached`: `#6 @b`.
pub(crate) fn set_unreached(
    object: &mut Object,
    alloc: Global,
    line: &[u8],
) -> Result<(), AllocError>
    ensures { HasMembers result object.old object.new (unreached_members line.now) }
{
    let (op, name) = cut_cell(line);
    set_text(object, alloc, "kind", b"unreached")?;
    set_text(object, alloc, "op", op)?;
    set_text(object, alloc, "name", name)
}

/// Sets the members of a row of `diagnostics`: `#4 V2`.
pub(crate) fn set_diagnostic(
    object: &mut Object,
    alloc: Global,
    line: &[u8],
) -> Result<(), AllocError>
    ensures { HasMembers result object.old object.new (diagnostic_members line.now) }
{
    let (op, rule) = cut_cell(line);
    set_text(object, alloc, "kind", b"diagnostics")?;
    set_text(object, alloc, "op", op)?;
    set_text(object, alloc, "rule", rule)
}

/// Sets the members of a row of `effects`: `#6 read write`.
pub(crate) fn set_effect(object: &mut Object, alloc: Global, line: &[u8]) -> Result<(), AllocError>
    ensures { HasMembers result object.old object.new (effect_members line.now) }
{
    let (op, words) = cut_cell(line);
    set_text(object, alloc, "kind", b"effects")?;
    set_text(object, alloc, "op", op)?;
    set_parts(object, alloc, "words", words, BLANK)
}

/// Sets the members of a row of `symbols`: `def #0 @f #1`, `duplicate #0 @f #1`.
pub(crate) fn set_definition(
    object: &mut Object,
    alloc: Global,
    line: &[u8],
) -> Result<(), AllocError>
    ensures { HasMembers result object.old object.new (definition_members line.now) }
{
    let (group, rest) = cut_cell(line);
    let (table, rest) = cut_cell(rest);
    let (name, op) = cut_cell(rest);
    set_text(object, alloc, "kind", b"symbols")?;
    set_text(object, alloc, "group", group)?;
    set_text(object, alloc, "table", table)?;
    set_text(object, alloc, "name", name)?;
    set_text(object, alloc, "op", op)
}

/// Sets the members of a row of `symbols`: `use #3 @f #1`.
pub(crate) fn set_reference(
    object: &mut Object,
    alloc: Global,
    line: &[u8],
) -> Result<(), AllocError>
    ensures { HasMembers result object.old object.new (reference_members line.now) }
{
    let (group, rest) = cut_cell(line);
    let (op, rest) = cut_cell(rest);
    let (name, target) = cut_cell(rest);
    set_text(object, alloc, "kind", b"symbols")?;
    set_text(object, alloc, "group", group)?;
    set_text(object, alloc, "op", op)?;
    set_text(object, alloc, "name", name)?;
    set_text(object, alloc, "target", target)
}

/// Sets the members of a row of `symbols`: `unresolved #4 @g`, `unknown #4 @g`.
pub(crate) fn set_unresolved(
    object: &mut Object,
    alloc: Global,
    line: &[u8],
) -> Result<(), AllocError>
    ensures { HasMembers result object.old object.new (unresolved_members line.now) }
{
    let (group, rest) = cut_cell(line);
    let (op, name) = cut_cell(rest);
    set_text(object, alloc, "kind", b"symbols")?;
    set_text(object, alloc, "group", group)?;
    set_text(object, alloc, "op", op)?;
    set_text(object, alloc, "name", name)
}

/// Sets the members of a row of `symbols`: `mismatch #3 #1`.
pub(crate) fn set_mismatch(
    object: &mut Object,
    alloc: Global,
    line: &[u8],
) -> Result<(), AllocError>
    ensures { HasMembers result object.old object.new (mismatch_members line.now) }
{
    let (group, rest) = cut_cell(line);
    let (op, target) = cut_cell(rest);
    set_text(object, alloc, "kind", b"symbols")?;
    set_text(object, alloc, "group", group)?;
    set_text(object, alloc, "op", op)?;
    set_text(object, alloc, "target", target)
}

/// Sets the member for an erased operation, `erased #7`. Sets nothing for an empty text.
fn set_erased(object: &mut Object, alloc: Global, line: &[u8]) -> Result<(), AllocError>
    ensures { HasMembers result object.old object.new (erased_members line.now) }
{
    if line.is_empty() {
        return Ok(());
    }
    set_text(object, alloc, "erased", after_cell(line))
}

/// Sets the members for the new operations of a rewrite and the erased one: `made #12,#13 erased #7`.
fn set_change(object: &mut Object, alloc: Global, line: &[u8]) -> Result<(), AllocError>
    ensures { HasMembers result object.old object.new (change_members line.now) }
{
    let (word, rest) = cut_cell(line);
    if word != b"made".as_slice() {
        return set_erased(object, alloc, line);
    }
    let (made, rest) = cut_cell(rest);
    set_parts(object, alloc, "made", made, b',')?;
    set_erased(object, alloc, rest)
}

/// Sets the members of a traced rewrite by a rule: `rewrote 10 regroup-constants #7 made #12,#13 erased #7`.
pub(crate) fn set_rewritten(
    object: &mut Object,
    alloc: Global,
    line: &[u8],
) -> Result<(), AllocError>
    ensures { HasMembers result object.old object.new (rewritten_members line.now) }
{
    let (_, rest) = cut_cell(line);
    let (rule, rest) = cut_cell(rest);
    let (word, rest) = cut_cell(rest);
    let (op, rest) = cut_cell(rest);
    set_text(object, alloc, "kind", b"trace")?;
    set_number(object, alloc, "rule", rule)?;
    set_text(object, alloc, "word", word)?;
    set_text(object, alloc, "op", op)?;
    set_change(object, alloc, rest)
}

/// Sets the members of a traced rewrite by a user pattern: `rewrote times_power #3 made #7,#8 erased #3`.
pub(crate) fn set_applied(object: &mut Object, alloc: Global, line: &[u8]) -> Result<(), AllocError>
    ensures { HasMembers result object.old object.new (applied_members line.now) }
{
    let (_, rest) = cut_cell(line);
    let (name, rest) = cut_cell(rest);
    let (op, rest) = cut_cell(rest);
    set_text(object, alloc, "kind", b"trace")?;
    set_text(object, alloc, "name", name)?;
    set_text(object, alloc, "op", op)?;
    set_change(object, alloc, rest)
}

/// Sets the members of the count of a rule: `fired 4 drop-zero 37`.
pub(crate) fn set_fired_rule(
    object: &mut Object,
    alloc: Global,
    line: &[u8],
) -> Result<(), AllocError>
    ensures { HasMembers result object.old object.new (fired_rule_members line.now) }
{
    let (_, rest) = cut_cell(line);
    let (rule, rest) = cut_cell(rest);
    let (word, count) = cut_cell(rest);
    set_text(object, alloc, "kind", b"fired")?;
    set_number(object, alloc, "rule", rule)?;
    set_text(object, alloc, "word", word)?;
    set_number(object, alloc, "count", count)
}

/// Sets the members of the count of a user pattern: `fired times_power 63`.
pub(crate) fn set_fired_pattern(
    object: &mut Object,
    alloc: Global,
    line: &[u8],
) -> Result<(), AllocError>
    ensures { HasMembers result object.old object.new (fired_pattern_members line.now) }
{
    let (_, rest) = cut_cell(line);
    let (name, count) = cut_cell(rest);
    set_text(object, alloc, "kind", b"fired")?;
    set_text(object, alloc, "name", name)?;
    set_number(object, alloc, "count", count)
}

/// Sets the members of a rule with its verdict, `4 drop-zero second-not-zero`, or of a pattern with its verdict, `mine
/// applies`.
fn set_verdict(object: &mut Object, alloc: Global, said: &[u8]) -> Result<(), AllocError>
    ensures { HasMembers result object.old object.new (verdict_members said.now) }
{
    let (name, rest) = cut_cell(said);
    if parse_number(name).is_none() {
        set_text(object, alloc, "name", name)?;
        return set_text(object, alloc, "said", rest);
    }
    let (word, why) = cut_cell(rest);
    set_number(object, alloc, "rule", name)?;
    set_text(object, alloc, "word", word)?;
    set_text(object, alloc, "said", why)
}

/// Sets the members of a verdict: `why #5 4 drop-zero second-not-zero`, `why #5 mine applies`.
pub(crate) fn set_reason(object: &mut Object, alloc: Global, line: &[u8]) -> Result<(), AllocError>
    ensures { HasMembers result object.old object.new (reason_members line.now) }
{
    let (_, rest) = cut_cell(line);
    let (op, rest) = cut_cell(rest);
    set_text(object, alloc, "kind", b"why")?;
    set_text(object, alloc, "op", op)?;
    set_verdict(object, alloc, rest)
}

/// Sets the members for the rule that was tried last and its failure, `27 expand-remainder makes-illegal`, or for
/// `no-rule`.
fn set_match_failure(object: &mut Object, alloc: Global, said: &[u8]) -> Result<(), AllocError>
    ensures { HasMembers result object.old object.new (match_failure_members said.now) }
{
    let (rule, rest) = cut_cell(said);
    if parse_number(rule).is_none() {
        return set_text(object, alloc, "said", said);
    }
    let (word, why) = cut_cell(rest);
    set_number(object, alloc, "rule", rule)?;
    set_text(object, alloc, "word", word)?;
    set_text(object, alloc, "said", why)
}

/// Sets the members of the reason why an operation can't be legalized: `stays #5 27 expand-remainder makes-illegal`,
/// `stays #5 no-rule`.
pub(crate) fn add_not_legalised(
    object: &mut Object,
    alloc: Global,
    line: &[u8],
) -> Result<(), AllocError>
    ensures { HasMembers result object.old object.new (stayed_members line.now) }
{
    let (_, rest) = cut_cell(line);
    let (op, said) = cut_cell(rest);
    set_text(object, alloc, "kind", b"stays")?;
    set_text(object, alloc, "op", op)?;
    set_match_failure(object, alloc, said)
}

/// Sets the members of a check result: `holds 8`, `holds`, or that there was no check.
fn set_said(object: &mut Object, alloc: Global, said: &[u8]) -> Result<(), AllocError>
    ensures { HasMembers result object.old object.new (said_members said.now) }
{
    let (word, width) = cut_cell(said);
    if parse_number(width).is_none() {
        return set_text(object, alloc, "said", said);
    }
    set_text(object, alloc, "said", word)?;
    set_number(object, alloc, "width", width)
}

/// Sets the members of the line of an unproved pattern: `unproved mask holds 8`, `unproved mask unchecked`.
pub(crate) fn set_unproved(
    object: &mut Object,
    alloc: Global,
    line: &[u8],
) -> Result<(), AllocError>
    ensures { HasMembers result object.old object.new (unproved_members line.now) }
{
    let (_, rest) = cut_cell(line);
    let (name, said) = cut_cell(rest);
    set_text(object, alloc, "kind", b"unproved")?;
    set_text(object, alloc, "name", name)?;
    set_said(object, alloc, said)
}

/// Sets the members of the line of a checked pattern: `checked mask holds 8`, `checked mask refused 50 BadLimit`.
pub(crate) fn set_checked(object: &mut Object, alloc: Global, line: &[u8]) -> Result<(), AllocError>
    ensures { HasMembers result object.old object.new (checked_members line.now) }
{
    let (_, rest) = cut_cell(line);
    let (name, said) = cut_cell(rest);
    set_text(object, alloc, "kind", b"checked")?;
    set_text(object, alloc, "name", name)?;
    set_said(object, alloc, said)
}

/// Sets the members of a pattern: `half arith.divui(%a, 2) => arith.shrui(%a, 1) // holds 8`.
pub(crate) fn set_pattern(object: &mut Object, alloc: Global, line: &[u8]) -> Result<(), AllocError>
    ensures { HasMembers result object.old object.new (pattern_members line.now) }
{
    let (pattern, comment) = cut_at(line, b'/');
    set_text(object, alloc, "kind", b"patterns")?;
    set_text(object, alloc, "name", cut_cell(line).0)?;
    set_text(object, alloc, "pattern", without_last(pattern))?;
    set_said(object, alloc, after_cell(comment))
}

/// Sets the members of a row of a check: `%a -2 : i2`, `new poison`.
pub(crate) fn set_outcome(object: &mut Object, alloc: Global, line: &[u8]) -> Result<(), AllocError>
    ensures { HasMembers result object.old object.new (outcome_members line.now) }
{
    let (name, outcome) = cut_cell(line);
    set_text(object, alloc, "kind", b"check")?;
    set_text(object, alloc, "name", name)?;
    set_text(object, alloc, "outcome", outcome)
}
