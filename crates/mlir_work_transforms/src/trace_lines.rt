//! The lines that trace rewrites: `rewrote 4 drop-zero #7 erased #7`. A line shows a user pattern by its name: `names`
//! has the name of each rule and pattern of the list, at the same index.
ghost use Rattle.std.specs.Prelude.{◌≡◌, ◌++◌, ◌-◌, OnOk, codes, map, true};
ghost use Rattle.std.specs.Fmt.{decimal};
ghost use Rattle.mlir_work_script_base.specs.Values.{op_text};
ghost use Rattle.mlir_work_transforms.specs.TraceText.{by_text, applied_line, gone_text, lead, made_from, rule_text};

use greedy::applied_rewrite::{AppliedPattern, AppliedRewrite};
use greedy::patterns::rule::Rule;
use ir_event::types::ids::OpId;
use mlir_work_script_base::cells;
use std::alloc::AllocError;

/// Appends a number.
pub(crate) fn write_number(text: &mut Vec<u8>, number: u64) -> Result<(), AllocError>
    ensures { OnOk result (text.new.items ≡ text.old.items ++ decimal number) }
{
    cells::write_number(text, number).map_err(|_| AllocError)
}

/// Appends an operation id.
pub(crate) fn write_op(text: &mut Vec<u8>, op: OpId) -> Result<(), AllocError>
    ensures { OnOk result (text.new.items ≡ text.old.items ++ op_text op) }
{
    cells::write_op_id(text, op).map_err(|_| AllocError)
}

/// Appends a rule: its number and its word.
pub(crate) fn write_rule(text: &mut Vec<u8>, rule: Rule) -> Result<(), AllocError>
    ensures { OnOk result (text.new.items ≡ text.old.items ++ rule_text rule) }
{
    write_number(text, u64::from(rule.number()))?;
    text.extend_from_slice(b" ")?;
    text.extend_from_slice(rule.word().as_bytes())
}

/// Appends the applied rule, or the name of the applied user pattern.
pub(crate) fn write_pattern(
    text: &mut Vec<u8>,
    names: &[Vec<u8>],
    by: AppliedPattern,
) -> Result<(), AllocError>
    ensures { OnOk result (text.new.items ≡ text.old.items ++ by_text (map (λ n. n.items) names.now) by) }
{
    match by {
        AppliedPattern::Rule(rule) => write_rule(text, rule),
        AppliedPattern::UserPattern(place) => match names.get(place) {
            Some(name) => text.extend_from_slice(name),
            None => Ok(()),
        },
    }
}

/// Appends the text before the id of a new operation.
fn write_lead(text: &mut Vec<u8>, first: bool) -> Result<(), AllocError>
    ensures { OnOk result (text.new.items ≡ text.old.items ++ lead first) }
{
    let lead: &[u8] = if first { b" made " } else { b"," };
    text.extend_from_slice(lead)
}

/// Appends the id of a new operation.
fn write_one(text: &mut Vec<u8>, first: bool, number: u32) -> Result<(), AllocError>
    ensures { OnOk result (text.new.items ≡ text.old.items ++ (lead first ++ op_text number)) }
{
    write_lead(text, first)?;
    write_op(text, OpId::new(number))
}

/// Appends the ids of the new operations: `from` up to, but without, `until`.
fn write_made(text: &mut Vec<u8>, from: u32, until: u32) -> Result<(), AllocError>
    ensures { OnOk result (text.new.items ≡ text.old.items ++ made_from true from (until - from)) }
{
    let mut first = true;
    let mut number = from;
    'made: while number < until {
        write_one(text, first, number)?;
        first = false;
        number += 1;
    }
    Ok(())
}

/// Appends that an operation was erased, if it was.
fn write_gone(text: &mut Vec<u8>, stays: bool, op: OpId) -> Result<(), AllocError>
    ensures { OnOk result (text.new.items ≡ text.old.items ++ gone_text stays op) }
{
    if stays {
        return Ok(());
    }
    text.extend_from_slice(b" erased ")?;
    write_op(text, op)
}

/// Appends the beginning of a line: the applied rule or pattern, and the operation.
fn write_site(
    text: &mut Vec<u8>,
    names: &[Vec<u8>],
    by: AppliedPattern,
    op: OpId,
) -> Result<(), AllocError>
    ensures { OnOk result (text.new.items ≡ text.old.items
        ++ (codes "rewrote " ++ (by_text (map (λ n. n.items) names.now) by ++ (codes " " ++ op_text op)))) }
{
    text.extend_from_slice(b"rewrote ")?;
    write_pattern(text, names, by)?;
    text.extend_from_slice(b" ")?;
    write_op(text, op)
}

/// Appends the line of a rewrite.
pub(crate) fn write_applied_rewrite(
    text: &mut Vec<u8>,
    names: &[Vec<u8>],
    applied: &AppliedRewrite,
) -> Result<(), AllocError>
    ensures { OnOk result
        (text.new.items ≡ text.old.items ++ applied_line (map (λ n. n.items) names.now) applied.now) }
{
    write_site(text, names, applied.by, applied.op)?;
    write_made(text, applied.from, applied.until)?;
    write_gone(text, applied.stays, applied.op)?;
    text.extend_from_slice(b"\n")
}
