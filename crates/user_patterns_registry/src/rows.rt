//! Prints the result of a check.
ghost use Rattle.std.specs.Prelude.{◌≡◌, ◌∷◌, ◌++◌, [], OnOk, Some, map, option_map};
ghost use Rattle.std.specs.Fmt.{decimal, signed_decimal};
ghost use Rattle.ir_types.specs.Bits.{width_of};
ghost use Rattle.ir_types.specs.Readings.{signed_of};
ghost use Rattle.dialects_int.specs.Folds.{known_of};
ghost use Rattle.user_patterns_registry.specs.Rows.{input_row, input_text, inputs_text, is_truth, kind_text, name_text, named_view, named_views, outcome_text, refutation_text, row_text, rows_text, said_text, truth_text, value_text, values_text};

use crate::check_result::{CheckSummary, Counterexample};
use ir_types::bits::{Bits, BitsKind};
use itoa::Buffer;
use std::alloc::AllocError;
use user_patterns_claims::assignment::Refutation;

/// A variable of a pattern: a value, printed with `%`, or a number.
#[derive(Drop)]
pub struct NamedVariable {
    pub is_value: bool,
    pub name: Vec<u8>,
}

fn write_width(out: &mut Vec<u8>, width: u32) -> Result<(), AllocError>
    ensures { OnOk result (out.new.items ≡ out.old.items ++ decimal width) }
{
    let mut buffer = Buffer::new();
    out.extend_from_slice(buffer.format(width).as_bytes())
}

fn write_signed(out: &mut Vec<u8>, number: i128) -> Result<(), AllocError>
    ensures { OnOk result (out.new.items ≡ out.old.items ++ signed_decimal number) }
{
    let mut buffer = Buffer::new();
    out.extend_from_slice(buffer.format(number).as_bytes())
}

fn write_kind(out: &mut Vec<u8>, kind: BitsKind) -> Result<(), AllocError>
    ensures { OnOk result (out.new.items ≡ out.old.items ++ kind_text kind) }
{
    match kind {
        BitsKind::Int(width) => {
            out.push(b'i')?;
            write_width(out, width)
        }
        BitsKind::Index => out.extend_from_slice(b"index"),
    }
}

fn is_truth(kind: BitsKind) -> bool
    ensures { result ≡ is_truth kind }
{
    match kind {
        BitsKind::Int(width) => width == 1,
        BitsKind::Index => false,
    }
}

fn write_truth(out: &mut Vec<u8>, value: u128) -> Result<(), AllocError>
    ensures { OnOk result (out.new.items ≡ out.old.items ++ truth_text value) }
{
    if value == 0 {
        out.extend_from_slice(b"false")
    } else {
        out.extend_from_slice(b"true")
    }
}

/// Prints a value as an attribute: a signed number with its type, or a word for `i1`.
pub fn write_value(out: &mut Vec<u8>, bits: &Bits) -> Result<(), AllocError>
    ensures { OnOk result (out.new.items ≡ out.old.items ++ value_text bits.now.kind bits.now.value) }
{
    if is_truth(bits.kind) {
        return write_truth(out, bits.value);
    }
    write_signed(out, bits.number())?;
    out.extend_from_slice(b" : ")?;
    write_kind(out, bits.kind)
}

fn write_outcome(out: &mut Vec<u8>, outcome: &Option<Option<Bits>>) -> Result<(), AllocError>
    ensures { OnOk result (out.new.items ≡ out.old.items ++ outcome_text (option_map known_of outcome.now)) }
{
    match outcome {
        None => out.extend_from_slice(b"undefined"),
        Some(None) => out.extend_from_slice(b"poison"),
        Some(Some(bits)) => write_value(out, bits),
    }
}

/// Prints the outcome at the end of a row.
fn end_row(out: &mut Vec<u8>, outcome: &Option<Option<Bits>>) -> Result<(), AllocError>
    ensures { OnOk result (out.new.items ≡ out.old.items ++ row_text [] (option_map known_of outcome.now)) }
{
    out.push(b' ')?;
    write_outcome(out, outcome)?;
    out.push(b'\n')?;
    Ok(())
}

fn write_name(out: &mut Vec<u8>, named: &NamedVariable) -> Result<(), AllocError>
    ensures { OnOk result (out.new.items ≡ out.old.items ++ name_text (named_view named.now)) }
{
    if named.is_value {
        out.push(b'%')?;
    }
    out.extend_from_slice(&named.name)
}

fn write_variable(
    out: &mut Vec<u8>,
    named: &NamedVariable,
    value: &Option<Bits>,
) -> Result<(), AllocError>
    ensures { OnOk result (out.new.items ≡ out.old.items ++ row_text (name_text (named_view named.now)) (Some (known_of value.now))) }
{
    write_name(out, named)?;
    end_row(out, &Some(*value))
}

/// Prints a row for each variable that has a value.
fn write_values(
    out: &mut Vec<u8>,
    variables: &[NamedVariable],
    values: &[Option<Bits>],
) -> Result<(), AllocError>
    ensures { OnOk result (out.new.items ≡ out.old.items ++ values_text (named_views variables.now) (map known_of values.now)) }
{
    let mut rest = variables;
    let mut values = values;
    'variables: while let [named, tail @ ..] = rest {
        let [value, values_tail @ ..] = values else {
            return Ok(());
        };
        write_variable(out, named, value)?;
        rest = tail;
        values = values_tail;
    }
    Ok(())
}

/// Prints the report rows of a counterexample: one for each variable, then the results of the old and the new side.
pub fn write_rows(
    out: &mut Vec<u8>,
    variables: &[NamedVariable],
    counterexample: &Counterexample,
) -> Result<(), AllocError>
    ensures { OnOk result (out.new.items ≡ out.old.items ++ rows_text (named_views variables.now) counterexample.now) }
{
    write_values(out, variables, &counterexample.shown)?;
    out.extend_from_slice(b"old")?;
    end_row(out, &counterexample.old)?;
    out.extend_from_slice(b"new")?;
    end_row(out, &counterexample.new)
}

/// Prints an outcome of a variable: a value, or poison with its type.
fn write_input(out: &mut Vec<u8>, kind: BitsKind, outcome: &Option<Bits>) -> Result<(), AllocError>
    ensures { OnOk result (out.new.items ≡ out.old.items ++ input_text kind (known_of outcome.now)) }
{
    match outcome {
        Some(bits) => write_value(out, bits),
        None => {
            out.extend_from_slice(b"poison : ")?;
            write_kind(out, kind)
        }
    }
}

/// Prints the row of a variable.
fn write_input_row(
    out: &mut Vec<u8>,
    named: &NamedVariable,
    kind: BitsKind,
    outcome: &Option<Bits>,
) -> Result<(), AllocError>
    ensures { OnOk result (out.new.items ≡ out.old.items ++ input_row (named_view named.now) kind (known_of outcome.now)) }
{
    write_name(out, named)?;
    out.push(b' ')?;
    write_input(out, kind, outcome)?;
    out.push(b'\n')?;
    Ok(())
}

/// Prints a row for each variable that has a kind and an outcome.
fn write_inputs(
    out: &mut Vec<u8>,
    variables: &[NamedVariable],
    value_kinds: &[BitsKind],
    outcomes: &[Option<Bits>],
) -> Result<(), AllocError>
    ensures { OnOk result (out.new.items ≡ out.old.items ++ inputs_text (named_views variables.now) value_kinds.now (map known_of outcomes.now)) }
{
    let [named, variables @ ..] = variables else {
        return Ok(());
    };
    let [kind, value_kinds @ ..] = value_kinds else {
        return Ok(());
    };
    let [outcome, outcomes @ ..] = outcomes else {
        return Ok(());
    };
    write_input_row(out, named, *kind, outcome)?;
    write_inputs(out, variables, value_kinds, outcomes)
}

/// Prints the report rows of a counterexample that may have poison: one for each variable, then the results of the old
/// and the new side.
pub fn write_refutation(
    out: &mut Vec<u8>,
    variables: &[NamedVariable],
    refutation: &Refutation,
) -> Result<(), AllocError>
    ensures { OnOk result (out.new.items ≡ out.old.items ++ refutation_text (named_views variables.now) refutation.now) }
{
    let assignment = &refutation.assignment;
    write_inputs(
        out,
        variables,
        &assignment.value_types,
        &assignment.outcomes,
    )?;
    out.extend_from_slice(b"old")?;
    end_row(out, &refutation.old)?;
    out.extend_from_slice(b"new")?;
    end_row(out, &refutation.new)
}

/// Prints the summary of a check.
pub fn write_summary(out: &mut Vec<u8>, said: CheckSummary) -> Result<(), AllocError>
    ensures { OnOk result (out.new.items ≡ out.old.items ++ said_text said) }
{
    match said {
        CheckSummary::Holds(width) => write_word(out, b"holds ", width),
        CheckSummary::AllWidths => out.extend_from_slice(b"holds"),
        CheckSummary::Vacuous(width) => write_word(out, b"empty ", width),
        CheckSummary::Fails(width) => write_word(out, b"fails ", width),
        CheckSummary::Sampled(width) => write_word(out, b"unrefuted ", width),
    }
}

fn write_word(out: &mut Vec<u8>, word: &[u8], width: u32) -> Result<(), AllocError>
    ensures { OnOk result (out.new.items ≡ out.old.items ++ (word.now ++ decimal width)) }
{
    out.extend_from_slice(word)?;
    write_width(out, width)
}
