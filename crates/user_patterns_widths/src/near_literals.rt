//! The literals of a pattern, and the numbers next to them.
ghost use Rattle.std.specs.Prelude.{◌≡◌, ◌++◌, IfOk, OnOk, take};
ghost use Rattle.user_patterns_data.specs.Shapes.{pattern_model};
ghost use Rattle.user_patterns_widths.specs.NearLiterals.{extra_literal, extra_literals, most_literals, near_literals, neighbours, number_literal, number_literals};

use crate::polynomials::literal_coefficient;
use crate::sampled_widths::first_numbers;
use std::alloc::{AllocError, Global};
use user_patterns_data::pattern::{ConstantExpression, ExtraConstant, Pattern};

/// The limit of literals that samples are near to.
const MOST_LITERALS: usize = 8;

/// Appends the extra constant if it is a literal.
fn push_extra(out: &mut Vec<u128>, extra: &ExtraConstant) -> Result<(), AllocError>
    ensures { OnOk result (out.new.items ≡ out.old.items ++ extra_literal extra.now) }
{
    match extra {
        ExtraConstant::Literal(it) => {
            out.push(literal_coefficient(it.negative, it.magnitude))?;
            Ok(())
        }
        ExtraConstant::SameAs(_) => Ok(()),
    }
}

/// Appends the literals among the extra constants.
fn push_extras(out: &mut Vec<u128>, extras: &[ExtraConstant]) -> Result<(), AllocError>
    ensures { OnOk result (out.new.items ≡ out.old.items ++ extra_literals extras.now) }
{
    let mut rest = extras;
    'extras: while let [first, tail @ ..] = rest {
        push_extra(out, first)?;
        rest = tail;
    }
    Ok(())
}

/// Appends the number if it is a literal.
fn push_number(out: &mut Vec<u128>, number: &ConstantExpression) -> Result<(), AllocError>
    ensures { OnOk result (out.new.items ≡ out.old.items ++ number_literal number.now) }
{
    match number {
        ConstantExpression::Literal(it) => {
            out.push(literal_coefficient(it.negative, it.magnitude))?;
            Ok(())
        }
        _ => Ok(()),
    }
}

/// Appends the literals among the numbers and conditions.
fn push_numbers(out: &mut Vec<u128>, numbers: &[ConstantExpression]) -> Result<(), AllocError>
    ensures { OnOk result (out.new.items ≡ out.old.items ++ number_literals numbers.now) }
{
    let mut rest = numbers;
    'numbers: while let [first, tail @ ..] = rest {
        push_number(out, first)?;
        rest = tail;
    }
    Ok(())
}

/// Returns the first 8 numbers, each with its two neighbours.
fn with_neighbours(alloc: Global, numbers: &[u128]) -> Result<Vec<u128>, AllocError>
    ensures { IfOk result (λ v. v.items ≡ neighbours (take most_literals numbers.now)) }
{
    let mut out = Vec::new(alloc);
    let mut rest = first_numbers(MOST_LITERALS, numbers);
    'numbers: while let [number, tail @ ..] = rest {
        out.push(*number)?;
        out.push(number.wrapping_add(u128::MAX))?;
        out.push(number.wrapping_add(1))?;
        rest = tail;
    }
    Ok(out)
}

/// Returns the first 8 literals of the pattern, each with its two neighbours, modulo 2^128.
pub fn near_literals(alloc: Global, pattern: &Pattern) -> Result<Vec<u128>, AllocError>
    ensures { IfOk result (λ v. v.items ≡ near_literals (pattern_model pattern.now)) }
{
    let mut numbers = Vec::new(alloc);
    push_extras(&mut numbers, &pattern.extra)?;
    push_numbers(&mut numbers, &pattern.given)?;
    with_neighbours(alloc, &numbers)
}
