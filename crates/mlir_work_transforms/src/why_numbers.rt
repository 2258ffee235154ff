//! Writes numbers and conditions in the reason why a user pattern doesn't match.
ghost use Rattle.std.specs.Prelude.{◌≡◌, ◌++◌, OnOk, Some, option_map, slice_get};
ghost use Rattle.ir_event.specs.Modules.{module_in};
ghost use Rattle.user_patterns_data.specs.Shapes.{pattern_model};
ghost use Rattle.mlir_work_transforms.specs.WhyPattern.{comparison_text, computed_at, condition_text, found_text, number_in, number_view, numbers_view, pair_text, power_text, requirement_text};

use crate::pattern_sites::computed_at;
use crate::why_values::{predicate_word, write_definition};
use greedy::own::known::constant_value;
use greedy::own::names::predicate_number;
use ir_event::trees::value::Value;
use ir_event::types::bits::Bits;
use ir_event::world::World;
use mlir_work_registry::rows::write_value as write_bits;
use std::alloc::{AllocError, Global};
use user_patterns_data::pattern::{ConstantExpression, Pattern};

/// Returns the entry at a place, or `None` if the place is out of bounds.
fn number_at(numbers: &[Option<Bits>], place: u128) -> Option<Option<Bits>>
    ensures { option_map number_view result ≡ slice_get (numbers_view numbers.now) place }
{
    if place < numbers.len() as u128 {
        Some(numbers[place as usize])
    } else {
        None
    }
}

/// Appends the number at a place.
pub(crate) fn write_number_at(
    text: &mut Vec<u8>,
    numbers: &[Option<Bits>],
    place: u128,
) -> Result<(), AllocError>
    ensures { OnOk result (text.new.items ≡ text.old.items ++ number_in (numbers_view numbers.now) place) }
{
    match number_at(numbers, place) {
        Some(Some(bits)) => write_bits(text, &bits),
        Some(None) => text.extend_from_slice(b"none"),
        None => text.extend_from_slice(b"none"),
    }
}

fn write_known(
    text: &mut Vec<u8>,
    alloc: Global,
    world: &World,
    value: &Value,
) -> Result<(), AllocError>
    ensures { OnOk result (text.new.items ≡ text.old.items ++ found_text (module_in world.now).tree (Some value.now)) }
{
    match constant_value(alloc, world, value)? {
        Some(bits) => write_bits(text, &bits),
        None => write_definition(text, world, &Some(*value)),
    }
}

/// Appends the number of a value, if a verified constant defines it, or else its definition.
pub(crate) fn write_found(
    text: &mut Vec<u8>,
    alloc: Global,
    world: &World,
    value: &Option<Value>,
) -> Result<(), AllocError>
    ensures { OnOk result (text.new.items ≡ text.old.items ++ found_text (module_in world.now).tree value.now) }
{
    match value {
        Some(value) => write_known(text, alloc, world, value),
        None => Ok(()),
    }
}

/// Appends two numbers in brackets.
fn write_pair(
    text: &mut Vec<u8>,
    numbers: &[Option<Bits>],
    i: u128,
    j: u128,
) -> Result<(), AllocError>
    ensures { OnOk result (text.new.items ≡ text.old.items ++ pair_text (numbers_view numbers.now) i j) }
{
    text.extend_from_slice(b"(")?;
    write_number_at(text, numbers, i)?;
    text.extend_from_slice(b", ")?;
    write_number_at(text, numbers, j)?;
    text.extend_from_slice(b")")
}

/// Appends a comparison with its numbers: `sle(50 : i32, 8 : i32)`.
fn write_comparison(
    text: &mut Vec<u8>,
    numbers: &[Option<Bits>],
    step: &Option<ConstantExpression>,
) -> Result<(), AllocError>
    ensures { OnOk result (text.new.items ≡ text.old.items ++ comparison_text (numbers_view numbers.now) step.now) }
{
    let Some(ConstantExpression::Compare(predicate, i, j)) = step else {
        return Ok(());
    };
    text.extend_from_slice(predicate_word(Some(predicate_number(*predicate))))?;
    write_pair(text, numbers, *i as u128, *j as u128)
}

/// Appends that a number isn't a power of two.
fn write_power(text: &mut Vec<u8>, numbers: &[Option<Bits>], place: u128) -> Result<(), AllocError>
    ensures { OnOk result (text.new.items ≡ text.old.items ++ power_text (numbers_view numbers.now) place) }
{
    text.extend_from_slice(b"where power_of_two(")?;
    write_number_at(text, numbers, place)?;
    text.extend_from_slice(b")")
}

/// Appends that the comparison at a place isn't true.
fn write_requirement(
    text: &mut Vec<u8>,
    pattern: &Pattern,
    numbers: &[Option<Bits>],
    place: u128,
) -> Result<(), AllocError>
    ensures { OnOk result (text.new.items ≡ text.old.items ++ requirement_text (pattern_model pattern.now) (numbers_view numbers.now) place) }
{
    text.extend_from_slice(b"where ")?;
    write_comparison(text, numbers, &computed_at(pattern, place))
}

/// Appends a condition of `where` with its numbers.
pub(crate) fn write_condition(
    text: &mut Vec<u8>,
    pattern: &Pattern,
    numbers: &[Option<Bits>],
    step: &Option<ConstantExpression>,
) -> Result<(), AllocError>
    ensures { OnOk result (text.new.items ≡ text.old.items ++ condition_text (pattern_model pattern.now) (numbers_view numbers.now) step.now) }
{
    match step {
        Some(ConstantExpression::Log2(place)) => write_power(text, numbers, *place as u128),
        Some(ConstantExpression::Require(place)) => {
            write_requirement(text, pattern, numbers, *place as u128)
        }
        _ => Ok(()),
    }
}
