//! Says why a user pattern doesn't match at an operation, in one line: the part of the pattern, and what it expects.
ghost use Rattle.std.specs.Prelude.{◌≡◌, ◌+◌, ◌++◌, IfOk, OnOk, codes, length};
ghost use Rattle.std.specs.Fmt.{decimal};
ghost use Rattle.ir_event.specs.Modules.{module_in};
ghost use Rattle.user_patterns_data.specs.Names.{name_of, operands_of, predicate_of};
ghost use Rattle.user_patterns_data.specs.Planning.{extra_place};
ghost use Rattle.user_patterns_data.specs.Shapes.{pattern_model};
ghost use Rattle.greedy.specs.own.Numbers.{numbers_in};
ghost use Rattle.mlir_work_registry.specs.Registry.{kept_view};
ghost use Rattle.mlir_work_script_base.specs.Values.{value_text};
ghost use Rattle.mlir_work_transforms.specs.WhyPattern.{subject_text, computed_at, condition_text, counts_text, definition_text, expected_predicate, expected_text, matched_value, mismatch_text, numbers_text, numbers_view, op_name, op_operands_text, operand_pair_text, operands_at, operands_text, path, pattern_op_at, predicates_text, unexpected_text, value_or_nothing, why_pattern};

use crate::pattern_sites::{
    Match, computed_at, matched_value, op_at, operand_count, operand_of, operand_place,
    operand_total, write_operand, write_path,
};
use crate::trace_lines::{write_number, write_op};
use crate::why_numbers::{write_condition, write_found, write_number_at};
use crate::why_types::write_types;
use crate::why_values::{
    predicate_of, predicate_word, write_definition, write_optional_value, write_value,
};
use greedy::own::match_pattern::find_mismatch;
use greedy::own::mismatch::Mismatch;
use greedy::own::names::{predicate_number, word_of};
use greedy::own::pattern_numbers::numbers_at;
use greedy::patterns::runs::reads::op_names::word_name;
use ir_event::trees::value::Value;
use ir_event::types::bits::Bits;
use ir_event::types::ids::OpId;
use ir_event::types::things;
use ir_event::world::World;
use mlir_work_registry::registry::RegisteredPattern;
use std::alloc::{AllocError, Global};
use user_patterns_data::pattern::{Expression, Pattern};

/// Returns the operation name of `form`.
fn form_name<'a>(world: &'a World, form: &Expression) -> &'a [u8]
    ensures { result.now ≡ name_of form.now }
{
    match word_of(form) {
        Some(word) => things::name_of(&world.ctx, word_name(&world.ctx, word)),
        None => b"",
    }
}

/// Returns the name of the operation that the pattern expects at a place.
fn expected_name<'a>(world: &'a World, pattern: &Pattern, place: u128) -> &'a [u8]
    ensures { result.now ≡ op_name (pattern_op_at (pattern_model pattern.now) place) }
{
    match op_at(pattern, place) {
        Some(pattern_op) => form_name(world, &pattern_op.form),
        None => b"",
    }
}

fn form_predicate(form: &Expression) -> Option<u128>
    ensures { result ≡ predicate_of form.now }
{
    let Expression::Compare(predicate, _, _) = form else {
        return None;
    };
    Some(predicate_number(*predicate))
}

/// Returns the number of the predicate that the pattern expects at a place.
fn expected_predicate(pattern: &Pattern, place: u128) -> Option<u128>
    ensures { result ≡ expected_predicate (pattern_model pattern.now) place }
{
    match op_at(pattern, place) {
        Some(pattern_op) => form_predicate(&pattern_op.form),
        None => None,
    }
}

fn write_words(text: &mut Vec<u8>, expected: &[u8], found: &[u8]) -> Result<(), AllocError>
    ensures { OnOk result (text.new.items ≡ text.old.items ++ expected_text expected.now found.now) }
{
    text.extend_from_slice(b"expected ")?;
    text.extend_from_slice(expected)?;
    text.extend_from_slice(b" found ")?;
    text.extend_from_slice(found)
}

fn write_expected(
    text: &mut Vec<u8>,
    world: &World,
    word: &[u8],
    value: &Option<Value>,
) -> Result<(), AllocError>
    ensures { OnOk result (text.new.items ≡ text.old.items
        ++ expected_text word.now (definition_text (module_in world.now).tree value.now)) }
{
    text.extend_from_slice(b"expected ")?;
    text.extend_from_slice(word)?;
    text.extend_from_slice(b" found ")?;
    write_definition(text, world, value)
}

/// Appends that the operation at a place isn't what a word says.
fn write_unexpected(
    text: &mut Vec<u8>,
    at: &Match<'_>,
    place: u128,
    word: &[u8],
) -> Result<(), AllocError>
    ensures { OnOk result (text.new.items ≡ text.old.items
        ++ unexpected_text (pattern_model at.now.pattern.now) (module_in at.now.world.now) at.now.op place word.now) }
{
    write_path(text, at.pattern, place)?;
    write_expected(text, at.world, word, &matched_value(at, place))
}

/// Appends that the operation at a place has another predicate.
fn write_predicates(text: &mut Vec<u8>, at: &Match<'_>, place: u128) -> Result<(), AllocError>
    ensures { OnOk result (text.new.items ≡ text.old.items ++ (path (pattern_model at.now.pattern.now) place
        ++ predicates_text (pattern_model at.now.pattern.now) (module_in at.now.world.now) at.now.op place)) }
{
    write_path(text, at.pattern, place)?;
    let found = predicate_of(at.world, &matched_value(at, place));
    write_words(
        text,
        predicate_word(expected_predicate(at.pattern, place)),
        predicate_word(found),
    )
}

/// Appends that the operation at a place has an overflow flag.
fn write_flags(text: &mut Vec<u8>, at: &Match<'_>, place: u128) -> Result<(), AllocError>
    ensures { OnOk result (text.new.items ≡ text.old.items
        ++ (path (pattern_model at.now.pattern.now) place ++ codes "expected none found overflowFlags")) }
{
    write_path(text, at.pattern, place)?;
    text.extend_from_slice(b"expected none found overflowFlags")
}

fn write_count(text: &mut Vec<u8>, word: &[u8], count: usize) -> Result<(), AllocError>
    ensures { OnOk result (text.new.items ≡ text.old.items ++ (word.now ++ decimal count)) }
{
    text.extend_from_slice(word)?;
    write_number(text, count as u64)
}

/// Appends that an operation has another number of operands.
fn write_counts(text: &mut Vec<u8>, expected: usize, found: usize) -> Result<(), AllocError>
    ensures { OnOk result (text.new.items ≡ text.old.items ++ counts_text expected found) }
{
    write_count(text, b"expected ", expected)?;
    write_count(text, b" operands found ", found)
}

fn write_values(text: &mut Vec<u8>, bound: &Option<Value>, found: Value) -> Result<(), AllocError>
    ensures { OnOk result (text.new.items ≡ text.old.items
        ++ expected_text (value_or_nothing bound.now) (value_text found)) }
{
    text.extend_from_slice(b"expected ")?;
    write_optional_value(text, bound)?;
    text.extend_from_slice(b" found ")?;
    write_value(text, found)
}

/// Appends that the operand at an index isn't the value at its place.
fn write_operand_pair(
    text: &mut Vec<u8>,
    at: &Match<'_>,
    index: usize,
    place: u128,
    found: Value,
) -> Result<(), AllocError>
    ensures { OnOk result (text.new.items ≡ text.old.items
        ++ operand_pair_text (pattern_model at.now.pattern.now) (module_in at.now.world.now) at.now.op index place found) }
{
    write_operand(text, index)?;
    write_values(text, &matched_value(at, place), found)
}

/// Appends that the operand at an index of the operation that defines `value` isn't that of `form`.
fn write_operands(
    text: &mut Vec<u8>,
    at: &Match<'_>,
    form: &Expression,
    value: &Option<Value>,
    index: usize,
) -> Result<(), AllocError>
    ensures { OnOk result (text.new.items ≡ text.old.items
        ++ operands_text (pattern_model at.now.pattern.now) (module_in at.now.world.now) at.now.op index
        (operands_of form.now) (operands_at (module_in at.now.world.now).tree value.now)) }
{
    let Some(place) = operand_place(form, index) else {
        return write_counts(text, operand_total(form), operand_count(at.world, value));
    };
    let Some(found) = operand_of(at.world, value, index) else {
        return write_counts(text, operand_total(form), operand_count(at.world, value));
    };
    write_operand_pair(text, at, index, place as u128, found)
}

/// Appends that the operand at an index of the operation at a place isn't that of the pattern.
fn write_operand_mismatch(
    text: &mut Vec<u8>,
    at: &Match<'_>,
    place: u128,
    index: usize,
) -> Result<(), AllocError>
    ensures { OnOk result (text.new.items ≡ text.old.items ++ (path (pattern_model at.now.pattern.now) place
        ++ op_operands_text (pattern_model at.now.pattern.now) (module_in at.now.world.now) at.now.op index
        (pattern_op_at (pattern_model at.now.pattern.now) place)
        (operands_at (module_in at.now.world.now).tree
        (matched_value (pattern_model at.now.pattern.now) (module_in at.now.world.now) at.now.op place)))) }
{
    write_path(text, at.pattern, place)?;
    match op_at(at.pattern, place) {
        Some(pattern_op) => {
            let value = matched_value(at, place);
            write_operands(text, at, &pattern_op.form, &value, index)
        }
        None => Ok(()),
    }
}

/// Appends the path to a value, the number that the pattern expects there, and what is found.
fn write_placed_numbers(
    text: &mut Vec<u8>,
    alloc: Global,
    at: &Match<'_>,
    numbers: &[Option<Bits>],
    place: u128,
) -> Result<(), AllocError>
    ensures { OnOk result (text.new.items ≡ text.old.items ++ (path (pattern_model at.now.pattern.now) place
        ++ numbers_text (pattern_model at.now.pattern.now) (module_in at.now.world.now) at.now.op (numbers_view numbers.now) place)) }
{
    write_path(text, at.pattern, place)?;
    text.extend_from_slice(b"expected ")?;
    write_number_at(text, numbers, place)?;
    text.extend_from_slice(b" found ")?;
    write_found(text, alloc, at.world, &matched_value(at, place))
}

/// Appends that the value at a place isn't the number that the pattern expects.
fn write_number_mismatch(
    text: &mut Vec<u8>,
    alloc: Global,
    at: &Match<'_>,
    place: u128,
) -> Result<(), AllocError>
    ensures { OnOk result (text.new.items ≡ text.old.items ++ (path (pattern_model at.now.pattern.now) place
        ++ numbers_text (pattern_model at.now.pattern.now) (module_in at.now.world.now) at.now.op
        (numbers_in (module_in at.now.world.now) (pattern_model at.now.pattern.now) at.now.op
        (length (pattern_model at.now.pattern.now).extra)) place)) }
{
    let numbers = numbers_at(alloc, at.world, at.pattern, at.op, at.pattern.extra.len())?;
    write_placed_numbers(text, alloc, at, &numbers, place)
}

/// Appends the condition with an index among the computed numbers.
fn write_condition_at(
    text: &mut Vec<u8>,
    pattern: &Pattern,
    numbers: &[Option<Bits>],
    index: usize,
) -> Result<(), AllocError>
    ensures { OnOk result (text.new.items ≡ text.old.items ++ condition_text (pattern_model pattern.now) (numbers_view numbers.now)
        (computed_at (pattern_model pattern.now) (extra_place (pattern_model pattern.now) + index))) }
{
    let place = pattern.values.len() as u128 + index as u128;
    write_condition(text, pattern, numbers, &computed_at(pattern, place))
}

/// Appends a condition that isn't true: the computed number with this index isn't defined.
fn write_false(
    text: &mut Vec<u8>,
    alloc: Global,
    at: &Match<'_>,
    index: usize,
) -> Result<(), AllocError>
    ensures { OnOk result (text.new.items ≡ text.old.items ++ condition_text (pattern_model at.now.pattern.now)
        (numbers_in (module_in at.now.world.now) (pattern_model at.now.pattern.now) at.now.op index)
        (computed_at (pattern_model at.now.pattern.now) (extra_place (pattern_model at.now.pattern.now) + index))) }
{
    let numbers = numbers_at(alloc, at.world, at.pattern, at.op, index)?;
    write_condition_at(text, at.pattern, &numbers, index)
}

/// Appends the first test that fails, or that the pattern applies.
#[tactic(auto, unfolding(crate::specs::WhyPattern::mismatch_text))]
fn write_mismatch(
    text: &mut Vec<u8>,
    alloc: Global,
    at: &Match<'_>,
    mismatch: Option<Mismatch>,
) -> Result<(), AllocError>
    ensures { OnOk result (text.new.items ≡ text.old.items
        ++ mismatch_text (pattern_model at.now.pattern.now) (module_in at.now.world.now) at.now.op mismatch) }
{
    match mismatch {
        None => text.extend_from_slice(b"applies"),
        Some(Mismatch::Operation(place)) => {
            write_unexpected(text, at, place, expected_name(at.world, at.pattern, place))
        }
        Some(Mismatch::Predicate(place)) => write_predicates(text, at, place),
        Some(Mismatch::Flags(place)) => write_flags(text, at, place),
        Some(Mismatch::Operand(place, index)) => write_operand_mismatch(text, at, place, index),
        Some(Mismatch::Constant(place)) => {
            write_unexpected(text, at, place as u128, b"arith.constant")
        }
        Some(Mismatch::NotVerified(place)) => write_unexpected(text, at, place, b"verified"),
        Some(Mismatch::Unknown(place)) => write_unexpected(text, at, place as u128, b"verified"),
        Some(Mismatch::Type(place)) => write_types(text, at, place),
        Some(Mismatch::NotNumeric) => text.extend_from_slice(b"expected integer or index"),
        Some(Mismatch::Types) => text.extend_from_slice(b"other-type"),
        Some(Mismatch::Number(place)) => write_number_mismatch(text, alloc, at, place),
        Some(Mismatch::Constraint(index)) => write_false(text, alloc, at, index),
        Some(Mismatch::Unbuildable) => text.extend_from_slice(b"unbuildable"),
        Some(Mismatch::Results) => text.extend_from_slice(b"results"),
        Some(Mismatch::IsRoot) => text.extend_from_slice(b"root"),
    }
}

/// Appends the beginning of the line: the operation and the pattern.
fn write_subject(text: &mut Vec<u8>, op: OpId, name: &[u8]) -> Result<(), AllocError>
    ensures { OnOk result (text.new.items ≡ text.old.items ++ subject_text op name.now) }
{
    text.extend_from_slice(b"why ")?;
    write_op(text, op)?;
    text.extend_from_slice(b" ")?;
    text.extend_from_slice(name)
}

/// Returns a line that says why a user pattern doesn't match at an operation of the module, or that it does.
///
/// Errors: memory runs out.
#[tactic(auto, unfolding(crate::specs::WhyPattern::why_pattern))]
pub fn pattern_failure(
    alloc: Global,
    world: &World,
    op: OpId,
    held: &RegisteredPattern,
) -> Result<Vec<u8>, AllocError>
    ensures { IfOk result (λ text. text.items ≡ why_pattern (kept_view held.now) (module_in world.now) op) }
{
    let mismatch = find_mismatch(alloc, world, &held.pattern, op)?;
    let at = Match {
        world,
        pattern: &held.pattern,
        op,
    };
    let mut text = Vec::new(alloc);
    write_subject(&mut text, op, &held.name)?;
    text.extend_from_slice(b" ")?;
    write_mismatch(&mut text, alloc, &at, mismatch)?;
    text.extend_from_slice(b"\n")?;
    Ok(text)
}
