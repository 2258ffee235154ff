//! Writes types in the reason why a user pattern doesn't match.
ghost use Rattle.std.specs.Prelude.{◌≡◌, ◌++◌, None, OnOk, Some};
ghost use Rattle.ir_event.specs.Modules.{module_in};
ghost use Rattle.user_patterns_data.specs.Planning.{old_place};
ghost use Rattle.user_patterns_data.specs.Shapes.{pattern_model};
ghost use Rattle.greedy.specs.own.Numbers.{kind_at};
ghost use Rattle.mlir_work_transforms.specs.WhyPattern.{expected_type_text, first_place, first_with, index_with, kind_or_another, path, type_number, type_text, types_text};

use crate::pattern_sites::{Match, index_in, item_at, matched_value, op_at, write_path};
use crate::trace_lines::write_number;
use greedy::own::match_ops::old_begins;
use greedy::own::types::kind_of;
use ir_event::trees::value::Value;
use ir_event::types::bits::BitsKind;
use ir_event::world::World;
use std::alloc::AllocError;
use user_patterns_data::pattern::{Pattern, PatternOp, PatternType};

/// Appends a type that has numbers, or that it is another type.
fn write_kind(text: &mut Vec<u8>, kind: Option<BitsKind>) -> Result<(), AllocError>
    ensures { OnOk result (text.new.items ≡ text.old.items ++ kind_or_another kind) }
{
    match kind {
        Some(BitsKind::Int(width)) => {
            text.push(b'i')?;
            write_number(text, u64::from(width))
        }
        Some(BitsKind::Index) => text.extend_from_slice(b"index"),
        None => text.extend_from_slice(b"another"),
    }
}

/// Returns the kind of a value's type, if that is a signless integer type or `index`.
fn kind_at(world: &World, value: Value) -> Option<BitsKind>
    ensures { result ≡ kind_at (module_in world.now).tree value }
{
    match world.store.value_type(value) {
        Some(ty) => kind_of(&world.ctx, ty),
        None => None,
    }
}

/// Appends the type of a value.
fn write_type(text: &mut Vec<u8>, world: &World, value: &Option<Value>) -> Result<(), AllocError>
    ensures { OnOk result (text.new.items ≡ text.old.items ++ type_text (module_in world.now).tree value.now) }
{
    match value {
        Some(value) => write_kind(text, kind_at(world, *value)),
        None => Ok(()),
    }
}

/// Returns the number of the type at a place: of a variable or a matched operation.
fn type_number(pattern: &Pattern, place: u128) -> Option<usize>
    ensures { result ≡ type_number (pattern_model pattern.now) place }
{
    if old_begins(pattern) <= place {
        match op_at(pattern, place) {
            Some(pattern_op) => Some(pattern_op.ty),
            None => None,
        }
    } else {
        item_at(&pattern.values, place)
    }
}

/// Returns the index of the first pattern op with a type number.
fn index_with(old: &[PatternOp], number: usize) -> Option<usize>
    ensures { result ≡ index_with number old.now }
{
    old.iter().position(|pattern_op| pattern_op.ty == number)
}

/// Returns the place of the first matched operation with a type number.
fn first_op_with(pattern: &Pattern, number: usize) -> u128
    ensures { result ≡ first_place (old_place (pattern_model pattern.now)) None (index_with number (pattern_model pattern.now).old) }
{
    match index_with(&pattern.old, number) {
        Some(index) => old_begins(pattern) + index as u128,
        None => 0,
    }
}

/// Returns the first place with a type number, among the variables and then among the matched operations.
fn first_with(pattern: &Pattern, number: usize) -> u128
    ensures { result ≡ first_with (pattern_model pattern.now) number }
{
    match index_in(&pattern.values, number as u128) {
        Some(place) => place as u128,
        None => first_op_with(pattern, number),
    }
}

/// Appends the type that is bound to a type number.
fn write_bound_type(text: &mut Vec<u8>, at: &Match<'_>, number: usize) -> Result<(), AllocError>
    ensures { OnOk result (text.new.items ≡ text.old.items
        ++ expected_type_text (pattern_model at.now.pattern.now) (module_in at.now.world.now) at.now.op (Some number)) }
{
    match item_at(&at.pattern.value_types, number as u128) {
        Some(PatternType::Concrete(kind)) => write_kind(text, Some(kind)),
        Some(PatternType::Variable(_)) => {
            let value = matched_value(at, first_with(at.pattern, number));
            write_type(text, at.world, &value)
        }
        None => Ok(()),
    }
}

/// Appends the type that is bound to the pattern's type at a place.
fn write_expected_type(text: &mut Vec<u8>, at: &Match<'_>, place: u128) -> Result<(), AllocError>
    ensures { OnOk result (text.new.items ≡ text.old.items
        ++ expected_type_text (pattern_model at.now.pattern.now) (module_in at.now.world.now) at.now.op
        (type_number (pattern_model at.now.pattern.now) place)) }
{
    match type_number(at.pattern, place) {
        Some(number) => write_bound_type(text, at, number),
        None => Ok(()),
    }
}

/// Appends the path to a value, the type that the pattern expects there, and the type of the value.
pub(crate) fn write_types(text: &mut Vec<u8>, at: &Match<'_>, place: u128) -> Result<(), AllocError>
    ensures { OnOk result (text.new.items ≡ text.old.items ++ (path (pattern_model at.now.pattern.now) place
        ++ types_text (pattern_model at.now.pattern.now) (module_in at.now.world.now) at.now.op place)) }
{
    write_path(text, at.pattern, place)?;
    text.extend_from_slice(b"expected ")?;
    write_expected_type(text, at, place)?;
    text.extend_from_slice(b" found ")?;
    write_type(text, at.world, &matched_value(at, place))
}
