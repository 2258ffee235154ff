//! Values at places.
ghost use Rattle.std.specs.Prelude.{◌≡◌, ◌++◌, IfOk, OnOk, is_none};
ghost use Rattle.ir_event.specs.trees.Uses.{same_value};
ghost use Rattle.user_patterns_data.specs.Matching.{all_bound, bound, nothing, binding_at};
ghost use Rattle.user_patterns_data.specs.Planning.{places};
ghost use Rattle.user_patterns_data.specs.Shapes.{pattern_model};
ghost use Rattle.user_patterns_apply.specs.Mismatches.{first_unbound};
ghost use Rattle.user_patterns_apply.specs.Stands.{Stands};

use ir_event::trees::uses::is_same;
use ir_event::trees::value::Value;
use std::alloc::{AllocError, Global};
use user_patterns_data::pattern::Pattern;

/// Returns the value bound at `place`, or `None` if no value is bound there.
pub(crate) fn binding_at(values: &[Option<Value>], place: u128) -> Option<Value>
    ensures { result ≡ binding_at place values.now }
{
    if place < values.len() as u128 {
        values[place as usize]
    } else {
        None
    }
}

/// Binds `value` at `place`. Returns `false` if the place is out of bounds or bound to another value.
pub(crate) fn bind(place: usize, value: &Value, values: &mut [Option<Value>]) -> bool
    ensures { Stands (bound same_value place value.now values.old) values.new result }
{
    if place >= values.len() {
        return false;
    }
    match values[place] {
        Some(there) => is_same(&there, value),
        None => {
            values[place] = Some(*value);
            true
        }
    }
}

/// Binds the values at the places, one after another. Returns the index of the first value that can't be bound: the
/// place is bound to another value, or the lists differ in length.
pub(crate) fn bind_all(
    places: &[usize],
    given: &[Value],
    values: &mut [Option<Value>],
) -> Option<usize>
    ensures stands { Stands (all_bound same_value places.now given.now values.old) values.new (is_none result) }
    ensures index { result ≡ first_unbound 0 places.now given.now values.old }
{
    let mut index: usize = 0;
    let mut places = places;
    let mut given = given;
    'places: while let [place, places_tail @ ..] = places {
        let [value, given_tail @ ..] = given else {
            return Some(index);
        };
        if !bind(*place, value, values) {
            return Some(index);
        }
        index += 1;
        places = places_tail;
        given = given_tail;
    }
    if given.is_empty() { None } else { Some(index) }
}

/// Appends `count` unbound places.
fn push_nothing(count: usize, values: &mut Vec<Option<Value>>) -> Result<(), AllocError>
    ensures { OnOk result (values.new.items ≡ values.old.items ++ nothing count) }
{
    let mut left = count;
    'left: while left > 0 {
        values.push(None)?;
        left -= 1;
    }
    Ok(())
}

/// The number of places for which memory is reserved at once.
const FEW_PLACES: usize = 8;

/// Returns the places of a pattern, all unbound.
pub(crate) fn nothing_at(alloc: Global, pattern: &Pattern) -> Result<Vec<Option<Value>>, AllocError>
    ensures { IfOk result (λ values. values.items ≡ nothing (places (pattern_model pattern.now))) }
{
    let mut values = Vec::with_capacity(alloc, FEW_PLACES)?;
    push_nothing(pattern.values.len(), &mut values)?;
    push_nothing(pattern.extra.len(), &mut values)?;
    push_nothing(pattern.given.len(), &mut values)?;
    push_nothing(pattern.old.len(), &mut values)?;
    push_nothing(pattern.new.len(), &mut values)?;
    Ok(values)
}
