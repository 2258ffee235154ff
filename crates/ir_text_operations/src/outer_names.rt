//! Free names of a text: each denotes a value of the outer module.
ghost use Rattle.std.specs.Prelude.{◌≡◌, ◌≤◌, ◌==◌, not, length, option_map, None};
ghost use Rattle.std.specs.List.{list_all, prefix_len};
ghost use Rattle.std.specs.Char.{is_ascii_digit};
ghost use Rattle.ir_text_operations.specs.Free.{small, number_of, before_dot, at_dot, two_numbers, result_named, arg_named, value_named, free_bound};

use ir_text_names::bound::TypedValue;
use ir_text_tokens::numbers::{are_digits, integer_value};
use ir_tree::outer::Outer;
use ir_tree::value::Value;
use ir_types::ids::{OpId, TypeId};

/// There is no outer module, so no name is free.
#[derive(Drop)]
pub struct NoOuter;

impl Outer for NoOuter {
    ghost types = { λ _ _. None };

    ghost next = { λ _. 0 };

    fn value_type(&self, _value: Value) -> Option<TypeId> {
        None
    }

    fn next_id(&self) -> u32 {
        0
    }
}

/// The constants of a parse of operations: the outer module, and the first id that no operation may have.
#[derive(Drop)]
pub struct OuterScope<'o, O> {
    pub outer: &'o O,
    pub last: u32,
}

/// Returns the number if it fits in 32 bits, as an id, a region's index or a value's index must.
fn small(number: u128) -> Option<u32>
    ensures { result ≡ small number }
{
    if number <= 4_294_967_295 {
        Some(number as u32)
    } else {
        None
    }
}

/// Returns the number that decimal digits denote, at most 4,294,967,295.
#[tactic(auto, using(crate::proofs::Members::small_is, crate::proofs::Members::small_passed))]
fn number_of(digits: &[u8]) -> Option<u32>
    ensures { result ≡ number_of digits.now }
{
    if digits.is_empty() || !are_digits(digits) {
        return None;
    }
    match integer_value(digits) {
        Some(number) => small(number),
        None => None,
    }
}

/// Returns the number of bytes before the first dot.
fn before_dot(bytes: &[u8]) -> usize
    ensures count { result ≡ before_dot bytes.now }
    ensures within { result ≤ length bytes.now }
{
    bytes.iter().take_while(|byte| **byte != b'.').count()
}

/// Returns the text before the first dot and the text after it.
fn at_dot(bytes: &[u8]) -> Option<(&[u8], &[u8])>
    ensures { option_map (λ p. (p.0.now, p.1.now)) result ≡ at_dot bytes.now }
{
    let (preceding, tail) = bytes.split_at(before_dot(bytes));
    match tail {
        [_, back @ ..] => Some((preceding, back)),
        _ => None,
    }
}

/// Returns two numbers that are separated by a dot.
fn two_numbers(bytes: &[u8]) -> Option<(u32, u32)>
    ensures { result ≡ two_numbers bytes.now }
{
    let Some((preceding, back)) = at_dot(bytes) else {
        return None;
    };
    match (number_of(preceding), number_of(back)) {
        (Some(first), Some(second)) => Some((first, second)),
        _ => None,
    }
}

fn result_named(bytes: &[u8]) -> Option<Value>
    ensures { result ≡ result_named bytes.now }
{
    match two_numbers(bytes) {
        Some((id, place)) => Some(Value::Result(OpId::new(id), place)),
        None => None,
    }
}

fn arg_named(bytes: &[u8]) -> Option<Value>
    ensures { result ≡ arg_named bytes.now }
{
    let Some((preceding, back)) = at_dot(bytes) else {
        return None;
    };
    match (number_of(preceding), two_numbers(back)) {
        (Some(id), Some((region, place))) => Some(Value::Arg(OpId::new(id), region, place)),
        _ => None,
    }
}

/// Returns the value that a free name denotes: `v12.0` is the first result of operation 12, and `a12.0.1` the second
/// argument of its first region.
#[tactic(auto, unfolding(crate::specs::Free::value_named))]
fn value_named(name: &[u8]) -> Option<Value>
    ensures { result ≡ value_named name.now }
{
    match name {
        [b'v', rest @ ..] => result_named(rest),
        [b'a', rest @ ..] => arg_named(rest),
        _ => None,
    }
}

/// Returns the type of a value in the outer module.
fn type_of<O: Outer>(outer: &O, value: &Value) -> Option<TypeId>
    ensures { result ≡ O.types outer.now value.now }
{
    outer.value_type(*value)
}

/// Returns the value that a free name denotes, with its type in the outer module.
#[tactic(auto, unfolding(crate::specs::Free::free_bound))]
pub(crate) fn free_bound<O: Outer>(outer: &O, name: &[u8]) -> Option<TypedValue>
    ensures { result ≡ free_bound (O.types outer.now) name.now }
{
    let Some(value) = value_named(name) else {
        return None;
    };
    match type_of(outer, &value) {
        Some(ty) => Some(TypedValue { value, ty }),
        None => None,
    }
}
