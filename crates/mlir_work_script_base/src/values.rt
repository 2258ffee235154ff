//! Parses operations and values.
ghost use Rattle.std.specs.Prelude.{◌≡◌};
ghost use Rattle.mlir_work_script_base.specs.Values.{op_of, result_of, argument_from, argument_of, value_of};

use crate::cuts::cut_at;
use crate::numbers::parse_number;
use ir_event::trees::value::Value;
use ir_event::types::ids::OpId;

/// Parses an operation: `#3`.
pub fn op_named(word: &[u8]) -> Option<OpId>
    ensures { result ≡ op_of word.now }
{
    match word {
        [b'#', digits @ ..] => {
            let op = parse_number(digits)?;
            Some(OpId::new(op))
        }
        _ => None,
    }
}

/// Parses the result `2.0`.
fn result_named(text: &[u8]) -> Option<Value>
    ensures { result ≡ result_of text.now }
{
    let (op, place) = cut_at(text, b'.');
    let op = parse_number(op)?;
    let place = parse_number(place)?;
    Some(Value::Result(OpId::new(op), place))
}

/// Returns the block argument with these numbers, or `None` if one is missing.
fn argument(op: Option<u32>, region: Option<u32>, place: Option<u32>) -> Option<Value>
    ensures { result ≡ argument_from op region place }
{
    let op = op?;
    let region = region?;
    let place = place?;
    Some(Value::Arg(OpId::new(op), region, place))
}

/// Parses the block argument `1.0.0`.
fn argument_named(text: &[u8]) -> Option<Value>
    ensures { result ≡ argument_of text.now }
{
    let (op, rest) = cut_at(text, b'.');
    let (region, place) = cut_at(rest, b'.');
    argument(parse_number(op), parse_number(region), parse_number(place))
}

/// Parses a value: a result as `%v2.0`, a block argument as `%a1.0.0`.
pub fn value_named(word: &[u8]) -> Option<Value>
    ensures { result ≡ value_of word.now }
{
    match word {
        [b'%', b'v', text @ ..] => result_named(text),
        [b'%', b'a', text @ ..] => argument_named(text),
        _ => None,
    }
}
