//! The values of integer tokens.
ghost use Rattle.std.specs.Prelude.{◌≡◌, ◌+◌, ◌*◌, ◌^◌, ◌<◌, ◌≤◌, length, SomeIff};
ghost use Rattle.std.specs.Bool.{OnTrue};
ghost use Rattle.std.specs.Char.{is_ascii_digit};
ghost use Rattle.std.specs.List.{list_all};
ghost use Rattle.ir_text_tokens.specs.Strings.{hex_value};
ghost use Rattle.ir_text_tokens.specs.Numbers.{begins_hex, below_limit, integer_of, place_value};

use crate::strings::hex_value;

/// Returns `number * base + digit`, or `None` if it doesn't fit in 128 bits.
fn with_digit(number: u128, base: u8, digit: u8) -> Option<u128>
    ensures { SomeIff result (number * base + hex_value digit < 2 ^ 128) (number * base + hex_value digit) }
{
    number
        .checked_mul(base as u128)?
        .checked_add(hex_value(digit) as u128)
}

/// Returns the number that `digits` denote in `base`, or `None` if it doesn't fit in 128 bits.
#[tactic(auto, unfolding(crate::specs::Numbers::place_value))]
fn place_value(base: u8, digits: &[u8]) -> Option<u128>
    requires { 1 ≤ base }
    ensures { result ≡ below_limit (place_value base digits.now) }
{
    let mut number = 0;
    let mut rest = digits;
    'digits: while let [digit, tail @ ..] = rest {
        number = with_digit(number, base, *digit)?;
        rest = tail;
    }
    Some(number)
}

/// Returns whether all bytes are decimal digits.
pub fn are_digits(bytes: &[u8]) -> bool
    ensures { result ≡ list_all is_ascii_digit bytes.now }
{
    bytes.iter().all(|byte| byte.is_ascii_digit())
}

fn begins_hex(digits: &[u8]) -> bool
    ensures value { result ≡ begins_hex digits.now }
    ensures long { OnTrue result (2 ≤ length digits.now) }
{
    matches!(digits, [b'0', b'x', ..])
}

/// Returns the value of an integer token, decimal or hexadecimal with the prefix `0x`. Returns `None` for a value
/// over 2^128 - 1. MLIR Language Reference, "Common syntax".
pub fn integer_value(digits: &[u8]) -> Option<u128>
    ensures { result ≡ below_limit (integer_of digits.now) }
{
    if begins_hex(digits) {
        let (_, tail) = digits.split_at(2);
        return place_value(16, tail);
    }
    place_value(10, digits)
}
