//! Decimal numbers.
ghost use Rattle.std.specs.Prelude.{◌≡◌, ◌+◌, ◌-◌, ◌*◌, ◌^◌, ◌<◌, ◌≤◌, SomeIff};
ghost use Rattle.mlir_work_script_base.specs.Numbers.{number_after, number_of};

/// Appends a digit to a number. Returns `None` on overflow.
fn with_digit(number: u32, digit: u8) -> Option<u32>
    requires { 48 ≤ digit }
    ensures { SomeIff result (number * 10 + (digit - 48) < 2 ^ 32) (number * 10 + (digit - 48)) }
{
    number.checked_mul(10)?.checked_add(u32::from(digit - b'0'))
}

/// Returns the value of a text of digits, and 0 for an empty text. Returns `None` if the text has another byte or the
/// value exceeds 4,294,967,295.
pub fn digits_value(digits: &[u8]) -> Option<u32>
    ensures { result ≡ number_after 0 digits.now }
{
    let mut number = 0u32;
    for digit in digits {
        if !digit.is_ascii_digit() {
            return None;
        }
        let Some(next) = with_digit(number, *digit) else {
            return None;
        };
        number = next;
    }
    Some(number)
}

/// Parses a decimal number, which may have leading zeros. Returns `None` if the word isn't a number or exceeds
/// 4,294,967,295.
pub fn parse_number(word: &[u8]) -> Option<u32>
    ensures { result ≡ number_of word.now }
{
    if word.is_empty() {
        return None;
    }
    digits_value(word)
}
