//! Decimal numbers in output lines.
ghost use Rattle.std.specs.Prelude.{◌≡◌};
ghost use Rattle.mlir_work_json.specs.Numbers.{number_of};

use mlir_work_script_base::numbers::digits_value;

/// Parses a decimal number. Returns `None` if the word isn't a number, has a leading zero or exceeds 4,294,967,295.
pub(crate) fn parse_number(word: &[u8]) -> Option<u32>
    ensures { result ≡ number_of word.now }
{
    match word {
        [] => None,
        [b'0', _, ..] => None,
        _ => digits_value(word),
    }
}
