//! The place of the error where no token begins.
ghost use Rattle.std.specs.Prelude.{◌≡◌, ◌<◌, ℕ, length, option_map, IfSome};
ghost use Rattle.ir_text_tokens.specs.Bytes.{is_hex, is_line_end};
ghost use Rattle.ir_text_tokens.specs.Strings.{is_short};
ghost use Rattle.user_patterns_text.specs.Refusing.{bad_at, bad_left, escape_from, escape_left, string_left, symbol_left};

use ir_text_tokens::lexer::skip;

/// Returns whether a backslash and `byte` are a whole escape.
fn is_short(byte: u8) -> bool
    ensures { result ≡ is_short byte }
{
    matches!(byte, b'\\' | b'"' | b'n' | b't')
}

fn is_line_end(byte: u8) -> bool
    ensures { result ≡ is_line_end byte }
{
    10 <= byte && byte <= 13
}

fn is_hex(byte: u8) -> bool
    ensures { result ≡ is_hex byte }
{
    byte.is_ascii_digit() || (b'a' <= byte && byte <= b'f') || (b'A' <= byte && byte <= b'F')
}

/// Returns the rest of the text after an escape whose backslash is already read, or `None` if no escape begins there.
#[tactic(auto, unfolding(crate::specs::Refusing::string_left))]
fn after_escape(bytes: &[u8]) -> Option<&[u8]>
    ensures left { (quote left : ℕ) → escape_left quote left bytes.now ≡ escape_from quote left (option_map (λ r. r.now) result) }
    ensures shorter { IfSome result (λ r. length r.now < length bytes.now) }
{
    match bytes {
        [byte, rest @ ..] if is_short(*byte) => Some(rest),
        [high, low, rest @ ..] if is_hex(*high) && is_hex(*low) => Some(rest),
        _ => None,
    }
}

/// Returns how many bytes are left at the error of a string, given the text after its opening quote: at the backslash
/// of a bad escape, or `quote` if the string isn't closed.
#[tactic(auto, unfolding(crate::specs::Refusing::string_left))]
fn string_left(quote: usize, bytes: &[u8]) -> usize
    ensures { result ≡ string_left quote bytes.now }
{
    let mut rest = bytes;
    'parts: while let [byte, tail @ ..] = rest {
        if *byte == b'\\' {
            let Some(trailing) = after_escape(tail) else {
                return rest.len();
            };
            rest = trailing;
        } else {
            if is_line_end(*byte) {
                return quote;
            }
            rest = tail;
        }
    }
    quote
}

/// Returns how many bytes are left at the error of a symbol, given the text after its `@`. `at` bytes are left at the
/// `@`.
fn symbol_left(at: usize, bytes: &[u8]) -> usize
    ensures { result ≡ symbol_left at bytes.now }
{
    match bytes {
        [b'"', tail @ ..] => string_left(bytes.len(), tail),
        _ => at,
    }
}

/// Returns how many bytes are left at the error, given a text at which no token begins: at the first byte that isn't
/// blank, at the backslash of a bad escape in a string, or at the opening quote of a string that isn't closed.
#[tactic(auto, unfolding(crate::specs::Refusing::bad_at))]
pub(crate) fn bad_left(bytes: &[u8]) -> usize
    ensures { result ≡ bad_left bytes.now }
{
    let all = skip(bytes);
    match all {
        [b'"', tail @ ..] => string_left(all.len(), tail),
        [b'@', tail @ ..] => symbol_left(all.len(), tail),
        _ => all.len(),
    }
}
