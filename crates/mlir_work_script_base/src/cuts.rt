//! Splits texts at a byte.
ghost use Rattle.std.specs.Prelude.{◌≡◌, ◌==◌, ◌<◌, length, position};
ghost use Rattle.mlir_work_script_base.specs.Cuts.{before, after};

/// Returns the index of the first occurrence of a byte, or `None` if the text doesn't contain it.
pub fn place_of(text: &[u8], byte: u8) -> Option<usize>
    ensures { result ≡ position (λ b. b == byte) text.now }
{
    text.iter().position(|b| *b == byte)
}

/// Splits a text at the first occurrence of a byte, which neither part contains. Without the byte, the first part is
/// the whole text and the second is empty.
pub fn cut_at(text: &[u8], byte: u8) -> (&[u8], &[u8])
    ensures before { result.0.now ≡ before (λ b. b == byte) text.now }
    ensures after { result.1.now ≡ after (λ b. b == byte) text.now }
    ensures shorter { 0 < length text.now → length result.1.now < length text.now }
{
    match place_of(text, byte) {
        Some(place) => (&text[..place], &text[place + 1..]),
        None => (text, &[]),
    }
}
