//! The numbers that the letters of a word spell.
ghost use Rattle.std.specs.Prelude.{◌≡◌, IfSome};
ghost use Rattle.user_patterns_claims.specs.Decoding.{bit_at, ones, number_in_word};

/// Returns the bit at a place of a letter.
fn bit_at(place: usize, letter: u32) -> u32
    ensures { result ≡ bit_at place letter }
{
    if place == 0 {
        return letter % 2;
    }
    bit_at(place - 1, letter / 2)
}

/// Returns the number whose bits are at a place of the letters, the lowest first, if it has at most 128 bits.
pub(crate) fn number_in_word(place: usize, word: &[u32]) -> Option<u128>
    ensures { IfSome result (λ n. n ≡ number_in_word place word.now) }
{
    let [letter, tail @ ..] = word else {
        return Some(0);
    };
    let rest = number_in_word(place, tail)?;
    let twice = rest.checked_mul(2)?;
    twice.checked_add(bit_at(place, *letter) as u128)
}

/// Returns the number of letters with a one at a place.
pub(crate) fn ones(place: usize, word: &[u32]) -> Option<u32>
    ensures { IfSome result (λ n. n ≡ ones place word.now) }
{
    let [letter, tail @ ..] = word else {
        return Some(0);
    };
    let rest = ones(place, tail)?;
    rest.checked_add(bit_at(place, *letter))
}
