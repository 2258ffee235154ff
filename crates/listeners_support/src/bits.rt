//! The bits of a list of words, 64 in each.
ghost use Rattle.std.specs.Prelude.{◌≡◌, ◌≢◌, ℕ, ◌/◌, ◌<◌, ◌≤◌, ◌+◌, ◌%◌, ◌^◌, length, max, slice_index, OnOk, MatchOption, eqb};
ghost use Rattle.std.specs.Int.{bit_at};
ghost use Rattle.listeners_support.specs.Bits.{bit_of, IsFirst, IsFirstIn};

use std::alloc::AllocError;

/// Returns the first bit that is set in a word, from bit `from` on.
fn first_in(word: u64, from: u32) -> Option<u32>
    requires { from < 64 }
    ensures { MatchOption result ((i : ℕ) → from ≤ i → bit_at word i ≡ 0) (IsFirstIn word from) }
{
    let high = word >> from;
    if high == 0 {
        None
    } else {
        Some(from + high.trailing_zeros())
    }
}

/// Returns the first bit that is set from bit `from` on, in the word of `from` only.
pub(crate) fn first_near(words: &[u64], from: usize) -> Option<usize>
    ensures { MatchOption result ((i : ℕ) → from % 64 ≤ i → bit_at (slice_index words.now (from / 64)) i ≡ 0) (IsFirst words.now from) }
{
    let word = from / 64;
    if word >= words.len() {
        return None;
    }
    match first_in(words[word], (from % 64) as u32) {
        Some(bit) => Some(word * 64 + bit as usize),
        None => None,
    }
}

/// Returns the first bit that is set, from the beginning of word `word` on.
fn first_from(words: &[u64], word: usize) -> Option<usize>
    requires { length words.now ≤ 67108864 }
    ensures { MatchOption result ((i : ℕ) → word ≤ i / 64 → bit_of words.now i ≡ 0) (λ b. (word ≤ b / 64) × (bit_of words.now b ≡ 1) × ((i : ℕ) → word ≤ i / 64 → i < b → bit_of words.now i ≡ 0)) }
{
    let mut at = word;
    'words: while at < words.len() {
        if words[at] != 0 {
            return Some(at * 64 + words[at].trailing_zeros() as usize);
        }
        at += 1;
    }
    None
}

/// Returns the first bit that is set, from bit `from` on.
pub(crate) fn first(words: &[u64], from: usize) -> Option<usize>
    requires few { length words.now ≤ 67108864 }
    requires from { from + 64 < 2 ^ 64 }
    ensures { MatchOption result ((i : ℕ) → from ≤ i → bit_of words.now i ≡ 0) (IsFirst words.now from) }
{
    if let Some(bit) = first_near(words, from) {
        return Some(bit);
    }
    first_from(words, from / 64 + 1)
}

/// Sets a bit.
pub(crate) fn set_bit(words: &mut Vec<u64>, at: usize)
    requires { at / 64 < length words.old.items }
    ensures len { length words.new.items ≡ length words.old.items }
    ensures here { bit_of words.new.items at ≡ 1 }
    ensures others { (i : ℕ) → i ≢ at → bit_of words.new.items i ≡ bit_of words.old.items i }
    ensures words { (w : ℕ) → w ≢ at / 64 → slice_index words.new.items w ≡ slice_index words.old.items w }
{
    words[at / 64] |= 1 << (at % 64);
}

/// Clears a bit. Returns whether its word is 0 afterwards.
pub(crate) fn clear_bit(words: &mut Vec<u64>, at: usize) -> bool
    requires { at / 64 < length words.old.items }
    ensures len { length words.new.items ≡ length words.old.items }
    ensures here { bit_of words.new.items at ≡ 0 }
    ensures others { (i : ℕ) → i ≢ at → bit_of words.new.items i ≡ bit_of words.old.items i }
    ensures words { (w : ℕ) → w ≢ at / 64 → slice_index words.new.items w ≡ slice_index words.old.items w }
    ensures zero { slice_index words.old.items (at / 64) ≡ 0 → slice_index words.new.items (at / 64) ≡ 0 }
    ensures empty { result ≡ eqb (slice_index words.new.items (at / 64)) 0 }
{
    words[at / 64] &= !(1 << (at % 64));
    words[at / 64] == 0
}

/// Appends words so that the list has word `word`.
pub(crate) fn extend(words: &mut Vec<u64>, word: usize) -> Result<(), AllocError>
    ensures headroom { OnOk result (word < length words.new.items) }
    ensures grows { length words.old.items ≤ length words.new.items }
    ensures few { length words.new.items ≤ max (length words.old.items) (word + 1) }
    ensures same { (w : ℕ) → slice_index words.new.items w ≡ slice_index words.old.items w }
{
    'words: while words.len() <= word {
        words.push(0)?;
    }
    Ok(())
}
