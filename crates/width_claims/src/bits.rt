//! From one bit to the next.
ghost use Rattle.std.specs.Prelude.{◌≡◌, ◌+◌, ◌*◌, ◌/◌, ◌%◌, ◌<◌, OnOk};
ghost use Rattle.width_claims.specs.Steps.{number_at};
ghost use Rattle.width_claims.specs.BitSerial.{AreBits, bit_of, bits_then, less_still, next_of, next_quotient, quotient_radix, radix, same_still};

use crate::digits::is_number;
use crate::step::Step;
use std::alloc::AllocError;

/// Returns the bit at a place, or 0 if there is none.
fn bit_at(bits: &[u128], place: usize) -> u128
    ensures { result ≡ number_at bits.now place }
{
    match bits.get(place) {
        Some(bit) => *bit,
        None => 0,
    }
}

fn same_still(kept: u128, p: u128, q: u128) -> u128
    ensures { result ≡ same_still kept p q }
{
    if p == q { kept } else { 0 }
}

fn less_still(kept: u128, p: u128, q: u128) -> u128
    ensures { result ≡ less_still kept p q }
{
    if p == q { kept } else { q }
}

/// Returns a step's bit.
fn bit(step: &Step, kept: u128, guess: u128, bits: &[u128]) -> u128
    requires kept { kept < radix step.now }
    requires bits { AreBits bits.now }
    ensures { result ≡ bit_of step.now kept guess bits.now }
{
    match step {
        Step::Variable(_) => guess,
        Step::Literal(_) => kept % 2,
        Step::Ones(_) => kept.min(1),
        Step::Quotient(_, _) => guess,
        Step::And(i, j) => bit_at(bits, *i).min(bit_at(bits, *j)),
        Step::Or(i, j) => bit_at(bits, *i).max(bit_at(bits, *j)),
        Step::ExclusiveOr(i, j) => (bit_at(bits, *i) + bit_at(bits, *j)) % 2,
        Step::Add(i, j) => (bit_at(bits, *i) + bit_at(bits, *j) + kept) % 2,
        Step::Subtract(i, j) => (bit_at(bits, *i) + bit_at(bits, *j) + kept) % 2,
        Step::Select(_, _, _) => guess,
        Step::Equal(_, _)
        | Step::Less(_, _)
        | Step::Suppose(_, _)
        | Step::Not(_)
        | Step::Both(_, _)
        | Step::Differ(_, _) => 0,
    }
}

/// Returns what a step keeps for the next bit.
pub fn next(step: &Step, kept: u128, guess: u128, bits: &[u128]) -> u128
    requires kept { kept < radix step.now }
    requires guess { guess < 2 }
    requires bits { AreBits bits.now }
    ensures { result ≡ next_of step.now kept guess bits.now }
{
    match step {
        Step::Literal(_) => kept / 2,
        Step::Ones(_) => kept.saturating_sub(1),
        Step::Quotient(i, n) => next_quotient(*n, kept, guess, bit_at(bits, *i)),
        Step::Add(i, j) => (bit_at(bits, *i) + bit_at(bits, *j) + kept) / 2,
        Step::Subtract(i, j) => less_still(kept, bit_at(bits, *i), bit_at(bits, *j)),
        Step::Select(_, i, j) => selected(kept, guess, bit_at(bits, *i), bit_at(bits, *j)),
        Step::Equal(i, j) => same_still(kept, bit_at(bits, *i), bit_at(bits, *j)),
        Step::Less(i, j) => less_still(kept, bit_at(bits, *i), bit_at(bits, *j)),
        Step::Suppose(i, j) => same_still(kept, bit_at(bits, *i), bit_at(bits, *j)),
        Step::Variable(_)
        | Step::And(_, _)
        | Step::Or(_, _)
        | Step::ExclusiveOr(_, _)
        | Step::Not(_)
        | Step::Both(_, _)
        | Step::Differ(_, _) => 0,
    }
}

/// Returns what a quotient by `n` plus 1 keeps for the next bit, if `x` is the bit of the dividend.
fn next_quotient(n: u32, kept: u128, guess: u128, x: u128) -> u128
    requires kept { kept < quotient_radix n }
    requires guess { guess < 2 }
    requires bit { x < 2 }
    ensures { result ≡ next_quotient n kept guess x }
{
    let divisor = n as u128 + 1;
    let carries = divisor + 1;
    let flags = kept / carries;
    let sum = guess * divisor + kept % carries;
    let rest = flags / 2;
    let remainder = (x + sum) % 2;
    let less = less_still(flags % 2, remainder, rest % 2);
    (sum + remainder) / 2 + carries * (less + 2 * (rest / 2))
}

/// Returns what a choice keeps for the next bit: whether the guess is still equal to each arm.
fn selected(kept: u128, guess: u128, p: u128, q: u128) -> u128
    requires { kept < 4 }
    ensures { result ≡ same_still (kept % 2) guess p + 2 * same_still (kept / 2) guess q }
{
    same_still(kept % 2, guess, p) + 2 * same_still(kept / 2, guess, q)
}

/// Appends a step's bit, if it has one.
pub fn push_bit(
    step: &Step,
    kept: u128,
    guess: u128,
    bits: &mut Vec<u128>,
) -> Result<(), AllocError>
    requires kept { kept < radix step.now }
    requires bits { AreBits bits.old.items }
    ensures { OnOk result (bits.new.items ≡ bits_then step.now kept guess bits.old.items) }
{
    if is_number(step) {
        let bit = bit(step, kept, guess, bits.as_slice());
        bits.push(bit)?;
    }
    Ok(())
}
