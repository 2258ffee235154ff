//! What a step keeps from bit to bit.
ghost use Rattle.std.specs.Prelude.{◌≡◌, ◌+◌, ◌*◌, ◌/◌, ◌%◌, ◌<◌, ◌^◌, IfSome};
ghost use Rattle.width_claims.specs.Steps.{is_number};
ghost use Rattle.width_claims.specs.BitSerial.{first_digit, letters, quotient_kept, quotient_radix, radix, reads_bit, state_count, start};
ghost use Rattle.width_claims.specs.Transitions.{guesses};

use crate::step::Step;

/// Whether a step gives a number, and no truth.
pub fn is_number(step: &Step) -> bool
    ensures { result ≡ is_number step.now }
{
    match step {
        Step::Equal(_, _)
        | Step::Less(_, _)
        | Step::Suppose(_, _)
        | Step::Not(_)
        | Step::Both(_, _)
        | Step::Differ(_, _) => false,
        Step::Variable(_)
        | Step::Literal(_)
        | Step::Ones(_)
        | Step::Quotient(_, _)
        | Step::And(_, _)
        | Step::Or(_, _)
        | Step::ExclusiveOr(_, _)
        | Step::Add(_, _)
        | Step::Subtract(_, _)
        | Step::Select(_, _, _) => true,
    }
}

/// Whether a step's bit is one of the letter's.
pub fn reads_bit(step: &Step) -> bool
    ensures { result ≡ reads_bit step.now }
{
    match step {
        Step::Variable(_) | Step::Quotient(_, _) | Step::Select(_, _, _) => true,
        Step::Literal(_)
        | Step::Ones(_)
        | Step::And(_, _)
        | Step::Or(_, _)
        | Step::ExclusiveOr(_, _)
        | Step::Add(_, _)
        | Step::Subtract(_, _)
        | Step::Equal(_, _)
        | Step::Less(_, _)
        | Step::Suppose(_, _)
        | Step::Not(_)
        | Step::Both(_, _)
        | Step::Differ(_, _) => false,
    }
}

/// Returns the number of bits that a step's bit may be.
pub fn guesses(step: &Step) -> u32
    ensures { result ≡ guesses step.now }
{
    if reads_bit(step) { 2 } else { 1 }
}

/// Returns the number of values that a quotient by `n` plus 1 may keep.
fn quotient_radix(n: u32) -> u128
    ensures is { result ≡ quotient_radix n }
    ensures some { 0 < result }
    ensures small { result < 2 ^ 128 }
{
    let carries = n as u128 + 2;
    carries * (2 * carries)
}

/// Returns the value that a quotient by `n` plus 1 keeps before the first bit: the whole divisor.
fn first_of_quotient(n: u32) -> u128
    ensures { result ≡ quotient_kept n 0 0 (n + 1) }
{
    let divisor = n as u128 + 1;
    (divisor + 1) * (2 * divisor)
}

/// Returns the number of values that a step may keep.
pub fn radix(step: &Step) -> u128
    requires { radix step.now < 2 ^ 128 }
    ensures { result ≡ radix step.now }
{
    match step {
        Step::Literal(n) => *n + 1,
        Step::Ones(w) => *w as u128 + 1,
        Step::Quotient(_, n) => quotient_radix(*n),
        Step::Add(_, _)
        | Step::Subtract(_, _)
        | Step::Equal(_, _)
        | Step::Less(_, _)
        | Step::Suppose(_, _) => 2,
        Step::Select(_, _, _) => 4,
        Step::Variable(_)
        | Step::And(_, _)
        | Step::Or(_, _)
        | Step::ExclusiveOr(_, _)
        | Step::Not(_)
        | Step::Both(_, _)
        | Step::Differ(_, _) => 1,
    }
}

/// Returns a remainder. Divisions by 1 and 2 are cheap.
fn remainder(state: u128, radix: u128) -> u128
    requires { 0 < radix }
    ensures { result ≡ state % radix }
{
    match radix {
        1 => 0,
        2 => state % 2,
        _ => state % radix,
    }
}

/// Returns a quotient. Divisions by 1 and 2 are cheap.
fn quotient(state: u128, radix: u128) -> u128
    requires { 0 < radix }
    ensures { result ≡ state / radix }
{
    match radix {
        1 => state,
        2 => state / 2,
        _ => state / radix,
    }
}

/// Returns the first digit of a state.
pub fn digit(step: &Step, state: u128) -> u128
    requires { radix step.now < 2 ^ 128 }
    ensures { result ≡ state % radix step.now }
{
    match step {
        Step::Literal(n) => remainder(state, *n + 1),
        Step::Ones(w) => remainder(state, *w as u128 + 1),
        Step::Quotient(_, n) => remainder(state, quotient_radix(*n)),
        Step::Add(_, _)
        | Step::Subtract(_, _)
        | Step::Equal(_, _)
        | Step::Less(_, _)
        | Step::Suppose(_, _) => state % 2,
        Step::Select(_, _, _) => state % 4,
        Step::Variable(_)
        | Step::And(_, _)
        | Step::Or(_, _)
        | Step::ExclusiveOr(_, _)
        | Step::Not(_)
        | Step::Both(_, _)
        | Step::Differ(_, _) => 0,
    }
}

/// Returns the digits of a state after the first one.
pub fn without_digit(step: &Step, state: u128) -> u128
    requires { radix step.now < 2 ^ 128 }
    ensures { result ≡ state / radix step.now }
{
    match step {
        Step::Literal(n) => quotient(state, *n + 1),
        Step::Ones(w) => quotient(state, *w as u128 + 1),
        Step::Quotient(_, n) => quotient(state, quotient_radix(*n)),
        Step::Add(_, _)
        | Step::Subtract(_, _)
        | Step::Equal(_, _)
        | Step::Less(_, _)
        | Step::Suppose(_, _) => state / 2,
        Step::Select(_, _, _) => state / 4,
        Step::Variable(_)
        | Step::And(_, _)
        | Step::Or(_, _)
        | Step::ExclusiveOr(_, _)
        | Step::Not(_)
        | Step::Both(_, _)
        | Step::Differ(_, _) => state,
    }
}

/// Returns the value that a step keeps before the first bit.
pub fn first_digit(step: &Step) -> u128
    ensures { result ≡ first_digit step.now }
{
    match step {
        Step::Literal(n) => *n,
        Step::Ones(w) => *w as u128,
        Step::Quotient(_, n) => first_of_quotient(*n),
        Step::Select(_, _, _) => 3,
        Step::Equal(_, _) | Step::Suppose(_, _) => 1,
        Step::Variable(_)
        | Step::And(_, _)
        | Step::Or(_, _)
        | Step::ExclusiveOr(_, _)
        | Step::Add(_, _)
        | Step::Subtract(_, _)
        | Step::Less(_, _)
        | Step::Not(_)
        | Step::Both(_, _)
        | Step::Differ(_, _) => 0,
    }
}

/// Returns the number of values that a step may keep, if it fits 128 bits.
fn radix_of(step: &Step) -> Option<u128>
    ensures { IfSome result (λ r. r ≡ radix step.now) }
{
    if let Step::Literal(n) = step {
        return n.checked_add(1);
    }
    if let Step::Ones(w) = step {
        return Some(*w as u128 + 1);
    }
    if let Step::Quotient(_, n) = step {
        return Some(quotient_radix(*n));
    }
    Some(radix(step))
}

/// Returns a product, if it fits 128 bits.
fn product(a: u128, b: u128) -> Option<u128>
    ensures { IfSome result (λ p. p ≡ a * b) }
{
    a.checked_mul(b)
}

/// Returns the number of possible states, if it fits 128 bits.
pub fn state_count(steps: &[Step]) -> Option<u128>
    ensures { IfSome result (λ r. r ≡ state_count steps.now) }
{
    let [step, tail @ ..] = steps else {
        return Some(1);
    };
    let rest = state_count(tail)?;
    let radix = radix_of(step)?;
    product(radix, rest)
}

/// Returns the number of letters, if it fits 32 bits.
pub fn letters(steps: &[Step]) -> Option<u32>
    ensures { IfSome result (λ n. n ≡ letters steps.now) }
{
    let [step, tail @ ..] = steps else {
        return Some(1);
    };
    let rest = letters(tail)?;
    if reads_bit(step) {
        rest.checked_mul(2)
    } else {
        Some(rest)
    }
}
