//! What a state says after the last bit.
ghost use Rattle.std.specs.Prelude.{◌≡◌, ◌<◌, ◌^◌, IfOk, OnOk};
ghost use Rattle.width_claims.specs.Steps.{differ, truth_at};
ghost use Rattle.width_claims.specs.BitSerial.{Ended, agrees, end_truth, end_truths_then, is_quotient, is_too_great, loses, state_count};

use crate::digits::{digit, is_number, without_digit};
use crate::step::Step;
use std::alloc::AllocError;

/// Returns the truth at a place, or false if there is none.
pub fn truth_at(truths: &[bool], place: usize) -> bool
    ensures { result ≡ truth_at truths.now place }
{
    match truths.get(place) {
        Some(truth) => *truth,
        None => false,
    }
}

/// Whether the remainder of a quotient by `n` plus 1 is at least the divisor, whatever its next bits are.
fn is_too_great(n: u32, kept: u128) -> bool
    ensures { result ≡ is_too_great n kept }
{
    kept < n as u128 + 2
}

/// Whether a quotient by `n` plus 1 is right: nothing is carried, and the remainder is less than the divisor.
fn is_quotient(n: u32, kept: u128) -> bool
    ensures { result ≡ is_quotient n kept }
{
    kept % (n as u128 + 2) == 0 && !is_too_great(n, kept)
}

/// Whether a guess is wrong for good, or a supposition broken.
pub fn loses(step: &Step, kept: u128) -> bool
    ensures { result ≡ loses step.now kept }
{
    match step {
        Step::Select(_, _, _) | Step::Suppose(_, _) => kept == 0,
        Step::Quotient(_, n) => is_too_great(*n, kept),
        Step::Variable(_)
        | Step::Literal(_)
        | Step::Ones(_)
        | Step::And(_, _)
        | Step::Or(_, _)
        | Step::ExclusiveOr(_, _)
        | Step::Add(_, _)
        | Step::Subtract(_, _)
        | Step::Equal(_, _)
        | Step::Less(_, _)
        | Step::Not(_)
        | Step::Both(_, _)
        | Step::Differ(_, _) => false,
    }
}

/// Whether exactly one of two is true.
fn differ(a: bool, b: bool) -> bool
    ensures { result ≡ differ a b }
{
    if a { !b } else { b }
}

/// Returns a step's truth.
fn end_truth(step: &Step, kept: u128, truths: &[bool]) -> bool
    ensures { result ≡ end_truth step.now kept truths.now }
{
    match step {
        Step::Equal(_, _) | Step::Less(_, _) | Step::Suppose(_, _) => kept == 1,
        Step::Not(i) => !truth_at(truths, *i),
        Step::Both(i, j) => truth_at(truths, *i) && truth_at(truths, *j),
        Step::Differ(i, j) => differ(truth_at(truths, *i), truth_at(truths, *j)),
        Step::Variable(_)
        | Step::Literal(_)
        | Step::Ones(_)
        | Step::Quotient(_, _)
        | Step::And(_, _)
        | Step::Or(_, _)
        | Step::ExclusiveOr(_, _)
        | Step::Add(_, _)
        | Step::Subtract(_, _)
        | Step::Select(_, _, _) => false,
    }
}

/// Whether a guess is what the truth selects, and a supposition holds.
fn agrees(step: &Step, kept: u128, truths: &[bool]) -> bool
    ensures { result ≡ agrees step.now kept truths.now }
{
    match step {
        Step::Select(t, _, _) => {
            if truth_at(truths, *t) {
                kept % 2 == 1
            } else {
                kept / 2 == 1
            }
        }
        Step::Suppose(_, _) => kept == 1,
        Step::Quotient(_, n) => is_quotient(*n, kept),
        Step::Variable(_)
        | Step::Literal(_)
        | Step::Ones(_)
        | Step::And(_, _)
        | Step::Or(_, _)
        | Step::ExclusiveOr(_, _)
        | Step::Add(_, _)
        | Step::Subtract(_, _)
        | Step::Equal(_, _)
        | Step::Less(_, _)
        | Step::Not(_)
        | Step::Both(_, _)
        | Step::Differ(_, _) => true,
    }
}

/// Appends a step's truth, if it has one.
fn push_truth(step: &Step, kept: u128, truths: &mut Vec<bool>) -> Result<(), AllocError>
    ensures { OnOk result (truths.new.items ≡ end_truths_then step.now kept truths.old.items) }
{
    if !is_number(step) {
        let truth = end_truth(step, kept, truths.as_slice());
        truths.push(truth)?;
    }
    Ok(())
}

/// Appends all truths. Returns whether all guesses and suppositions agree with them.
pub fn end(steps: &[Step], state: u128, truths: &mut Vec<bool>) -> Result<bool, AllocError>
    requires { state_count steps.now < 2 ^ 128 }
    ensures { IfOk result (Ended steps.now state truths.old.items truths.new.items) }
{
    let [step, tail @ ..] = steps else {
        return Ok(true);
    };
    let kept = digit(step, state);
    let here = agrees(step, kept, truths.as_slice());
    push_truth(step, kept, truths)?;
    let rest = end(tail, without_digit(step, state), truths)?;
    Ok(here && rest)
}
