//! The transitions from a state.
ghost use Rattle.std.specs.Prelude.{◌≡◌, [], ◌∷◌, ◌<◌, ◌+◌, ◌*◌, ◌^◌, IfOk};
ghost use Rattle.width_claims.specs.BitSerial.{AreBits, radix};
ghost use Rattle.width_claims.specs.Transitions.{AreAppended, IsSmall, IsStepSmall, IsWalked, branch_after, guesses, step_transitions, transition_to, transitions_of};

use crate::bits::{next, push_bit};
use crate::digits::{digit, guesses, radix, reads_bit, without_digit};
use crate::ends::loses;
use crate::step::Step;
use crate::transition::Transition;
use std::alloc::AllocError;

/// Letters whose first bits are chosen, and the digits that the first steps keep after them.
#[derive(Clone, Copy)]
pub struct Branch {
    /// The digits of the other steps before the letter.
    pub state: u128,
    /// The bits that are chosen.
    pub letter: u32,
    /// The weight of the next bit.
    pub bit: u32,
    /// The digits of the first steps after the letter.
    pub target: u128,
    /// The weight of the next digit.
    pub weight: u128,
    /// The greatest number of transitions.
    pub most: usize,
}

/// Appends the transition of a branch whose next bit is `guess`. Returns false if there are `most` transitions.
fn push_transition(
    branch: &Branch,
    guess: u32,
    target: u128,
    transitions: &mut Vec<Transition>,
) -> Result<bool, AllocError>
    requires { branch.now.letter + branch.now.bit * guess < 2 ^ 32 }
    ensures { IfOk result (AreAppended (transition_to branch.now guess target ∷ []) transitions.old.items transitions.new.items) }
{
    if transitions.len() >= branch.most {
        return Ok(false);
    }
    let letter = branch.letter + branch.bit * guess;
    transitions.push(Transition { letter, target })?;
    Ok(true)
}

/// Returns the branch after a step that keeps `kept`.
fn branch_after(step: &Step, guess: u32, kept: u128, branch: &Branch) -> Branch
    requires { IsStepSmall step.now guess kept branch.now }
    ensures { result ≡ branch_after step.now guess kept branch.now }
{
    Branch {
        state: without_digit(step, branch.state),
        letter: branch.letter + branch.bit * guess,
        bit: branch.bit * guesses(step),
        target: branch.target + branch.weight * kept,
        weight: branch.weight * radix(step),
        most: branch.most,
    }
}

/// Walks a step with a guess, and then the steps after it.
#[cycle(steps)]
fn walk_step(
    step: &Step,
    tail: &[Step],
    guess: u32,
    branch: &Branch,
    bits: &mut Vec<u128>,
    transitions: &mut Vec<Transition>,
) -> Result<bool, AllocError>
    requires bits { AreBits bits.old.items }
    requires small { IsSmall (step.now ∷ tail.now) branch.now }
    requires guess { guess < guesses step.now }
    ensures { IfOk result (IsWalked (step_transitions step.now guess branch.now bits.old.items (transitions_of tail.now)) transitions.old.items transitions.new.items bits.old.items bits.new.items) }
{
    let kept = digit(step, branch.state);
    let next = next(step, kept, guess as u128, bits.as_slice());
    if loses(step, next) {
        let complete = push_transition(branch, guess, 0, transitions)?;
        return Ok(complete);
    }
    let count = bits.len();
    push_bit(step, kept, guess as u128, bits)?;
    let after = branch_after(step, guess, next, branch);
    let complete = walk(tail, &after, bits, transitions)?;
    bits.truncate(count);
    Ok(complete)
}

/// Appends the transitions of a branch. Letters with which the same step loses have one transition. Returns false if
/// there are more than `most`.
#[cycle(steps)]
pub fn walk(
    steps: &[Step],
    branch: &Branch,
    bits: &mut Vec<u128>,
    transitions: &mut Vec<Transition>,
) -> Result<bool, AllocError>
    requires bits { AreBits bits.old.items }
    requires small { IsSmall steps.now branch.now }
    ensures { IfOk result (IsWalked (transitions_of steps.now branch.now bits.old.items) transitions.old.items transitions.new.items bits.old.items bits.new.items) }
{
    let [step, tail @ ..] = steps else {
        let complete = push_transition(branch, 0, branch.target, transitions)?;
        return Ok(complete);
    };
    let complete = walk_step(step, tail, 0, branch, bits, transitions)?;
    if !complete {
        return Ok(false);
    }
    if !reads_bit(step) {
        return Ok(true);
    }
    let complete = walk_step(step, tail, 1, branch, bits, transitions)?;
    Ok(complete)
}
