//! What claims say of a pattern.
ghost use Rattle.std.specs.Prelude.{◌≡◌, IfOk, IfSome, true};
ghost use Rattle.user_patterns_data.specs.Shapes.{pattern_model};
ghost use Rattle.user_patterns_claims.specs.Answered.{IsAnswer, IsEmptyAnswer, IsRefuted};

use crate::assignment::Refutation;
use crate::decide::{decide_empty, decide_pattern};
use crate::decision::Decision;
use crate::laws::witnesses_witness;
use crate::refuting::{is_witness, refutation};
use std::alloc::{AllocError, Global};
use user_patterns_data::pattern::Pattern;

/// What claims say of a pattern.
#[derive(Drop)]
pub enum Answer {
    /// The old side is never a number.
    Empty,
    /// The pattern holds at all widths, and its new side makes no signed division. If true, its old side is a number
    /// somewhere.
    Right(bool),
    /// The pattern has this counterexample.
    Wrong(Refutation),
    /// Nothing.
    Open,
}

/// Whether the old side of a pattern is never a number: `Some(true)` if so, `Some(false)` if it is a number somewhere.
fn is_empty(alloc: Global, pattern: &Pattern, most: usize) -> Result<Option<bool>, AllocError>
    ensures { IfOk result (λ r. IfSome r (IsEmptyAnswer (pattern_model pattern.now))) }
{
    witnesses_witness();
    match decide_empty(alloc, pattern, most)? {
        Decision::Always => Ok(Some(true)),
        Decision::Fails(set, word) => {
            if is_witness(alloc, pattern, set, word.as_slice())? {
                Ok(Some(false))
            } else {
                Ok(None)
            }
        }
        Decision::Undecided => Ok(None),
    }
}

/// Returns the counterexample of a word after which a claim fails.
fn wrong(alloc: Global, pattern: &Pattern, set: usize, word: &[u32]) -> Result<Answer, AllocError>
    ensures { IfOk result (IsAnswer (pattern_model pattern.now)) }
{
    match refutation(alloc, pattern, set, word)? {
        Some(found) => Ok(Answer::Wrong(found)),
        None => Ok(Answer::Open),
    }
}

/// Returns what claims say of a pattern. Looks at no more than `most` transitions of each claim. A counterexample is
/// returned only if both sides were run and give it.
pub fn decide_claims(alloc: Global, pattern: &Pattern, most: usize) -> Result<Answer, AllocError>
    ensures { IfOk result (IsAnswer (pattern_model pattern.now)) }
{
    let empty = is_empty(alloc, pattern, most)?;
    if let Some(true) = empty {
        return Ok(Answer::Empty);
    }
    match decide_pattern(alloc, pattern, most)? {
        Decision::Always => Ok(Answer::Right(empty.is_some())),
        Decision::Fails(set, word) => wrong(alloc, pattern, set, word.as_slice()),
        Decision::Undecided => Ok(Answer::Open),
    }
}
