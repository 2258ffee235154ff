//! Whether a truth of steps is true at every width.
ghost use Rattle.std.specs.Prelude.{◌≡◌, ◌<◌, ◌^◌, IfOk};
ghost use Rattle.width_claims.specs.BitSerial.{state_count, start};
ghost use Rattle.width_claims.specs.AllWidths.{IsDecided};

use crate::bit_serial::BitSerial;
use crate::decide::decide;
use crate::digits::{first_digit, letters, radix, state_count};
use crate::step::Step;
use crate::verdict::Verdict;
use std::alloc::{AllocError, Global};

/// The state before the first bit.
fn start(steps: &[Step]) -> u128
    requires { state_count steps.now < 2 ^ 128 }
    ensures is { result ≡ start steps.now }
    ensures small { result < state_count steps.now }
{
    let [step, tail @ ..] = steps else {
        return 0;
    };
    let rest = start(tail);
    first_digit(step) + radix(step) * rest
}

/// Decides whether a truth of steps is true at every width, for all variables for which the suppositions hold. Looks at
/// no more than `most` transitions, in the time of 2 * (`most` + 1) passes over the steps at most.
pub fn decide_all_widths(
    alloc: Global,
    steps: &[Step],
    claim: usize,
    most: usize,
) -> Result<Verdict, AllocError>
    ensures { IfOk result (IsDecided steps.now claim) }
{
    let Some(_) = state_count(steps) else {
        return Ok(Verdict::TooMany);
    };
    let Some(_) = letters(steps) else {
        return Ok(Verdict::TooMany);
    };
    let bit_serial = BitSerial { steps, claim };
    let verdict = decide(alloc, &bit_serial, start(steps), most)?;
    Ok(verdict)
}
