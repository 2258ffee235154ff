//! Steps as a machine.
ghost use Rattle.std.specs.Prelude.{◌<◌, ◌^◌};
ghost use Rattle.width_claims.specs.BitSerial.{letters, state_count};

use crate::ends::{end, truth_at};
use crate::machine::Machine;
use crate::step::Step;
use crate::transition::Transition;
use crate::walk::{Branch, walk};
use std::alloc::{AllocError, Global};

/// A list of steps, and a truth of them that is claimed.
#[derive(Clone, Copy)]
pub struct BitSerial<'a> {
    /// The steps.
    pub steps: &'a [Step],
    /// The place of the truth.
    pub claim: usize,
    pub ghost small: { state_count steps.now < 2 ^ 128 },
    pub ghost few: { letters steps.now < 2 ^ 32 },
}

impl<'a> Machine for BitSerial<'a> {
    ghost use Rattle.width_claims.specs.BitSerial.{letters, next_state};
    ghost use Rattle.width_claims.specs.BitSerial as bit_serial;

    ghost after = { λ s n x. next_state s.steps.now n x };

    ghost letters = { λ s. letters s.steps.now };

    ghost accepts = { λ s n. bit_serial.accepts s.steps.now s.claim n };

    fn transitions(
        &self,
        alloc: Global,
        state: u128,
        most: usize,
        transitions: &mut Vec<Transition>,
    ) -> Result<bool, AllocError> {
        let mut bits = Vec::new(alloc);
        let branch = Branch {
            state,
            letter: 0,
            bit: 1,
            target: 0,
            weight: 1,
            most,
        };
        let complete = walk(self.steps, &branch, &mut bits, transitions)?;
        Ok(complete)
    }

    fn accepts(&self, alloc: Global, state: u128) -> Result<bool, AllocError> {
        let mut truths = Vec::new(alloc);
        let agreed = end(self.steps, state, &mut truths)?;
        Ok(!agreed || truth_at(&truths, self.claim))
    }
}
