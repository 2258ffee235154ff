//! Deterministic machines.
ghost use Rattle.std.specs.Prelude.{◌≡◌, ℕ, [], IfOk, Bool};
ghost use Rattle.width_claims.specs.Runs.{AreTransitionsIf};

use crate::transition::Transition;
use std::alloc::{AllocError, Global};

/// A machine whose letters lead from one state to another, and that accepts some of its states.
pub trait Machine {
    /// The state after a state and a letter.
    ghost after: { Self → ℕ → ℕ → ℕ };

    /// Whether a state is accepted.
    ghost accepts: { Self → ℕ → Bool };

    /// How many letters there are.
    ghost letters: { Self → ℕ };

    /// Appends the transitions from a state to an empty list. Returns false if there are more than `most`.
    fn transitions(
        &self,
        alloc: Global,
        state: u128,
        most: usize,
        transitions: &mut Vec<Transition>,
    ) -> Result<bool, AllocError>
        requires { transitions.old.items ≡ [] }
        ensures { IfOk result (λ complete. AreTransitionsIf complete (after self.now state) (letters self.now) transitions.new.items) };

    /// Whether a state is accepted.
    fn accepts(&self, alloc: Global, state: u128) -> Result<bool, AllocError>
        ensures { IfOk result (λ b. b ≡ accepts self.now state) };
}
