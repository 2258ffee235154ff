//! Claims, which the search tests.
ghost use Rattle.std.specs.Prelude.{◌≡◌, ℕ, IfOk, List, Bool};

use std::alloc::{AllocError, Global};

/// A claim about a list of values.
pub trait Claim {
    /// Whether the claim is true of a list of values.
    ghost holds: { Self → List ℕ → Bool };

    /// Returns whether the claim is true of `values`.
    fn holds(&self, alloc: Global, values: &[u128]) -> Result<bool, AllocError>
        ensures { IfOk result (λ b. b ≡ holds self.now values.now) };
}
