//! Patterns with type variables.
ghost use Rattle.std.specs.Prelude.{◌≡◌, ℕ, IfOk, List};
ghost use Rattle.user_patterns_check.specs.Contents.{Content, content};

use crate::sides::Instance;
use std::alloc::{AllocError, Global};

/// A pattern with type variables: it has an instance at each list of widths.
pub trait Family {
    /// The instance at these widths.
    ghost family: { Self → List ℕ → Content };

    /// Returns the instance at `widths`, one width for each type variable.
    fn sides(&self, alloc: Global, widths: &[u32]) -> Result<Instance, AllocError>
        ensures { IfOk result (λ s. content s ≡ family self.now widths.now) };
}
