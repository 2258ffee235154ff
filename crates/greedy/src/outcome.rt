//! The outcome of a run.

/// The outcome of a run, with the number of rewrites that it made.
#[derive(Clone, Copy, Debug, PartialEq, Eq)]
pub enum Outcome {
    /// No rule applies at any operation.
    Converged(u32),
    /// The run made as many rewrites as its limit allows, and a rule still applies.
    Limit(u32),
}
