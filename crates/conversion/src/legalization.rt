//! The result of an attempt to legalize operations.

use conversion_base::applied_rule::AppliedRule;

/// The result of an attempt to legalize operations.
#[derive(Drop)]
pub(crate) struct Legalization {
    /// Whether the attempt succeeded.
    pub(crate) legal: bool,
    /// The applied rules, in the order in which they were applied.
    pub(crate) applied: Vec<AppliedRule>,
    /// Whether an attempt reached the depth limit at an operation that isn't legal.
    pub(crate) limit_reached: bool,
}
