//! The reason why an operation can't be legalized.

use conversion_base::reason::Reason;
use conversion_base::rule::Rule;

/// Why the last rule that was tried doesn't legalize an operation.
#[derive(Clone, Copy)]
pub enum MatchFailure {
    /// The target has no rule.
    NoRule,
    /// The first condition of the rule that doesn't hold.
    ConditionFails(Rule, Reason),
    /// The rule applies, but the operations that it makes can't be legalized.
    MakesIllegal(Rule),
}
