//! The rules and user patterns that a rewriting command tries.

use greedy::pattern_set::RuleOrPattern;
use greedy::patterns::rule::Rule;

/// What a rewriting command tries at each operation, in order.
#[derive(Clone, Copy)]
pub enum RuleChoice<'a> {
    /// The rules of canonicalization, by ascending number.
    Canonical,
    /// The rules of a list.
    Listed(&'a [Rule]),
    /// The rules and user patterns of a list.
    WithPatterns(&'a [RuleOrPattern<'a>]),
}
