//! The rules and user patterns that a run tries.

use ir_event::types::ids::OpId;
use patterns::rules_by_name::RulesByName;
use patterns_base::rule::Rule;
use user_patterns_data::pattern::Pattern;

/// A rule of canonicalization, or a user pattern.
#[derive(Clone, Copy)]
pub enum RuleOrPattern<'a> {
    Rule(Rule),
    UserPattern(&'a Pattern),
}

/// What a run tries at an operation, in order.
#[derive(Clone, Copy)]
pub enum Entries<'a> {
    /// The rules of canonicalization, by ascending number.
    Canonicalization,
    /// The rules of a list.
    Rules(&'a RulesByName<'a>),
    /// The rules and user patterns of a list.
    Patterns(&'a [RuleOrPattern<'a>]),
}

/// What a run tries, and where.
#[derive(Clone, Copy)]
pub struct PatternSet<'a> {
    pub entries: Entries<'a>,
    /// The only operation at which the run tries the entries, or `None` if it tries them at all operations.
    pub at: Option<OpId>,
}
