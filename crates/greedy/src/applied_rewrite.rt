//! The record of one applied rewrite.

use ir_event::types::ids::OpId;
use patterns_base::rule::Rule;

/// What was applied: a rule, or a user pattern by its index in the list of rules and patterns.
#[derive(Clone, Copy)]
pub enum AppliedPattern {
    Rule(Rule),
    UserPattern(usize),
}

/// Records that a rule or a user pattern was applied at operation `op`. The operations that the rewrite made have the
/// ids from `from` up to, but not including, `until`. If `stays` is false, the rewrite erased `op` with everything
/// still inside it, and erased nothing else.
#[derive(Clone, Copy)]
pub struct AppliedRewrite {
    pub by: AppliedPattern,
    pub op: OpId,
    pub from: u32,
    pub until: u32,
    pub stays: bool,
}
