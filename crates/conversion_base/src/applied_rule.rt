//! The record of one applied rule of a conversion.

use ir_event::types::ids::OpId;
use patterns_base::rule::Rule;

/// Records that a rule was applied at operation `op` and wasn't undone. The operations that the rule made have the ids
/// from `from` up to, but not including, `until`. If `stays` is false, the rule erased `op` with everything still
/// inside it, and erased nothing else.
#[derive(Clone, Copy)]
pub struct AppliedRule {
    pub rule: Rule,
    pub op: OpId,
    pub from: u32,
    pub until: u32,
    pub stays: bool,
}
