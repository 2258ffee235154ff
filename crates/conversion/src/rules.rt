//! Applies the rules that a conversion may try to a rewriter's module.
use crate::bench::apply_rule;
use crate::conversion_rewriter::RuleApplier;
use conversion_base::match_failure::failing_reason;
use conversion_base::reason::Reason;
use conversion_base::rule::Rule;
use ir_event::analysis::Analysis;
use ir_event::types::ids::OpId;
use ir_event::types::refusal::Refusal;
use patterns::runs::Bench;
use std::alloc::Global;

impl<L: Analysis> RuleApplier for Bench<L> {
    fn apply_rule(&mut self, alloc: Global, rule: Rule, op: OpId) -> Result<bool, Refusal> {
        apply_rule(alloc, self, rule, op)
    }

    fn reason(&self, alloc: Global, rule: Rule, op: OpId) -> Result<Option<Reason>, Refusal> {
        match failing_reason(alloc, self.world(), rule, op) {
            Ok(found) => Ok(found),
            Err(_) => Err(Refusal::Memory),
        }
    }
}
