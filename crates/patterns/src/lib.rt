//! The rewrite rules at an operation of a rewriter's module: applying one rule, or the highest-priority rule that
//! applies.
#![tactic(auto)]

pub mod apply;
mod apply_edits;
pub mod apply_first;
pub mod apply_highest_priority;
mod apply_plan;
mod count;
mod edits;
mod insertion_point;
mod interned;
pub mod laws;
pub mod limits;
mod make;
mod operations;
mod plan;
mod plan_edits;
mod plans;
mod prefilter;
pub mod rules_by_name;

pub use patterns_lowering as runs;
pub use patterns_lowering::rewriter;
pub use patterns_soundness::base::rule;
