//! The greedy driver. It applies a rule at the first operation in pre-order at which a rule applies, and repeats. It
//! also computes the operations at which a rule may apply differently after some events.
#![tactic(auto)]

pub mod affected;
pub mod applied_rewrite;
pub mod bench;
mod block;
mod first;
mod first_pattern;
pub mod greedy_rewriter;
pub mod journal;
pub mod laws;
mod neighbours;
pub mod outcome;
mod parents;
pub mod pattern_set;
mod push;
mod reach;
pub mod run;
pub mod tracer;
mod users;
mod walk;
mod worklist;

pub use patterns;
pub use user_patterns_apply as own;
