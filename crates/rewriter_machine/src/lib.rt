//! The specification of the rewriter as a state machine: the effect of each call on the module, its marks and the
//! attached analyses. Replacing a value, erasing an operation and inserting one are specified as lists of edits of one
//! event each.
#![tactic(auto)]

pub mod edit_laws;
pub mod journal_laws;
pub mod machine_laws;
pub mod step_laws;

pub use ir_event as events;
