//! The pattern registry of a session, and the check commands on its patterns.
//!
//! `registry` and `define` hold user patterns by name. `check_command` tests all values of a pattern up to a width,
//! `sampling` tests some values at wide types, and `rows` and `listing` print the results.
#![tactic(auto)]

pub mod check_command;
pub mod check_laws;
pub mod check_result;
pub mod define;
pub mod laws;
pub mod listing;
pub mod registry;
pub mod rows;
pub mod sampling;
mod tracing;
mod widths;
