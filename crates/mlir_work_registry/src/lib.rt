//! Runs the commands on the pattern registry of a session, and writes the responses to lines.
//!
//! - `registry_commands` defines, lists, checks and samples user patterns; `redefine` replaces one, and `check_all`
//!   checks each.
//! - `laws` says that these commands change a registry by definitions, removals, replacements and recorded checks.
//! - `reply` and `response` are the replies to commands and the results of checks.
//! - `write_replies` and `write_notes` write them, with the expected refusal and the note on a refusal.
#![tactic(auto)]

mod check_all;
pub mod laws;
mod redefine;
pub mod registry_commands;
pub mod reply;
pub mod response;
pub mod write_notes;
pub mod write_replies;

pub use mlir_work_script::rule_lists;
pub use user_patterns_registry::{check_result, registry, rows};
