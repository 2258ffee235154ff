//! Runs scripts on a module and its listeners. The output has the reply to each command, the bytes that the command
//! shows, and the module and each listener's report rows after it.
#![tactic(auto)]

pub mod attach;
mod attributes;
pub mod commands;
pub mod edits;
pub mod listing;
pub mod marks;
mod notes;
pub mod opening;
mod operations;
pub mod options;
mod parse_error;
pub mod pattern_commands;
pub mod prints;
mod replying;
mod rewriting;
pub mod rule_lists;
pub mod script;
pub mod session;
pub mod session_commands;
mod showing;
pub mod shows;
mod subjects;
mod texts;
mod transforming;
mod why;
pub mod why_patterns;

pub use ir_text::reader;
pub use mlir_work_script::{
    command, expected_refusal, outcome, registry_command, replies, session_command,
};
pub use mlir_work_script_base::{
    cells, clauses, input, insertion_points, items, keys, kind, lines, numbers, rule_name, sink,
    source, values, watched, words, writing,
};
pub use mlir_work_session_base::analysis_source;
pub use mlir_work_transforms::greedy;
pub use mlir_work_transforms::registry::{registry, reply, response};
pub use mlir_work_transforms::rewriter::Bench;
