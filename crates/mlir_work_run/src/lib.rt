//! Runs the program from input bytes to output bytes.
//!
//! - `run` reads the whole input, a module and a script, and then writes the output.
//! - `live` answers each line at once and flushes the answer before it reads the next line.
//! - `feed` takes the next line of an input, and `parts` the text of its module: a line is read only after the output
//!   was flushed.
//! - `dry_run` runs on bytes in memory and returns only the status.
//! - `write_refusal` writes the line for a refused module.
#![tactic(auto)]

pub mod dry_run;
pub mod feed;
pub mod live;
pub mod parts;
pub mod run;
mod write_refusal;

pub use mlir_work_session::{
    Bench, analysis_source, attach, cells, clauses, command, edits, expected_refusal, greedy,
    input, insertion_points, keys, kind, lines, marks, numbers, options, outcome, reader, registry,
    registry_command, replies, reply, response, rule_name, script, session_command, sink, source,
    values, watched, words, writing,
};
