//! The command line, and the parts of a run outside the session.
//!
//! - `arguments` declares the arguments of the command line, `arg_values` reads their values, `options` parses the
//!   command line, and `text` holds the texts of `--help`.
//! - `listed_kinds` parses the list of analyses to attach.
//! - `files` reads the files that the command line names, and `inputs` builds one input from a module and scripts.
//! - `pattern_files` reads the files of user patterns, and `reading` defines the patterns of a text, one a line.
//! - `runs` says which run the command line asks for, and runs several inputs one after another.
//! - `formats` runs an input, or answers lines, in the format of the command line, and `json` does so in JSON.
//! - `positions` finds lines and columns of a text.
#![tactic(auto)]

mod arg_values;
mod arguments;
pub mod files;
pub mod formats;
pub mod input_laws;
pub mod inputs;
pub mod json;
pub mod listed_kinds;
pub mod options;
pub mod pattern_file_laws;
pub mod pattern_files;
pub mod positions;
pub mod reading;
pub mod runs;
mod text;

pub use ir_event::trees::count;
pub use ir_event::types::refusal;
pub use mlir_work_notes::{pattern_reasons, text_tokens, unsupported};
pub use mlir_work_run::{dry_run, input, live, run, sink, source, watched, writing};
pub use mlir_work_script_base::words;
pub use user_patterns_registry::registry;
pub use user_patterns_text::error;
