//! The notes on refusals: the operations and values that a refusal is about, the unsupported MLIR construct at which a
//! text was refused, and why a pattern was refused.
//!
//! - `notes` builds the note on the refusal of a command, in the module in which the command was refused.
//! - `unsupported` classifies the text at the refused byte by a closed list of words.
//! - `pattern_reasons` says of a refused pattern what was found, what was expected, and what to do.
//! - `text_tokens` finds the token at a byte of a text.
#![tactic(auto)]

pub mod existing_ops;
pub mod note_subjects;
pub mod notes;
pub mod pattern_reasons;
pub mod text_tokens;
pub mod unsupported;
pub mod users;
pub mod write_notes;
