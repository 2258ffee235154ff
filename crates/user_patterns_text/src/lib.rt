//! The text of user patterns (`docs/PATTERNS.md`): its grammar, a parser and a printer.
//!
//! `reading` parses a text into the parts of `parts`, or refuses it at the first error. `printing` prints parts.
//! `grammar_laws` and `printing_laws` state that parser and printer agree with the grammar.
#![tactic(auto)]

mod conditions;
pub mod error;
mod errors;
pub mod grammar_laws;
mod heads;
pub mod keywords;
mod numbers;
pub mod parts;
pub mod printing;
pub mod printing_laws;
pub mod reading;
pub mod steps;
mod terms;
