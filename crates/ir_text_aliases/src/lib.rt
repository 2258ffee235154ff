//! Expands aliases: replaces each alias of a text by its value and removes locations, given the values of the
//! aliases. A text is refused at its first unknown alias.
//!
//! `walk` is the expansion. `lexemes`, `words` and `terms` find where lexemes, types and attributes end, `nests` and
//! `scan_state` track brackets, `places` finds locations, `values` finds definitions, and `uses` writes a value.
#![tactic(auto)]

pub mod lexemes;
pub mod mark;
mod nests;
pub mod part;
pub mod places;
pub mod scan_state;
pub mod terms;
pub mod uses;
pub mod values;
pub mod walk;
pub mod words;
