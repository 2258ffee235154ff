//! Parses attributes, and interns them and their parts while it parses.
#![tactic(auto)]

mod arrays;
mod attribute_text;
pub mod attributes;
mod dense;
pub mod dictionaries;
pub mod element;
pub mod flag;
mod flags;
pub mod laws;
mod literals;
pub mod single;
mod symbols;
pub mod tail;
mod tails;
