//! The lexer of the generic form, and the printer of its tokens.
//!
//! A string, number, key or symbol that this crate prints is read again as one token with the same value (`laws`).
//! Modules: `lexer` (tokens), `token` and `runs` (their kinds and byte classes), `strings` and `numbers` (their
//! values), `bodies` (bracketed bodies of opaque types and attributes), `names` (scoped names), `print`, and
//! `refusal`, `fault` and `limits` (why and where a text is refused).
#![tactic(auto)]

pub mod bodies;
pub mod body_laws;
pub mod fault;
pub mod laws;
pub mod lexer;
pub mod limits;
pub mod names;
pub mod numbers;
pub mod print;
pub mod refusal;
mod runs;
pub mod strings;
pub mod token;
