//! Decides equations between integers of several widths, at all widths.
//!
//! `claim` translates expressions (`form`) to steps of one width (`block`, `emit`). `all_widths` decides a truth of
//! steps by a finite automaton that reads one bit of each variable at a time (`bit_serial`, `decide`).
#![tactic(auto)]

pub mod all_widths;
pub mod automaton_laws;
pub mod bit_serial;
pub mod bits;
pub mod block;
pub mod claim;
pub mod decide;
pub mod digits;
pub mod emit;
pub mod ends;
pub mod form;
pub mod laws;
pub mod machine;
pub mod origin;
pub mod step;
pub mod transition;
pub mod verdict;
pub mod visit;
pub mod walk;
pub mod width;
pub mod word;
