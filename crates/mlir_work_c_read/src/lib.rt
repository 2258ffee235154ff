//! Reads and edits of a module by numbers, for the C interface.
//!
//! - `operations`, `entries`, `uses`, `queries`, `bulk`, `records`, `rows` and `texts` read operations, their counts
//!   and entries, uses, report rows, and texts of interned numbers. All reads leave the IR state unchanged.
//! - `header` builds a new operation from C arrays, with the entries in the dictionaries and in the order that they have
//!   in an operation text, and `insert` inserts it.
//! - `attributes` sets and removes entries by the numbers of their keys.
//! - `intern` returns the numbers of texts, and interns those that are new.
#![tactic(auto)]

pub mod attributes;
pub mod bulk;
mod dictionaries;
pub mod entries;
pub mod header;
pub mod insert;
pub mod intern;
pub mod numbers;
pub mod operations;
pub mod queries;
pub mod records;
pub mod rows;
pub mod texts;
pub mod uses;
