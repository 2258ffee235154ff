//! The rewriter (`Bench`): a module under edits, with its marks, its journal and its listeners. An edit of several
//! events is atomic: replacing all uses of a value, erasing an operation, inserting an operation with everything inside
//! it.
//!
//! `Transaction` is the part without listeners: the IR state, the journal and the marks.
#![tactic(auto)]

mod attributes;
pub mod bench;
mod claims;
mod contexts;
mod edits;
pub mod erase;
mod fault;
pub mod faults;
pub mod finish;
mod headers;
pub mod insert;
pub mod laws;
mod listeners;
mod making;
pub mod mark;
mod marks;
mod moving;
mod putting;
mod read_in_module;
mod release;
pub mod replace;
mod texts;
pub mod transaction;
mod transaction_edits;
mod transaction_texts;

pub use bench::Bench;
pub use ir_text::reader::ReadError;
