//! Reads and prints the generic form. A text is read as the only tree that it denotes, and a tree is printed as its
//! text, byte for byte. No text within its limit fills a new context.
#![tactic(auto)]

mod alone;
pub mod attributes;
pub mod capacity_laws;
pub mod error;
mod naming;
mod numbers;
mod operations;
pub mod printer;
pub mod reader;
mod separators;
pub mod types;
mod values;
