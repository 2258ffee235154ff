//! Names, types and attributes, interned in a context. Equal names, types and attributes have equal ids, and an id
//! never changes its meaning.
#![tactic(auto)]

pub mod bits;
mod check;
pub mod context;
mod dictionary;
pub mod ids;
pub mod laws;
pub mod limits;
pub mod node;
mod places;
pub mod range;
pub mod reading_laws;
pub mod readings;
pub mod refusal;
mod table;
pub mod things;
pub mod word;
pub mod word_laws;
pub mod words;

pub use ir_types_interner::lists::Items;
