//! Trees of operations: visibility, well-formedness, soundness in a context, and plain edits. Each is proved equal to
//! its definition.
#![tactic(auto)]

pub mod check;
pub mod copy;
pub mod count;
mod edits;
pub mod entries;
pub mod every;
pub mod find;
pub mod laws;
pub mod limits;
pub mod numbered;
pub mod outer;
pub mod place;
mod scope;
pub mod sound;
mod tally;
pub mod tree;
pub mod tree_edits;
pub mod uses;
pub mod value;
pub mod visible;

pub use ir_types as types;
