//! Lowers operations on index to i64, with casts around them. The module `apply_edits` carries out a list of edits on
//! a rewriter: all of them, or none.
#![tactic(auto)]

pub mod apply_edits;
pub mod apply_unchecked;
mod bare;
mod choices;
pub mod count;
pub mod edits;
mod give;
mod holders;
mod index;
mod intern;
pub mod laws;
mod lists;
mod loops;
mod lower;
mod marks;
mod numbers;
mod operation;
mod over;
pub mod plan;
pub mod plans;
mod reading;
mod single;
mod single_unchecked;
mod users;

pub use patterns_regions as region_rules;
pub use patterns_regions::reads;
pub use patterns_soundness::base::{edit, rule};
pub use rewriter;
pub use rewriter::{Bench, laws as rewriter_laws};
