//! Binds the names of values while a text is parsed: the names of results, and those of a block's arguments.
#![tactic(auto)]

pub mod binding;
pub mod blocks;
pub mod bound;
pub mod lists;
pub mod pack;
pub mod results;
pub mod scope;
pub mod spares;
pub mod value_names;
