//! The listener of symbols: the symbols that a module defines, and the definitions to which its references resolve.
#![tactic(auto)]

pub mod boxed;
pub mod definers;
pub mod definitions;
mod gather;
mod nameless;
mod names;
mod properties;
mod references;
mod report;
pub mod resolve;
pub mod role;
pub mod roles;
pub mod symbols;
pub mod table;
