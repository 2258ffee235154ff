//! The listener of uses (`uses`), and the listener of private symbols that nothing reaches (`unreached`).
//!
//! After an event each listener agrees with the module or is stale, if it agreed with the module before the event.
#![tactic(auto)]

mod about;
mod collect;
mod follow;
mod gather;
pub mod key;
pub mod laws;
pub mod list;
mod listing;
mod marking;
mod operand_change;
mod report;
mod table;
pub mod unreached;
mod unreached_report;
mod user;
pub mod uses;
mod waiting;

pub use listeners_symbols::definers::Definers;
pub use listeners_symbols::symbols::Symbols;
