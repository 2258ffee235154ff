//! The known values of operations' results, kept up to date by a listener (`constants`).
#![tactic(auto)]

mod collect;
pub mod constants;
mod follow;
mod forget;
pub mod laws;
mod learn;
mod packed;
mod report;
mod table;
mod users;
