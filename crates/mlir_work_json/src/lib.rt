//! Converts the output of a run to JSON: each line becomes one object on one line.
#![tactic(auto)]

mod cuts;
mod form;
mod history;
pub mod laws;
mod members;
mod numbers;
pub mod printer;
pub mod printing;
mod replies;
mod rows;
pub mod text;
