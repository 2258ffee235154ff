//! Translates the operations of a user pattern to expressions of `width_claims`.
//!
//! `operations` has one function for each form of operation; its operands and its result are `operand::Operand`s.
#![tactic(auto)]

pub mod instruction;
pub mod operand;
pub mod operations;
pub mod poison;
pub mod products;
pub mod quotients;
pub mod shifts;
pub mod types;
pub mod values;
