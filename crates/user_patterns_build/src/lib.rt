//! Prepares a user pattern for application. `unification` gives equal types the same number, and `can_build` tests that
//! the new operations can be built before the root and replace it.
#![tactic(auto)]

pub mod can_build;
pub mod laws;
pub mod unification;
