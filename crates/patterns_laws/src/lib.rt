//! The theorems that the rewrite rules on values keep the values of the operations that they replace.
#![tactic(auto)]

pub mod laws;
