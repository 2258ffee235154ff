//! The seven analyses as one type, `AnyAnalysis`.
#![tactic(auto)]

pub mod any_analysis;
