//! Decides whether a user pattern holds at all widths, also if its variables are poison.
//!
//! `translate` turns a pattern into claims of `width_claims`, one for each set of poison variables. `decide` decides.
//! `decode` and `refuting` turn a claim that fails into a counterexample. `answer` asks all of them.
#![tactic(auto)]

pub mod aim;
pub mod answer;
pub mod assignment;
pub mod decide;
pub mod decision;
pub mod decode;
pub mod goal;
pub mod laws;
mod letters;
pub mod pattern_word;
pub mod question;
pub mod refining;
pub mod refuting;
pub mod translate;
pub mod variables;
pub mod walk;
