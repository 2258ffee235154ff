//! Decides which user patterns hold at all widths once a check has tested them up to some width, and chooses the values
//! and widths that a sampled check of the others tries.
//!
//! `polynomials` and `symbolic` compare both sides as polynomials. `bits` recognizes patterns that compute bit by bit,
//! `types` those with a single type, and `passing` those for which the check's values without poison are enough.
//! `sampled_values` and `sampled_widths` choose samples: `edges`, `random` values, and `near_literals`.
#![tactic(auto)]

pub mod all_widths;
mod bits;
mod edges;
pub mod laws;
pub mod near_literals;
pub mod passing;
mod polynomials;
mod random;
pub mod sampled_values;
pub mod sampled_widths;
mod symbolic;
mod types;
