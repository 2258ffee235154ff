//! User patterns as data: their representation, their well-formedness, and their meaning at given widths.
//!
//! `pattern` has the types. `sides`, `literals` and `applicability` instantiate a pattern at widths. `well_formed` and
//! `depth` test a pattern. The specifications `Matching` and `Planning` define its matches and its rewrite plan.
#![tactic(auto)]

pub mod applicability;
pub mod depth;
pub mod depth_laws;
pub mod laws;
pub mod literals;
pub mod pattern;
pub mod sides;
pub mod well_formed;
