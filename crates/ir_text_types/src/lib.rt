//! Parsing of types, and the parts that all parsers of the generic form share.
//!
//! The shared parts are: tokens that are expected next (`steps`), errors (`error`, `full`), and the specification
//! language of parsers and grammars (`specs/Outcomes.antt`, `specs/Lists.antt`, `specs/Grammars.antt`). Types are
//! interned while they are parsed (`types`, `scalars`, `scalar_types`, `shapes`, `opaque`).
#![tactic(auto)]

pub mod error;
pub mod full;
pub mod laws;
pub mod opaque;
pub mod scalar_types;
pub mod scalars;
mod shapes;
pub mod steps;
pub mod types;
