//! Reads modules, and proves that printed modules are read back.
//!
//! `module` is the reader; with opaque types and attributes allowed, it also expands aliases and removes locations.
//! `laws` and `module_laws` have the round-trip theorems for types, attributes, dictionaries, operations and modules.
//!
//! `expansion` collects the definitions of aliases, replaces each use of an alias by its value, and removes locations.
//! A fault in the expanded text is mapped back to the original text.
#![tactic(auto)]

mod definitions;
mod endings;
pub mod expansion;
pub mod expansion_laws;
pub mod laws;
pub mod module;
pub mod module_laws;
mod recursion;
pub mod unchanged;
