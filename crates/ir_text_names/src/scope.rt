//! The state of a parser of operations.
use crate::pack::ValueGroup;
use crate::spares::Spares;
use ir_text_tokens::names::ScopedNames;

/// The bound names, the next free id, and the lists that the next operation uses.
#[derive(Drop)]
pub struct Scope<'a> {
    pub names: ScopedNames<'a, ValueGroup>,
    pub next: u32,
    pub spares: Spares<'a>,
}
