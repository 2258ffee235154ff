//! The insertion point of a rule's new operations.
use ir_event::trees::place::Place;
use ir_event::types::ids::OpId;

/// An operation, the place before it, and the next free id.
#[derive(Clone, Copy)]
pub struct InsertionPoint {
    pub point: Place,
    pub next: OpId,
    pub op: OpId,
}
