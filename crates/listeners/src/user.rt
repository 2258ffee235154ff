//! The users of a listing.

use ir_event::types::ids::OpId;

/// An operation with operands, and the number of operands. A user that isn't live has no uses any more.
#[derive(Clone, Copy, Debug)]
pub(crate) struct User {
    pub(crate) id: OpId,
    pub(crate) count: u16,
    pub(crate) live: bool,
}
