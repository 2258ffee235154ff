//! Events: the elementary edits, of which listeners are notified.
ghost use Rattle.std.specs.Prelude.{◌≡◌};
ghost use Rattle.ir_event.specs.Step.{inverse_of};

use ir_store::trees::place::{Part, Place};
use ir_store::trees::value::Value;
use op_registry::types::ids::{AttrId, NameId, OpId};

/// One elementary edit of a module.
#[derive(Clone, Copy, Debug, PartialEq, Eq)]
pub enum Event {
    /// An operation with empty blocks was inserted at a place. If `fresh`, its id was the next free one, which rose by
    /// one.
    Put {
        op: OpId,
        place: Place,
        fresh: bool,
    },
    /// The operation was taken out from the place. If `fresh`, its id, the newest, is free again.
    Take {
        op: OpId,
        place: Place,
        fresh: bool,
    },
    /// Operand `k` of an operation, counted from 0, was set from one value to another.
    SetOperand {
        op: OpId,
        k: u32,
        old: Value,
        new: Value,
    },
    /// An entry of one dictionary of an operation was added, changed or removed.
    SetEntry {
        op: OpId,
        part: Part,
        key: NameId,
        old: Option<AttrId>,
        new: Option<AttrId>,
    },
    /// An operation, with everything inside it, was moved from one place to another.
    Shift {
        op: OpId,
        old: Place,
        new: Place,
    },
}

/// Returns the event that undoes an event.
pub fn inverse(event: Event) -> Event
    ensures { result ≡ inverse_of event }
{
    match event {
        Event::Put { op, place, fresh } => Event::Take { op, place, fresh },
        Event::Take { op, place, fresh } => Event::Put { op, place, fresh },
        Event::SetOperand { op, k, old, new } => Event::SetOperand {
            op,
            k,
            old: new,
            new: old,
        },
        Event::SetEntry {
            op,
            part,
            key,
            old,
            new,
        } => Event::SetEntry {
            op,
            part,
            key,
            old: new,
            new: old,
        },
        Event::Shift { op, old, new } => Event::Shift {
            op,
            old: new,
            new: old,
        },
    }
}
