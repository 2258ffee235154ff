//! The error of a conversion.
ghost use Rattle.std.specs.Prelude.{◌≡◌, Some, None};

use ir_event::types::ids::OpId;
use ir_event::types::refusal::Refusal;
use thiserror::Error;

/// The error of a conversion: a refusal and, if it is about one, an operation.
#[derive(Clone, Copy, Debug, PartialEq, Eq, Error)]
#[error("{refusal}")]
pub struct Fault {
    /// The refusal.
    pub refusal: Refusal,
    /// The operation that the refusal is about.
    pub id: Option<OpId>,
}

impl Fault {
    /// Returns a fault about an operation.
    pub(crate) fn for_op(refusal: Refusal, op: OpId) -> Fault
        ensures refusal { result.refusal ≡ refusal }
        ensures id { result.id ≡ Some op }
    {
        Fault {
            refusal,
            id: Some(op),
        }
    }

    /// Returns a fault that isn't about an operation.
    pub(crate) fn without_op(refusal: Refusal) -> Fault
        ensures refusal { result.refusal ≡ refusal }
        ensures id { result.id ≡ None }
    {
        Fault { refusal, id: None }
    }
}
