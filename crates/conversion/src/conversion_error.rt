//! The error of a conversion step, with the reason that it reports.
ghost use Rattle.std.specs.Prelude.{◌≡◌, Some, None};

use crate::fault::Fault;
use crate::match_failure::MatchFailure;
use ir_event::types::ids::OpId;
use ir_event::types::refusal::Refusal;

/// The refusal of a conversion. If an operation couldn't be legalized, also the reason.
#[derive(Clone, Copy)]
pub(crate) struct ConversionError {
    pub(crate) fault: Fault,
    pub(crate) failure: Option<MatchFailure>,
}

impl ConversionError {
    /// Returns a refusal for an operation that couldn't be legalized.
    pub(crate) fn for_op(refusal: Refusal, op: OpId, failure: MatchFailure) -> ConversionError
        ensures refusal { result.fault.refusal ≡ refusal }
        ensures id { result.fault.id ≡ Some op }
        ensures failure { result.failure ≡ Some failure }
    {
        ConversionError {
            fault: Fault::for_op(refusal, op),
            failure: Some(failure),
        }
    }

    /// Returns a refusal that isn't about an operation.
    pub(crate) fn without_op(refusal: Refusal) -> ConversionError
        ensures refusal { result.fault.refusal ≡ refusal }
        ensures id { result.fault.id ≡ None }
        ensures failure { result.failure ≡ None }
    {
        ConversionError {
            fault: Fault::without_op(refusal),
            failure: None,
        }
    }

    /// Returns the error of a fault after legalization, so without a match failure.
    pub(crate) fn from_fault(fault: Fault) -> ConversionError
        ensures fault { result.fault ≡ fault }
        ensures failure { result.failure ≡ None }
    {
        ConversionError {
            fault,
            failure: None,
        }
    }
}
