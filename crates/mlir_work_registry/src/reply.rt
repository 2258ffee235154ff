//! Replies to commands.
ghost use Rattle.std.specs.Prelude.{◌≡◌};
ghost use Rattle.mlir_work_registry.specs.Replies.{is_accepted as accepts, is_refused_for as refuses_for, response_of, same_refusal};

use ir_event::types::ids::OpId;
use ir_event::types::refusal::Refusal;
use mlir_work_script::outcome::Outcome;

/// The reply to a command.
#[derive(Clone, Copy)]
pub enum Reply {
    /// The command was accepted.
    Done,
    /// The command was accepted and created this operation.
    DoneWithOp(OpId),
    /// The command was accepted with this outcome.
    DoneWithOutcome(Outcome),
    /// The command was refused. The module didn't change.
    Refused(Refusal),
    /// The command was refused because of this operation. The module didn't change.
    RefusedOn(Refusal, OpId),
    /// The command's text was refused at this byte, counted from the start of the text. The module didn't change.
    RefusedAt(Refusal, usize),
}

/// Returns whether two refusals are the same.
fn is_same(expected: Refusal, refusal: Refusal) -> bool
    ensures { result ≡ same_refusal expected refusal }
{
    expected.number() == refusal.number()
}

impl Reply {
    /// Returns whether the command was accepted.
    pub fn is_accepted(self) -> bool
        ensures { result ≡ accepts (response_of self) }
    {
        match self {
            Reply::Done => true,
            Reply::DoneWithOp(_) => true,
            Reply::DoneWithOutcome(_) => true,
            Reply::Refused(_) => false,
            Reply::RefusedOn(_, _) => false,
            Reply::RefusedAt(_, _) => false,
        }
    }

    /// Returns whether the command was refused for this reason.
    pub fn is_refused_for(self, expected: Refusal) -> bool
        ensures { result ≡ refuses_for expected (response_of self) }
    {
        match self {
            Reply::Done => false,
            Reply::DoneWithOp(_) => false,
            Reply::DoneWithOutcome(_) => false,
            Reply::Refused(refusal) => is_same(expected, refusal),
            Reply::RefusedOn(refusal, _) => is_same(expected, refusal),
            Reply::RefusedAt(refusal, _) => is_same(expected, refusal),
        }
    }
}
