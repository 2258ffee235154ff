//! Turns the results of rewriter calls into replies.
ghost use Rattle.std.specs.Prelude.{◌≡◌};
ghost use Rattle.mlir_work_transforms.specs.rewriter.Commands.{Replied};
ghost use Rattle.mlir_work_transforms.specs.rewriter.Machine.{fault_reply};
ghost use Rattle.mlir_work_transforms.specs.rewriter.RewriterCalls.{id_reply_of, reply_of};
ghost use Rattle.mlir_work_transforms.specs.greedy.Changes.{canonical_reply};
ghost use Rattle.mlir_work_transforms.specs.Applying.{applied_reply};
ghost use Rattle.mlir_work_transforms.specs.Converting.{conversion_reply};
ghost use Rattle.mlir_work_transforms.specs.Sweep.{sweep_reply};
ghost use Rattle.mlir_work_session.specs.Machine.{response_of};

use crate::reply::Reply;
use ir_event::types::ids::OpId;
use ir_event::types::refusal::Refusal;
use mlir_work_script::outcome::Outcome;
use mlir_work_transforms::fault::Fault;
use mlir_work_transforms::greedy::outcome::Outcome as Ended;

/// Returns the reply to an edit.
pub(crate) fn reply_to(called: Result<(), Refusal>) -> Reply
    ensures { response_of result ≡ Replied (reply_of called) }
{
    match called {
        Ok(()) => Reply::Done,
        Err(refusal) => Reply::Refused(refusal),
    }
}

/// Returns the reply to a canonicalization.
pub(crate) fn reply_canonical(called: Result<Ended, Refusal>) -> Reply
    ensures { response_of result ≡ Replied (canonical_reply called) }
{
    match called {
        Ok(Ended::Converged(count)) => Reply::DoneWithOutcome(Outcome::Converged(count as usize)),
        Ok(Ended::Limit(count)) => Reply::DoneWithOutcome(Outcome::Limited(count as usize)),
        Err(refusal) => Reply::Refused(refusal),
    }
}

/// Returns the reply to a conversion.
pub(crate) fn reply_converted(called: Result<u32, Fault>) -> Reply
    ensures { response_of result ≡ Replied (conversion_reply called) }
{
    match called {
        Ok(count) => Reply::DoneWithOutcome(Outcome::Converted(count as usize)),
        Err(fault) => reply_fault(&fault),
    }
}

/// Returns the reply to a conversion that failed.
fn reply_fault(fault: &Fault) -> Reply
    ensures { response_of result ≡ Replied (fault_reply fault.now.refusal fault.now.id) }
{
    match fault.id {
        Some(op) => Reply::RefusedOn(fault.refusal, op),
        None => Reply::Refused(fault.refusal),
    }
}

/// Returns the reply to a sweep.
pub(crate) fn reply_swept(called: Result<usize, Refusal>) -> Reply
    ensures { response_of result ≡ Replied (sweep_reply called) }
{
    match called {
        Ok(count) => Reply::DoneWithOutcome(Outcome::Swept(count)),
        Err(refusal) => Reply::Refused(refusal),
    }
}

/// Returns the reply to applying a rule at an operation: the rule was applied once or not at all.
pub(crate) fn reply_applied(called: Result<bool, Refusal>) -> Reply
    ensures { response_of result ≡ Replied (applied_reply called) }
{
    match called {
        Ok(true) => Reply::DoneWithOutcome(Outcome::Applied(1)),
        Ok(false) => Reply::DoneWithOutcome(Outcome::Applied(0)),
        Err(refusal) => Reply::Refused(refusal),
    }
}

/// Returns the reply to a call that creates an operation.
pub(crate) fn reply_as(called: Result<OpId, Refusal>) -> Reply
    ensures { response_of result ≡ Replied (id_reply_of called) }
{
    match called {
        Ok(op) => Reply::DoneWithOp(op),
        Err(refusal) => Reply::Refused(refusal),
    }
}
