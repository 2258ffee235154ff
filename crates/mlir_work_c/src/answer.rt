//! The answers to calls, as numbers.
ghost use Rattle.std.specs.Prelude.{◌≡◌, ℕ};
ghost use Rattle.mlir_work_script.specs.Outcomes.{outcome_of};
ghost use Rattle.mlir_work_run.specs.session.Machine.{response_of};
ghost use Rattle.mlir_work_run.specs.session.Notices.{notice_of};
ghost use Rattle.mlir_work_c.specs.Answers.{answer_of, came_of, closed as no_session, nothing as no_command, refused as refused_for, opened as a_session, not_opened as not_opened_for, counted, parse_error_answer};
ghost use Rattle.rewriter.specs.Commands.{Replied};
ghost use Rattle.rewriter.specs.RewriterCalls.{id_reply_of, reply_of};
ghost use Rattle.mlir_work_c.specs.Answers.{replied_of, said_as};

use ir_event::types::ids::OpId;
use ir_event::types::refusal::Refusal;
use mlir_work_run::outcome::Outcome;
use mlir_work_run::reply::Reply;
use mlir_work_run::response::{CheckSummary, Response};
use rewriter::ReadError;

/// The answer to a call. It has only numbers and needs no memory, so an edit that was made always gets its answer.
#[repr(C)]
#[derive(Clone, Copy)]
pub struct Answer {
    /// 0: the line is empty or a comment; 1: accepted; 2: accepted, `number` is the new operation; 3: swept `number`
    /// symbols; 4: converged after `number` rewrites; 5: stopped at the limit after `number` rewrites; 6: converted
    /// by `number` rules; 7: refused; 8: refused because of operation `number`; 9: refused at byte `number` of a
    /// text; 10: there is no session; 11: a rule or a pattern was applied `number` times; 12: a pattern holds up to
    /// width `number`, or at all widths if `number` is 0; 13: a pattern matches nowhere up to that width; 14: a
    /// pattern fails at that width; 15: sampling at that width found no counterexample.
    pub outcome: u32,
    /// The number of the refusal (docs/REFUSALS.md), or 0.
    pub refusal: u32,
    /// The number that the outcome refers to, or 0.
    pub number: u64,
    /// The number of bytes that the line shows.
    pub shown: u64,
}

/// Returns an answer with these numbers.
fn of_numbers(outcome: u32, refusal: u32, number: u64, shown: u64) -> Answer
    ensures { result ≡ record { outcome = outcome; refusal = refusal; number = number; shown = shown } }
{
    Answer {
        outcome,
        refusal,
        number,
        shown,
    }
}

/// Returns the answer to an empty line or a comment.
pub fn nothing() -> Answer
    ensures { result ≡ no_command }
{
    of_numbers(0, 0, 0, 0)
}

/// Returns the answer of a closed handle.
pub fn closed() -> Answer
    ensures { result ≡ no_session }
{
    of_numbers(10, 0, 0, 0)
}

/// Returns the answer to a refused call.
pub fn refused(refusal: Refusal) -> Answer
    ensures { result ≡ refused_for refusal }
{
    of_numbers(7, refusal.number(), 0, 0)
}

/// Returns the answer after a session was opened.
pub fn opened() -> Answer
    ensures { result ≡ a_session }
{
    of_numbers(1, 0, 0, 0)
}

/// Returns the answer to an accepted call with a number.
pub fn counted(number: u64) -> Answer
    ensures { result ≡ counted number }
{
    of_numbers(1, 0, number, 0)
}

/// Returns the answer to an edit.
pub fn edited(reported: Result<(), Refusal>) -> Answer
    ensures { result ≡ replied_of (Replied (reply_of reported)) 0 }
{
    match reported {
        Ok(()) => opened(),
        Err(refusal) => refused(refusal),
    }
}

/// Returns the answer to an insertion.
pub fn inserted(op: Result<OpId, Refusal>) -> Answer
    ensures { result ≡ replied_of (Replied (id_reply_of op)) 0 }
{
    match op {
        Ok(op) => of_numbers(2, 0, op.number() as u64, 0),
        Err(refusal) => refused(refusal),
    }
}

/// Returns the answer to a text that isn't read.
pub fn parse_error_answer(error: ReadError) -> Answer
    ensures { result ≡ parse_error_answer error }
{
    match error {
        ReadError::Memory => refused(Refusal::Memory),
        ReadError::Full { offset } => { of_numbers(9, Refusal::TooMany.number(), offset as u64, 0) }
        ReadError::Refused { refusal, offset } => {
            of_numbers(9, refusal.number(), offset as u64, 0)
        }
    }
}

/// Returns the answer if no session was opened, with the refused byte of the text if there is one.
pub fn open_failed(refusal: Refusal, offset: Option<usize>) -> Answer
    ensures { result ≡ not_opened_for refusal offset }
{
    match offset {
        None => refused(refusal),
        Some(offset) => of_numbers(9, refusal.number(), offset as u64, 0),
    }
}

/// Returns the answer to a transformation that was made.
fn done_with(outcome: Outcome, shown: u64) -> Answer
    ensures { result ≡ came_of (outcome_of outcome) shown }
{
    match outcome {
        Outcome::Swept(n) => of_numbers(3, 0, n as u64, shown),
        Outcome::Converged(n) => of_numbers(4, 0, n as u64, shown),
        Outcome::Limited(n) => of_numbers(5, 0, n as u64, shown),
        Outcome::Converted(n) => of_numbers(6, 0, n as u64, shown),
        Outcome::Applied(n) => of_numbers(11, 0, n as u64, shown),
    }
}

/// Returns the answer for a reply that shows `shown` bytes.
fn replied_of(reply: Reply, shown: u64) -> Answer
    ensures { result ≡ replied_of (response_of reply) shown }
{
    match reply {
        Reply::Done => of_numbers(1, 0, 0, shown),
        Reply::DoneWithOp(op) => of_numbers(2, 0, op.number() as u64, shown),
        Reply::DoneWithOutcome(outcome) => done_with(outcome, shown),
        Reply::Refused(refusal) => of_numbers(7, refusal.number(), 0, shown),
        Reply::RefusedOn(refusal, op) => of_numbers(8, refusal.number(), op.number() as u64, shown),
        Reply::RefusedAt(refusal, offset) => of_numbers(9, refusal.number(), offset as u64, shown),
    }
}

/// Returns the answer for a check that shows `shown` bytes.
fn said_as(said: CheckSummary, shown: u64) -> Answer
    ensures { result ≡ said_as said shown }
{
    match said {
        CheckSummary::Holds(width) => of_numbers(12, 0, u64::from(width), shown),
        CheckSummary::AllWidths => of_numbers(12, 0, 0, shown),
        CheckSummary::Vacuous(width) => of_numbers(13, 0, u64::from(width), shown),
        CheckSummary::Fails(width) => of_numbers(14, 0, u64::from(width), shown),
        CheckSummary::Sampled(width) => of_numbers(15, 0, u64::from(width), shown),
    }
}

/// Returns the answer for a response that shows `shown` bytes.
pub fn answer_of(notice: Response, shown: u64) -> Answer
    ensures { result ≡ answer_of (notice_of notice) shown }
{
    match notice {
        Response::RewriterReply(reply) => replied_of(reply, shown),
        Response::CheckResult(said) => said_as(said, shown),
    }
}
