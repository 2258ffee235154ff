//! The responses to lines.
ghost use Rattle.std.specs.Prelude.{◌≡◌, []};
ghost use Rattle.mlir_work_registry.specs.Notices.{is_failure, is_right, is_right_under, is_well, names_unproved, notice_of};
ghost use Rattle.mlir_work_registry.specs.Notices.{refuses_for};
ghost use Rattle.mlir_work_registry.specs.declared.response.Response.TheVariants.{RewriterReply};

use crate::reply::Reply;
use ir_event::types::refusal::Refusal;
use std::alloc::Global;
pub use user_patterns_registry::check_result::CheckSummary;

/// The response to a line.
#[derive(Clone, Copy)]
pub enum Response {
    /// The reply to a command.
    RewriterReply(Reply),
    /// The summary of a pattern check.
    CheckResult(CheckSummary),
}

/// A response and the bytes that are shown below it.
#[derive(Drop)]
pub struct ShownResponse {
    pub notice: Response,
    pub shows: Vec<u8>,
}

/// Returns a reply with nothing below it.
pub fn replied(alloc: Global, reply: Reply) -> ShownResponse
    ensures notice { result.notice ≡ RewriterReply reply }
    ensures shows { result.shows.items ≡ [] }
{
    ShownResponse {
        notice: Response::RewriterReply(reply),
        shows: Vec::new(alloc),
    }
}

/// Returns whether a check found a counterexample.
fn is_failure(said: CheckSummary) -> bool
    ensures { result ≡ is_failure said }
{
    match said {
        CheckSummary::Holds(_) => false,
        CheckSummary::AllWidths => false,
        CheckSummary::Vacuous(_) => false,
        CheckSummary::Fails(_) => true,
        CheckSummary::Sampled(_) => false,
    }
}

impl Response {
    /// Returns whether the line succeeded: the command was accepted, or the check found no counterexample.
    pub fn is_success(self) -> bool
        ensures { result ≡ is_well (notice_of self) }
    {
        match self {
            Response::RewriterReply(reply) => reply.is_accepted(),
            Response::CheckResult(said) => !is_failure(said),
        }
    }

    /// Returns whether a command was refused for this reason.
    pub fn is_refused_for(self, expected: Refusal) -> bool
        ensures { result ≡ refuses_for expected (notice_of self) }
    {
        match self {
            Response::RewriterReply(reply) => reply.is_refused_for(expected),
            Response::CheckResult(_) => false,
        }
    }
}

/// Returns whether the response is the expected one: the expected refusal, or success if none is expected.
pub fn meets_expectation(expected: &Option<Refusal>, notice: &Response) -> bool
    ensures { result ≡ is_right expected.now (notice_of notice.now) }
{
    match expected {
        None => notice.is_success(),
        Some(refusal) => notice.is_refused_for(*refusal),
    }
}

/// Returns whether the first line below the reply to a rewriting command names a pattern that no check proves.
fn names_unproved(noticed: &ShownResponse) -> bool
    ensures { result ≡ names_unproved (notice_of noticed.now.notice) noticed.now.shows.items }
{
    match noticed.notice {
        Response::RewriterReply(Reply::DoneWithOutcome(_)) => noticed
            .shows
            .starts_with(b"unproved "),
        _ => false,
    }
}

/// Returns whether the response is right. In a strict run, no line below the reply may name a pattern that no check
/// proves.
pub fn is_right_under(strict: bool, expected: &Option<Refusal>, noticed: &ShownResponse) -> bool
    ensures { result ≡ is_right_under strict expected.now (notice_of noticed.now.notice) noticed.now.shows.items }
{
    let right = meets_expectation(expected, &noticed.notice);
    if strict {
        right && !names_unproved(noticed)
    } else {
        right
    }
}
