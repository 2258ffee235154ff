//! Runs the commands on the pattern registry of a session.
ghost use Rattle.std.specs.Prelude.{◌≡◌, ◌⊎◌, ◌-◌, ℕ, [], IfErr, IfOk, length};
ghost use Rattle.ir_event.specs.types.declared.refusal.Refusal.TheVariants.{Memory as MemoryRefusal};
ghost use Rattle.ir_text_tokens.specs.Refusals.{refusal_of};
ghost use Rattle.rewriter_machine.specs.Commands.{Replied, TextRefusedAt};
ghost use Rattle.rewriter_machine.specs.Machine.{Refused};
ghost use Rattle.mlir_work_script.specs.RegistryCommands.{Check, Define, Forget, Patterns, Redefine, Sample, registry_command_of};
ghost use Rattle.user_patterns_registry.specs.CheckResult.{IsRefused, requested_width};
ghost use Rattle.user_patterns_registry.specs.Sampled.{IsNotSampled};
ghost use Rattle.user_patterns_registry.specs.Registry.{registry_model, kept_view, noted};
ghost use Rattle.mlir_work_registry.specs.Notices.{Checked, IsWithin, Simple, notice_of};
ghost use Rattle.mlir_work_registry.specs.Replies.{IsBounded, response_of};
ghost use Rattle.mlir_work_registry.specs.Registries.{IsChecked, IsSampledAs, Registries, judgement_rows, said_for};

use crate::check_all::check_all;
use crate::redefine::redefine as redefine_in;
use crate::reply::Reply;
use crate::response::{Response, ShownResponse, replied};
use ir_event::types::refusal::Refusal;
use ir_text_tokens::fault::Fault;
use mlir_work_script::registry_command::RegistryCommand;
use std::alloc::{AllocError, Global};
use user_patterns_registry::check_command::check_pattern;
use user_patterns_registry::check_result::{CheckResult, CheckSummary};
use user_patterns_registry::define::define as define_in;
use user_patterns_registry::listing::{listing, refutation_rows, rows};
use user_patterns_registry::registry::{
    PatternRegistry, RegisteredPattern, find, forget as forget_in, record_result,
};
use user_patterns_registry::sampling::sample;
use user_patterns_text::error::PatternError;
use user_patterns_widths::passing::is_passing;

/// Returns the reply for a refused pattern text; `bytes` is the length of the whole input. The bound check always
/// succeeds: the text is a part of the input, so the offset is in range.
fn refused_at(bytes: usize, text: &[u8], fault: &Fault) -> Reply
    ensures reported { (response_of result ≡ Replied (Refused MemoryRefusal)) ⊎ (response_of result ≡ TextRefusedAt (refusal_of fault.now.refusal) (length text.now - fault.now.left)) }
    ensures bounded { IsBounded bytes (response_of result) }
{
    let offset = fault.offset(text);
    if offset > bytes {
        return Reply::Refused(Refusal::Memory);
    }
    Reply::RefusedAt(fault.refusal.refusal(), offset)
}

/// Defines the pattern of a text. A refused definition doesn't change the registry.
fn define(alloc: Global, bytes: usize, registry: &mut PatternRegistry, text: &[u8]) -> Reply
    ensures registries { Registries (Define text.now) (registry_model registry.old) (Simple (response_of result)) [] (registry_model registry.new) }
    ensures bounded { IsBounded bytes (response_of result) }
{
    match define_in(alloc, registry, text) {
        Ok(()) => Reply::Done,
        Err(PatternError::Memory) => Reply::Refused(Refusal::Memory),
        Err(PatternError::Refused(fault)) => refused_at(bytes, text, &fault),
    }
}

/// Defines the pattern of a text, in place of the one of its name if there is one. A refused definition doesn't change
/// the registry.
fn redefine(alloc: Global, bytes: usize, registry: &mut PatternRegistry, text: &[u8]) -> Reply
    ensures registries { Registries (Redefine text.now) (registry_model registry.old) (Simple (response_of result)) [] (registry_model registry.new) }
    ensures bounded { IsBounded bytes (response_of result) }
{
    match redefine_in(alloc, registry, text) {
        Ok(()) => Reply::Done,
        Err(PatternError::Memory) => Reply::Refused(Refusal::Memory),
        Err(PatternError::Refused(fault)) => refused_at(bytes, text, &fault),
    }
}

/// Removes a named pattern. Refused with `NoSuchKey` if there is none.
fn forget(registry: &mut PatternRegistry, name: &[u8]) -> Reply
    ensures registries { Registries (Forget name.now) (registry_model registry.old) (Simple (response_of result)) [] (registry_model registry.new) }
    ensures bounded { (bytes : ℕ) → IsBounded bytes (response_of result) }
{
    if find(registry, name).is_none() {
        return Reply::Refused(Refusal::NoSuchKey);
    }
    forget_in(registry, name);
    Reply::Done
}

/// Lists the patterns of a registry.
fn patterns(alloc: Global, registry: &PatternRegistry) -> ShownResponse
    ensures registries { Registries Patterns (registry_model registry.now) (notice_of result.notice) result.shows.items (registry_model registry.now) }
    ensures bounded { (bytes : ℕ) → IsWithin bytes (notice_of result.notice) }
{
    match listing(alloc, registry) {
        Ok(shows) => ShownResponse {
            notice: Response::RewriterReply(Reply::Done),
            shows,
        },
        Err(_) => replied(alloc, Reply::Refused(Refusal::Memory)),
    }
}

/// Returns the rows of a check result: the counterexample, if there is one.
fn rows_of(
    alloc: Global,
    held: &RegisteredPattern,
    judgement: &CheckResult,
) -> Result<Vec<u8>, AllocError>
    ensures { IfOk result (λ v. v.items ≡ judgement_rows (kept_view held.now) judgement.now) }
{
    match judgement {
        CheckResult::Holds(_) => Ok(Vec::new(alloc)),
        CheckResult::AllWidths => Ok(Vec::new(alloc)),
        CheckResult::Vacuous(_) => Ok(Vec::new(alloc)),
        CheckResult::Fails(counterexample) => rows(alloc, held, counterexample),
        CheckResult::Refuted(_, refutation) => refutation_rows(alloc, held, refutation),
        CheckResult::Sampled(_) => Ok(Vec::new(alloc)),
    }
}

/// Converts an optional width to 64 bits.
fn wide(width: Option<u32>) -> Option<u64>
    ensures { result ≡ width }
{
    match width {
        Some(width) => Some(u64::from(width)),
        None => None,
    }
}

/// Returns the summary of a check result. A check up to a width tries no poison operands. If the pattern matches a
/// `select`, or its replacement has a division or a remainder, the summary is therefore only that no counterexample was
/// found.
fn said_for(held: &RegisteredPattern, judgement: &CheckResult) -> CheckSummary
    ensures { result ≡ said_for (kept_view held.now) judgement.now }
{
    match judgement {
        CheckResult::Holds(width) => {
            if is_passing(&held.pattern) {
                CheckSummary::Holds(*width)
            } else {
                CheckSummary::Sampled(*width)
            }
        }
        _ => judgement.said(),
    }
}

/// Checks a pattern and returns the summary and its rows.
pub(crate) fn checked(
    alloc: Global,
    held: &RegisteredPattern,
    width: Option<u32>,
) -> Result<(CheckSummary, Vec<u8>), Refusal>
    ensures ok { IfOk result (λ x. IsChecked (kept_view held.now) width x.0 x.1.items) }
    ensures err { IfErr result (IsRefused (kept_view held.now).rewrite_pattern (requested_width (kept_view held.now).rewrite_pattern width)) }
{
    let judgement = match check_pattern(alloc, &held.pattern, wide(width)) {
        Ok(judgement) => judgement,
        Err(refusal) => return Err(refusal),
    };
    match rows_of(alloc, held, &judgement) {
        Ok(rows) => Ok((said_for(held, &judgement), rows)),
        Err(_) => Err(Refusal::Memory),
    }
}

/// Records the summary of a named pattern in the registry, and returns it with its rows.
fn record_summary(
    registry: &mut PatternRegistry,
    name: &[u8],
    said: CheckSummary,
    shows: Vec<u8>,
) -> ShownResponse
    ensures registry { registry_model registry.new ≡ noted name.now said (registry_model registry.old) }
    ensures notice { notice_of result.notice ≡ Checked said }
    ensures shows { result.shows ≡ shows }
{
    record_result(registry, name, said);
    ShownResponse {
        notice: Response::CheckResult(said),
        shows,
    }
}

/// Checks a named pattern and records the summary.
pub(crate) fn check(
    alloc: Global,
    registry: &mut PatternRegistry,
    name: &[u8],
    width: Option<u32>,
) -> ShownResponse
    ensures registries { Registries (Check name.now width) (registry_model registry.old) (notice_of result.notice) result.shows.items (registry_model registry.new) }
    ensures bounded { (bytes : ℕ) → IsWithin bytes (notice_of result.notice) }
{
    let Some(held) = find(registry, name) else {
        return replied(alloc, Reply::Refused(Refusal::NoSuchKey));
    };
    let (said, shows) = match checked(alloc, held, width) {
        Ok(found) => found,
        Err(refusal) => return replied(alloc, Reply::Refused(refusal)),
    };
    record_summary(registry, name, said, shows)
}

/// Tests a pattern at one width with samples, and returns the summary and its rows.
fn sampled(
    alloc: Global,
    held: &RegisteredPattern,
    width: u32,
) -> Result<(CheckSummary, Vec<u8>), Refusal>
    ensures ok { IfOk result (λ x. IsSampledAs (kept_view held.now) width x.0 x.1.items) }
    ensures err { IfErr result (IsNotSampled (kept_view held.now).rewrite_pattern width) }
{
    let judgement = match sample(alloc, &held.pattern, u64::from(width)) {
        Ok(judgement) => judgement,
        Err(refusal) => return Err(refusal),
    };
    match rows_of(alloc, held, &judgement) {
        Ok(rows) => Ok((said_for(held, &judgement), rows)),
        Err(_) => Err(Refusal::Memory),
    }
}

/// Tests a named pattern at one width with samples, and records the summary.
fn sample_named(
    alloc: Global,
    registry: &mut PatternRegistry,
    name: &[u8],
    width: u32,
) -> ShownResponse
    ensures registries { Registries (Sample name.now width) (registry_model registry.old) (notice_of result.notice) result.shows.items (registry_model registry.new) }
    ensures bounded { (bytes : ℕ) → IsWithin bytes (notice_of result.notice) }
{
    let Some(held) = find(registry, name) else {
        return replied(alloc, Reply::Refused(Refusal::NoSuchKey));
    };
    let (said, shows) = match sampled(alloc, held, width) {
        Ok(found) => found,
        Err(refusal) => return replied(alloc, Reply::Refused(refusal)),
    };
    record_summary(registry, name, said, shows)
}

/// Runs a registry command; `bytes` is the length of the whole input.
pub fn run_registry_command(
    alloc: Global,
    bytes: usize,
    registry: &mut PatternRegistry,
    registry_command: &RegistryCommand<'_>,
) -> ShownResponse
    ensures registries { Registries (registry_command_of registry_command.now) (registry_model registry.old) (notice_of result.notice) result.shows.items (registry_model registry.new) }
    ensures bounded { IsWithin bytes (notice_of result.notice) }
{
    match registry_command {
        RegistryCommand::Define(text) => replied(alloc, define(alloc, bytes, registry, text)),
        RegistryCommand::Redefine(text) => replied(alloc, redefine(alloc, bytes, registry, text)),
        RegistryCommand::Forget(name) => replied(alloc, forget(registry, name)),
        RegistryCommand::Patterns => patterns(alloc, registry),
        RegistryCommand::Check { name, width } => check(alloc, registry, name, *width),
        RegistryCommand::CheckAll => check_all(alloc, registry),
        RegistryCommand::Sample { name, width } => sample_named(alloc, registry, name, *width),
    }
}
