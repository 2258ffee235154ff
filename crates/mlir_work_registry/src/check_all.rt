//! Checks each pattern of a registry.
ghost use Rattle.std.specs.Prelude.{◌≡◌, ◌++◌, ◌⊎◌, ℕ, IfOk, OnOk};
ghost use Rattle.ir_event.specs.types.declared.refusal.Refusal.TheVariants.{Memory as MemoryRefusal};
ghost use Rattle.mlir_work_script.specs.RegistryCommands.{CheckAll};
ghost use Rattle.user_patterns_registry.specs.Registry.{kept_views, registry_model};
ghost use Rattle.mlir_work_registry.specs.Notices.{IsWithin, notice_of};
ghost use Rattle.mlir_work_registry.specs.Registries.{ChecksEach, IsRefused, Registries};
ghost use Rattle.mlir_work_registry.specs.Verdicts.{AreVerdicts, IsVerdict, all_noted, failure_of, noted_if, result_text, verdict_text, verdict_view, verdict_views, verdicts_notice, verdicts_text};

use crate::registry_commands::{check, checked};
use crate::reply::Reply;
use crate::response::{Response, ShownResponse, replied};
use ir_event::types::refusal::Refusal;
use std::alloc::{AllocError, Global};
use user_patterns_registry::check_result::CheckSummary;
use user_patterns_registry::registry::{PatternRegistry, RegisteredPattern, find, record_result};
use user_patterns_registry::rows::write_summary;

/// The check of a pattern: its name, the summary unless the check was refused with `BadLimit`, and the rows of the
/// counterexample.
#[derive(Drop)]
pub(crate) struct Verdict {
    name: Vec<u8>,
    said: Option<CheckSummary>,
    rows: Vec<u8>,
}

/// Returns a copy of a name.
fn copied(alloc: Global, name: &[u8]) -> Result<Vec<u8>, AllocError>
    ensures { IfOk result (λ v. v.items ≡ name.now) }
{
    let mut copy = Vec::new(alloc);
    copy.extend_from_slice(name)?;
    Ok(copy)
}

/// Checks the pattern of that name, which the registry has.
fn verdict_of(alloc: Global, registry: &PatternRegistry, name: &[u8]) -> Result<Verdict, AllocError>
    ensures { IfOk result (λ v. IsVerdict (registry_model registry.now) name.now (verdict_view v)) }
{
    let copy = copied(alloc, name)?;
    let Some(held) = find(registry, name) else {
        return Err(AllocError);
    };
    match checked(alloc, held, None) {
        Ok((said, rows)) => Ok(Verdict {
            name: copy,
            said: Some(said),
            rows,
        }),
        Err(Refusal::BadLimit) => Ok(Verdict {
            name: copy,
            said: None,
            rows: Vec::new(alloc),
        }),
        Err(_) => Err(AllocError),
    }
}

/// Checks each pattern of a registry in order.
fn verdicts_of(alloc: Global, registry: &PatternRegistry) -> Result<Vec<Verdict>, AllocError>
    ensures { IfOk result (λ v. AreVerdicts (registry_model registry.now) (registry_model registry.now) (verdict_views v.items)) }
{
    let mut verdicts = Vec::new(alloc);
    let mut rest = registry.held.as_slice();
    'held: while let [first, tail @ ..] = rest {
        let verdict = verdict_of(alloc, registry, &first.name)?;
        verdicts.push(verdict)?;
        rest = tail;
    }
    Ok(verdicts)
}

/// Appends the summary of a check, or that the check was refused.
fn write_result(out: &mut Vec<u8>, said: Option<CheckSummary>) -> Result<(), AllocError>
    ensures { OnOk result (out.new.items ≡ out.old.items ++ result_text said) }
{
    match said {
        Some(said) => write_summary(out, said),
        None => out.extend_from_slice(b"refused 50 BadLimit"),
    }
}

/// Appends the line of a pattern, and the rows of its counterexample.
fn write_verdict(out: &mut Vec<u8>, verdict: &Verdict) -> Result<(), AllocError>
    ensures { OnOk result (out.new.items ≡ out.old.items ++ verdict_text (verdict_view verdict.now)) }
{
    out.extend_from_slice(b"checked ")?;
    out.extend_from_slice(&verdict.name)?;
    out.extend_from_slice(b" ")?;
    write_result(out, verdict.said)?;
    out.extend_from_slice(b"\n")?;
    out.extend_from_slice(&verdict.rows)
}

/// Returns the lines of all patterns.
fn text_of(alloc: Global, verdicts: &[Verdict]) -> Result<Vec<u8>, AllocError>
    ensures { IfOk result (λ v. v.items ≡ verdicts_text (verdict_views verdicts.now)) }
{
    let mut out = Vec::new(alloc);
    let mut rest = verdicts;
    'verdicts: while let [first, tail @ ..] = rest {
        write_verdict(&mut out, first)?;
        rest = tail;
    }
    Ok(out)
}

/// Records the summary of a check, unless the check was refused.
fn record(registry: &mut PatternRegistry, verdict: &Verdict)
    ensures { registry_model registry.new ≡ noted_if (verdict_view verdict.now) (registry_model registry.old) }
{
    if let Some(said) = verdict.said {
        record_result(registry, &verdict.name, said);
    }
}

/// Records all summaries.
fn record_all(registry: &mut PatternRegistry, verdicts: &[Verdict])
    ensures { registry_model registry.new ≡ all_noted (verdict_views verdicts.now) (registry_model registry.old) }
{
    let mut rest = verdicts;
    'verdicts: while let [first, tail @ ..] = rest {
        record(registry, first);
        rest = tail;
    }
}

/// Returns the summary of a check that found a counterexample.
fn failure_of(verdict: &Verdict) -> Option<CheckSummary>
    ensures { result ≡ failure_of (verdict_view verdict.now).said }
{
    match verdict.said {
        Some(CheckSummary::Fails(width)) => Some(CheckSummary::Fails(width)),
        _ => None,
    }
}

/// Returns the summary of the first pattern with a counterexample, or that all checks ended.
fn response_of(verdicts: &[Verdict]) -> Response
    ensures { notice_of result ≡ verdicts_notice (verdict_views verdicts.now) }
{
    let mut rest = verdicts;
    'verdicts: while let [first, tail @ ..] = rest {
        if let Some(said) = failure_of(first) {
            return Response::CheckResult(said);
        }
        rest = tail;
    }
    Response::RewriterReply(Reply::Done)
}

/// Checks each pattern in order, and shows a line for each with the rows of its counterexample. If memory runs out,
/// no check is recorded.
fn check_each(alloc: Global, registry: &mut PatternRegistry) -> ShownResponse
    ensures checks { IsRefused MemoryRefusal (registry_model registry.old) (notice_of result.notice) result.shows.items (registry_model registry.new)
        ⊎ ChecksEach (registry_model registry.old) (registry_model registry.old) (notice_of result.notice) result.shows.items (registry_model registry.new) }
    ensures bounded { (bytes : ℕ) → IsWithin bytes (notice_of result.notice) }
{
    let Ok(verdicts) = verdicts_of(alloc, registry) else {
        return replied(alloc, Reply::Refused(Refusal::Memory));
    };
    let Ok(shows) = text_of(alloc, &verdicts) else {
        return replied(alloc, Reply::Refused(Refusal::Memory));
    };
    record_all(registry, &verdicts);
    ShownResponse {
        notice: response_of(&verdicts),
        shows,
    }
}

/// Checks each pattern in order. If a pattern is named `all`, checks this one alone.
pub(crate) fn check_all(alloc: Global, registry: &mut PatternRegistry) -> ShownResponse
    ensures registries { Registries CheckAll (registry_model registry.old) (notice_of result.notice) result.shows.items (registry_model registry.new) }
    ensures bounded { (bytes : ℕ) → IsWithin bytes (notice_of result.notice) }
{
    if find(registry, b"all").is_some() {
        return check(alloc, registry, b"all", None);
    }
    check_each(alloc, registry)
}
