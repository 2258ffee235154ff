//! The check command: tests all values of a pattern up to a width, and tries to prove the pattern at all widths.
ghost use Rattle.std.specs.Prelude.{◌≡◌, ◌≤◌, IfErr, IfOk, None, false, if◌then◌else◌};
ghost use Rattle.user_patterns_check.specs.declared.verdict.Verdict.TheVariants as verdict;
ghost use Rattle.user_patterns_check.specs.Families.{IsFirst, IsVerdict};
ghost use Rattle.user_patterns_data.specs.Fitting.{content_at};
ghost use Rattle.user_patterns_data.specs.Shapes.{pattern_model};
ghost use Rattle.user_patterns_registry.specs.declared.check_result.CheckResult.TheVariants as judgement;
ghost use Rattle.user_patterns_registry.specs.CheckResult.{IsCheckResult, IsWrong, IsRefused, requested_width, most_requested, reports_all_widths};
ghost use Rattle.user_patterns_registry.specs.Shown.{IsShown, report_width, counterexample_width};

use crate::check_result::{CheckResult, Counterexample};
use crate::sampling::wide_counterexample;
use crate::tracing::{new_shown, old_shown, values_shown};
use crate::widths;
use ir_types::refusal::Refusal;
use std::alloc::{AllocError, Global};
use user_patterns_check::check::check;
use user_patterns_check::family::Family;
use user_patterns_check::verdict::Verdict;
use user_patterns_claims::answer::{Answer, decide_claims};
use user_patterns_claims::assignment::Refutation;
use user_patterns_claims::laws::outcomes_decide;
use user_patterns_data::pattern::Pattern;
use user_patterns_widths::all_widths::holds_at_all_widths;
use user_patterns_widths::laws::check_holds_at_all_widths;

/// The greatest width that a check accepts.
const MOST_REQUESTED: u64 = 64;

/// The most transitions of the automaton of one claim that are looked at.
const MOST_TRANSITIONS: usize = 1_000_000;

/// Returns the counterexample of these widths and values, with the values that both sides compute.
pub(crate) fn counterexample(
    alloc: Global,
    pattern: &Pattern,
    widths: Vec<u32>,
    values: Vec<u128>,
) -> Result<Counterexample, AllocError>
    ensures widths { IfOk result (λ c. c.widths ≡ widths) }
    ensures values { IfOk result (λ c. c.values ≡ values) }
    ensures width { IfOk result (λ c. c.width ≡ counterexample_width (pattern_model pattern.now) widths.items) }
    ensures shown { IfOk result (λ c. IsShown (content_at (pattern_model pattern.now) widths.items) c) }
{
    let sides = pattern.sides(alloc, &widths)?;
    let shown = values_shown(alloc, &sides, &values)?;
    let old = old_shown(alloc, &sides, &values)?;
    let new = new_shown(alloc, &sides, &values)?;
    let width = widths::reported_width(pattern, &widths);
    Ok(Counterexample {
        width,
        widths,
        values,
        shown,
        old,
        new,
    })
}

/// Returns whether the check of a pattern that holds reports all widths.
fn is_for_all_widths(
    alloc: Global,
    pattern: &Pattern,
    requested: Option<u64>,
) -> Result<bool, AllocError>
    ensures { IfOk result (λ b. b ≡ reports_all_widths (pattern_model pattern.now) requested) }
{
    match requested {
        None => holds_at_all_widths(alloc, pattern),
        Some(_) => Ok(false),
    }
}

/// Returns the result for a pattern that holds up to a width, if no claim decides it.
fn held_by_samples(
    alloc: Global,
    pattern: &Pattern,
    requested: Option<u64>,
    most: u32,
) -> Result<CheckResult, Refusal>
    requires most { most ≡ requested_width (pattern_model pattern.now) requested }
    requires holds { IsVerdict (content_at (pattern_model pattern.now)) pattern.now.types most verdict.Holds }
    requires form { reports_all_widths (pattern_model pattern.now) requested ≡ false }
    requires none { requested ≡ None }
    ensures ok { IfOk result (IsCheckResult (pattern_model pattern.now) requested) }
    ensures err { IfErr result (IsRefused (pattern_model pattern.now) most) }
{
    match wide_counterexample(alloc, pattern) {
        Ok(Some(found)) => Ok(CheckResult::Fails(found)),
        Ok(None) => Ok(CheckResult::Holds(widths::report_width(pattern, most))),
        Err(_) => Err(Refusal::Memory),
    }
}

/// Returns the result of a counterexample that a claim has.
fn refuted(pattern: &Pattern, found: Refutation) -> CheckResult
    ensures { IsWrong (pattern_model pattern.now) found result }
{
    let width = widths::reported_width(pattern, &found.assignment.widths);
    CheckResult::Refuted(width, found)
}

/// Returns the result for a pattern that holds up to the default width and whose form doesn't prove it at every width.
fn held_by_claims(
    alloc: Global,
    pattern: &Pattern,
    requested: Option<u64>,
    most: u32,
) -> Result<CheckResult, Refusal>
    requires most { most ≡ requested_width (pattern_model pattern.now) requested }
    requires holds { IsVerdict (content_at (pattern_model pattern.now)) pattern.now.types most verdict.Holds }
    requires form { reports_all_widths (pattern_model pattern.now) requested ≡ false }
    requires none { requested ≡ None }
    ensures ok { IfOk result (IsCheckResult (pattern_model pattern.now) requested) }
    ensures err { IfErr result (IsRefused (pattern_model pattern.now) most) }
{
    outcomes_decide();
    match decide_claims(alloc, pattern, MOST_TRANSITIONS) {
        Ok(Answer::Empty) => Ok(CheckResult::Vacuous(widths::report_width(pattern, most))),
        Ok(Answer::Right(_)) => Ok(CheckResult::AllWidths),
        Ok(Answer::Wrong(found)) => Ok(refuted(pattern, found)),
        Ok(Answer::Open) => held_by_samples(alloc, pattern, requested, most),
        Err(_) => Err(Refusal::Memory),
    }
}

/// Returns the result for a pattern that holds up to a width and whose form doesn't prove it at every width.
fn held_by_form(
    alloc: Global,
    pattern: &Pattern,
    requested: Option<u64>,
    most: u32,
) -> Result<CheckResult, Refusal>
    requires most { most ≡ requested_width (pattern_model pattern.now) requested }
    requires holds { IsVerdict (content_at (pattern_model pattern.now)) pattern.now.types most verdict.Holds }
    requires form { reports_all_widths (pattern_model pattern.now) requested ≡ false }
    ensures ok { IfOk result (IsCheckResult (pattern_model pattern.now) requested) }
    ensures err { IfErr result (IsRefused (pattern_model pattern.now) most) }
{
    match requested {
        Some(_) => Ok(CheckResult::Holds(widths::report_width(pattern, most))),
        None => held_by_claims(alloc, pattern, requested, most),
    }
}

/// Returns the result for a pattern that claims prove and whose old side is undefined for all values up to a width.
fn right_if(pattern: &Pattern, most: u32, somewhere: bool) -> CheckResult
    ensures { result ≡ (if somewhere then judgement.AllWidths else judgement.Vacuous (report_width (pattern_model pattern.now) most)) }
{
    if somewhere {
        CheckResult::AllWidths
    } else {
        CheckResult::Vacuous(widths::report_width(pattern, most))
    }
}

/// Returns the result for a pattern whose old side is undefined for all values up to the default width.
fn empty_by_claims(
    alloc: Global,
    pattern: &Pattern,
    requested: Option<u64>,
    most: u32,
) -> Result<CheckResult, Refusal>
    requires most { most ≡ requested_width (pattern_model pattern.now) requested }
    requires empty { IsVerdict (content_at (pattern_model pattern.now)) pattern.now.types most verdict.Vacuous }
    requires none { requested ≡ None }
    ensures ok { IfOk result (IsCheckResult (pattern_model pattern.now) requested) }
    ensures err { IfErr result (IsRefused (pattern_model pattern.now) most) }
{
    outcomes_decide();
    match decide_claims(alloc, pattern, MOST_TRANSITIONS) {
        Ok(Answer::Right(somewhere)) => Ok(right_if(pattern, most, somewhere)),
        Ok(Answer::Wrong(found)) => Ok(refuted(pattern, found)),
        Ok(Answer::Empty) => Ok(CheckResult::Vacuous(widths::report_width(pattern, most))),
        Ok(Answer::Open) => Ok(CheckResult::Vacuous(widths::report_width(pattern, most))),
        Err(_) => Err(Refusal::Memory),
    }
}

/// Returns the result for a pattern whose old side is undefined for all values up to a width.
fn empty(
    alloc: Global,
    pattern: &Pattern,
    requested: Option<u64>,
    most: u32,
) -> Result<CheckResult, Refusal>
    requires most { most ≡ requested_width (pattern_model pattern.now) requested }
    requires empty { IsVerdict (content_at (pattern_model pattern.now)) pattern.now.types most verdict.Vacuous }
    ensures ok { IfOk result (IsCheckResult (pattern_model pattern.now) requested) }
    ensures err { IfErr result (IsRefused (pattern_model pattern.now) most) }
{
    match requested {
        Some(_) => Ok(CheckResult::Vacuous(widths::report_width(pattern, most))),
        None => empty_by_claims(alloc, pattern, requested, most),
    }
}

/// Returns the result for a pattern that no value up to a width refutes.
fn held(
    alloc: Global,
    pattern: &Pattern,
    requested: Option<u64>,
    most: u32,
) -> Result<CheckResult, Refusal>
    requires most { most ≡ requested_width (pattern_model pattern.now) requested }
    requires some { 1 ≤ most }
    requires holds { IsVerdict (content_at (pattern_model pattern.now)) pattern.now.types most verdict.Holds }
    ensures ok { IfOk result (IsCheckResult (pattern_model pattern.now) requested) }
    ensures err { IfErr result (IsRefused (pattern_model pattern.now) most) }
{
    check_holds_at_all_widths();
    match is_for_all_widths(alloc, pattern, requested) {
        Ok(true) => Ok(CheckResult::AllWidths),
        Ok(false) => held_by_form(alloc, pattern, requested, most),
        Err(_) => Err(Refusal::Memory),
    }
}

/// Returns the result of a check that ended with `verdict`.
fn check_result(
    alloc: Global,
    pattern: &Pattern,
    requested: Option<u64>,
    most: u32,
    verdict: Verdict,
) -> Result<CheckResult, Refusal>
    requires most { most ≡ requested_width (pattern_model pattern.now) requested }
    requires some { 1 ≤ most }
    requires verdict { IsVerdict (content_at (pattern_model pattern.now)) pattern.now.types most verdict }
    requires first { IsFirst (content_at (pattern_model pattern.now)) pattern.now.types most verdict }
    ensures ok { IfOk result (IsCheckResult (pattern_model pattern.now) requested) }
    ensures err { IfErr result (IsRefused (pattern_model pattern.now) most) }
{
    match verdict {
        Verdict::Holds => held(alloc, pattern, requested, most),
        Verdict::Vacuous => empty(alloc, pattern, requested, most),
        Verdict::Fails(widths, values) => match counterexample(alloc, pattern, widths, values) {
            Ok(found) => Ok(CheckResult::Fails(found)),
            Err(_) => Err(Refusal::Memory),
        },
        Verdict::TooMany => Err(Refusal::BadLimit),
    }
}

/// Checks the pattern up to width `most`.
fn check_samples(
    alloc: Global,
    pattern: &Pattern,
    requested: Option<u64>,
    most: u32,
) -> Result<CheckResult, Refusal>
    requires requested { most ≡ requested_width (pattern_model pattern.now) requested }
    requires some { 1 ≤ most }
    requires most { most ≤ most_requested }
    ensures ok { IfOk result (IsCheckResult (pattern_model pattern.now) requested) }
    ensures err { IfErr result (IsRefused (pattern_model pattern.now) most) }
{
    match check(alloc, pattern, pattern.types, most) {
        Ok(verdict) => check_result(alloc, pattern, requested, most, verdict),
        Err(_) => Err(Refusal::Memory),
    }
}

/// Checks a pattern at all widths of its type variables up to `requested`. Without `requested`, the greatest width is at
/// most 8, and the values at it have at most 16 bits together. If no value refutes the pattern then, its form, claims
/// about bits and samples of wide types decide, in this order: the result can be `AllWidths`, or a counterexample at wider
/// types or with poison.
///
/// Refuses with `BadLimit` if the width is 0 or above 64, if the values at the width have more than 24 bits together
/// (an `index` value alone has more), or if there are more than 2^24 lists of widths; and with `Memory`.
pub fn check_pattern(
    alloc: Global,
    pattern: &Pattern,
    requested: Option<u64>,
) -> Result<CheckResult, Refusal>
    ensures ok { IfOk result (IsCheckResult (pattern_model pattern.now) requested) }
    ensures err { IfErr result (IsRefused (pattern_model pattern.now) (requested_width (pattern_model pattern.now) requested)) }
{
    let most = match widths::requested_width(alloc, pattern, requested) {
        Ok(most) => most,
        Err(_) => return Err(Refusal::Memory),
    };
    if most < 1 || most > MOST_REQUESTED {
        return Err(Refusal::BadLimit);
    }
    check_samples(alloc, pattern, requested, most as u32)
}
