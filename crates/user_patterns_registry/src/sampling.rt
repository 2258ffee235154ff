//! Checks sampled values of a pattern at wide types.
ghost use Rattle.std.specs.Prelude.{◌≡◌, IfErr, IfOk, Some, option_map};
ghost use Rattle.user_patterns_data.specs.Shapes.{pattern_model};
ghost use Rattle.user_patterns_widths.specs.NearLiterals.{near_literals};
ghost use Rattle.user_patterns_registry.specs.Sampled.{AreAcceptedChecks, IsFoundAmong, IsFoundAt, IsNotSampled, IsRefuted, IsSampled, IsSampledAt, IsWideSampled, NoneRefutes, number_of_case, cases, first_refuting, usual};

use crate::check_command::counterexample;
use crate::check_result::{CheckResult, Counterexample};
use crate::widths::report_width;
use ir_types::refusal::Refusal;
use std::alloc::{AllocError, Global};
use user_patterns_check::claim::Claim;
use user_patterns_check::family::Family;
use user_patterns_check::search;
use user_patterns_data::pattern::Pattern;
use user_patterns_widths::near_literals::near_literals;
use user_patterns_widths::sampled_values::values_of;
use user_patterns_widths::sampled_widths::{bounds, widths_of_case};

/// The greatest width that a sampled check accepts, and the limit of type variables.
const MOST_SAMPLED: u64 = 128;

const MOST_TYPES: usize = 4;

/// The number of usual test cases at each list of widths, and that of test cases near literals.
const CASES: u128 = 4096;

const NEAR_CASES: u128 = 1681;

fn number_of_case(pattern: &Pattern, numbers: &[u128]) -> u128
    ensures { result ≡ number_of_case (pattern_model pattern.now) numbers.now }
{
    if pattern.types < numbers.len() {
        numbers[pattern.types]
    } else {
        0
    }
}

/// The test that the pattern refines, in a case at levels of a width: a usual case, or one near these numbers.
#[derive(Clone, Copy)]
struct SampledCase<'a> {
    pattern: &'a Pattern,
    near: &'a [u128],
    width: u32,
}

impl<'a> Claim for SampledCase<'a> {
    ghost use Rattle.user_patterns_data.specs.Shapes.{pattern_model};
    ghost use Rattle.user_patterns_registry.specs.Sampled.{refines_at_case};

    ghost holds = { λ c numbers. refines_at_case (pattern_model c.pattern.now) c.near.now c.width numbers };

    fn holds(&self, alloc: Global, numbers: &[u128]) -> Result<bool, AllocError> {
        let widths = widths_of_case(alloc, self.pattern, self.width, numbers)?;
        let sides = self.pattern.sides(alloc, &widths)?;
        let case = number_of_case(self.pattern, numbers);
        let values = values_of(alloc, self.near, case, &sides.value_types)?;
        sides.holds(alloc, &values)
    }
}

/// Returns the number of test cases at each list of widths.
fn cases(near: &[u128]) -> u128
    ensures { result ≡ cases near.now }
{
    match near {
        [] => CASES,
        [_, ..] => NEAR_CASES,
    }
}

/// Returns the first levels and case at which the pattern isn't a refinement.
fn first_refuting(
    alloc: Global,
    pattern: &Pattern,
    near: &[u128],
    width: u32,
) -> Result<Option<Vec<u128>>, AllocError>
    ensures { IfOk result (λ found. option_map (λ v. v.items) found ≡ first_refuting (pattern_model pattern.now) near.now width) }
{
    let bounds = bounds(alloc, pattern.types, cases(near))?;
    let case = SampledCase {
        pattern,
        near,
        width,
    };
    search::counterexample(alloc, &case, &bounds)
}

/// Returns the counterexample at these levels and case.
fn refuted(
    alloc: Global,
    pattern: &Pattern,
    near: &[u128],
    width: u32,
    numbers: &[u128],
) -> Result<Counterexample, AllocError>
    requires { first_refuting (pattern_model pattern.now) near.now width ≡ Some numbers.now }
    ensures { IfOk result (IsRefuted (pattern_model pattern.now) near.now width) }
{
    let widths = widths_of_case(alloc, pattern, width, numbers)?;
    let sides = pattern.sides(alloc, &widths)?;
    let case = number_of_case(pattern, numbers);
    let values = values_of(alloc, near, case, &sides.value_types)?;
    counterexample(alloc, pattern, widths, values)
}

/// Returns the first counterexample among the samples of a width.
fn found_at(
    alloc: Global,
    pattern: &Pattern,
    near: &[u128],
    width: u32,
) -> Result<Option<Counterexample>, AllocError>
    ensures { IfOk result (IsFoundAt (pattern_model pattern.now) near.now width) }
{
    match first_refuting(alloc, pattern, near, width)? {
        None => Ok(None),
        Some(numbers) => {
            let found = refuted(alloc, pattern, near, width, &numbers)?;
            Ok(Some(found))
        }
    }
}

/// Returns the first counterexample among the samples of these widths: the usual ones, or those near these numbers.
fn found_among(
    alloc: Global,
    pattern: &Pattern,
    near: &[u128],
    widths: &[u32],
) -> Result<Option<Counterexample>, AllocError>
    requires attempted { AreAcceptedChecks (pattern_model pattern.now) widths.now }
    ensures { IfOk result (IsFoundAmong (pattern_model pattern.now) near.now widths.now) }
{
    let [width, tail @ ..] = widths else {
        return Ok(None);
    };
    if let Some(found) = found_at(alloc, pattern, near, *width)? {
        return Ok(Some(found));
    }
    found_among(alloc, pattern, near, tail)
}

/// Returns the first counterexample among the samples near the literals of a pattern that no usual sample refutes.
fn found_near(
    alloc: Global,
    pattern: &Pattern,
    widths: &[u32],
) -> Result<Option<Counterexample>, AllocError>
    requires attempted { AreAcceptedChecks (pattern_model pattern.now) widths.now }
    requires none { NoneRefutes (pattern_model pattern.now) usual widths.now }
    ensures { IfOk result (IsFoundAmong (pattern_model pattern.now) (near_literals (pattern_model pattern.now)) widths.now) }
{
    let near = near_literals(alloc, pattern)?;
    let [_, ..] = near.as_slice() else {
        return Ok(None);
    };
    found_among(alloc, pattern, &near, widths)
}

/// Returns the first counterexample among the samples of these widths: among those near literals only if no usual one
/// is.
fn sampled_at(
    alloc: Global,
    pattern: &Pattern,
    widths: &[u32],
) -> Result<Option<Counterexample>, AllocError>
    requires attempted { AreAcceptedChecks (pattern_model pattern.now) widths.now }
    ensures { IfOk result (IsSampledAt (pattern_model pattern.now) widths.now) }
{
    if let Some(found) = found_among(alloc, pattern, &[], widths)? {
        return Ok(Some(found));
    }
    found_near(alloc, pattern, widths)
}

/// Returns the first counterexample among the samples at 16, 32, 64 and 128 bits. Returns `None` if there are more than
/// 4 type variables.
pub fn wide_counterexample(
    alloc: Global,
    pattern: &Pattern,
) -> Result<Option<Counterexample>, AllocError>
    ensures { IfOk result (IsWideSampled (pattern_model pattern.now)) }
{
    if pattern.types > MOST_TYPES {
        return Ok(None);
    }
    sampled_at(alloc, pattern, &[16, 32, 64, 128])
}

/// Checks edge values, pseudorandom values, and values near the literals of a pattern whose type variables have the
/// given width, half of it or a quarter. The result is a counterexample, or `Sampled`, which says nothing about other
/// values.
///
/// Refuses with `BadLimit` if the width is 0 or above 128, or if there are more than 4 type variables; and with
/// `Memory`.
pub fn sample(alloc: Global, pattern: &Pattern, width: u64) -> Result<CheckResult, Refusal>
    ensures ok { IfOk result (IsSampled (pattern_model pattern.now) width) }
    ensures err { IfErr result (IsNotSampled (pattern_model pattern.now) width) }
{
    if width < 1 || width > MOST_SAMPLED || pattern.types > MOST_TYPES {
        return Err(Refusal::BadLimit);
    }
    let width = width as u32;
    match sampled_at(alloc, pattern, &[width]) {
        Ok(None) => Ok(CheckResult::Sampled(report_width(pattern, width))),
        Ok(Some(found)) => Ok(CheckResult::Fails(found)),
        Err(_) => Err(Refusal::Memory),
    }
}
