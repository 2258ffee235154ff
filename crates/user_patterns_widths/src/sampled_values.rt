//! The values of variables in a test case of a sampled check.
ghost use Rattle.std.specs.Prelude.{◌≡◌, ◌≤◌, IfOk};
ghost use Rattle.ir_types.specs.Bits.{width_of};
ghost use Rattle.ir_types.specs.Limits.{most_width};
ghost use Rattle.user_patterns_widths.specs.SampledValues.{choice, near_value, usual_value, value_at, value_of_case, values_of};

use crate::edges::{edge, edge_number};
use crate::random::chance;
use ir_types::bits::{BitsKind, width};
use ir_types::limits::MOST_WIDTH;
use ir_types::readings::mask;
use std::alloc::{AllocError, Global};

/// The number of test cases with edge values. Later cases have pseudorandom values.
const EDGE_CASES: u128 = 1000;

/// The number of edge values of a width.
const EDGES: usize = 10;

/// The number of values that a variable has in the test cases near literals.
const CHOICES: u128 = 41;

/// Returns the value of the variable at `place` in a usual test case, given its width.
fn usual_value(width: u32, case: u128, place: usize) -> u128
    requires low { 1 ≤ width }
    requires high { width ≤ most_width }
    ensures { result ≡ usual_value width case place }
{
    if case < EDGE_CASES {
        edge(width, edge_number(case, place))
    } else {
        chance(width, case, place)
    }
}

/// Returns which value the variable at `place` has in a test case near literals. Any two variables have each pair of
/// values in some case.
fn choice(case: u128, place: usize) -> usize
    ensures { result ≡ choice case place }
{
    let factor = place as u128 % CHOICES;
    let step = case / CHOICES % CHOICES;
    let number = (case % CHOICES + factor * step) % CHOICES;
    number as usize
}

/// Returns the value of the variable at `place` in a test case near literals: one of these numbers, an edge value, or a
/// pseudorandom value.
fn near_value(near: &[u128], width: u32, case: u128, place: usize) -> u128
    requires low { 1 ≤ width }
    requires high { width ≤ most_width }
    ensures { result ≡ near_value near.now width case place }
{
    let number = choice(case, place);
    if number < near.len() {
        return near[number] & mask(width);
    }
    let edge_number = number - near.len();
    if edge_number < EDGES {
        return edge(width, edge_number as u128);
    }
    chance(width, case, place)
}

/// Returns the value of the variable at `place` in a test case, given its width.
fn value_at(near: &[u128], width: u32, case: u128, place: usize) -> u128
    requires low { 1 ≤ width }
    requires high { width ≤ most_width }
    ensures { result ≡ value_at near.now width case place }
{
    match near {
        [] => usual_value(width, case, place),
        [_, ..] => near_value(near, width, case, place),
    }
}

/// Returns the value of a variable of that kind in a test case, or 0 if the kind has no values.
fn value_of_case(near: &[u128], kind: BitsKind, case: u128, place: usize) -> u128
    ensures { result ≡ value_of_case near.now (width_of kind) case place }
{
    let width = width(kind);
    if width < 1 || width > MOST_WIDTH {
        return 0;
    }
    value_at(near, width, case, place)
}

/// Returns the values of variables of these kinds in a test case. `near` is empty for a usual case; otherwise it has the
/// numbers that the values are near to.
pub fn values_of(
    alloc: Global,
    near: &[u128],
    case: u128,
    value_types: &[BitsKind],
) -> Result<Vec<u128>, AllocError>
    ensures { IfOk result (λ v. v.items ≡ values_of near.now case value_types.now) }
{
    let mut values = Vec::new(alloc);
    let mut place = 0;
    let mut rest = value_types;
    'value_types: while let [kind, tail @ ..] = rest {
        values.push(value_of_case(near, *kind, case, place))?;
        place += 1;
        rest = tail;
    }
    Ok(values)
}
