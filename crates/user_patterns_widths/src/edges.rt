//! Edge values of a width.
ghost use Rattle.std.specs.Prelude.{◌≡◌, ◌+◌, ◌-◌, ◌%◌, ◌^◌, ◌<◌, ◌≤◌};
ghost use Rattle.ir_types.specs.Limits.{most_width};
ghost use Rattle.user_patterns_widths.specs.SampledValues.{edge, edge_number};

use ir_types::readings::mask;

/// 2^k.
fn power(k: u32) -> u128
    requires { k < 128 }
    ensures { result ≡ 2 ^ k }
{
    1u128 << k
}

/// Returns 2^(w - 1) + 1 modulo 2^w.
fn above_half(width: u32) -> u128
    requires low { 1 ≤ width }
    requires high { width ≤ most_width }
    ensures { result ≡ (2 ^ (width - 1) + 1) % 2 ^ width }
{
    if width == 1 { 0 } else { power(width - 1) + 1 }
}

/// Returns 2 modulo 2^w.
fn two(width: u32) -> u128
    requires low { 1 ≤ width }
    requires high { width ≤ most_width }
    ensures { result ≡ 2 % 2 ^ width }
{
    if width == 1 { 0 } else { 2 }
}

/// Returns edge value `number`, from 0 to 9, of a width.
pub(crate) fn edge(width: u32, number: u128) -> u128
    requires low { 1 ≤ width }
    requires high { width ≤ most_width }
    ensures { result ≡ edge width number }
{
    match number {
        0 => 0,
        1 => 1,
        2 => mask(width),
        3 => power(width - 1),
        4 => power(width - 1) - 1,
        5 => two(width),
        6 => mask(width) - 1,
        7 => power(width / 2),
        8 => power(width / 2) - 1,
        9 => above_half(width),
        _ => 0,
    }
}

/// Returns which edge value the variable at `place` has in a test case.
pub(crate) fn edge_number(case: u128, place: usize) -> u128
    ensures { result ≡ edge_number case place }
{
    let divisor = match place % 3 {
        0 => 1,
        1 => 10,
        _ => 100,
    };
    case / divisor % 10
}
