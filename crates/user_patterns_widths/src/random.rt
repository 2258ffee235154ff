//! Pseudorandom values, the same in every run.
ghost use Rattle.std.specs.Prelude.{◌≡◌, ◌+◌, ◌*◌, ◌≤◌};
ghost use Rattle.ir_types.specs.Limits.{most_width};
ghost use Rattle.user_patterns_widths.specs.SampledValues.{chance, rule_list};

/// Returns 128 pseudorandom bits for a number.
fn mix_bits(number: u128) -> u128
    ensures { result ≡ rule_list number }
{
    let spread = number
        .wrapping_add(1)
        .wrapping_mul(0x9E37_79B9_7F4A_7C15_F39C_C060_5CED_C835);
    let folded = spread ^ (spread >> 64);
    folded.wrapping_mul(0xD6E8_FEB8_6659_FD93_A5A3_F1C2_B4E7_695B)
}

/// Returns the pseudorandom value of the variable at `place` in a test case.
pub(crate) fn chance(width: u32, case: u128, place: usize) -> u128
    requires low { 1 ≤ width }
    requires high { width ≤ most_width }
    ensures { result ≡ chance width (16 * case + place) }
{
    let number = case.wrapping_mul(16).wrapping_add(place as u128);
    mix_bits(number) >> (128 - width)
}
