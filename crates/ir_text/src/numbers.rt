//! Prints numbers.
ghost use Rattle.std.specs.Prelude.{◌≡◌, ◌+◌, ◌++◌, ◌<◌, ◌≤◌, ℤ, pos, int_lt, unsigned_abs, OnOk};
ghost use Rattle.std.specs.Vec.{vec_capacity, vec_len};
ghost use Rattle.std.specs.Fmt.{decimal, signed_decimal};

use crate::separators::reserve;
use ir_text_tokens::print;
use ir_types::readings::Reading;
use itoa::Buffer;
use std::alloc::AllocError;

/// Appends a number less than 100, digit by digit. There is memory for two digits.
#[tactic(auto, using(crate::proofs::Digits::one_digit, crate::proofs::Digits::put_two))]
fn write_small(out: &mut Vec<u8>, number: u8)
    requires small { number < 100 }
    requires space { vec_len out.old + 2 ≤ vec_capacity out.old }
    ensures text { out.new.items ≡ out.old.items ++ decimal number }
    ensures len { vec_len out.new ≤ vec_len out.old + 2 }
    ensures capacity { vec_capacity out.new ≡ vec_capacity out.old }
{
    if number < 10 {
        out.push_reserved(b'0' + number);
        return;
    }
    out.push_reserved(b'0' + number / 10);
    out.push_reserved(b'0' + number % 10);
}

/// Appends a number less than 1,000. There is memory for three digits.
#[tactic(auto, using(crate::proofs::Digits::put_last))]
fn write_hundreds(out: &mut Vec<u8>, number: u64)
    requires small { number < 1000 }
    requires space { vec_len out.old + 3 ≤ vec_capacity out.old }
    ensures text { out.new.items ≡ out.old.items ++ decimal number }
    ensures len { vec_len out.new ≤ vec_len out.old + 3 }
    ensures capacity { vec_capacity out.new ≡ vec_capacity out.old }
{
    if number < 100 {
        write_small(out, number as u8);
        return;
    }
    write_small(out, (number / 10) as u8);
    out.push_reserved(b'0' + (number % 10) as u8);
}

/// Appends a number less than 10,000. There is memory for four digits.
#[tactic(auto, using(crate::proofs::Digits::put_last))]
fn write_thousands(out: &mut Vec<u8>, number: u64)
    requires small { number < 10000 }
    requires space { vec_len out.old + 4 ≤ vec_capacity out.old }
    ensures { out.new.items ≡ out.old.items ++ decimal number }
{
    if number < 1000 {
        write_hundreds(out, number);
        return;
    }
    write_hundreds(out, number / 10);
    out.push_reserved(b'0' + (number % 10) as u8);
}

/// Appends an unsigned number.
pub(crate) fn write_number(out: &mut Vec<u8>, number: u64) -> Result<(), AllocError>
    ensures { OnOk result (out.new.items ≡ out.old.items ++ decimal number) }
{
    if number < 10000 {
        reserve(out, 4)?;
        write_thousands(out, number);
        return Ok(());
    }
    let mut buffer = Buffer::new();
    out.extend_from_slice(buffer.format(number).as_bytes())
}

/// Appends a signed number.
pub(crate) fn write_signed(out: &mut Vec<u8>, number: i64) -> Result<(), AllocError>
    ensures { OnOk result (out.new.items ≡ out.old.items ++ signed_decimal number) }
{
    let mut buffer = Buffer::new();
    out.extend_from_slice(buffer.format(number).as_bytes())
}

/// Appends the number that the bits of an integer denote.
pub(crate) fn write_reading(out: &mut Vec<u8>, reading: &Reading) -> Result<(), AllocError>
    ensures { (z : ℤ) → int_lt z (pos 0) ≡ reading.now.negative → unsigned_abs z ≡ reading.now.magnitude → OnOk result (out.new.items ≡ out.old.items ++ signed_decimal z) }
{
    print::print_number(out, reading.negative, reading.magnitude)
}
