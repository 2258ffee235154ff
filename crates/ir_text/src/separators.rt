//! Appends separators and short texts.
ghost use Rattle.std.specs.Prelude.{◌≡◌, ◌+◌, ◌++◌, ◌≤◌, OnOk, [], if◌then◌else◌};
ghost use Rattle.std.specs.Vec.{vec_capacity, vec_len};

use std::alloc::AllocError;

/// Reserves memory for `count` bytes. If there is memory, as usual, no function of the vector is called.
#[inline(always)]
pub(crate) fn reserve(out: &mut Vec<u8>, count: usize) -> Result<(), AllocError>
    ensures text { out.new.items ≡ out.old.items }
    ensures len { vec_len out.new ≡ vec_len out.old }
    ensures space { OnOk result (vec_len out.new + count ≤ vec_capacity out.new) }
{
    if out.capacity().saturating_sub(out.len()) >= count {
        return Ok(());
    }
    out.reserve(count)
}

/// Appends bytes. At most five bytes are pushed one by one, which is faster than copying them.
#[inline(always)]
pub(crate) fn write_short(out: &mut Vec<u8>, bytes: &[u8]) -> Result<(), AllocError>
    ensures { OnOk result (out.new.items ≡ out.old.items ++ bytes.now) }
{
    match bytes {
        [a] => {
            reserve(out, 1)?;
            out.push_reserved(*a);
            Ok(())
        }
        [a, b] => {
            reserve(out, 2)?;
            out.push_reserved(*a);
            out.push_reserved(*b);
            Ok(())
        }
        [a, b, c] => {
            reserve(out, 3)?;
            out.push_reserved(*a);
            out.push_reserved(*b);
            out.push_reserved(*c);
            Ok(())
        }
        [a, b, c, d] => {
            reserve(out, 4)?;
            out.push_reserved(*a);
            out.push_reserved(*b);
            out.push_reserved(*c);
            out.push_reserved(*d);
            Ok(())
        }
        [a, b, c, d, e] => {
            reserve(out, 5)?;
            out.push_reserved(*a);
            out.push_reserved(*b);
            out.push_reserved(*c);
            out.push_reserved(*d);
            out.push_reserved(*e);
            Ok(())
        }
        _ => out.extend_from_slice(bytes),
    }
}

/// Appends `mark` between the items of a list. Appends nothing before the first item.
#[inline(always)]
pub(crate) fn write_between(out: &mut Vec<u8>, first: bool, mark: &[u8]) -> Result<(), AllocError>
    ensures { OnOk result (out.new.items ≡ out.old.items ++ (if first then [] else mark.now)) }
{
    if first {
        return Ok(());
    }
    write_short(out, mark)
}
