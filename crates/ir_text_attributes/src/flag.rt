//! The overflow flags of integer operations.

/// What an integer operation must not do (`arith` Dialect, "IntegerOverflowFlagsAttr").
#[derive(Clone, Copy, PartialEq, Eq)]
pub enum Flag {
    /// `nsw`: no signed wrap.
    NoSignedWrap,
    /// `nuw`: no unsigned wrap.
    NoUnsignedWrap,
}
