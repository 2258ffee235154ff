//! Laws of masks and of claims.
ghost use Rattle.width_claims.specs.Masks.{AreMasks, MasksCut, MasksDifference, MasksExtension, MasksLess, MasksLiteral, MasksNarrower, MasksNegative, MasksPower, MasksProduct, MasksResize, MasksSum, MasksZeros};
ghost use Rattle.width_claims.specs.Right.{Claims, Emits};

/// A mask of w bits is a number `m` of W bits with `m & (m + 1) = 0` and `m & 1 = 1`. The mask of a narrower type is
/// less. A power of two is a number `x` with `x & (x - 1) = 0`.
pub fn masks_meet_suppositions()
    ensures masks { AreMasks }
    ensures narrower { MasksNarrower }
    ensures power { MasksPower }
{}

/// Arithmetic of w bits is arithmetic of W bits, `w <= W`, masked to w bits.
pub fn masks_keep_arithmetic()
    ensures literal { MasksLiteral }
    ensures negative { MasksNegative }
    ensures sum { MasksSum }
    ensures difference { MasksDifference }
    ensures product { MasksProduct }
    ensures less { MasksLess }
    ensures extension { MasksExtension }
    ensures resize { MasksResize }
    ensures zeros { MasksZeros }
    ensures cut { MasksCut }
{}

/// The steps of a claim compute the values of its expressions. If the claim's truth holds at all widths, its two values
/// are equal at all widths that its types may have.
pub fn claims_are_sound()
    ensures emits { Emits }
    ensures claims { Claims }
{}
