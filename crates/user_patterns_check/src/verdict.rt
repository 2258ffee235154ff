//! The verdict of a check.

/// The verdict of a check at all widths up to a limit.
#[derive(Drop)]
pub enum Verdict {
    /// The new side refines the old side for all values.
    Holds,
    /// The pattern may not be applied to any values, or the old side is always undefined.
    Vacuous,
    /// The new side doesn't refine the old side at these widths and values.
    Fails(Vec<u32>, Vec<u128>),
    /// There are too many values or lists of widths. Nothing was tested.
    TooMany,
}
