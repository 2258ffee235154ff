//! The table of use counts.
ghost use Rattle.std.specs.Ordering.{nat_cmp};
ghost use Rattle.listeners_support.specs.Map as idmap;
ghost use Rattle.effects.specs.Marks.{is_zero, AreMarked, AreMarked-prop, HasHeadroom, HasHeadroom-prop};

use listeners_support::{BitSet, IdMap};

/// A count for each operation, and the set of operations whose count is 0. The count of an operation that is never dead
/// is one higher.
#[derive(Drop)]
pub struct UseCounts {
    pub(crate) counts: IdMap<u32>,
    pub(crate) unused: BitSet,
    pub(crate) ghost marked: { AreMarked is_zero (idmap.get counts) unused } by { AreMarked-prop is_zero (idmap.get counts) unused },
    pub(crate) ghost headroom: { HasHeadroom (idmap.get counts) unused } by { HasHeadroom-prop (idmap.get counts) unused },
}
