//! The table of effects.
ghost use Rattle.std.specs.Ordering.{nat_cmp};
ghost use Rattle.listeners_support.specs.Map as idmap;
ghost use Rattle.effects.specs.Marks.{acts, AreMarked, AreMarked-prop, HasHeadroom, HasHeadroom-prop};

use crate::row_map::RowMap;
use listeners_support::BitSet;

/// An entry for each operation, and the set of operations that have an effect.
#[derive(Drop)]
pub struct EffectRows {
    pub(crate) rows: RowMap,
    pub(crate) acting: BitSet,
    pub(crate) ghost marked: { AreMarked acts (idmap.get rows) acting } by { AreMarked-prop acts (idmap.get rows) acting },
    pub(crate) ghost headroom: { HasHeadroom (idmap.get rows) acting } by { HasHeadroom-prop (idmap.get rows) acting },
}
