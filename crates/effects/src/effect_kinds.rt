//! Sets of effects.
ghost use Rattle.std.specs.Prelude.{◌≡◌};
ghost use Rattle.effects.specs.Effects.{none, own_kinds, is_recursive, is_none};
ghost use Rattle.effects.specs.Walks.{minus};

use op_registry::own::Own;

/// The effects of an operation (Rationale, "Side Effects & Speculation").
#[derive(Clone, Copy)]
pub struct EffectKinds {
    pub unknown: bool,
    pub allocate: bool,
    pub free: bool,
    pub read: bool,
    pub write: bool,
}

/// Returns whether an operation has the effects of its children.
pub(crate) fn recursive(own: &Own) -> bool
    ensures { result ≡ is_recursive own.now }
{
    matches!(own, Own::Recursive)
}

impl EffectKinds {
    /// Returns the empty set.
    pub fn none() -> EffectKinds
        ensures { result ≡ none }
    {
        EffectKinds {
            unknown: false,
            allocate: false,
            free: false,
            read: false,
            write: false,
        }
    }

    /// Returns the own effects of an operation as a set, which is empty if the operation has the effects of its
    /// children.
    pub fn from_own(own: &Own) -> EffectKinds
        ensures { result ≡ own_kinds own.now }
    {
        match own {
            Own::Pure | Own::Recursive => EffectKinds::none(),
            Own::Only(set) => EffectKinds {
                unknown: false,
                allocate: set.allocate,
                free: set.free,
                read: set.read,
                write: set.write,
            },
            Own::Unknown => EffectKinds {
                unknown: true,
                allocate: false,
                free: false,
                read: false,
                write: false,
            },
        }
    }

    /// Returns whether the set is empty.
    pub fn is_none(&self) -> bool
        ensures { result ≡ is_none self.now }
    {
        !(self.unknown || self.allocate || self.free || self.read || self.write)
    }

    /// Returns the effects of this set that aren't in `other`.
    pub fn minus(&self, other: &EffectKinds) -> EffectKinds
        ensures { result ≡ minus self.now other.now }
    {
        EffectKinds {
            unknown: self.unknown && !other.unknown,
            allocate: self.allocate && !other.allocate,
            free: self.free && !other.free,
            read: self.read && !other.read,
            write: self.write && !other.write,
        }
    }
}
