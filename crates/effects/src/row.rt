//! The table entry of an operation.
ghost use Rattle.std.specs.Prelude.{◌≡◌, ◌-◌, ◌+◌, IfSome};
ghost use Rattle.effects.specs.Points.{one_if};
ghost use Rattle.effects.specs.RowMaps.{head_of, row_of_head, zero_counts};
ghost use Rattle.effects.specs.Walks.{lowered, lost_row, raised, gained_row, present, both, new_row};
ghost use Rattle.effects.specs.Effects.{is_none, union};

use crate::effect_kinds::{EffectKinds, recursive};
use ir_event::types::ids::OpId;
use op_registry::own::Own;

/// How many operations have each effect.
#[derive(Clone, Copy)]
pub struct Counts {
    pub unknown: u32,
    pub allocate: u32,
    pub free: u32,
    pub read: u32,
    pub write: u32,
}

/// The entry of an operation without the counts.
#[derive(Clone, Copy)]
pub struct RowHead {
    pub parent: Option<OpId>,
    pub recursive: bool,
    pub has: EffectKinds,
}

/// The entry of an operation: its parent, whether it has the effects of its children, its effects, and how many of its
/// children have each effect.
#[derive(Clone, Copy)]
pub struct Row {
    pub parent: Option<OpId>,
    pub recursive: bool,
    pub has: EffectKinds,
    pub counts: Counts,
}

/// Returns the count, one less if `less`.
fn lower(count: u32, less: bool) -> u32
    ensures { result ≡ count - one_if less }
{
    if less { count.saturating_sub(1) } else { count }
}

/// Returns the count, one more if `more`, or `None` if it overflows.
fn raise(count: u32, more: bool) -> Option<u32>
    ensures { IfSome result (λ c. c ≡ count + one_if more) }
{
    if more {
        count.checked_add(1)
    } else {
        Some(count)
    }
}

impl RowHead {
    /// Returns the entry with counts.
    pub(crate) fn row(&self, counts: &Counts) -> Row
        ensures { result ≡ row_of_head counts.now self.now }
    {
        Row {
            parent: self.parent,
            recursive: self.recursive,
            has: self.has,
            counts: *counts,
        }
    }
}

impl Counts {
    /// Returns counts that are all 0.
    pub(crate) fn zero() -> Counts
        ensures { result ≡ zero_counts }
    {
        Counts {
            unknown: 0,
            allocate: 0,
            free: 0,
            read: 0,
            write: 0,
        }
    }

    /// Returns whether all counts are 0.
    pub(crate) fn are_zero(&self) -> bool
        ensures { result ≡ is_none (present self.now) }
    {
        self.present().is_none()
    }

    /// Returns the counts, one less for each effect in `less`.
    fn lowered(&self, less: &EffectKinds) -> Counts
        ensures { result ≡ lowered self.now less.now }
    {
        Counts {
            unknown: lower(self.unknown, less.unknown),
            allocate: lower(self.allocate, less.allocate),
            free: lower(self.free, less.free),
            read: lower(self.read, less.read),
            write: lower(self.write, less.write),
        }
    }

    /// Returns the counts, one more for each effect in `more`, or `None` if a count overflows.
    fn raised(&self, more: &EffectKinds) -> Option<Counts>
        ensures { IfSome result (λ c. c ≡ raised self.now more.now) }
    {
        let unknown = raise(self.unknown, more.unknown)?;
        let allocate = raise(self.allocate, more.allocate)?;
        let free = raise(self.free, more.free)?;
        let read = raise(self.read, more.read)?;
        let write = raise(self.write, more.write)?;
        Some(Counts {
            unknown,
            allocate,
            free,
            read,
            write,
        })
    }

    /// Returns the effects whose count isn't 0.
    fn present(&self) -> EffectKinds
        ensures { result ≡ present self.now }
    {
        EffectKinds {
            unknown: self.unknown > 0,
            allocate: self.allocate > 0,
            free: self.free > 0,
            read: self.read > 0,
            write: self.write > 0,
        }
    }
}

/// Returns the intersection of two sets.
fn both(a: &EffectKinds, b: &EffectKinds) -> EffectKinds
    ensures { result ≡ both a.now b.now }
{
    EffectKinds {
        unknown: a.unknown && b.unknown,
        allocate: a.allocate && b.allocate,
        free: a.free && b.free,
        read: a.read && b.read,
        write: a.write && b.write,
    }
}

/// Returns the union of two sets.
fn union_of(a: &EffectKinds, b: &EffectKinds) -> EffectKinds
    ensures { result ≡ union a.now b.now }
{
    EffectKinds {
        unknown: a.unknown || b.unknown,
        allocate: a.allocate || b.allocate,
        free: a.free || b.free,
        read: a.read || b.read,
        write: a.write || b.write,
    }
}

impl Row {
    /// Returns the entry without the counts.
    pub(crate) fn head(&self) -> RowHead
        ensures { result ≡ head_of self.now }
    {
        RowHead {
            parent: self.parent,
            recursive: self.recursive,
            has: self.has,
        }
    }

    /// Returns the entry of an operation without children.
    pub fn leaf(parent: Option<OpId>, own: &Own) -> Row
        ensures { result ≡ new_row parent own.now }
    {
        Row {
            parent,
            recursive: recursive(own),
            has: EffectKinds::from_own(own),
            counts: Counts::zero(),
        }
    }

    /// Returns the entry with another parent.
    pub fn moved(&self, parent: Option<OpId>) -> Row
        ensures { result ≡ record self.now { parent = parent } }
    {
        Row {
            parent,
            recursive: self.recursive,
            has: self.has,
            counts: self.counts,
        }
    }

    /// Returns the entry after a child lost these effects.
    pub fn without(&self, less: &EffectKinds) -> Row
        ensures { result ≡ lost_row self.now less.now }
    {
        let counts = self.counts.lowered(less);
        let has = if self.recursive {
            both(&self.has, &counts.present())
        } else {
            self.has
        };
        Row {
            parent: self.parent,
            recursive: self.recursive,
            has,
            counts,
        }
    }

    /// Returns the entry after a child gained these effects, or `None` if a count overflows.
    pub fn with(&self, more: &EffectKinds) -> Option<Row>
        ensures { IfSome result (λ r. r ≡ gained_row self.now more.now) }
    {
        let counts = self.counts.raised(more)?;
        let has = if self.recursive {
            union_of(&self.has, more)
        } else {
            self.has
        };
        Some(Row {
            parent: self.parent,
            recursive: self.recursive,
            has,
            counts,
        })
    }
}
