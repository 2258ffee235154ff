//! Entries of the table of effects in fewer bytes.
ghost use Rattle.std.specs.Prelude.{◌≡◌};
ghost use Rattle.effects.specs.Packed.{has_first, has_second};

use crate::effect_kinds::EffectKinds;
use crate::row::RowHead;
use ir_event::types::ids::OpId;
use std::marker::Model;

/// Which of two things hold, in one byte.
#[derive(Clone, Copy, Drop)]
pub(crate) enum FlagPair {
    Neither,
    First,
    Second,
    Both,
}

/// The entry of an operation without the counts, in 8 bytes. A contract describes it as the entry.
///
/// A table has one for each id. An optional `RowHead` takes 20 bytes, and an optional `PackedHead` takes 12.
#[derive(Drop)]
pub(crate) struct PackedHead {
    /// The parent, if there is one.
    parent: u32,
    /// Whether there is a parent, and whether the operation has the effects of its children.
    position: FlagPair,
    unknown_allocate: FlagPair,
    free_read: FlagPair,
    write: bool,
}

impl Model for PackedHead {
    ghost use Rattle.effects.specs.declared.row.RowHead.{RowHead as Head};
    ghost use Rattle.effects.specs.Packed.{unpacked};

    ghost Value = { Head };

    ghost view = { λ p. unpacked p.parent p.position p.unknown_allocate p.free_read p.write };
}

/// Returns which of two things hold.
fn flag_pair(first: bool, second: bool) -> FlagPair
    ensures first { has_first result ≡ first }
    ensures second { has_second result ≡ second }
{
    if first {
        if second {
            FlagPair::Both
        } else {
            FlagPair::First
        }
    } else if second {
        FlagPair::Second
    } else {
        FlagPair::Neither
    }
}

/// Returns whether the first of two things holds.
fn has_first(flags: &FlagPair) -> bool
    ensures { result ≡ has_first flags.now }
{
    match flags {
        FlagPair::First | FlagPair::Both => true,
        FlagPair::Neither | FlagPair::Second => false,
    }
}

/// Returns whether the second of two things holds.
fn has_second(flags: &FlagPair) -> bool
    ensures { result ≡ has_second flags.now }
{
    match flags {
        FlagPair::Second | FlagPair::Both => true,
        FlagPair::Neither | FlagPair::First => false,
    }
}

impl PackedHead {
    /// Returns an entry in fewer bytes.
    pub(crate) fn new(head: &RowHead) -> PackedHead
        ensures { result ≡ head.now }
    {
        let (parent, inside) = match head.parent {
            Some(parent) => (parent.number(), true),
            None => (0, false),
        };
        PackedHead {
            parent,
            position: flag_pair(inside, head.recursive),
            unknown_allocate: flag_pair(head.has.unknown, head.has.allocate),
            free_read: flag_pair(head.has.free, head.has.read),
            write: head.has.write,
        }
    }

    /// Returns the entry.
    pub(crate) fn head(&self) -> RowHead
        ensures { result ≡ self.now }
    {
        RowHead {
            parent: self.parent(),
            recursive: has_second(&self.position),
            has: EffectKinds {
                unknown: has_first(&self.unknown_allocate),
                allocate: has_second(&self.unknown_allocate),
                free: has_first(&self.free_read),
                read: has_second(&self.free_read),
                write: self.write,
            },
        }
    }

    /// Returns the parent, if there is one.
    fn parent(&self) -> Option<OpId>
        ensures { result ≡ self.now.parent }
    {
        if has_first(&self.position) {
            Some(OpId::new(self.parent))
        } else {
            None
        }
    }
}
