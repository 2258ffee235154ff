//! The interned numbers of a lowering, and the places of its casts.
ghost use Rattle.std.specs.Prelude.{◌≡◌};
ghost use Rattle.patterns_soundness.specs.base.Lowering.{before_in};

use ir_event::trees::place::Place;
use ir_event::types::ids::{AttrId, NameId, OpId, TypeId};

/// The interned numbers that the lowering of an operation needs.
#[derive(Drop)]
pub(crate) struct Numbers {
    /// The type i64.
    pub(crate) wide: TypeId,
    /// The type index.
    pub(crate) index: TypeId,
    /// The properties of the operation, with an i64 integer for each index integer.
    pub(crate) properties: Vec<(NameId, AttrId)>,
}

/// A group of casts: their type, their place, and the id of the first.
#[derive(Clone, Copy)]
pub(crate) struct Casts {
    /// The type of the casts.
    pub(crate) ty: TypeId,
    /// The place of the casts.
    pub(crate) place: Place,
    /// The id of the first cast.
    pub(crate) first: u32,
}

/// Returns a group of casts.
pub(crate) fn casts_at(ty: TypeId, place: &Place, first: u32) -> Casts
    ensures { result ≡ record { ty = ty; place = place.now; first = first } }
{
    Casts {
        ty,
        place: *place,
        first,
    }
}

/// Returns the place before operation `next` in the block of a region of `op`.
pub(crate) fn before(op: OpId, region: u32, next: OpId) -> Place
    ensures { result ≡ before_in op region next }
{
    Place {
        parent: op,
        region,
        before: Some(next),
    }
}
