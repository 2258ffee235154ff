//! The types bound to the types of a pattern.
ghost use Rattle.std.specs.Prelude.{◌≡◌};
ghost use Rattle.ir_event.specs.types.Things.{IsType};
ghost use Rattle.ir_event.specs.types.Terms.{type_term};
ghost use Rattle.ir_event.specs.types.SameTypes.{same_type};
ghost use Rattle.dialects_int.specs.Folds.{kind_of, same_kind};
ghost use Rattle.user_patterns_apply.specs.Types.{TypeIsOf, is_kind, type_in};

use ir_event::types::bits::BitsKind;
use ir_event::types::context::Context;
use ir_event::types::ids::TypeId;
use ir_verify_base::types::{is_index, same, width_of};

/// A bound type: a type of the context, or the kind that the pattern names.
#[derive(Clone, Copy)]
pub enum BoundType {
    Matched(TypeId),
    Concrete(BitsKind),
}

/// Returns the kind of the type's values, or `None` if the type is neither a signless integer type nor `index`.
#[tactic(auto, using(crate::proofs::Widths::of_width, crate::proofs::Widths::of_index, crate::proofs::Widths::no_kind))]
pub fn kind_of(ctx: &Context, ty: TypeId) -> Option<BitsKind>
    requires { IsType ctx.now ty }
    ensures { result ≡ kind_of (type_term ctx.now ty) }
{
    match width_of(ctx, ty) {
        Some(width) => Some(BitsKind::Int(width)),
        None => {
            if is_index(ctx, ty) {
                Some(BitsKind::Index)
            } else {
                None
            }
        }
    }
}

/// Returns whether two kinds are equal.
pub(crate) fn same_kind(a: BitsKind, b: BitsKind) -> bool
    ensures { result ≡ same_kind a b }
{
    match (a, b) {
        (BitsKind::Int(v), BitsKind::Int(w)) => v == w,
        (BitsKind::Index, BitsKind::Index) => true,
        (BitsKind::Int(_), BitsKind::Index) => false,
        (BitsKind::Index, BitsKind::Int(_)) => false,
    }
}

/// Returns whether the values of type `ty` have that kind.
fn is_kind(ctx: &Context, kind: BitsKind, ty: TypeId) -> bool
    requires { IsType ctx.now ty }
    ensures { result ≡ is_kind kind (kind_of (type_term ctx.now ty)) }
{
    match kind_of(ctx, ty) {
        Some(own) => same_kind(kind, own),
        None => false,
    }
}

/// Returns whether the bound type is the type `ty` of the context.
#[tactic(auto, using(crate::proofs::Widths::written_same))]
pub(crate) fn is_same(ctx: &Context, bound: &BoundType, ty: TypeId) -> bool
    requires bound { TypeIsOf ctx.now bound.now }
    requires ty { IsType ctx.now ty }
    ensures { result ≡ same_type (type_in ctx.now bound.now) (type_term ctx.now ty) }
{
    match bound {
        BoundType::Matched(own) => same(ctx, *own, ty),
        BoundType::Concrete(kind) => is_kind(ctx, *kind, ty),
    }
}
