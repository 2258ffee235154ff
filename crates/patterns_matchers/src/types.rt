//! Queries of types.
ghost use Rattle.std.specs.Prelude.{◌≡◌, ◌≤◌, List};
ghost use Rattle.ir_event.specs.types.Limits.{most_width};
ghost use Rattle.ir_event.specs.types.Readings.{type_width};
ghost use Rattle.ir_event.specs.types.Things.{IsType};
ghost use Rattle.ir_event.specs.types.Terms.{TypeTerm, type_from, type_term};
ghost use Rattle.ir_event.specs.types.SameTypes.{same_type};
ghost use Rattle.dialects_int.specs.Arithmetic.{all_ones, difference_of};
ghost use Rattle.dialects_int.specs.Folds.{kind_of};
ghost use Rattle.ir_event.specs.Modules.{module_in};
ghost use Rattle.patterns_base.specs.Looks.{is_of_type};
ghost use Rattle.patterns_base.specs.Made.{i1};

use ir_event::trees::value::Value;
use ir_event::types::bits::BitsKind;
use ir_event::types::context::Context;
use ir_event::types::ids::TypeId;
use ir_event::types::node::{Sign, TypeNode};
use ir_event::types::readings::mask;
use ir_event::types::things::type_of;
use ir_event::world::World;
use ir_verify_base::types;

/// Returns whether a type is `i1`.
pub fn is_boolean(ctx: &Context, ty: TypeId) -> bool
    requires { IsType ctx.now ty }
    ensures { result ≡ same_type (type_term ctx.now ty) i1 }
{
    types::is_boolean(ctx, ty)
}

/// Returns whether a value has a given type.
pub fn is_of_type(world: &World, ty: TypeId, value: Value) -> bool
    requires { IsType world.now.ctx ty }
    ensures { result ≡ is_of_type (module_in world.now).tree (type_term world.now.ctx ty) value }
{
    match world.store.value_type(value) {
        Some(own) => types::same(&world.ctx, own, ty),
        None => false,
    }
}

/// Returns the kind of a type's values, or `None` unless it is a signless integer type or index.
pub(crate) fn kind_of(ctx: &Context, ty: TypeId) -> Option<BitsKind>
    requires { IsType ctx.now ty }
    ensures { result ≡ kind_of (type_term ctx.now ty) }
{
    ctx.sound();
    kind_in(type_of(ctx, ty))
}

fn kind_in(node: &TypeNode) -> Option<BitsKind>
    ensures { (known : List TypeTerm) → result ≡ kind_of (type_from known node.now) }
{
    match node {
        TypeNode::Int { sign, width } => match sign {
            Sign::Signless => Some(BitsKind::Int(*width)),
            Sign::Signed => None,
            Sign::Unsigned => None,
        },
        TypeNode::Index => Some(BitsKind::Index),
        TypeNode::Func { .. } => None,
        TypeNode::Memref { .. } => None,
        TypeNode::Opaque(_) => None,
    }
}

/// Returns the width of an integer type in bits, or 0 for a type without integers.
pub fn type_width(ctx: &Context, ty: TypeId) -> u32
    requires { IsType ctx.now ty }
    ensures width { result ≡ type_width (type_term ctx.now ty) }
    ensures narrow { result ≤ most_width }
{
    ctx.sound();
    width_in(type_of(ctx, ty))
}

fn width_in(node: &TypeNode) -> u32
    ensures { (known : List TypeTerm) → result ≡ type_width (type_from known node.now) }
{
    match node {
        TypeNode::Int { width, .. } => *width,
        TypeNode::Index => 64,
        TypeNode::Func { .. } => 0,
        TypeNode::Memref { .. } => 0,
        TypeNode::Opaque(_) => 0,
    }
}

/// Returns all ones in the width of a type.
pub fn all_ones(ctx: &Context, ty: TypeId) -> u128
    requires { IsType ctx.now ty }
    ensures { result ≡ all_ones (type_width (type_term ctx.now ty)) }
{
    let width = type_width(ctx, ty);
    if width == 0 { 0 } else { mask(width) }
}

/// Returns 0 minus `bits`, in a width.
pub fn negated_bits(width: u32, bits: u128) -> u128
    requires { width ≤ most_width }
    ensures { result ≡ difference_of width 0 bits }
{
    if width == 0 {
        0
    } else {
        0u128.wrapping_sub(bits) & mask(width)
    }
}
