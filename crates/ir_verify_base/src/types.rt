//! The properties of types that the rules read (Builtin Dialect, "Types").
ghost use Rattle.std.specs.Prelude.{◌≡◌, IfSome, Some, List, map, length};
ghost use Rattle.std.specs.List.{All};
ghost use Rattle.std.specs.Option.{option_map};
ghost use Rattle.ir_types.specs.SameTypes.{same_type};
ghost use Rattle.ir_types.specs.Things.{IsType};
ghost use Rattle.ir_types.specs.Terms.{TypeTerm, type_from, type_term};
ghost use Rattle.ir_verify_base.specs.Numbers.{typed};
ghost use Rattle.ir_verify_base.specs.Types as types;

use ir_types::context::Context;
use ir_types::ids::TypeId;
use ir_types::node::{Sign, TypeNode};
use op_registry::things::type_of;

/// Returns whether two types are equal.
#[tactic(auto, using(ir_types::proofs::SameTerms::same_numbers))]
pub fn same(ctx: &Context, a: TypeId, b: TypeId) -> bool
    requires a { IsType ctx.now a }
    requires b { IsType ctx.now b }
    ensures { result ≡ same_type (type_term ctx.now a) (type_term ctx.now b) }
{
    ctx.sound();
    a == b
}

/// Returns whether two lists of types are equal.
pub fn same_types(ctx: &Context, ones: &[TypeId], others: &[TypeId]) -> bool
    requires ones { All (λ t. IsType ctx.now t) ones.now }
    requires others { All (λ t. IsType ctx.now t) others.now }
    ensures { result ≡ types.same_types (typed ctx.now ones.now) (typed ctx.now others.now) }
{
    let mut left = ones;
    let mut right = others;
    while let [a, more @ ..] = left {
        let [b, rest @ ..] = right else {
            return false;
        };
        if !same(ctx, *a, *b) {
            return false;
        }
        left = more;
        right = rest;
    }
    right.is_empty()
}

/// Returns the width of a signless integer type, or `None` for another type.
pub fn width_of(ctx: &Context, ty: TypeId) -> Option<u32>
    requires { IsType ctx.now ty }
    ensures { result ≡ types.width_of (type_term ctx.now ty) }
{
    width_in(type_of(ctx, ty))
}

/// Returns the width of a signless integer type node, or `None` for another node.
fn width_in(node: &TypeNode) -> Option<u32>
    ensures { (known : List TypeTerm) → result ≡ types.width_of (type_from known node.now) }
{
    match node {
        TypeNode::Int { sign, width } => match sign {
            Sign::Signless => Some(*width),
            Sign::Signed => None,
            Sign::Unsigned => None,
        },
        TypeNode::Index => None,
        TypeNode::Func { .. } => None,
        TypeNode::Memref { .. } => None,
        TypeNode::Opaque(_) => None,
    }
}

/// Returns whether a type is a signless integer type.
pub fn is_integer(ctx: &Context, ty: TypeId) -> bool
    requires { IsType ctx.now ty }
    ensures { result ≡ types.is_integer (type_term ctx.now ty) }
{
    node_is_integer(type_of(ctx, ty))
}

/// Returns whether a type node is a signless integer type.
fn node_is_integer(node: &TypeNode) -> bool
    ensures { (known : List TypeTerm) → result ≡ types.is_integer (type_from known node.now) }
{
    match node {
        TypeNode::Int { sign, .. } => match sign {
            Sign::Signless => true,
            Sign::Signed => false,
            Sign::Unsigned => false,
        },
        TypeNode::Index => false,
        TypeNode::Func { .. } => false,
        TypeNode::Memref { .. } => false,
        TypeNode::Opaque(_) => false,
    }
}

/// Returns whether a type is `index`.
pub fn is_index(ctx: &Context, ty: TypeId) -> bool
    requires { IsType ctx.now ty }
    ensures { result ≡ types.is_index (type_term ctx.now ty) }
{
    node_is_index(type_of(ctx, ty))
}

/// Returns whether a type node is `index`.
fn node_is_index(node: &TypeNode) -> bool
    ensures { (known : List TypeTerm) → result ≡ types.is_index (type_from known node.now) }
{
    match node {
        TypeNode::Int { .. } => false,
        TypeNode::Index => true,
        TypeNode::Func { .. } => false,
        TypeNode::Memref { .. } => false,
        TypeNode::Opaque(_) => false,
    }
}

/// Returns whether a type is a signless integer type or `index`.
pub fn is_number(ctx: &Context, ty: TypeId) -> bool
    requires { IsType ctx.now ty }
    ensures { result ≡ types.is_number (type_term ctx.now ty) }
{
    is_integer(ctx, ty) || is_index(ctx, ty)
}

/// Returns whether a type is `i1`.
pub fn is_boolean(ctx: &Context, ty: TypeId) -> bool
    requires { IsType ctx.now ty }
    ensures { result ≡ types.is_boolean (type_term ctx.now ty) }
{
    node_is_boolean(type_of(ctx, ty))
}

/// Returns whether a type node is `i1`.
fn node_is_boolean(node: &TypeNode) -> bool
    ensures { (known : List TypeTerm) → result ≡ types.is_boolean (type_from known node.now) }
{
    match node {
        TypeNode::Int { sign, width } => match sign {
            Sign::Signless => *width == 1,
            Sign::Signed => false,
            Sign::Unsigned => false,
        },
        TypeNode::Index => false,
        TypeNode::Func { .. } => false,
        TypeNode::Memref { .. } => false,
        TypeNode::Opaque(_) => false,
    }
}

/// Returns whether a type is a memref.
pub fn is_memref(ctx: &Context, ty: TypeId) -> bool
    requires { IsType ctx.now ty }
    ensures { result ≡ types.is_memref (type_term ctx.now ty) }
{
    node_is_memref(type_of(ctx, ty))
}

/// Returns whether a type node is a memref.
fn node_is_memref(node: &TypeNode) -> bool
    ensures { (known : List TypeTerm) → result ≡ types.is_memref (type_from known node.now) }
{
    match node {
        TypeNode::Int { .. } => false,
        TypeNode::Index => false,
        TypeNode::Func { .. } => false,
        TypeNode::Memref { .. } => true,
        TypeNode::Opaque(_) => false,
    }
}
