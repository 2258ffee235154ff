//! The rules on the memrefs of a well-shaped operation (`memref` Dialect).
ghost use Rattle.std.specs.Prelude.{◌≡◌, IfSome, Some, ℕ, pos, List, [], ◌∷◌, map};
ghost use Rattle.std.specs.List.{All};
ghost use Rattle.std.specs.Option.{option_map};
ghost use Rattle.std.specs.Ordering.{int_eq};
ghost use Rattle.std.specs.Cmp.Lexicographic.{pointwise};
ghost use Rattle.ir_types.specs.Things.{ContextModel, IsType, TypeIsOf};
ghost use Rattle.ir_types.specs.Terms.{TypeTerm, AttrTerm, attr_from, type_at, type_from, type_term};
ghost use Rattle.ir_types.specs.WordNames.{word_bytes};
ghost use Rattle.listeners_support.specs.events.Modules.{NodeIsOf};
ghost use Rattle.listeners_support.specs.Gathered.{AroundIsOf};
ghost use Rattle.ir_verify_base.specs.Numbers.{typed, node_in, around_in};
ghost use Rattle.ir_verify_base.specs.Fits as fits;
ghost use Rattle.ir_verify_base.specs.Types as types;
ghost use Rattle.ir_verify_base.specs.TypeRules as rules;

use crate::node::{is_named, property};
use crate::types::same;
use ir_types::context::Context;
use ir_types::ids::TypeId;
use ir_types::node::{AttrNode, TypeNode};
use ir_types::word::Word;
use listeners_support::node::Node;
use listeners_support::op_context::OpContext;
use op_registry::things::{attr_of, type_of};

/// The parts of a memref type that the rules use.
#[derive(Clone, Copy)]
struct Memref {
    rank: usize,
    /// The number of dynamic dimensions.
    unknown: usize,
    elem: TypeId,
}

/// Returns the parts of a memref type, or `None` for another type.
fn memref_of(ctx: &Context, ty: TypeId) -> Option<Memref>
    requires { IsType ctx.now ty }
    ensures memref { option_map (λ m. (m.rank, m.unknown, type_term ctx.now m.elem)) result
        ≡ types.memref_of (type_term ctx.now ty) }
    ensures elem { IfSome result (λ m. IsType ctx.now m.elem) }
{
    memref_in(type_of(ctx, ty))
}

/// Returns the parts of a memref type node, or `None` for another node.
fn memref_in(node: &TypeNode) -> Option<Memref>
    ensures memref { (known : List TypeTerm) → option_map (λ m. (m.rank, m.unknown, type_at known m.elem)) result
        ≡ types.memref_of (type_from known node.now) }
    ensures elem { (c : ContextModel) → TypeIsOf c node.now → IfSome result (λ m. IsType c m.elem) }
{
    match node {
        TypeNode::Int { .. } => None,
        TypeNode::Index => None,
        TypeNode::Func { .. } => None,
        TypeNode::Opaque(_) => None,
        TypeNode::Memref { dims, elem } => Some(Memref {
            rank: dims.len(),
            unknown: unknown_count(dims.as_slice()),
            elem: *elem,
        }),
    }
}

/// Returns the number of dynamic dimensions.
fn unknown_count(dims: &[Option<u64>]) -> usize
    ensures { result ≡ types.unknown_count dims.now }
{
    let mut count: usize = 0;
    let mut rest = dims;
    while let [dim, more @ ..] = rest {
        if dim.is_none() {
            count += 1;
        }
        rest = more;
    }
    count
}

/// Rule 20: the number of indices of a load or store isn't the memref's rank, or the type of its value isn't the
/// element type; or the number of operands of an allocation isn't the number of dynamic dimensions.
pub fn breaks_20(ctx: &Context, around: &OpContext<'_>) -> bool
    requires { AroundIsOf ctx.now around.now }
    ensures { result ≡ rules.breaks_20 (around_in ctx.now around.now) }
{
    if is_named(ctx, &around.node, Word::MemrefLoad) {
        return load_differs(ctx, &around.types, around.node.results());
    }
    if is_named(ctx, &around.node, Word::MemrefStore) {
        return store_differs(ctx, &around.types);
    }
    is_named(ctx, &around.node, Word::MemrefAlloc)
        && alloc_differs(ctx, &around.types, around.node.results())
}

/// Returns whether a load has a number of indices other than the rank, or a result type other than the element type.
fn load_differs(ctx: &Context, operands: &[TypeId], results: &[TypeId]) -> bool
    requires operands { All (λ t. IsType ctx.now t) operands.now }
    requires results { All (λ t. IsType ctx.now t) results.now }
    ensures { result ≡ rules.load_differs (typed ctx.now operands.now) (map (type_term ctx.now) results.now) }
{
    let [memref, indices @ ..] = operands else {
        return false;
    };
    let [result] = results else {
        return false;
    };
    element_differs(ctx, *memref, indices.len(), *result)
}

/// Returns whether a store has a number of indices other than the rank, or a value type other than the element type.
fn store_differs(ctx: &Context, operands: &[TypeId]) -> bool
    requires { All (λ t. IsType ctx.now t) operands.now }
    ensures { result ≡ rules.store_differs (typed ctx.now operands.now) }
{
    let [value, memref, indices @ ..] = operands else {
        return false;
    };
    element_differs(ctx, *memref, indices.len(), *value)
}

/// Returns whether the number of indices differs from the memref's rank, or the type from its element type.
fn element_differs(ctx: &Context, memref: TypeId, indices: usize, ty: TypeId) -> bool
    requires memref { IsType ctx.now memref }
    requires ty { IsType ctx.now ty }
    ensures { result ≡ rules.element_differs (types.memref_of (type_term ctx.now memref)) indices
        (Some (type_term ctx.now ty)) }
{
    match memref_of(ctx, memref) {
        None => false,
        Some(memref) => indices != memref.rank || !same(ctx, ty, memref.elem),
    }
}

/// Returns whether the number of operands of an allocation differs from the number of dynamic dimensions of its result.
fn alloc_differs(ctx: &Context, sizes: &[TypeId], results: &[TypeId]) -> bool
    requires { All (λ t. IsType ctx.now t) results.now }
    ensures { result ≡ rules.alloc_differs (typed ctx.now sizes.now) (map (type_term ctx.now) results.now) }
{
    let [result] = results else {
        return false;
    };
    sizes_differ(ctx, sizes.len(), *result)
}

/// Returns whether the number of sizes differs from the number of the memref's dynamic dimensions.
fn sizes_differ(ctx: &Context, sizes: usize, memref: TypeId) -> bool
    requires { IsType ctx.now memref }
    ensures { result ≡ rules.sizes_differ sizes (types.memref_of (type_term ctx.now memref)) }
{
    match memref_of(ctx, memref) {
        None => false,
        Some(memref) => sizes != memref.unknown,
    }
}

/// Rule 24: an allocation of n operands has segment sizes other than n and 0.
pub fn breaks_24(ctx: &Context, around: &OpContext<'_>) -> bool
    requires { AroundIsOf ctx.now around.now }
    ensures { result ≡ rules.breaks_24 (around_in ctx.now around.now) }
{
    is_named(ctx, &around.node, Word::MemrefAlloc)
        && segments_differ(ctx, around.types.len(), &around.node)
}

/// Returns whether an operation has segment sizes other than `sizes` and 0.
fn segments_differ(ctx: &Context, sizes: usize, node: &Node<'_>) -> bool
    requires { NodeIsOf ctx.now node.now }
    ensures { result ≡ rules.segments_differ sizes
        (fits.property (word_bytes Word.OperandSegmentSizes) (node_in ctx.now node.now)) }
{
    match property(ctx, node, Word::OperandSegmentSizes) {
        None => false,
        Some(attr) => are_others(attr_of(ctx, attr), sizes),
    }
}

/// Returns whether an attribute is a list of segment sizes other than `sizes` and 0.
fn are_others(node: &AttrNode, sizes: usize) -> bool
    ensures { (names : List (List ℕ)) (known : List TypeTerm) (attrs : List AttrTerm)
        → result ≡ rules.segments_differ sizes (Some (attr_from names known attrs node.now)) }
{
    match node {
        AttrNode::Int { .. } => false,
        AttrNode::Str(_) => false,
        AttrNode::Ty(_) => false,
        AttrNode::Unit => false,
        AttrNode::Array(_) => false,
        AttrNode::Dict(_) => false,
        AttrNode::Sym(_) => false,
        AttrNode::Dense { values, .. } => !are_sizes(values.as_slice(), sizes),
        AttrNode::Overflow { .. } => false,
        AttrNode::Opaque { .. } => false,
    }
}

/// Returns whether the values are `sizes` and 0.
fn are_sizes(values: &[i64], sizes: usize) -> bool
    ensures { result ≡ pointwise int_eq values.now (pos sizes ∷ pos 0 ∷ []) }
{
    let [first, second] = values else {
        return false;
    };
    is_number(*first, sizes) && *second == 0
}

/// Returns whether a signed value equals a number.
fn is_number(value: i64, number: usize) -> bool
    ensures { result ≡ int_eq value (pos number) }
{
    value >= 0 && value as usize == number
}
