//! The rules on the types of a well-shaped operation.
ghost use Rattle.std.specs.Prelude.{◌≡◌, IfSome, Some, ℕ, List, [], map, length, drop, not, unwrap_or, option_and_then};
ghost use Rattle.std.specs.List.{All};
ghost use Rattle.std.specs.Option.{option_map};
ghost use Rattle.ir_types.specs.Things.{ContextModel, IsType, TypeIsOf, IsAttr};
ghost use Rattle.ir_types.specs.Terms.{TypeTerm, AttrTerm, attr_from, attr_term, type_at, type_from, type_term};
ghost use Rattle.ir_types.specs.WordNames.{word_bytes};
ghost use Rattle.op_registry.specs.Registry.{region_row, row_from};
ghost use Rattle.op_registry.specs.Properties.{integer_of as integer_in};
ghost use Rattle.listeners_support.specs.events.Modules.{NodeIsOf};
ghost use Rattle.listeners_support.specs.Gathered.{AroundIsOf};
ghost use Rattle.ir_verify_base.specs.Numbers.{typed, known_in, node_in, around_in, AreKnown, AreKnownOf};
ghost use Rattle.ir_verify_base.specs.Fits as fits;
ghost use Rattle.ir_verify_base.specs.Types as types;
ghost use Rattle.ir_verify_base.specs.TypeRules as rules;

use crate::fits::{ComparedTypes, types_fit};
use crate::node::{block, function_type, is_named, property};
use crate::types::{is_index, is_number, same, width_of};
use ir_types::context::Context;
use ir_types::ids::TypeId;
use ir_types::word::Word;
use listeners_support::node::Node;
use listeners_support::op_context::OpContext;
use op_registry::definition::{OpDef, RegionRule, TypeRule};
use op_registry::property::integer_of;

/// Returns the types of an operation with which a type rule may compare a type.
pub fn known_of<'a>(ctx: &'a Context, def: &OpDef, around: &'a OpContext<'_>) -> ComparedTypes<'a>
    requires { AroundIsOf ctx.now around.now }
    ensures { AreKnownOf ctx.now def.now around.now result }
{
    let types: &[TypeId] = &around.types;
    let rules: &[TypeRule] = def.operands.first;
    ComparedTypes {
        number: first_called(TypeRule::Number, rules, types),
        same: first_called(TypeRule::Any, rules, types),
        initial: after(types, rules.len()),
        results: around.node.results(),
        inputs: inputs_of(ctx, &around.node),
    }
}

/// Returns the type of the first operand whose rule is `wanted`.
fn first_called(wanted: TypeRule, rules: &[TypeRule], types: &[TypeId]) -> Option<TypeId>
    ensures is { (c : ContextModel)
        → option_map (type_term c) result ≡ fits.first_called wanted rules.now (typed c types.now) }
    ensures known { (c : ContextModel) → All (λ t. IsType c t) types.now → IfSome result (λ t. IsType c t) }
{
    let mut named = rules;
    let mut rest = types;
    while let [rule, more @ ..] = named {
        let [ty, others @ ..] = rest else {
            return None;
        };
        if is_called(wanted, *rule) {
            return Some(*ty);
        }
        named = more;
        rest = others;
    }
    None
}

/// Returns whether `rule` is `wanted`. The answer is `false` unless `wanted` is `Number` or `Any`, because types are
/// compared with no others.
fn is_called(wanted: TypeRule, rule: TypeRule) -> bool
    ensures { result ≡ fits.is_called wanted rule }
{
    match wanted {
        TypeRule::Number => matches!(rule, TypeRule::Number),
        TypeRule::Any => matches!(rule, TypeRule::Any),
        _ => false,
    }
}

/// Returns the types after the first `count`.
fn after(types: &[TypeId], count: usize) -> &[TypeId]
    ensures { result.now ≡ drop count types.now }
{
    if count <= types.len() {
        &types[count..]
    } else {
        &[]
    }
}

/// Returns the inputs of the function type in an operation's properties, or none.
fn inputs_of<'a>(ctx: &'a Context, node: &Node<'_>) -> &'a [TypeId]
    requires { NodeIsOf ctx.now node.now }
    ensures inputs { typed ctx.now result.now
        ≡ unwrap_or (option_map (λ f. fits.there f.0) (fits.function_type (node_in ctx.now node.now))) [] }
    ensures known { All (λ t. IsType ctx.now t) result.now }
{
    match function_type(ctx, node) {
        None => &[],
        Some(signature) => signature.inputs,
    }
}

/// Rule 2: the type of an operand doesn't satisfy its rule, or the first operand whose rule is `Number` isn't a number.
#[tactic(auto, unfolding(op_registry::specs::Registry::row_from))]
pub fn breaks_2(
    ctx: &Context,
    def: &OpDef,
    around: &OpContext<'_>,
    known: &ComparedTypes<'_>,
) -> bool
    requires around { AroundIsOf ctx.now around.now }
    requires known { AreKnownOf ctx.now def.now around.now known.now }
    ensures { result ≡ rules.breaks_2 (row_from def.now) (around_in ctx.now around.now) }
{
    is_no_number(ctx, known.number) || !types_fit(ctx, known, &def.operands, &around.types)
}

/// Returns whether there is a type, and it is neither a signless integer type nor `index`.
fn is_no_number(ctx: &Context, ty: Option<TypeId>) -> bool
    requires { IfSome ty (λ t. IsType ctx.now t) }
    ensures { result ≡ rules.is_no_number (option_map (type_term ctx.now) ty) }
{
    match ty {
        None => false,
        Some(ty) => !is_number(ctx, ty),
    }
}

/// Rule 4: the type of a result doesn't satisfy its rule.
#[tactic(auto, unfolding(op_registry::specs::Registry::row_from))]
pub fn breaks_4(
    ctx: &Context,
    def: &OpDef,
    around: &OpContext<'_>,
    known: &ComparedTypes<'_>,
) -> bool
    requires around { AroundIsOf ctx.now around.now }
    requires known { AreKnownOf ctx.now def.now around.now known.now }
    ensures { result ≡ rules.breaks_4 (row_from def.now) (around_in ctx.now around.now) }
{
    !types_fit(ctx, known, &def.results, around.node.results())
}

/// Rule 7: the argument types of a block don't satisfy their rules.
#[tactic(auto, unfolding(op_registry::specs::Registry::row_from))]
pub fn breaks_7(
    ctx: &Context,
    def: &OpDef,
    around: &OpContext<'_>,
    known: &ComparedTypes<'_>,
) -> bool
    requires around { AroundIsOf ctx.now around.now }
    requires known { AreKnownOf ctx.now def.now around.now known.now }
    ensures { result ≡ rules.breaks_7 (row_from def.now) (around_in ctx.now around.now) }
{
    any_differ(ctx, known, def.regions, &around.node)
}

/// Returns whether the argument types of the block of some region don't satisfy their rules.
fn any_differ(
    ctx: &Context,
    known: &ComparedTypes<'_>,
    regions: &[RegionRule],
    node: &Node<'_>,
) -> bool
    requires node { NodeIsOf ctx.now node.now }
    requires known { AreKnown ctx.now known.now }
    ensures { result ≡ rules.any_differ (known_in ctx.now known.now) (map region_row regions.now)
        (node_in ctx.now node.now) }
{
    let mut number = 0;
    let mut rest = regions;
    'regions: while let [region, tail @ ..] = rest {
        if arguments_differ(ctx, known, region, node, number) {
            return true;
        }
        number += 1;
        rest = tail;
    }
    false
}

/// Returns whether a region has a block whose argument types don't satisfy their rules.
fn arguments_differ(
    ctx: &Context,
    known: &ComparedTypes<'_>,
    region: &RegionRule,
    node: &Node<'_>,
    number: usize,
) -> bool
    requires node { NodeIsOf ctx.now node.now }
    requires known { AreKnown ctx.now known.now }
    ensures { result ≡ rules.arguments_differ (known_in ctx.now known.now) (region_row region.now)
        (fits.block_at number (node_in ctx.now node.now)) }
{
    match block(ctx, node, number) {
        None => false,
        Some(args) => !types_fit(ctx, known, &region.arguments, args),
    }
}

/// Rule 14: the value of a constant isn't of the type of its result.
pub fn breaks_14(ctx: &Context, around: &OpContext<'_>) -> bool
    requires { AroundIsOf ctx.now around.now }
    ensures { result ≡ rules.breaks_14 (around_in ctx.now around.now) }
{
    is_named(ctx, &around.node, Word::ArithConstant) && is_of_another(ctx, &around.node)
}

/// Returns whether the property `value` of an operation is an integer of a type other than its single result's.
fn is_of_another(ctx: &Context, node: &Node<'_>) -> bool
    requires { NodeIsOf ctx.now node.now }
    ensures { result ≡ rules.is_of_another
        (option_and_then integer_in (fits.property (word_bytes Word.Value) (node_in ctx.now node.now)))
        (map (type_term ctx.now) node.now.head.results) }
{
    let Some(ty) = value_type(ctx, node) else {
        return false;
    };
    let [result] = node.results() else {
        return false;
    };
    !same(ctx, ty, *result)
}

/// Returns the type of the value of a constant, if the value is an integer.
fn value_type(ctx: &Context, node: &Node<'_>) -> Option<TypeId>
    requires { NodeIsOf ctx.now node.now }
    ensures is { option_map (type_term ctx.now) result ≡ option_map (λ i. i.0)
        (option_and_then integer_in (fits.property (word_bytes Word.Value) (node_in ctx.now node.now))) }
    ensures known { IfSome result (λ t. IsType ctx.now t) }
{
    let attr = property(ctx, node, Word::Value)?;
    let (ty, _value) = integer_of(ctx, attr)?;
    Some(ty)
}

/// Rule 18: an extension isn't to a greater width, or a truncation isn't to a smaller one.
pub fn breaks_18(ctx: &Context, around: &OpContext<'_>) -> bool
    requires { AroundIsOf ctx.now around.now }
    ensures { result ≡ rules.breaks_18 (around_in ctx.now around.now) }
{
    if is_named(ctx, &around.node, Word::ArithTrunci) {
        return isnt_smaller(ctx, &around.types, around.node.results());
    }
    is_extension(ctx, &around.node) && isnt_greater(ctx, &around.types, around.node.results())
}

/// Returns whether an operation is a sign extension or a zero extension.
fn is_extension(ctx: &Context, node: &Node<'_>) -> bool
    ensures { result ≡ rules.is_extension (node_in ctx.now node.now) }
{
    is_named(ctx, node, Word::ArithExtsi) || is_named(ctx, node, Word::ArithExtui)
}

/// Returns whether the single operand and the single result have widths, and the result's isn't greater.
fn isnt_greater(ctx: &Context, operands: &[TypeId], results: &[TypeId]) -> bool
    requires operands { All (λ t. IsType ctx.now t) operands.now }
    requires results { All (λ t. IsType ctx.now t) results.now }
    ensures { result ≡ rules.isnt_greater (typed ctx.now operands.now) (map (type_term ctx.now) results.now) }
{
    match widths(ctx, operands, results) {
        None => false,
        Some((v, w)) => v >= w,
    }
}

/// Returns whether the single operand and the single result have widths, and the result's isn't smaller.
fn isnt_smaller(ctx: &Context, operands: &[TypeId], results: &[TypeId]) -> bool
    requires operands { All (λ t. IsType ctx.now t) operands.now }
    requires results { All (λ t. IsType ctx.now t) results.now }
    ensures { result ≡ rules.isnt_smaller (typed ctx.now operands.now) (map (type_term ctx.now) results.now) }
{
    match widths(ctx, operands, results) {
        None => false,
        Some((v, w)) => w >= v,
    }
}

/// Returns the widths of the single operand and the single result, if both are signless integers.
fn widths(ctx: &Context, operands: &[TypeId], results: &[TypeId]) -> Option<(u32, u32)>
    requires operands { All (λ t. IsType ctx.now t) operands.now }
    requires results { All (λ t. IsType ctx.now t) results.now }
    ensures { result ≡ rules.widths (typed ctx.now operands.now) (map (type_term ctx.now) results.now) }
{
    let [operand] = operands else {
        return None;
    };
    let [result] = results else {
        return None;
    };
    let v = width_of(ctx, *operand)?;
    let w = width_of(ctx, *result)?;
    Some((v, w))
}

/// Rule 19: not exactly one of the operand and the result of an index cast is `index`.
pub fn breaks_19(ctx: &Context, around: &OpContext<'_>) -> bool
    requires { AroundIsOf ctx.now around.now }
    ensures { result ≡ rules.breaks_19 (around_in ctx.now around.now) }
{
    is_index_cast(ctx, &around.node) && not_one_index(ctx, &around.types, around.node.results())
}

/// Returns whether an operation is a signed or unsigned cast between integers and `index`.
fn is_index_cast(ctx: &Context, node: &Node<'_>) -> bool
    ensures { result ≡ rules.is_index_cast (node_in ctx.now node.now) }
{
    is_named(ctx, node, Word::ArithIndexCast) || is_named(ctx, node, Word::ArithIndexCastui)
}

/// Returns whether both the single operand and the single result are `index`, or neither is.
fn not_one_index(ctx: &Context, operands: &[TypeId], results: &[TypeId]) -> bool
    requires operands { All (λ t. IsType ctx.now t) operands.now }
    requires results { All (λ t. IsType ctx.now t) results.now }
    ensures { result ≡ rules.not_one_index (typed ctx.now operands.now) (map (type_term ctx.now) results.now) }
{
    let [operand] = operands else {
        return false;
    };
    let [result] = results else {
        return false;
    };
    if is_index(ctx, *operand) {
        is_index(ctx, *result)
    } else {
        !is_index(ctx, *result)
    }
}
