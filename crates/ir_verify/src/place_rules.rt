//! The rules on the position of an operation.
ghost use Rattle.std.specs.Prelude.{◌≡◌, IfSome, Some, List, ℕ, [], ◌∷◌, map, drop, codes, option_and_then};
ghost use Rattle.std.specs.List.{All};
ghost use Rattle.std.specs.Option.{option_map};
ghost use Rattle.ir_types.specs.Things.{IsType};
ghost use Rattle.ir_types.specs.Terms.{name_term, type_term};
ghost use Rattle.ir_types.specs.WordNames.{word_bytes};
ghost use Rattle.op_registry.specs.declared.definition.Trait.TheVariants.{Terminator};
ghost use Rattle.op_registry.specs.Registry.{has_trait, row_from, row_of};
ghost use Rattle.ir_verify_base.specs.ParentContext.{ParentContext as Gathered};
ghost use Rattle.ir_verify_base.specs.events.Modules.{NodeIsOf};
ghost use Rattle.ir_verify_base.specs.Gathered.{AroundIsOf};
ghost use Rattle.ir_verify_base.specs.Numbers.{typed, node_in, outer_in, around_in};
ghost use Rattle.ir_verify_base.specs.Fits as fits;
ghost use Rattle.ir_verify.specs.PlaceRules as rules;

use ir_types::context::Context;
use ir_types::ids::{NameId, TypeId};
use ir_types::word::Word;
use ir_verify_base::node::{block, function_type, is_named};
use ir_verify_base::op_context::{OpContext, ParentContext};
use ir_verify_base::shapes::is_well_shaped;
use ir_verify_base::store::node::Node;
use ir_verify_base::types::same_types;
use op_registry::definition::{OpDef, Trait};
use op_registry::registry::Registry;

/// Rule 10: a terminator isn't the last operation of its block.
pub(crate) fn breaks_10(ctx: &Context, registry: &Registry, around: &OpContext<'_>) -> bool
    ensures { result ≡ rules.breaks_10 (around_in ctx.now around.now) }
{
    is_terminator(ctx, registry, &around.node) && is_inside(ctx, &around.outer)
}

fn is_terminator(ctx: &Context, registry: &Registry, node: &Node<'_>) -> bool
    ensures { result ≡ has_trait Terminator (node_in ctx.now node.now).head.name }
{
    ctx.sound();
    registry.has(node.name(), Trait::Terminator)
}

fn is_inside(_ctx: &Context, outer: &Option<ParentContext<'_>>) -> bool
    ensures { result ≡ rules.is_inside (option_map (outer_in _ctx.now) outer.now) }
{
    match outer {
        None => false,
        Some(outer) => outer.ended.is_none(),
    }
}

/// Rule 11: the parent of a terminator is listed, and its row doesn't allow the parent.
#[tactic(auto, unfolding(op_registry::specs::Registry::row_from))]
pub(crate) fn breaks_11(
    ctx: &Context,
    registry: &Registry,
    def: &OpDef,
    around: &OpContext<'_>,
) -> bool
    ensures { result ≡ rules.breaks_11 (row_from def.now) (around_in ctx.now around.now) }
{
    is_terminator(ctx, registry, &around.node) && has_other_parent(ctx, def.parents, &around.outer)
}

/// Rule 23: the parent of a function is listed and isn't a module.
pub(crate) fn breaks_23(ctx: &Context, around: &OpContext<'_>) -> bool
    ensures { result ≡ rules.breaks_23 (around_in ctx.now around.now) }
{
    is_named(ctx, &around.node, Word::FuncFunc)
        && has_other_parent(ctx, &[Word::BuiltinModule], &around.outer)
}

/// Returns whether the parent of an operation is listed and has none of these names.
fn has_other_parent(ctx: &Context, names: &[Word], outer: &Option<ParentContext<'_>>) -> bool
    ensures { result ≡ rules.has_other_parent (map word_bytes names.now) (option_map (outer_in ctx.now) outer.now) }
{
    match outer {
        None => false,
        Some(outer) => ctx.listed(outer.name) && !is_one(ctx, outer.name, names),
    }
}

fn is_one(ctx: &Context, name: NameId, names: &[Word]) -> bool
    ensures { result ≡ rules.is_one (name_term ctx.now name) (map word_bytes names.now) }
{
    let mut rest = names;
    while let [word, more @ ..] = rest {
        if ctx.is_word(name, *word) {
            return true;
        }
        rest = more;
    }
    false
}

/// Returns the operation whose block the operation ends, if that operation is well-shaped.
pub(crate) fn ended<'a>(
    ctx: &Context,
    registry: &Registry,
    around: &'a OpContext<'_>,
) -> Option<&'a Node<'a>>
    requires { AroundIsOf ctx.now around.now }
    ensures is { option_map (λ n. node_in ctx.now n.now) result ≡ rules.ended_of (around_in ctx.now around.now) }
    ensures known { IfSome result (λ n. NodeIsOf ctx.now n.now) }
{
    match &around.outer {
        None => None,
        Some(outer) => match &outer.ended {
            None => None,
            Some(node) => well_shaped(ctx, registry, node),
        },
    }
}

fn well_shaped<'a>(ctx: &Context, registry: &Registry, node: &'a Node<'a>) -> Option<&'a Node<'a>>
    requires { NodeIsOf ctx.now node.now }
    ensures is { option_map (λ n. node_in ctx.now n.now) result ≡ rules.well_shaped (node_in ctx.now node.now) }
    ensures known { IfSome result (λ n. NodeIsOf ctx.now n.now) }
{
    let def = definition(ctx, registry, node)?;
    if is_well_shaped(ctx, def, node) {
        Some(node)
    } else {
        None
    }
}

/// Returns the row of an operation, or `None` if it isn't listed.
pub(crate) fn definition<'a>(
    ctx: &Context,
    registry: &'a Registry,
    node: &Node<'_>,
) -> Option<&'a OpDef>
    ensures { option_map (λ def. row_from def.now) result ≡ row_of (node_in ctx.now node.now).head.name }
{
    ctx.sound();
    registry.get(node.name())
}

/// Rule 15: the operand types of a return at the end of a function differ from the function's result types.
pub(crate) fn breaks_15(ctx: &Context, around: &OpContext<'_>, ended: Option<&Node<'_>>) -> bool
    requires around { AroundIsOf ctx.now around.now }
    requires ended { option_map (λ n. node_in ctx.now n.now) ended ≡ rules.ended_of (around_in ctx.now around.now) }
    requires known { IfSome ended (λ n. NodeIsOf ctx.now n.now) }
    ensures { result ≡ rules.breaks_15 (around_in ctx.now around.now) }
{
    is_named(ctx, &around.node, Word::FuncReturn)
        && differ(ctx, returned(ctx, ended), &around.types)
}

/// Returns whether there are expected types, and the types differ from them.
fn differ(ctx: &Context, wanted: Option<&[TypeId]>, types: &[TypeId]) -> bool
    requires wanted { IfSome wanted (λ ts. All (λ t. IsType ctx.now t) ts.now) }
    requires types { All (λ t. IsType ctx.now t) types.now }
    ensures { result ≡ rules.differ (option_map (λ ts. typed ctx.now ts.now) wanted.entry) (typed ctx.now types.now) }
{
    match wanted {
        None => false,
        Some(wanted) => !same_types(ctx, wanted, types),
    }
}

/// Returns the types that a function returns.
fn returned<'a>(ctx: &'a Context, parent: Option<&Node<'_>>) -> Option<&'a [TypeId]>
    requires { IfSome parent (λ n. NodeIsOf ctx.now n.now) }
    ensures is { option_map (λ ts. typed ctx.now ts.now) result
        ≡ option_and_then rules.returned (option_map (λ n. node_in ctx.now n.now) parent.entry) }
    ensures known { IfSome result (λ ts. All (λ t. IsType ctx.now t) ts.now) }
{
    let parent = parent?;
    if !is_named(ctx, parent, Word::FuncFunc) {
        return None;
    }
    let signature = function_type(ctx, parent)?;
    Some(signature.outputs)
}

/// Rule 16: the operand types of a yield at the end of a block differ from the expected ones.
pub(crate) fn breaks_16(ctx: &Context, around: &OpContext<'_>, ended: Option<&Node<'_>>) -> bool
    requires around { AroundIsOf ctx.now around.now }
    requires ended { option_map (λ n. node_in ctx.now n.now) ended ≡ rules.ended_of (around_in ctx.now around.now) }
    requires known { IfSome ended (λ n. NodeIsOf ctx.now n.now) }
    ensures { result ≡ rules.breaks_16 (around_in ctx.now around.now) }
{
    is_named(ctx, &around.node, Word::ScfYield) && differ(ctx, yielded(ctx, ended), &around.types)
}

/// Returns the operand types that an operation expects of a yield.
fn yielded<'a>(ctx: &Context, parent: Option<&'a Node<'_>>) -> Option<&'a [TypeId]>
    requires { IfSome parent (λ n. NodeIsOf ctx.now n.now) }
    ensures is { option_map (λ ts. typed ctx.now ts.now) result
        ≡ option_and_then rules.yielded (option_map (λ n. node_in ctx.now n.now) parent.entry) }
    ensures known { IfSome result (λ ts. All (λ t. IsType ctx.now t) ts.now) }
{
    let parent = parent?;
    if is_named(ctx, parent, Word::ScfWhile) {
        return block(ctx, parent, 0);
    }
    if is_named(ctx, parent, Word::ScfFor) || is_named(ctx, parent, Word::ScfIf) {
        return Some(parent.results());
    }
    None
}

/// Rule 17: the operand types after the first, of a condition at the end of a block, differ from the expected ones.
pub(crate) fn breaks_17(ctx: &Context, around: &OpContext<'_>, ended: Option<&Node<'_>>) -> bool
    requires around { AroundIsOf ctx.now around.now }
    requires ended { option_map (λ n. node_in ctx.now n.now) ended ≡ rules.ended_of (around_in ctx.now around.now) }
    requires known { IfSome ended (λ n. NodeIsOf ctx.now n.now) }
    ensures { result ≡ rules.breaks_17 (around_in ctx.now around.now) }
{
    is_named(ctx, &around.node, Word::ScfCondition)
        && differ(ctx, passed(ctx, ended), after_first(&around.types))
}

/// Returns the operand types that a while loop expects of a condition.
fn passed<'a>(ctx: &Context, parent: Option<&'a Node<'_>>) -> Option<&'a [TypeId]>
    requires { IfSome parent (λ n. NodeIsOf ctx.now n.now) }
    ensures is { option_map (λ ts. typed ctx.now ts.now) result
        ≡ option_and_then rules.passed (option_map (λ n. node_in ctx.now n.now) parent.entry) }
    ensures known { IfSome result (λ ts. All (λ t. IsType ctx.now t) ts.now) }
{
    let parent = parent?;
    if is_named(ctx, parent, Word::ScfWhile) {
        Some(parent.results())
    } else {
        None
    }
}

fn after_first(types: &[TypeId]) -> &[TypeId]
    ensures { result.now ≡ drop 1 types.now }
{
    match types {
        [] => &[],
        [_, more @ ..] => more,
    }
}
