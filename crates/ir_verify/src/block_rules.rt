//! The rules on the blocks of a well-shaped operation.
ghost use Rattle.std.specs.Prelude.{◌≡◌, ◌==◌, Some, map, length, not, slice_get, option_and_then};
ghost use Rattle.std.specs.Option.{option_map};
ghost use Rattle.ir_types.specs.Terms.{name_term};
ghost use Rattle.ir_types.specs.WordNames.{word_bytes};
ghost use Rattle.op_registry.specs.Registry.{region_row, row_from};
ghost use Rattle.op_registry.specs.Properties.{string_of as string_in};
ghost use Rattle.ir_verify_base.specs.events.Modules.{NodeIsOf};
ghost use Rattle.ir_verify_base.specs.Gathered.{AroundIsOf};
ghost use Rattle.ir_verify_base.specs.Numbers.{node_in, around_in};
ghost use Rattle.ir_verify_base.specs.Fits as fits;
ghost use Rattle.ir_verify.specs.BlockRules as rules;

use ir_types::context::Context;
use ir_types::ids::NameId;
use ir_types::word::Word;
use ir_verify_base::node::{has_block, is_named, property};
use ir_verify_base::op_context::OpContext;
use ir_verify_base::properties::string_of;
use ir_verify_base::store::node::Node;
use op_registry::definition::{OpDef, RegionRule, Trait};
use op_registry::registry::Registry;

/// Returns the name of the last operation in the block of a region.
fn last(ctx: &Context, around: &OpContext<'_>, region: usize) -> Option<NameId>
    ensures { option_map (name_term ctx.now) result ≡ rules.last_at region (around_in ctx.now around.now) }
{
    last_of(ctx, &around.lasts, region)
}

fn last_of(_ctx: &Context, lasts: &[Option<NameId>], region: usize) -> Option<NameId>
    ensures { option_map (name_term _ctx.now) result
        ≡ option_and_then (λ last. last) (slice_get (map (option_map (name_term _ctx.now)) lasts.now) region) }
{
    match lasts.get(region) {
        None => None,
        Some(last) => *last,
    }
}

/// Rule 6: a region that must have a block has none.
#[tactic(auto, unfolding(op_registry::specs::Registry::row_from))]
pub(crate) fn breaks_6(ctx: &Context, def: &OpDef, around: &OpContext<'_>) -> bool
    requires { AroundIsOf ctx.now around.now }
    ensures { result ≡ rules.breaks_6 (row_from def.now) (around_in ctx.now around.now) }
{
    any_without(ctx, def.regions, &around.node)
}

fn any_without(ctx: &Context, regions: &[RegionRule], node: &Node<'_>) -> bool
    requires { NodeIsOf ctx.now node.now }
    ensures { result ≡ fits.any_region (rules.is_without (node_in ctx.now node.now)) (map region_row regions.now) }
{
    let mut number = 0;
    let mut rest = regions;
    'regions: while let [region, tail @ ..] = rest {
        if is_without(ctx, region, node, number) {
            return true;
        }
        number += 1;
        rest = tail;
    }
    false
}

fn is_without(ctx: &Context, region: &RegionRule, node: &Node<'_>, number: usize) -> bool
    requires { NodeIsOf ctx.now node.now }
    ensures { result ≡ rules.is_without (node_in ctx.now node.now) number (region_row region.now) }
{
    !region.may_be_empty && !has_block(ctx, node, number)
}

/// Rule 8: the block of a function is empty, or its last operation is listed and isn't a terminator.
pub(crate) fn breaks_8(ctx: &Context, registry: &Registry, around: &OpContext<'_>) -> bool
    requires { AroundIsOf ctx.now around.now }
    ensures { result ≡ rules.breaks_8 (around_in ctx.now around.now) }
{
    is_named(ctx, &around.node, Word::FuncFunc)
        && has_block(ctx, &around.node, 0)
        && ends_badly(ctx, registry, last(ctx, around, 0))
}

fn ends_badly(ctx: &Context, registry: &Registry, last: Option<NameId>) -> bool
    ensures { result ≡ rules.ends_badly (option_map (name_term ctx.now) last) }
{
    match last {
        None => true,
        Some(name) => is_listed_and_ends_none(ctx, registry, name),
    }
}

fn is_listed_and_ends_none(ctx: &Context, registry: &Registry, name: NameId) -> bool
    ensures { result ≡ rules.ends_badly (Some (name_term ctx.now name)) }
{
    ctx.sound();
    ctx.listed(name) && !registry.has(name, Trait::Terminator)
}

/// Rule 9: the block is empty, or its last operation isn't the required terminator.
pub(crate) fn breaks_9(ctx: &Context, around: &OpContext<'_>) -> bool
    requires { AroundIsOf ctx.now around.now }
    ensures { result ≡ rules.breaks_9 (around_in ctx.now around.now) }
{
    if is_named(ctx, &around.node, Word::ScfWhile) {
        return ends_otherwise(ctx, around, 0, Word::ScfCondition)
            || ends_otherwise(ctx, around, 1, Word::ScfYield);
    }
    if is_named(ctx, &around.node, Word::ScfIf) {
        return ends_otherwise(ctx, around, 0, Word::ScfYield)
            || ends_otherwise(ctx, around, 1, Word::ScfYield);
    }
    is_named(ctx, &around.node, Word::ScfFor) && ends_otherwise(ctx, around, 0, Word::ScfYield)
}

fn ends_otherwise(ctx: &Context, around: &OpContext<'_>, region: usize, wanted: Word) -> bool
    requires { AroundIsOf ctx.now around.now }
    ensures { result ≡ rules.ends_otherwise region (word_bytes wanted) (around_in ctx.now around.now) }
{
    has_block(ctx, &around.node, region) && isnt_required(ctx, last(ctx, around, region), wanted)
}

fn isnt_required(ctx: &Context, last: Option<NameId>, wanted: Word) -> bool
    ensures { result ≡ rules.isnt_required (word_bytes wanted) (option_map (name_term ctx.now) last) }
{
    match last {
        None => true,
        Some(name) => !ctx.is_word(name, wanted),
    }
}

/// Rule 21: an `scf.if` with results has no second block.
pub(crate) fn breaks_21(ctx: &Context, around: &OpContext<'_>) -> bool
    requires { AroundIsOf ctx.now around.now }
    ensures { result ≡ rules.breaks_21 (around_in ctx.now around.now) }
{
    is_named(ctx, &around.node, Word::ScfIf)
        && has_results(ctx, &around.node)
        && !has_block(ctx, &around.node, 1)
}

fn has_results(_ctx: &Context, node: &Node<'_>) -> bool
    ensures { result ≡ not (length (node_in _ctx.now node.now).head.results == 0) }
{
    node.results().len() != 0
}

/// Rule 22: a function without a block is public: it has no visibility, or its visibility is `public`.
pub(crate) fn breaks_22(ctx: &Context, around: &OpContext<'_>) -> bool
    requires { AroundIsOf ctx.now around.now }
    ensures { result ≡ rules.breaks_22 (around_in ctx.now around.now) }
{
    is_named(ctx, &around.node, Word::FuncFunc)
        && !has_block(ctx, &around.node, 0)
        && is_public(ctx, visibility(ctx, &around.node))
}

fn is_public(ctx: &Context, visibility: Option<NameId>) -> bool
    ensures { result ≡ rules.is_public (option_map (name_term ctx.now) visibility) }
{
    match visibility {
        None => true,
        Some(name) => ctx.is_word(name, Word::Public),
    }
}

/// Returns the visibility of a symbol, if it has one (Symbols and Symbol Tables, "Symbol Visibility").
fn visibility(ctx: &Context, node: &Node<'_>) -> Option<NameId>
    requires { NodeIsOf ctx.now node.now }
    ensures { option_map (name_term ctx.now) result
        ≡ option_and_then string_in (fits.property (word_bytes Word.SymVisibility) (node_in ctx.now node.now)) }
{
    string_of(ctx, property(ctx, node, Word::SymVisibility)?)
}
