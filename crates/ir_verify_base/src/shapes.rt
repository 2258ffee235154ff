//! The rules on an operation's own form: counts and properties.
ghost use Rattle.std.specs.Prelude.{◌≡◌, map};
ghost use Rattle.std.specs.List.{list_any};
ghost use Rattle.ir_types.specs.Things.{ContextModel};
ghost use Rattle.op_registry.specs.Registry.{property_row, row_from};
ghost use Rattle.listeners_support.specs.events.Modules.{NodeIsOf};
ghost use Rattle.ir_verify_base.specs.Numbers.{node_in};
ghost use Rattle.ir_verify_base.specs.Shapes as shapes;

use crate::fits::count_fits;
use crate::node::property;
use ir_types::context::Context;
use listeners_support::node::Node;
use op_registry::definition::{OpDef, Property};
use op_registry::property::allows;

/// Returns the number of operands after the fixed ones.
#[tactic(auto, unfolding(op_registry::specs::Registry::row_from))]
fn initial_count(def: &OpDef, node: &Node<'_>) -> usize
    ensures { (c : ContextModel) → result ≡ shapes.initial_count (row_from def.now) (node_in c node.now) }
{
    let count = node.operands().len();
    count.saturating_sub(def.operands.first.len())
}

/// Rule 1: the row doesn't allow the number of operands.
pub fn breaks_1(_ctx: &Context, def: &OpDef, node: &Node<'_>) -> bool
    ensures { result ≡ shapes.breaks_1 (row_from def.now) (node_in _ctx.now node.now) }
{
    let initial = initial_count(def, node);
    !count_fits(initial, &def.operands, node.operands().len())
}

/// Rule 3: the row doesn't allow the number of results.
pub fn breaks_3(_ctx: &Context, def: &OpDef, node: &Node<'_>) -> bool
    ensures { result ≡ shapes.breaks_3 (row_from def.now) (node_in _ctx.now node.now) }
{
    let initial = initial_count(def, node);
    !count_fits(initial, &def.results, node.results().len())
}

/// Rule 5: the number of regions isn't the row's number.
#[tactic(auto, unfolding(op_registry::specs::Registry::row_from))]
pub fn breaks_5(_ctx: &Context, def: &OpDef, node: &Node<'_>) -> bool
    ensures { result ≡ shapes.breaks_5 (row_from def.now) (node_in _ctx.now node.now) }
{
    node.region_count() != def.regions.len()
}

/// Rule 12: a property that the row requires is missing.
#[tactic(auto, unfolding(op_registry::specs::Registry::row_from))]
pub fn breaks_12(ctx: &Context, def: &OpDef, node: &Node<'_>) -> bool
    requires { NodeIsOf ctx.now node.now }
    ensures { result ≡ shapes.breaks_12 (row_from def.now) (node_in ctx.now node.now) }
{
    any_missing(ctx, def.properties, node)
}

/// Returns whether the operation lacks one of the properties that is required.
fn any_missing(ctx: &Context, properties: &[Property], node: &Node<'_>) -> bool
    requires { NodeIsOf ctx.now node.now }
    ensures { result ≡ list_any (shapes.is_missing (node_in ctx.now node.now)) (map property_row properties.now) }
{
    let mut rest = properties;
    while let [wanted, tail @ ..] = rest {
        if is_missing(ctx, wanted, node) {
            return true;
        }
        rest = tail;
    }
    false
}

/// Returns whether the operation lacks the property and it is required.
fn is_missing(ctx: &Context, wanted: &Property, node: &Node<'_>) -> bool
    requires { NodeIsOf ctx.now node.now }
    ensures { result ≡ shapes.is_missing (node_in ctx.now node.now) (property_row wanted.now) }
{
    wanted.required && property(ctx, node, wanted.key).is_none()
}

/// Rule 13: a property of the row is of the wrong kind.
#[tactic(auto, unfolding(op_registry::specs::Registry::row_from))]
pub fn breaks_13(ctx: &Context, def: &OpDef, node: &Node<'_>) -> bool
    requires { NodeIsOf ctx.now node.now }
    ensures { result ≡ shapes.breaks_13 (row_from def.now) (node_in ctx.now node.now) }
{
    any_wrong(ctx, def.properties, node)
}

/// Returns whether one of the properties is present and isn't of the kind that its key requires.
fn any_wrong(ctx: &Context, properties: &[Property], node: &Node<'_>) -> bool
    requires { NodeIsOf ctx.now node.now }
    ensures { result ≡ list_any (shapes.is_wrong (node_in ctx.now node.now)) (map property_row properties.now) }
{
    let mut rest = properties;
    while let [given, tail @ ..] = rest {
        if is_wrong(ctx, given, node) {
            return true;
        }
        rest = tail;
    }
    false
}

/// Returns whether the property is present and isn't of the kind that its key requires.
#[tactic(auto, using(crate::proofs::Words::word_named))]
fn is_wrong(ctx: &Context, given: &Property, node: &Node<'_>) -> bool
    requires { NodeIsOf ctx.now node.now }
    ensures { result ≡ shapes.is_wrong (node_in ctx.now node.now) (property_row given.now) }
{
    ctx.sound();
    match property(ctx, node, given.key) {
        None => false,
        Some(attr) => !allows(ctx, given.key.id(), attr),
    }
}

/// Returns whether the row doesn't allow the number of operands, results or regions.
fn has_wrong_counts(ctx: &Context, def: &OpDef, node: &Node<'_>) -> bool
    ensures { result ≡ shapes.has_wrong_counts (row_from def.now) (node_in ctx.now node.now) }
{
    breaks_1(ctx, def, node) || breaks_3(ctx, def, node) || breaks_5(ctx, def, node)
}

/// Returns whether the operation lacks a required property, or a property of the row is of the wrong kind.
fn has_wrong_properties(ctx: &Context, def: &OpDef, node: &Node<'_>) -> bool
    requires { NodeIsOf ctx.now node.now }
    ensures { result ≡ shapes.has_wrong_properties (row_from def.now) (node_in ctx.now node.now) }
{
    breaks_12(ctx, def, node) || breaks_13(ctx, def, node)
}

/// Returns whether the operation is well-shaped: its counts and its properties are those of its row.
pub fn is_well_shaped(ctx: &Context, def: &OpDef, node: &Node<'_>) -> bool
    requires { NodeIsOf ctx.now node.now }
    ensures { result ≡ shapes.is_well_shaped (row_from def.now) (node_in ctx.now node.now) }
{
    !(has_wrong_counts(ctx, def, node) || has_wrong_properties(ctx, def, node))
}
