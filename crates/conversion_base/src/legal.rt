//! The legality of operations for a target.
ghost use Rattle.std.specs.Prelude.{◌≡◌, ◌≤◌, length, map, option_and_then, slice_get};
ghost use Rattle.std.specs.List.{All, list_any};
ghost use Rattle.ir_event.specs.types.Things.{IsName, IsType};
ghost use Rattle.ir_event.specs.types.Terms.{name_term, type_term};
ghost use Rattle.ir_event.specs.Modules.{NodeIsOf, module_in, node_meaning};
ghost use Rattle.patterns_base.specs.Looks.{is_index, is_index_value};
ghost use Rattle.patterns_base.specs.Words.{among};
ghost use Rattle.conversion_base.specs.Targets.{IsNamedIn, target_model, has_index, index_argument, is_legal, is_legal_node};
ghost use Rattle.conversion_base.specs.Targets.{names_of};

use crate::target::Target;
use crate::target_checks::is_among;
use ir_event::store::node::Node;
use ir_event::trees::value::Value;
use ir_event::types::context::Context;
use ir_event::types::ids::{NameId, OpId, TypeId};
use ir_event::types::word::Word;
use ir_event::world::World;
use ir_verify_base::types;

/// Returns whether a type is `index`.
pub(crate) fn is_index(ctx: &Context, ty: TypeId) -> bool
    requires { IsType ctx.now ty }
    ensures { result ≡ is_index (type_term ctx.now ty) }
{
    types::is_index(ctx, ty)
}

/// Returns whether any of some types is `index`.
fn any_index(ctx: &Context, types: &[TypeId]) -> bool
    requires { All (IsType ctx.now) types.now }
    ensures { result ≡ list_any is_index (map (type_term ctx.now) types.now) }
{
    let mut rest = types;
    'types: while let [ty, tail @ ..] = rest {
        if is_index(ctx, *ty) {
            return true;
        }
        rest = tail;
    }
    false
}

/// Returns whether a value of the module has type `index`.
pub(crate) fn is_index_value(world: &World, value: &Value) -> bool
    ensures { result ≡ is_index_value (module_in world.now).tree value.now }
{
    match world.store.value_type(*value) {
        Some(ty) => is_index(&world.ctx, ty),
        None => false,
    }
}

/// Returns whether any of some values of the module has type `index`.
fn any_index_value(world: &World, values: &[Value]) -> bool
    ensures { result ≡ list_any (is_index_value (module_in world.now).tree) values.now }
{
    let mut rest = values;
    'values: while let [value, tail @ ..] = rest {
        if is_index_value(world, value) {
            return true;
        }
        rest = tail;
    }
    false
}

/// Returns whether the block of a region of an operation has an argument of type `index`.
fn has_index_argument(ctx: &Context, node: &Node<'_>, region: u32) -> bool
    requires of { NodeIsOf ctx.now node.now }
    ensures { result ≡ index_argument
        (option_and_then (λ a. a) (slice_get (node_meaning ctx.now node.now).arguments region)) }
{
    match node.arguments(region as usize) {
        Some(types) => any_index(ctx, types),
        None => false,
    }
}

/// Returns whether the block of any region of an operation has an argument of type `index`.
fn any_index_argument(ctx: &Context, node: &Node<'_>) -> bool
    requires of { NodeIsOf ctx.now node.now }
    requires few { length node.now.arguments ≤ 16 }
    ensures { result ≡ list_any index_argument (node_meaning ctx.now node.now).arguments }
{
    let count = node.region_count();
    let mut region = 0;
    'regions: while (region as usize) < count {
        if has_index_argument(ctx, node, region) {
            return true;
        }
        region += 1;
    }
    false
}

/// Returns whether an operation of the module has an operand, a result or a block argument of type `index`.
fn has_index(world: &World, node: &Node<'_>) -> bool
    requires of { NodeIsOf world.now.ctx node.now }
    requires few { length node.now.arguments ≤ 16 }
    ensures { result ≡ has_index (module_in world.now).tree (node_meaning world.now.ctx node.now) }
{
    any_index_value(world, node.operands())
        || any_index(&world.ctx, node.results())
        || any_index_argument(&world.ctx, node)
}

/// Returns whether a target lists an operation name.
fn is_named(ctx: &Context, target: &Target, name: NameId) -> bool
    requires names { IsNamedIn ctx.now target.now }
    requires name { IsName ctx.now name }
    ensures { result ≡ among (names_of (target_model ctx.now target.now)) (name_term ctx.now name) }
{
    is_among(ctx, &target.legal, name)
        || is_among(ctx, &target.illegal, name)
        || is_among(ctx, &target.dynamic, name)
}

/// Returns whether an operation of the module is legal for a target.
fn is_legal_node(world: &World, target: &Target, node: &Node<'_>) -> bool
    requires names { IsNamedIn world.now.ctx target.now }
    requires of { NodeIsOf world.now.ctx node.now }
    requires few { length node.now.arguments ≤ 16 }
    ensures { result ≡ is_legal_node (target_model world.now.ctx target.now) (module_in world.now).tree
        (node_meaning world.now.ctx node.now) }
{
    let ctx = &world.ctx;
    let name = node.name();
    ctx.is_word(name, Word::BuiltinUnrealizedConversionCast)
        || is_among(ctx, &target.legal, name)
        || is_among(ctx, &target.dynamic, name) && !has_index(world, node)
        || !target.full && !is_named(ctx, target, name)
}

/// Returns whether `op` is in the module and is legal for `target`.
pub fn is_legal(world: &World, target: &Target, op: OpId) -> bool
    requires names { IsNamedIn world.now.ctx target.now }
    ensures { result ≡ is_legal (target_model world.now.ctx target.now) op (module_in world.now).tree }
{
    let Some(node) = world.shown(op) else {
        return false;
    };
    is_legal_node(world, target, &node)
}
