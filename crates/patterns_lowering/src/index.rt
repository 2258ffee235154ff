//! Finds the types and the values of a module that are of type index.
ghost use Rattle.std.specs.Prelude.{◌≡◌, IfOk, true, map};
ghost use Rattle.std.specs.List.{list_all};
ghost use Rattle.ir_event.specs.types.Things.{IsType};
ghost use Rattle.ir_event.specs.types.Terms.{type_term};
ghost use Rattle.ir_event.specs.trees.Meaning.{is_type};
ghost use Rattle.ir_event.specs.Modules.{module_in};
ghost use Rattle.patterns_soundness.specs.base.Looks.{is_index, is_index_value};
ghost use Rattle.patterns_soundness.specs.base.Lowering.{indices};

use ir_event::trees::value::Value;
use ir_event::types::context::Context;
use ir_event::types::ids::TypeId;
use ir_event::world::World;
use ir_verify_base::types;
use std::alloc::{AllocError, Global};

/// Returns whether a type is index.
#[tactic(auto, using(crate::proofs::Typed::index_is))]
pub(crate) fn is_index(ctx: &Context, ty: TypeId) -> bool
    requires { IsType ctx.now ty }
    ensures { result ≡ is_index (type_term ctx.now ty) }
{
    types::is_index(ctx, ty)
}

/// Returns whether a value of the module has type index.
fn is_index_value(world: &World, value: &Value) -> bool
    ensures { result ≡ is_index_value (module_in world.now).tree value.now }
{
    let Some(ty) = world.store.value_type(*value) else {
        return false;
    };
    is_index(&world.ctx, ty)
}

/// Returns for each type whether it is index.
pub(crate) fn indices(
    alloc: Global,
    ctx: &Context,
    types: &[TypeId],
) -> Result<Vec<bool>, AllocError>
    requires { list_all (is_type ctx.now) types.now ≡ true }
    ensures { IfOk result (λ ms. ms.items ≡ indices (map (type_term ctx.now) types.now)) }
{
    let mut marks = Vec::new(alloc);
    let mut rest = types;
    'types: while let [ty, tail @ ..] = rest {
        marks.push(is_index(ctx, *ty))?;
        rest = tail;
    }
    Ok(marks)
}

/// Returns for each value of the module whether it has type index.
pub(crate) fn index_values(
    alloc: Global,
    world: &World,
    values: &[Value],
) -> Result<Vec<bool>, AllocError>
    ensures { IfOk result (λ ms. ms.items ≡ map (is_index_value (module_in world.now).tree) values.now) }
{
    let mut marks = Vec::new(alloc);
    let mut rest = values;
    'values: while let [value, tail @ ..] = rest {
        marks.push(is_index_value(world, value))?;
        rest = tail;
    }
    Ok(marks)
}
