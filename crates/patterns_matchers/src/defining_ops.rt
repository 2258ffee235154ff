//! Reads the verified defining operations of values, by their names.
ghost use Rattle.std.specs.Prelude.{◌≡◌, IfOk, IfSome, option_map};
ghost use Rattle.ir_event.specs.types.Things.{IsName};
ghost use Rattle.ir_event.specs.types.Terms.{name_term};
ghost use Rattle.ir_event.specs.Modules.{NodeIsOf, module_in};
ghost use Rattle.patterns_laws.specs.Words.{extensions};
ghost use Rattle.patterns_base.specs.Casting.{resizing};
ghost use Rattle.patterns_base.specs.Looks.{source, source_among};
ghost use Rattle.patterns_matchers.specs.Reads.{header_of_node};

use crate::constants::verified_defining_op;
use crate::nodes::defining_op;
use crate::op_names::{is_extension, is_integer_cast, is_same_name};
use ir_event::store::node::Node;
use ir_event::trees::value::Value;
use ir_event::types::ids::NameId;
use ir_event::world::World;
use std::alloc::{AllocError, Global};

/// Returns the defining operation of `value`, if it is verified and has this name. Otherwise returns `None`.
pub fn defining_op_named<'a>(
    alloc: Global,
    world: &'a World,
    name: NameId,
    value: &Value,
) -> Result<Option<Node<'a>>, AllocError>
    requires { IsName world.now.ctx name }
    ensures node { IfOk result (λ n. option_map (header_of_node world.now.ctx) n
        ≡ source (module_in world.now).tree (name_term world.now.ctx name) value.now) }
    ensures of { IfOk result (λ n. IfSome n (NodeIsOf world.now.ctx)) }
{
    let Some(defining) = defining_op(world, value) else {
        return Ok(None);
    };
    if !is_same_name(&world.ctx, defining.name(), name) {
        return Ok(None);
    }
    let node = verified_defining_op(alloc, world, value)?;
    Ok(node)
}

/// Returns the defining operation of `value`, if it is a verified extension. Otherwise returns `None`.
pub fn defining_extension<'a>(
    alloc: Global,
    world: &'a World,
    value: &Value,
) -> Result<Option<Node<'a>>, AllocError>
    ensures node { IfOk result (λ n. option_map (header_of_node world.now.ctx) n
        ≡ source_among (module_in world.now).tree extensions value.now) }
    ensures of { IfOk result (λ n. IfSome n (NodeIsOf world.now.ctx)) }
{
    let Some(defining) = defining_op(world, value) else {
        return Ok(None);
    };
    if !is_extension(&world.ctx, defining.name()) {
        return Ok(None);
    }
    let node = verified_defining_op(alloc, world, value)?;
    Ok(node)
}

/// Returns the defining operation of `value`, if it is a verified cast between integers. Otherwise returns `None`.
pub fn defining_integer_cast<'a>(
    alloc: Global,
    world: &'a World,
    value: &Value,
) -> Result<Option<Node<'a>>, AllocError>
    ensures node { IfOk result (λ n. option_map (header_of_node world.now.ctx) n
        ≡ source_among (module_in world.now).tree resizing value.now) }
    ensures of { IfOk result (λ n. IfSome n (NodeIsOf world.now.ctx)) }
{
    let Some(defining) = defining_op(world, value) else {
        return Ok(None);
    };
    if !is_integer_cast(&world.ctx, defining.name()) {
        return Ok(None);
    }
    let node = verified_defining_op(alloc, world, value)?;
    Ok(node)
}
