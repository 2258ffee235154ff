//! Reads the constants that define values.
ghost use Rattle.std.specs.Prelude.{◌≡◌, IfOk, IfSome, option_map};
ghost use Rattle.patterns_base.specs.events.Modules.{NodeIsOf, module_in};
ghost use Rattle.dialects_int.specs.Folds.{known_of};
ghost use Rattle.ir_event.specs.types.WordNames.{word_bytes};
ghost use Rattle.patterns_base.specs.Looks.{constant_value, is_known, is_number, known, source};
ghost use Rattle.patterns_matchers.specs.Reads.{verified_defining_op, header_of_node};

use crate::nodes::{defining_op, op_node};
use crate::trivially_verified::constant_bits_of_node;
use crate::verified::is_verified_node;
use dialects_int::fold::fold;
use ir_event::store::node::Node;
use ir_event::trees::value::Value;
use ir_event::types::bits::Bits;
use ir_event::types::context::Context;
use ir_event::types::word::Word;
use patterns_base::events::world::World;
use std::alloc::{AllocError, Global};

/// Returns the bits of a constant. `node` is what the store shows of the operation.
fn constant_bits(ctx: &Context, node: &Node<'_>) -> Option<Bits>
    requires of { NodeIsOf ctx.now node.now }
    ensures { known_of result ≡ constant_value (header_of_node ctx.now node.now) }
{
    fold(ctx, node.name(), node.properties(), &[], node.results())
}

/// Returns the defining operation of `value`, or `None` if it has none or the operation isn't verified.
pub fn verified_defining_op<'a>(
    alloc: Global,
    world: &'a World,
    value: &Value,
) -> Result<Option<Node<'a>>, AllocError>
    ensures node { IfOk result (λ n. option_map (header_of_node world.now.ctx) n
        ≡ verified_defining_op (module_in world.now).tree value.now) }
    ensures of { IfOk result (λ n. IfSome n (NodeIsOf world.now.ctx)) }
{
    let Value::Result(op, _) = value else {
        return Ok(None);
    };
    let Some(node) = op_node(world, *op) else {
        return Ok(None);
    };
    if !is_verified_node(alloc, world, *op, &node)? {
        return Ok(None);
    }
    Ok(Some(node))
}

/// Returns the defining operation of `value`, if it is verified and its name is `word`. Otherwise returns `None`.
pub fn named_defining_op<'a>(
    alloc: Global,
    world: &'a World,
    word: Word,
    value: &Value,
) -> Result<Option<Node<'a>>, AllocError>
    ensures node { IfOk result (λ n. option_map (header_of_node world.now.ctx) n
        ≡ source (module_in world.now).tree (word_bytes word) value.now) }
    ensures of { IfOk result (λ n. IfSome n (NodeIsOf world.now.ctx)) }
{
    let Some(defining) = defining_op(world, value) else {
        return Ok(None);
    };
    if !world.ctx.is_word(defining.name(), word) {
        return Ok(None);
    }
    let node = verified_defining_op(alloc, world, value)?;
    Ok(node)
}

/// Returns the bits of the verified constant that defines `value`, or `None` if there is none.
pub fn constant_value(
    alloc: Global,
    world: &World,
    value: &Value,
) -> Result<Option<Bits>, AllocError>
    ensures { IfOk result (λ k. known_of k ≡ known (module_in world.now).tree value.now) }
{
    let op = match value {
        Value::Result(op, _) => *op,
        Value::Arg(..) => return Ok(None),
    };
    let Some(node) = op_node(world, op) else {
        return Ok(None);
    };
    if let Some(bits) = constant_bits_of_node(&world.ctx, &node) {
        return Ok(Some(bits));
    }
    if !world.ctx.is_word(node.name(), Word::ArithConstant) {
        return Ok(None);
    }
    if !is_verified_node(alloc, world, op, &node)? {
        return Ok(None);
    }
    Ok(constant_bits(&world.ctx, &node))
}

/// Returns whether a verified constant defines `value`.
pub fn is_known(alloc: Global, world: &World, value: &Value) -> Result<bool, AllocError>
    ensures { IfOk result (λ b. b ≡ is_known (module_in world.now).tree value.now) }
{
    match constant_value(alloc, world, value)? {
        Some(_) => Ok(true),
        None => Ok(false),
    }
}

/// Returns whether a verified constant with the bits `number` defines `value`.
pub fn is_number(
    alloc: Global,
    world: &World,
    number: u128,
    value: &Value,
) -> Result<bool, AllocError>
    ensures { IfOk result (λ b. b ≡ is_number (module_in world.now).tree number value.now) }
{
    match constant_value(alloc, world, value)? {
        Some(bits) => Ok(bits.value == number),
        None => Ok(false),
    }
}
