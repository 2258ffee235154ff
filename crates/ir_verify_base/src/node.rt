//! The parts of an operation that the rules read.
ghost use Rattle.std.specs.Prelude.{◌≡◌, IfSome, map, is_some};
ghost use Rattle.std.specs.List.{All};
ghost use Rattle.std.specs.Option.{option_map};
ghost use Rattle.ir_types.specs.Things.{IsAttr, IsType};
ghost use Rattle.ir_types.specs.Terms.{attr_term, type_term};
ghost use Rattle.ir_types.specs.WordNames.{word_bytes};
ghost use Rattle.listeners_support.specs.events.Modules.{NodeIsOf};
ghost use Rattle.ir_verify_base.specs.Numbers.{node_in};
ghost use Rattle.ir_verify_base.specs.Fits as fits;

use ir_types::context::Context;
use ir_types::ids::{AttrId, TypeId};
use ir_types::things::attr_of;
use ir_types::word::Word;
use listeners_support::node::Node;
use listeners_support::properties::entry;
use op_registry::signature::{Signature, signature_of, type_in};

/// Returns whether an operation has the name.
pub fn is_named(ctx: &Context, node: &Node<'_>, word: Word) -> bool
    ensures { result ≡ fits.is_named (node_in ctx.now node.now) (word_bytes word) }
{
    ctx.is_word(node.name(), word)
}

/// Returns the property of an operation at a key, if it has one (Language Reference, "Properties").
pub fn property(ctx: &Context, node: &Node<'_>, key: Word) -> Option<AttrId>
    requires { NodeIsOf ctx.now node.now }
    ensures entry { option_map (attr_term ctx.now) result ≡ fits.property (word_bytes key) (node_in ctx.now node.now) }
    ensures attr { IfSome result (λ a. IsAttr ctx.now a) }
{
    entry(ctx, node.properties(), key)
}

/// Returns the argument types of the block of a region, or `None` if the region has no block.
pub fn block<'a>(ctx: &Context, node: &'a Node<'_>, region: usize) -> Option<&'a [TypeId]>
    requires { NodeIsOf ctx.now node.now }
    ensures args { option_map (λ args. map (type_term ctx.now) args.now) result
        ≡ fits.block_at region (node_in ctx.now node.now) }
    ensures types { IfSome result (λ args. All (λ t. IsType ctx.now t) args.now) }
{
    node.arguments(region)
}

/// Returns whether the region has a block.
pub fn has_block(ctx: &Context, node: &Node<'_>, region: usize) -> bool
    requires { NodeIsOf ctx.now node.now }
    ensures { result ≡ is_some (fits.block_at region (node_in ctx.now node.now)) }
{
    block(ctx, node, region).is_some()
}

/// Returns the function type in an operation's properties, if it has one.
pub fn function_type<'a>(ctx: &'a Context, node: &Node<'_>) -> Option<Signature<'a>>
    requires { NodeIsOf ctx.now node.now }
    ensures signature { option_map
        (λ s. (map (type_term ctx.now) s.inputs.now, map (type_term ctx.now) s.outputs.now)) result
        ≡ fits.function_type (node_in ctx.now node.now) }
    ensures inputs { IfSome result (λ s. All (λ t. IsType ctx.now t) s.inputs.now) }
    ensures outputs { IfSome result (λ s. All (λ t. IsType ctx.now t) s.outputs.now) }
{
    let attr = property(ctx, node, Word::FunctionType)?;
    signature_of(ctx, type_in(attr_of(ctx, attr))?)
}
