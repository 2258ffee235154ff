//! Function types as properties (Builtin Dialect, "Attributes", "FunctionType").
ghost use Rattle.std.specs.Prelude.{◌≡◌, IfSome, List, ℕ, map};
ghost use Rattle.std.specs.List.{All};
ghost use Rattle.std.specs.Option.{option_map};
ghost use Rattle.ir_types.specs.Things.{ContextModel, IsType, AttrIsOf, TypeIsOf};
ghost use Rattle.ir_types.specs.Terms.{TypeTerm, AttrTerm, attr_from, type_at, type_from, type_term};
ghost use Rattle.ir_types.specs.SameTypes as types;
ghost use Rattle.op_registry.specs.Properties as properties;

use ir_types::context::Context;
use ir_types::ids::TypeId;
use ir_types::node::{AttrNode, TypeNode};
use ir_types::things::type_of;

/// A function type.
#[derive(Clone, Copy)]
pub struct Signature<'a> {
    pub inputs: &'a [TypeId],
    pub outputs: &'a [TypeId],
}

/// Returns the type of a type attribute, or `None` for any other attribute.
pub fn type_in(node: &AttrNode) -> Option<TypeId>
    ensures ty { (names : List (List ℕ)) (types : List TypeTerm) (attrs : List AttrTerm) → option_map (λ t. type_at types t) result ≡ properties.type_of (attr_from names types attrs node.now) }
    ensures known { (c : ContextModel) → AttrIsOf c node.now → IfSome result (λ t. IsType c t) }
{
    match node {
        AttrNode::Int { .. } => None,
        AttrNode::Str(_) => None,
        AttrNode::Ty(ty) => Some(*ty),
        AttrNode::Unit => None,
        AttrNode::Array(_) => None,
        AttrNode::Dict(_) => None,
        AttrNode::Sym(_) => None,
        AttrNode::Dense { .. } => None,
        AttrNode::Overflow { .. } => None,
        AttrNode::Opaque { .. } => None,
    }
}

/// Returns the inputs and outputs of a function type, or `None` for any other type.
pub fn signature_of(ctx: &Context, ty: TypeId) -> Option<Signature<'_>>
    requires { IsType ctx.now ty }
    ensures signature { option_map (λ s. (map (type_term ctx.now) s.inputs.now, map (type_term ctx.now) s.outputs.now)) result ≡ types.function_of (type_term ctx.now ty) }
    ensures inputs { IfSome result (λ s. All (λ t. IsType ctx.now t) s.inputs.now) }
    ensures outputs { IfSome result (λ s. All (λ t. IsType ctx.now t) s.outputs.now) }
{
    signature_in(type_of(ctx, ty))
}

/// Returns the inputs and outputs of a node that is a function type.
fn signature_in(node: &TypeNode) -> Option<Signature<'_>>
    ensures signature { (known : List TypeTerm) → option_map (λ s. (map (type_at known) s.inputs.now, map (type_at known) s.outputs.now)) result ≡ types.function_of (type_from known node.now) }
    ensures inputs { (c : ContextModel) → TypeIsOf c node.now → IfSome result (λ s. All (λ t. IsType c t) s.inputs.now) }
    ensures outputs { (c : ContextModel) → TypeIsOf c node.now → IfSome result (λ s. All (λ t. IsType c t) s.outputs.now) }
{
    match node {
        TypeNode::Int { .. } => None,
        TypeNode::Index => None,
        TypeNode::Func { inputs, outputs } => Some(Signature {
            inputs: inputs.as_slice(),
            outputs: outputs.as_slice(),
        }),
        TypeNode::Memref { .. } => None,
        TypeNode::Opaque(_) => None,
    }
}
