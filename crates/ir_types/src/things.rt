//! The meanings of a context's ids.
ghost use Rattle.std.specs.Prelude.{◌≡◌};
ghost use Rattle.ir_types.specs.Things.{IsName, IsType, IsAttr, TypeIsOf, AttrIsOf};
ghost use Rattle.ir_types.specs.Terms.{name_term, type_term, type_node_term, attr_term, attr_node_term};

use crate::context::Context;
use crate::ids::{AttrId, NameId, TypeId};
use crate::node::{AttrNode, TypeNode};

/// Returns the bytes of a name.
pub fn name_of(ctx: &Context, id: NameId) -> &[u8]
    requires { IsName ctx.now id }
    ensures { result.now ≡ name_term ctx.now id }
{
    ctx.name_bytes(id)
}

/// Returns the node of a type.
pub fn type_of(ctx: &Context, id: TypeId) -> &TypeNode
    requires { IsType ctx.now id }
    ensures term { type_term ctx.now id ≡ type_node_term ctx.now result.now }
    ensures parts { TypeIsOf ctx.now result.now }
{
    ctx.sound();
    ctx.type_node(id)
}

/// Returns the node of an attribute.
pub fn attr_of(ctx: &Context, id: AttrId) -> &AttrNode
    requires { IsAttr ctx.now id }
    ensures term { attr_term ctx.now id ≡ attr_node_term ctx.now result.now }
    ensures parts { AttrIsOf ctx.now result.now }
{
    ctx.sound();
    ctx.attr_node(id)
}
