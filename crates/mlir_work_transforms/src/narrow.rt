//! Tests whether all integer types of a module have at most a given width.
ghost use Rattle.std.specs.Prelude.{◌≡◌, List, map};
ghost use Rattle.std.specs.List.{list_all};
ghost use Rattle.ir_event.specs.types.Terms.{TypeTerm, type_from, type_term};
ghost use Rattle.ir_event.specs.trees.Limits.{all_arguments_pass};
ghost use Rattle.ir_event.specs.trees.Meaning.{meaning};
ghost use Rattle.ir_event.specs.trees.Tree.{regions_of};
ghost use Rattle.ir_event.specs.trees.View.{region_view};
ghost use Rattle.mlir_work_transforms.specs.Unproved.{has_narrow_types, is_narrow_type};

use ir_event::registry::things::type_of;
use ir_event::trees::every::{OpTest, every_op};
use ir_event::trees::tree::{TreeOp, TreeRegion};
use ir_event::types::context::Context;
use ir_event::types::ids::TypeId;
use ir_event::types::node::TypeNode;

/// Returns whether a type node isn't `index` and isn't an integer type wider than `most` bits.
fn node_is_narrow(most: u32, node: &TypeNode) -> bool
    ensures { (known : List TypeTerm) → result ≡ is_narrow_type most (type_from known node.now) }
{
    match node {
        TypeNode::Int { width, .. } => *width <= most,
        TypeNode::Index => false,
        TypeNode::Func { .. } => true,
        TypeNode::Memref { .. } => true,
        TypeNode::Opaque(_) => true,
    }
}

/// Returns whether a type isn't `index` and isn't an integer type wider than `most` bits. A number without a type
/// counts as `index`.
fn is_narrow(ctx: &Context, most: u32, ty: TypeId) -> bool
    ensures { result ≡ is_narrow_type most (type_term ctx.now ty) }
{
    if !ctx.has_type(ty) {
        return false;
    }
    node_is_narrow(most, type_of(ctx, ty))
}

/// Returns whether all types of a list are narrow.
fn all_narrow(ctx: &Context, most: u32, types: &Vec<TypeId>) -> bool
    ensures { result ≡ list_all (λ ty. is_narrow_type most (type_term ctx.now ty)) types.now.items }
{
    types.iter().all(|ty| is_narrow(ctx, most, *ty))
}

/// Returns whether all block arguments of these regions have narrow types.
fn arguments_are_narrow(ctx: &Context, most: u32, regions: &Vec<TreeRegion>) -> bool
    ensures { result ≡ all_arguments_pass (list_all (λ ty. is_narrow_type most (type_term ctx.now ty))) (regions_of (map region_view regions.now.items)) }
{
    for region in regions {
        if let TreeRegion::Block { args, .. } = region {
            if !all_narrow(ctx, most, args) {
                return false;
            }
        }
    }
    true
}

/// Tests the types of an operation's results and block arguments.
#[derive(Drop)]
struct Narrow<'a> {
    ctx: &'a Context,
    most: u32,
}

impl<'a> OpTest for Narrow<'a> {
    ghost use Rattle.ir_event.specs.types.Terms.{type_term};
    ghost use Rattle.mlir_work_transforms.specs.Unproved.{is_narrow_type, types_pass};

    ghost passes = { λ t. types_pass (λ ty. is_narrow_type t.most (type_term t.ctx.now ty)) };

    fn test(&self, op: &TreeOp) -> bool {
        all_narrow(self.ctx, self.most, &op.results)
            && arguments_are_narrow(self.ctx, self.most, &op.regions)
    }
}

/// Returns whether each value of a module has an integer type of at most `most` bits or a type that isn't an integer.
/// No value may have the type `index`.
pub(crate) fn has_narrow_types(ctx: &Context, most: u32, tree: &TreeOp) -> bool
    ensures { result ≡ has_narrow_types most (meaning ctx.now tree.now) }
{
    every_op(tree, &Narrow { ctx, most })
}
