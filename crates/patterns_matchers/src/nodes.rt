//! Reads operations and the defining operations of values.
ghost use Rattle.std.specs.Prelude.{◌≡◌, IfSome, option_map};
ghost use Rattle.ir_event.specs.trees.Ids.{find};
ghost use Rattle.ir_event.specs.store.Nodes.{node_of};
ghost use Rattle.patterns_base.specs.events.Modules.{NodeIsOf, module_in};
ghost use Rattle.patterns_base.specs.Looks.{insertion_of, defining_op, is_constant};
ghost use Rattle.patterns_matchers.specs.Reads.{head_at, header_of_node};

use ir_event::store::node::Node;
use ir_event::trees::place::Place;
use ir_event::trees::value::Value;
use ir_event::types::ids::OpId;
use ir_event::types::word::Word;
use patterns_base::events::world::World;

/// Returns the node of `op`, or `None` if it isn't in the module.
pub fn op_node(world: &World, op: OpId) -> Option<Node<'_>>
    ensures of { IfSome result (NodeIsOf world.now.ctx) }
    ensures node { option_map (header_of_node world.now.ctx) result ≡ head_at op (module_in world.now).tree }
    ensures stored { result ≡ option_map node_of (find op world.now.store.module_of.tree) }
{
    world.shown(op)
}

/// Returns the place before `op`, or `None` for the root.
pub fn insertion_point_before(world: &World, op: OpId) -> Option<Place>
    ensures { result ≡ insertion_of op (module_in world.now).tree }
{
    let Some(place) = world.store.place(op) else {
        return None;
    };
    Some(Place {
        parent: place.parent,
        region: place.region,
        before: Some(op),
    })
}

/// Returns the defining operation of `value`, or `None` if it has none.
pub fn defining_op<'a>(world: &'a World, value: &Value) -> Option<Node<'a>>
    ensures of { IfSome result (NodeIsOf world.now.ctx) }
    ensures node { option_map (header_of_node world.now.ctx) result ≡ defining_op (module_in world.now).tree value.now }
{
    match value {
        Value::Result(op, _) => op_node(world, *op),
        Value::Arg(..) => None,
    }
}

/// Returns whether `value` is the result of a constant, verified or not.
pub fn is_constant(world: &World, value: &Value) -> bool
    ensures { result ≡ is_constant (module_in world.now).tree value.now }
{
    let Some(node) = defining_op(world, value) else {
        return false;
    };
    world.ctx.is_word(node.name(), Word::ArithConstant)
}
