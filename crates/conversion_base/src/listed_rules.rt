//! The rules that the table lists for an operation.
ghost use Rattle.std.specs.Prelude.{◌≡◌};
ghost use Rattle.ir_event.specs.trees.Ids.{find};
ghost use Rattle.ir_event.specs.Modules.{module_in};
ghost use Rattle.conversion_base.specs.Reasons.{rules_for_op};

use ir_event::types::ids::OpId;
use ir_event::world::World;
use patterns_base::rule::Rule;
use patterns_base::table::rules_of;
use patterns_lowering::reads::nodes::op_node;

/// Returns the rules that the table lists for the name of `op`, by ascending number. The result is empty if `op` isn't
/// in the module.
pub fn rules_at(world: &World, op: OpId) -> &'static [Rule]
    ensures { result.now ≡ rules_for_op (find op (module_in world.now).tree) }
{
    world.ctx.sound();
    let Some(node) = op_node(world, op) else {
        return &[];
    };
    rules_of(node.name())
}
