//! Reads of the module of an IR state.
ghost use Rattle.std.specs.Prelude.{◌≡◌, IfSome, option_map};
ghost use Rattle.ir_store.specs.trees.Ids.{find};
ghost use Rattle.ir_store.specs.Nodes.{node_of};
ghost use Rattle.ir_event.specs.Modules.{NodeIsOf};

use crate::laws::nodes_are_of_the_context;
use crate::world::World;
use ir_store::node::Node;
use op_registry::types::ids::OpId;

impl World {
    /// Returns an operation of the module without the operations in its blocks, or `None` if it isn't in the module.
    /// The store's `node` also answers for held operations, so reads of the module use this call.
    pub fn shown(&self, op: OpId) -> Option<Node<'_>>
        ensures node { result ≡ option_map node_of (find op self.now.store.module_of.tree) }
        ensures of { IfSome result (NodeIsOf self.now.ctx) }
    {
        nodes_are_of_the_context();
        if !self.store.in_tree(op) {
            return None;
        }
        self.store.node(op)
    }
}
