//! The view of the module that a listener gets with an event.
ghost use Rattle.std.specs.Prelude.{◌≡◌, ◌+◌, length, option_map};
ghost use Rattle.ir_store.specs.trees.Ids.{has_id};
ghost use Rattle.ir_store.specs.Nodes.{node_of};
ghost use Rattle.ir_store.specs.Stored.{known};
ghost use Rattle.ir_store.specs.tree_laws.Values.{type_of_value};
ghost use Rattle.ir_store.specs.Using.{AreUses};
ghost use Rattle.ir_store.specs.tree_laws.Reads.{parent_of, next_of, prev_of, first_at, last_at};
ghost use Rattle.ir_event.specs.Looks.{more_looks, one_more};

use crate::world::World;
use ir_store::node::Node;
use ir_store::trees::value::Value;
use ir_store::uses::UsesOf;
use op_registry::registry::Registry;
use op_registry::types::context::Context;
use op_registry::types::ids::{OpId, TypeId};

/// A view of an IR state. It counts the calls that read the module, and can't be copied.
#[derive(Drop)]
pub struct View<'a> {
    world: &'a World,
    looks: u64,
}

impl<'a> View<'a> {
    /// Returns a view of an IR state, with no reads counted.
    pub fn new(world: &'a World) -> View<'a>
        ensures none { result.looks ≡ 0 }
        ensures world { result.world.now ≡ world.entry.now }
    {
        View { world, looks: 0 }
    }

    /// Returns the number of calls that have read the module. Saturates at `u64::MAX`.
    pub fn looks(&self) -> u64
        ensures { result ≡ self.now.looks }
    {
        self.looks
    }

    /// Returns the context. Not counted as a read.
    pub fn context(&self) -> &'a Context
        ensures { result.now ≡ self.now.world.now.ctx }
    {
        &self.world.ctx
    }

    /// Returns the registry of the context's operations. Not counted as a read.
    pub fn registry(&self) -> &'a Registry
        ensures { result.now ≡ self.now.world.now.registry }
    {
        &self.world.registry
    }

    /// Returns whether an operation is in the module.
    pub fn in_tree(&mut self, op: OpId) -> bool
        ensures answer { result ≡ has_id op self.old.world.now.store.module_of.tree }
        ensures looks { self.new.looks ≡ one_more self.old.looks }
        ensures world { self.new.world.now ≡ self.old.world.now }
    {
        self.looks = self.looks.saturating_add(1);
        self.world.store.in_tree(op)
    }

    /// Returns an operation without the operations in its blocks, or `None` if the operation is neither in the module
    /// nor held.
    pub fn node(&mut self, op: OpId) -> Option<Node<'a>>
        ensures answer { result ≡ option_map node_of (known op self.old.world.now.store) }
        ensures looks { self.new.looks ≡ one_more self.old.looks }
        ensures world { self.new.world.now ≡ self.old.world.now }
    {
        self.looks = self.looks.saturating_add(1);
        self.world.store.node(op)
    }

    /// Returns the parent operation of `op`, or `None` if `op` is the root or isn't in the module.
    pub fn parent(&mut self, op: OpId) -> Option<OpId>
        ensures answer { result ≡ parent_of op self.old.world.now.store.module_of.tree }
        ensures looks { self.new.looks ≡ one_more self.old.looks }
        ensures world { self.new.world.now ≡ self.old.world.now }
    {
        self.looks = self.looks.saturating_add(1);
        self.world.store.parent(op)
    }

    /// Returns the first operation of the block of a region, or `None` if there is none.
    pub fn first(&mut self, op: OpId, region: u32) -> Option<OpId>
        ensures answer { result ≡ first_at op region self.old.world.now.store.module_of.tree }
        ensures looks { self.new.looks ≡ one_more self.old.looks }
        ensures world { self.new.world.now ≡ self.old.world.now }
    {
        self.looks = self.looks.saturating_add(1);
        self.world.store.first(op, region)
    }

    /// Returns the last operation of the block of a region, or `None` if there is none.
    pub fn last(&mut self, op: OpId, region: u32) -> Option<OpId>
        ensures answer { result ≡ last_at op region self.old.world.now.store.module_of.tree }
        ensures looks { self.new.looks ≡ one_more self.old.looks }
        ensures world { self.new.world.now ≡ self.old.world.now }
    {
        self.looks = self.looks.saturating_add(1);
        self.world.store.last(op, region)
    }

    /// Returns the operation after `op` in its block, or `None` if there is none.
    pub fn next(&mut self, op: OpId) -> Option<OpId>
        ensures answer { result ≡ next_of op self.old.world.now.store.module_of.tree }
        ensures looks { self.new.looks ≡ one_more self.old.looks }
        ensures world { self.new.world.now ≡ self.old.world.now }
    {
        self.looks = self.looks.saturating_add(1);
        self.world.store.next(op)
    }

    /// Returns the operation before `op` in its block, or `None` if there is none.
    pub fn prev(&mut self, op: OpId) -> Option<OpId>
        ensures answer { result ≡ prev_of op self.old.world.now.store.module_of.tree }
        ensures looks { self.new.looks ≡ one_more self.old.looks }
        ensures world { self.new.world.now ≡ self.old.world.now }
    {
        self.looks = self.looks.saturating_add(1);
        self.world.store.prev(op)
    }

    /// Returns the type of a value, or `None` if the module has no such value.
    pub fn value_type(&mut self, value: Value) -> Option<TypeId>
        ensures answer { result ≡ type_of_value value self.old.world.now.store.module_of.tree }
        ensures looks { self.new.looks ≡ one_more self.old.looks }
        ensures world { self.new.world.now ≡ self.old.world.now }
    {
        self.looks = self.looks.saturating_add(1);
        self.world.store.value_type(value)
    }

    /// Returns the uses of a value, each once: the users, and the indices of the operands. Each use counts as a read
    /// too, and is counted here.
    pub fn uses(&mut self, value: Value) -> UsesOf<'a>
        ensures answer { AreUses value self.old.world.now.store.module_of.tree result }
        ensures looks { self.new.looks ≡ more_looks (length result + 1) self.old.looks }
        ensures world { self.new.world.now ≡ self.old.world.now }
    {
        self.looks = self.looks.saturating_add(1);
        let uses = self.world.store.uses(value);
        self.looks = self.looks.saturating_add(uses.len() as u64);
        uses
    }
}
