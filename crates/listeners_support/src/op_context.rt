//! The context of an operation, gathered from a view.
use ir_event::store::node::Node;
use ir_event::types::ids::{NameId, TypeId};

/// The part of an operation's context that is about its parent.
#[derive(Drop)]
pub struct ParentContext<'a> {
    pub name: NameId,
    /// The parent, if the operation is the last of its block.
    pub ended: Option<Node<'a>>,
}

/// An operation and its context.
#[derive(Drop)]
pub struct OpContext<'a> {
    pub node: Node<'a>,
    /// The types of its operands.
    pub types: Vec<TypeId>,
    /// For each region, the name of the last operation in its block.
    pub lasts: Vec<Option<NameId>>,
    pub outer: Option<ParentContext<'a>>,
}
