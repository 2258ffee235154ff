//! The state of a run: a context and a tree.
use ir_tree::tree::TreeOp;
use ir_tree_cases_base::build::bare;
use ir_types::context::Context;
use ir_types::node::{AttrNode, Sign, TypeNode};
use ir_types::refusal::Refusal;
use std::alloc::Global;

/// A context and a tree.
#[derive(Drop)]
pub struct State {
    pub context: Context,
    pub tree: TreeOp,
}

impl State {
    /// Returns a state with a new context and an empty operation.
    pub fn new(alloc: Global) -> Result<State, Refusal> {
        let context = Context::new(alloc)?;
        Ok(State {
            context,
            tree: bare(alloc, 0),
        })
    }

    /// Replaces the tree.
    pub fn take(&mut self, tree: TreeOp) {
        self.tree = tree;
    }
}

/// Replaces a context by a new one.
pub fn renew(alloc: Global, context: &mut Context) -> Result<(), Refusal> {
    *context = Context::new(alloc)?;
    Ok(())
}

/// Adds `count` types `i1`, `i2`, .. to a context.
pub fn add_types(context: &mut Context, count: u32) -> Result<(), Refusal> {
    for index in 0..count {
        let width = index.saturating_add(1);
        context.ty(TypeNode::Int {
            sign: Sign::Signless,
            width,
        })?;
    }
    Ok(())
}

/// Adds an attribute for each combination of two flags to a context.
pub fn add_attrs(context: &mut Context) -> Result<(), Refusal> {
    for nsw in [false, true] {
        context.attr(AttrNode::Overflow { nsw, nuw: false })?;
        context.attr(AttrNode::Overflow { nsw, nuw: true })?;
    }
    Ok(())
}

/// Adds a name to a context.
pub fn add_name(context: &mut Context, text: &str) -> Result<(), Refusal> {
    context.name(text.as_bytes())?;
    Ok(())
}
