//! The state of a run: a module and what is shown after an answer, and the context.
use ir_store::store::Store;
use ir_types::context::Context;
use ir_types::node::{AttrNode, Sign, TypeNode};
use ir_types::refusal::Refusal;
use std::alloc::Global;

/// What is shown of a module after an answer.
#[derive(Clone, Copy)]
pub enum Show {
    /// The tree, and the next free id.
    Tree,
    /// A sum over the tree and all reads of the module.
    Sum,
    /// Nothing.
    Nothing,
}

/// A module if one was loaded, and what is shown of it.
#[derive(Drop)]
pub struct Loaded {
    pub store: Option<Store>,
    pub show: Show,
}

/// Adds four names and 300 more, two types and four attributes to a context.
pub fn fill(alloc: Global, context: &mut Context) -> Result<(), Refusal> {
    add_words(context)?;
    add_names(alloc, context)?;
    add_type(context, 1)?;
    add_type(context, 2)?;
    add_attrs(context)
}

/// Adds four names to a context.
fn add_words(context: &mut Context) -> Result<(), Refusal> {
    for text in ["a", "Z", "ab", "\u{e9}"] {
        context.name(text.as_bytes())?;
    }
    Ok(())
}

/// Adds the names `n0`, `n1`, .. to a context.
fn add_names(alloc: Global, context: &mut Context) -> Result<(), Refusal> {
    for number in 0..300u32 {
        let text = format!(in alloc; "n{number}")?;
        context.name(text.as_bytes())?;
    }
    Ok(())
}

/// Adds an integer type to a context.
fn add_type(context: &mut Context, width: u32) -> Result<(), Refusal> {
    context.ty(TypeNode::Int {
        sign: Sign::Signless,
        width,
    })?;
    Ok(())
}

/// Adds an attribute for each combination of two flags to a context.
fn add_attrs(context: &mut Context) -> Result<(), Refusal> {
    for nsw in [false, true] {
        context.attr(AttrNode::Overflow { nsw, nuw: false })?;
        context.attr(AttrNode::Overflow { nsw, nuw: true })?;
    }
    Ok(())
}
