//! Computes the answer to a line.
use crate::edits;
use crate::state::{State, add_attrs, add_name, add_types, renew};
use ir_tree::check::check;
use ir_tree::copy::copy;
use ir_tree::count::{depth, op_count};
use ir_tree::find::{find, list_ids};
use ir_tree::limits::counts_are_within;
use ir_tree::numbered::{distinct, numbered};
use ir_tree::sound::sound;
use ir_tree::tree::TreeOp;
use ir_tree::uses::list_uses;
use ir_tree::visible::visible;
use ir_tree_cases_base::words::{first_word, number, op_id, value};
use ir_tree_cases_base::{build, written};
use ir_types::context::Context;
use ir_types::refusal::Refusal;
use std::alloc::{AllocError, Global};

/// Adds to a context, or replaces it by a new one.
fn grow(alloc: Global, context: &mut Context, text: &str) -> Result<(), Refusal> {
    let (what, rest) = first_word(text);
    match what {
        "types" => add_types(context, number(rest)),
        "attrs" => add_attrs(context),
        "name" => add_name(context, rest),
        _ => renew(alloc, context),
    }
}

/// Replaces the tree, and returns the number of its operations.
fn tree(alloc: Global, state: &mut State, text: &str) -> Result<String, AllocError> {
    let tree = build::tree(alloc, text)?;
    state.take(tree);
    written::number(alloc, op_count(&state.tree))
}

fn is_distinct(alloc: Global, tree: &TreeOp) -> Result<String, AllocError> {
    match distinct(alloc, tree) {
        Ok(answer) => written::truth(alloc, answer),
        Err(_) => Err(AllocError),
    }
}

fn ids(alloc: Global, tree: &TreeOp) -> Result<String, AllocError> {
    let ids = list_ids(alloc, tree)?;
    written::ids(alloc, &ids)
}

/// Returns the first operation with an id, with everything inside it, as text.
fn found(alloc: Global, tree: &TreeOp, text: &str) -> Result<String, AllocError> {
    match find(tree, op_id(text)) {
        Some(op) => written::tree(alloc, op),
        None => written::word(alloc, "none"),
    }
}

fn uses(alloc: Global, tree: &TreeOp, text: &str) -> Result<String, AllocError> {
    let uses = list_uses(alloc, tree, &value(text))?;
    written::uses(alloc, &uses)
}

/// Returns a copy of the tree as text.
fn copied(alloc: Global, tree: &TreeOp) -> Result<String, AllocError> {
    let other = copy(tree)?;
    written::tree(alloc, &other)
}

fn dominated_by(alloc: Global, state: &State, text: &str) -> Result<String, AllocError> {
    let (op, word) = first_word(text);
    let answer = visible(&state.context, &state.tree, op_id(op), value(word));
    written::truth(alloc, answer)
}

/// Answers a read of the tree.
fn requested(alloc: Global, state: &State, call: &str, rest: &str) -> Result<String, AllocError> {
    let tree = &state.tree;
    match call {
        "depth" => written::number(alloc, depth(tree)),
        "fits" => written::truth(alloc, counts_are_within(tree)),
        "distinct" => is_distinct(alloc, tree),
        "numbered" => written::truth(alloc, numbered(tree, number(rest))),
        "ids" => ids(alloc, tree),
        "find" => found(alloc, tree, rest),
        "uses" => uses(alloc, tree, rest),
        "copy" => copied(alloc, tree),
        "visible" => dominated_by(alloc, state, rest),
        "sound" => written::truth(alloc, sound(&state.context, tree)),
        "check" => written::done(alloc, check(alloc, &state.context, tree)),
        _ => written::word(alloc, "no call"),
    }
}

/// Returns the answer to a line.
pub fn answer(alloc: Global, state: &mut State, line: &str) -> Result<String, AllocError> {
    let (call, rest) = first_word(line);
    match call {
        "context" => written::done(alloc, grow(alloc, &mut state.context, rest)),
        "tree" => tree(alloc, state, rest),
        "edit" => edits::edited(alloc, state, rest),
        _ => requested(alloc, state, call, rest),
    }
}
