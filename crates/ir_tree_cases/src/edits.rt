//! The edits of a tree.
use crate::state::State;
use ir_tree::entries::with_entry_set;
use ir_tree::tree::TreeOp;
use ir_tree::tree_edits::{
    with_erased, with_inserted, with_moved, with_operand_set, with_replaced,
};
use ir_tree_cases_base::words::{
    first_word, name_id, number, op_id, part, place, some_attr, value,
};
use ir_tree_cases_base::{build, written};
use std::alloc::{AllocError, Global};

/// Sets an operand. The text has the operation, the index of the operand and the value: `7 0 2.0`.
fn with_operand(alloc: Global, tree: &TreeOp, text: &str) -> Result<TreeOp, AllocError> {
    let (op, rest) = first_word(text);
    let (operand, word) = first_word(rest);
    with_operand_set(
        alloc,
        tree,
        op_id(op),
        number(operand) as usize,
        &value(word),
    )
}

/// Replaces a value. The text has the old value and the new one: `1.0 2.0`.
fn with_value(alloc: Global, tree: &TreeOp, text: &str) -> Result<TreeOp, AllocError> {
    let (old, new) = first_word(text);
    with_replaced(alloc, tree, &value(old), &value(new))
}

/// Sets or removes an entry. The text has the operation, the dictionary, the key, and the attribute or `-`: `1 props 39
/// 0`.
fn with_entry(alloc: Global, state: &State, text: &str) -> Result<TreeOp, AllocError> {
    let (op, rest) = first_word(text);
    let (dictionary, rest) = first_word(rest);
    let (key, attr) = first_word(rest);
    with_entry_set(
        alloc,
        &state.context,
        &state.tree,
        op_id(op),
        part(dictionary),
        name_id(key),
        some_attr(attr),
    )
}

/// Returns the tree with another tree inserted at a place: `2 0 4`.
fn with_more(alloc: Global, tree: &TreeOp, at: &str, more: &TreeOp) -> Result<TreeOp, AllocError> {
    with_inserted(alloc, tree, &place(at), more)
}

/// Inserts a tree. The text has the place and the tree: `2 0 4 : op:9 end`.
fn with_tree(alloc: Global, tree: &TreeOp, text: &str) -> Result<TreeOp, AllocError> {
    let (at, words) = text.split_once(" : ").unwrap_or((text, ""));
    let more = build::tree(alloc, words)?;
    with_more(alloc, tree, at, &more)
}

/// Moves an operation. The text has the operation and its new place: `1 2 0 4`.
fn with_move(alloc: Global, tree: &TreeOp, text: &str) -> Result<TreeOp, AllocError> {
    let (op, at) = first_word(text);
    with_moved(alloc, tree, op_id(op), &place(at))
}

/// Returns the tree after an edit.
fn edit(alloc: Global, state: &State, text: &str) -> Result<TreeOp, AllocError> {
    let (call, rest) = first_word(text);
    let tree = &state.tree;
    match call {
        "operand" => with_operand(alloc, tree, rest),
        "replaced" => with_value(alloc, tree, rest),
        "entry" => with_entry(alloc, state, rest),
        "put" => with_tree(alloc, tree, rest),
        "without" => with_erased(alloc, tree, op_id(rest)),
        _ => with_move(alloc, tree, rest),
    }
}

/// Makes an edit of the tree, and returns the new tree as text.
pub fn edited(alloc: Global, state: &mut State, text: &str) -> Result<String, AllocError> {
    let tree = edit(alloc, state, text)?;
    state.take(tree);
    written::tree(alloc, &state.tree)
}
