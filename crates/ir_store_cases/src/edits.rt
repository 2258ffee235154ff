//! The edits of a module. Each returns whether the module was called: it isn't if a precondition doesn't hold.
use crate::may::{may_put, may_set};
use ir_store::store::Store;
use ir_tree_cases_base::build;
use ir_tree_cases_base::words::{
    first_word, name_id, number, op_id, part, place, some_attr, value,
};
use ir_types::context::Context;
use ir_types::refusal::Refusal;
use std::alloc::Global;

/// Inserts an operation. The text has the place and the header: `2 0 4 : op use:1.0 end`.
pub fn put_line(
    alloc: Global,
    ctx: &Context,
    store: &mut Store,
    text: &str,
) -> Result<bool, Refusal> {
    let (at, words) = text.split_once(" : ").unwrap_or((text, ""));
    let header = build::tree(alloc, words)?;
    if !may_put(ctx, store, &header) {
        return Ok(false);
    }
    match store.put(ctx, place(at), &header) {
        Ok(_) => Ok(true),
        Err(refusal) => Err(refusal),
    }
}

/// Takes out an operation. The text has its id: `3`.
pub fn take_line(store: &mut Store, text: &str) -> Result<bool, Refusal> {
    match store.take(op_id(text)) {
        Ok(()) => Ok(true),
        Err(refusal) => Err(refusal),
    }
}

/// Sets an operand. The text has the operation, the index of the operand and the value: `3 0 2.0`.
pub fn set_line(ctx: &Context, store: &mut Store, text: &str) -> Result<bool, Refusal> {
    let (op, rest) = first_word(text);
    let (operand, word) = first_word(rest);
    match store.set_operand(ctx, op_id(op), number(operand), value(word)) {
        Ok(_) => Ok(true),
        Err(refusal) => Err(refusal),
    }
}

/// Sets or removes an entry. The text has the operation, the dictionary, the key, and the attribute or `-`: `1 props 39
/// 0`.
pub fn entry_line(ctx: &Context, store: &mut Store, text: &str) -> Result<bool, Refusal> {
    let (op, rest) = first_word(text);
    let (dictionary, rest) = first_word(rest);
    let (key, attr) = first_word(rest);
    let (op, part, key, attr) = (op_id(op), part(dictionary), name_id(key), some_attr(attr));
    if !may_set(ctx, store, key, attr)? {
        return Ok(false);
    }
    match store.set_entry(ctx, op, part, key, attr) {
        Ok(()) => Ok(true),
        Err(refusal) => Err(refusal),
    }
}
