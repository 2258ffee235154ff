//! The edits that undo other edits. Each returns whether the module was called.
ghost use Rattle.std.specs.Prelude.{◌≡◌, ◌+◌, true, false, IfOk};
ghost use Rattle.ir_store.specs.Calls.{CanRetract};

use crate::may::{may_restore, may_revert, may_set};
use ir_store::store::Store;
use ir_tree::numbered::distinct;
use ir_tree_cases_base::words::{first_word, name_id, op_id, part, place, some_attr};
use ir_types::context::Context;
use ir_types::ids::OpId;
use ir_types::refusal::Refusal;
use std::alloc::Global;

/// Inserts a held operation again. The text says whether its id is the next free one, and has the operation and its
/// place: `new 3 2 0 4`.
pub fn restore_line(store: &mut Store, text: &str) -> Result<bool, Refusal> {
    let (age, rest) = first_word(text);
    let (op, at) = first_word(rest);
    let (fresh, op, place) = (age == "new", op_id(op), place(at));
    if !may_restore(store, op, &place, fresh)? {
        return Ok(false);
    }
    store.restore(op, place, fresh);
    Ok(true)
}

/// Takes an operation out and inserts it again, to check that it can be taken out. Returns false if it wasn't inserted
/// again.
fn try_take(alloc: Global, store: &mut Store, op: OpId) -> Result<bool, Refusal>
    ensures { IfOk result (λ b. b ≡ true → CanRetract op false store.new) }
{
    let tree = store.tree()?;
    let is_distinct = distinct(alloc, &tree)?;
    let place = store.place(op);
    match store.take(op) {
        Ok(()) => {}
        Err(refusal) => return Err(refusal),
    }
    let Some(place) = place else {
        return Ok(false);
    };
    if !is_distinct {
        return Ok(false);
    }
    if !may_restore(store, op, &place, false)? {
        return Ok(false);
    }
    store.restore(op, place, false);
    Ok(true)
}

/// Takes an operation out as an undo does, if it can be taken out.
fn retract(alloc: Global, store: &mut Store, op: OpId, fresh: bool) -> Result<bool, Refusal> {
    if fresh && !is_newest(store, op) {
        return Ok(false);
    }
    if !try_take(alloc, store, op)? {
        return Ok(false);
    }
    if fresh {
        return Ok(retract_newest(store, op));
    }
    store.undo_insert(op, false);
    Ok(true)
}

/// Returns true only if an operation has the newest id.
fn is_newest(store: &Store, op: OpId) -> bool
    ensures { result ≡ true → store.now.module_of.next ≡ op + 1 }
{
    op.number() < u32::MAX && store.next_id() == op.number() + 1
}

/// Takes out the operation with the newest id, which becomes free again.
fn retract_newest(store: &mut Store, op: OpId) -> bool
    requires { CanRetract op false store.old }
{
    if !is_newest(store, op) {
        return false;
    }
    store.undo_insert(op, true);
    true
}

/// Undoes an insertion. The text says whether the id becomes free again, and has the operation: `new 3`.
pub fn retract_line(alloc: Global, store: &mut Store, text: &str) -> Result<bool, Refusal> {
    let (age, op) = first_word(text);
    retract(alloc, store, op_id(op), age == "new")
}

/// Undoes an edit of an entry. The text has the operation, the dictionary, the key, and the attribute or `-`: `1 props
/// 39 0`.
pub fn revert_line(ctx: &Context, store: &mut Store, text: &str) -> Result<bool, Refusal> {
    let (op, rest) = first_word(text);
    let (dictionary, rest) = first_word(rest);
    let (key, attr) = first_word(rest);
    let (op, part, key, attr) = (op_id(op), part(dictionary), name_id(key), some_attr(attr));
    if !may_set(ctx, store, key, attr)? || !may_revert(store, op, part, key, attr) {
        return Ok(false);
    }
    store.revert_entry(ctx, op, part, key, attr);
    Ok(true)
}
