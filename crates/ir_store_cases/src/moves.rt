//! Shifts of operations.
ghost use Rattle.std.specs.Prelude.{◌≡◌, true, IfOk};
ghost use Rattle.ir_tree.specs.Meaning.{isolated_in};
ghost use Rattle.ir_tree.specs.WellFormed.{IsWellFormed};

use crate::calls::are_below;
use ir_store::store::Store;
use ir_tree::check::check;
use ir_tree::numbered::distinct;
use ir_tree::tree::TreeOp;
use ir_tree_cases_base::words::{first_word, op_id, place};
use ir_types::context::Context;
use ir_types::refusal::Refusal;
use std::alloc::Global;

/// Returns whether a tree with a next free id is a well-formed module.
fn is_wellformed(alloc: Global, ctx: &Context, tree: &TreeOp, next: u32) -> Result<bool, Refusal>
    ensures { IfOk result (λ b. b ≡ true → IsWellFormed (isolated_in ctx.now) (record { tree = tree.now; next = next })) }
{
    if !distinct(alloc, tree)? {
        return Ok(false);
    }
    if !are_below(alloc, tree, next)? {
        return Ok(false);
    }
    match check(alloc, ctx, tree) {
        Ok(()) => Ok(true),
        Err(_) => Ok(false),
    }
}

/// Returns whether the precondition of a shift holds: the module is well-formed.
fn may_shift(alloc: Global, ctx: &Context, store: &Store) -> Result<bool, Refusal>
    ensures { IfOk result (λ b. b ≡ true → IsWellFormed (isolated_in ctx.now) store.now.module_of) }
{
    let tree = store.tree()?;
    is_wellformed(alloc, ctx, &tree, store.next_id())
}

/// Shifts an operation. The text has the operation and its new place: `3 2 0 4`.
pub fn shift_line(
    alloc: Global,
    ctx: &Context,
    store: &mut Store,
    text: &str,
) -> Result<bool, Refusal> {
    let (op, at) = first_word(text);
    if !may_shift(alloc, ctx, store)? {
        return Ok(false);
    }
    match store.shift(ctx, op_id(op), place(at)) {
        Ok(()) => Ok(true),
        Err(refusal) => Err(refusal),
    }
}
