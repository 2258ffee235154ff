//! Computes the answer to a line.
ghost use Rattle.std.specs.Prelude.{◌<◌, IsTrue, IfOk, OnOk};
ghost use Rattle.std.specs.List.{All};
ghost use Rattle.ir_tree.specs.Ids.{HasDistinctIds, ids};
ghost use Rattle.ir_tree.specs.Meaning.{IsSoundIn};

use crate::edits::{entry_line, put_line, set_line, take_line};
use crate::moves::shift_line;
use crate::reads::sum_of;
use crate::state::{Loaded, Show};
use crate::undone::{restore_line, retract_line, revert_line};
use ir_store::store::Store;
use ir_tree::check::check;
use ir_tree::find::list_ids;
use ir_tree::numbered::distinct;
use ir_tree::sound::sound;
use ir_tree::tree::TreeOp;
use ir_tree_cases_base::words::{first_word, number};
use ir_tree_cases_base::{build, written};
use ir_types::context::Context;
use ir_types::refusal::Refusal;
use std::alloc::{AllocError, Global};
use std::fmt::Write;

/// Returns whether all ids of a tree are below a number.
pub fn are_below(alloc: Global, tree: &TreeOp, next: u32) -> Result<bool, Refusal>
    ensures { IfOk result (λ b. IsTrue b → All (λ x. x < next) (ids tree.now)) }
{
    let ids = list_ids(alloc, tree)?;
    Ok(ids.iter().all(|id| id.number() < next))
}

/// Checks the preconditions of loading a tree. Refuses with `NoSuchIndex` if one doesn't hold.
fn suit(alloc: Global, context: &Context, tree: &TreeOp, next: u32) -> Result<(), Refusal>
    ensures sound { OnOk result (IsSoundIn context.now tree.now) }
    ensures distinct { OnOk result (HasDistinctIds tree.now) }
    ensures below { OnOk result (All (λ x. x < next) (ids tree.now)) }
{
    if !sound(context, tree) || !distinct(alloc, tree)? || !are_below(alloc, tree, next)? {
        return Err(Refusal::NoSuchIndex);
    }
    Ok(())
}

/// Returns a module with a copy of a tree.
fn load(alloc: Global, context: &Context, tree: &TreeOp, next: u32) -> Result<Store, Refusal> {
    suit(alloc, context, tree, next)?;
    Store::load(alloc, context, tree, next)
}

/// Returns a module with a tree that was checked before.
fn hold(alloc: Global, context: &Context, tree: TreeOp, next: u32) -> Result<Store, Refusal> {
    suit(alloc, context, &tree, next)?;
    check(alloc, context, &tree)?;
    Store::from_checked(alloc, context, tree, next)
}

/// Returns a module with a copy of a tree, or with the tree.
fn made(alloc: Global, ctx: &Context, call: &str, text: &str) -> Result<Store, Refusal> {
    let (next, words) = text.split_once(" : ").unwrap_or((text, ""));
    let tree = build::tree(alloc, words)?;
    if call == "hold" {
        return hold(alloc, ctx, tree, number(next));
    }
    load(alloc, ctx, &tree, number(next))
}

/// Loads a module. The text has the next free id and the tree: `9 : op block end end`.
fn load_line(
    alloc: Global,
    ctx: &Context,
    loaded: &mut Loaded,
    call: &str,
    text: &str,
) -> Result<bool, Refusal> {
    let store = made(alloc, ctx, call, text)?;
    loaded.store = Some(store);
    Ok(true)
}

/// Sets what is shown: `tree`, `sum`, or nothing for any other word.
fn show_line(loaded: &mut Loaded, text: &str) -> Result<bool, Refusal> {
    loaded.show = match text {
        "tree" => Show::Tree,
        "sum" => Show::Sum,
        _ => Show::Nothing,
    };
    Ok(true)
}

/// Releases held operations. The text has the first id to release: `5`.
fn release_line(store: &mut Store, text: &str) -> Result<bool, Refusal> {
    store.release(number(text));
    Ok(true)
}

/// Makes an edit. Returns whether the module was called.
fn edit(alloc: Global, ctx: &Context, store: &mut Store, line: &str) -> Result<bool, Refusal> {
    let (call, rest) = first_word(line);
    match call {
        "put" => put_line(alloc, ctx, store, rest),
        "take" => take_line(store, rest),
        "set" => set_line(ctx, store, rest),
        "entry" => entry_line(ctx, store, rest),
        "restore" => restore_line(store, rest),
        "retract" => retract_line(alloc, store, rest),
        "revert" => revert_line(ctx, store, rest),
        "shift" => shift_line(alloc, ctx, store, rest),
        "release" => release_line(store, rest),
        _ => Ok(false),
    }
}

/// Writes what came of a call.
fn write_answer(out: &mut String, answer: Result<bool, Refusal>) -> Result<(), AllocError> {
    match answer {
        Ok(true) => out.push_str("ok"),
        Ok(false) => out.push_str("unasked"),
        Err(refusal) => write!(out, "{refusal}"),
    }
}

/// Writes a tree and the next free id.
fn write_tree(out: &mut String, tree: &TreeOp, next: u32) -> Result<(), AllocError> {
    write!(out, " {next} : ")?;
    written::write_op(out, tree)
}

/// Writes a sum over a tree and all reads of the module.
fn write_sum(
    alloc: Global,
    out: &mut String,
    ctx: &Context,
    store: &Store,
    tree: &TreeOp,
) -> Result<(), AllocError> {
    let words = written::tree(alloc, tree)?;
    let sum = sum_of(ctx, store, words.as_bytes());
    write!(out, " {sum}")
}

/// Writes the module after an answer, or a sum over it.
fn write_module(
    alloc: Global,
    out: &mut String,
    ctx: &Context,
    store: &Store,
    show: Show,
) -> Result<(), Refusal> {
    let tree = store.tree()?;
    match show {
        Show::Tree => Ok(write_tree(out, &tree, store.next_id())?),
        _ => Ok(write_sum(alloc, out, ctx, store, &tree)?),
    }
}

/// Makes an edit of the module, if there is one. Writes the answer followed by the module after it.
fn write_edit(
    alloc: Global,
    out: &mut String,
    ctx: &Context,
    loaded: &mut Loaded,
    line: &str,
) -> Result<(), Refusal> {
    let Loaded { store, show } = loaded;
    let Some(store) = store else {
        return Ok(out.push_str("no module")?);
    };
    let answer = edit(alloc, ctx, store, line);
    write_answer(out, answer)?;
    match show {
        Show::Nothing => Ok(()),
        _ => write_module(alloc, out, ctx, store, *show),
    }
}

/// Writes the answer to a line.
pub fn write_line(
    alloc: Global,
    out: &mut String,
    ctx: &Context,
    loaded: &mut Loaded,
    line: &str,
) -> Result<(), Refusal> {
    let (call, rest) = first_word(line);
    match call {
        "load" | "hold" => Ok(write_answer(out, load_line(alloc, ctx, loaded, call, rest))?),
        "show" => Ok(write_answer(out, show_line(loaded, rest))?),
        _ => write_edit(alloc, out, ctx, loaded, line),
    }
}
