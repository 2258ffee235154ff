//! Sets and removes entries of dictionaries.
ghost use Rattle.std.specs.Prelude.{◌≡◌, ◌++◌, ◌∷◌, IfOk, OnOk};
ghost use Rattle.ir_tree.specs.Edits.{put_entry, drop_entry, change_entry, change_part, at, with_entry};
ghost use Rattle.ir_tree.specs.Meaning.{key_before_in};

use crate::edits::{HeadEdit, NoEdit, edited};
use crate::place::Part;
use crate::sound::comes_before;
use crate::tree::TreeOp;
use ir_types::context::Context;
use ir_types::ids::{AttrId, NameId, OpId};
use std::alloc::{AllocError, Global};

/// The entries of a dictionary: keys and attributes.
type Entries = Vec<(NameId, AttrId)>;

/// An entry to set or to remove.
#[derive(Drop)]
struct NewEntry<'a> {
    alloc: Global,
    ctx: &'a Context,
    op: OpId,
    part: Part,
    key: NameId,
    value: Option<AttrId>,
}

impl<'a> HeadEdit for NewEntry<'a> {
    ghost gives = { λ e. at e.op (change_part e.part (change_entry (key_before_in e.ctx.now) e.key e.value)) };

    /// Sets or removes the entry, if this is the operation.
    fn apply(&self, op: &mut TreeOp) -> Result<(), AllocError> {
        if op.id != self.op {
            return Ok(());
        }
        match self.part {
            Part::Props => self.change(&mut op.props),
            Part::Attrs => self.change(&mut op.attrs),
        }
    }
}

impl<'a> NewEntry<'a> {
    /// Sets or removes the entry in a dictionary.
    fn change(&self, entries: &mut Entries) -> Result<(), AllocError>
        ensures { OnOk result (entries.new.items ≡ change_entry (key_before_in self.now.ctx.now) self.now.key self.now.value entries.old.items) }
    {
        *entries = changed(self.alloc, self.ctx, entries, self.key, self.value)?;
        Ok(())
    }
}

/// Returns the tree with a key of one dictionary of an operation set to an attribute, or removed.
#[tactic(auto, using(crate::proofs::Edited::heads_edited))]
pub fn with_entry_set(
    alloc: Global,
    ctx: &Context,
    root: &TreeOp,
    op: OpId,
    part: Part,
    key: NameId,
    value: Option<AttrId>,
) -> Result<TreeOp, AllocError>
    ensures { IfOk result (λ t. t ≡ with_entry (key_before_in ctx.now) op part key value root.now) }
{
    let edit = NewEntry {
        alloc,
        ctx,
        op,
        part,
        key,
        value,
    };
    edited(alloc, root, &edit, &NoEdit)
}

/// Returns a copy of entries with a key set to an attribute, or removed.
fn changed(
    alloc: Global,
    ctx: &Context,
    entries: &Entries,
    key: NameId,
    value: Option<AttrId>,
) -> Result<Entries, AllocError>
    ensures { IfOk result (λ v. v.items ≡ change_entry (key_before_in ctx.now) key value entries.now.items) }
{
    match value {
        None => dropped(alloc, ctx, entries.as_slice(), key),
        Some(attr) => placed(alloc, ctx, entries.as_slice(), key, attr),
    }
}

/// Returns a copy of sorted entries with a key set to an attribute.
fn placed(
    alloc: Global,
    ctx: &Context,
    entries: &[(NameId, AttrId)],
    key: NameId,
    attr: AttrId,
) -> Result<Entries, AllocError>
    ensures { IfOk result (λ v. v.items ≡ put_entry (key_before_in ctx.now) key attr entries.now) }
{
    let mut placed = Vec::new(alloc);
    let mut rest = entries;
    while let [entry, tail @ ..] = rest {
        if comes_before(ctx, key, entry.0) {
            return ended(placed, &(key, attr), rest);
        }
        if !comes_before(ctx, entry.0, key) {
            return ended(placed, &(key, attr), tail);
        }
        placed.push(*entry)?;
        rest = tail;
    }
    ended(placed, &(key, attr), rest)
}

/// Returns entries with one more, and then others, appended.
fn ended(
    entries: Entries,
    entry: &(NameId, AttrId),
    rest: &[(NameId, AttrId)],
) -> Result<Entries, AllocError>
    ensures { IfOk result (λ v. v.items ≡ entries.items ++ entry.now ∷ rest.now) }
{
    let mut entries = entries;
    entries.push(*entry)?;
    entries.extend_from_slice(rest)?;
    Ok(entries)
}

/// Returns a copy of entries without a key.
fn dropped(
    alloc: Global,
    ctx: &Context,
    entries: &[(NameId, AttrId)],
    key: NameId,
) -> Result<Entries, AllocError>
    ensures { IfOk result (λ v. v.items ≡ drop_entry (key_before_in ctx.now) key entries.now) }
{
    let mut left = Vec::new(alloc);
    let mut rest = entries;
    while let [entry, tail @ ..] = rest {
        if !comes_before(ctx, key, entry.0) && !comes_before(ctx, entry.0, key) {
            left.extend_from_slice(tail)?;
            return Ok(left);
        }
        left.push(*entry)?;
        rest = tail;
    }
    Ok(left)
}
