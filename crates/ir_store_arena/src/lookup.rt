//! Searches for a key among entries.
ghost use Rattle.std.specs.Prelude.{◌≡◌, ℕ, ◌<◌, ◌≤◌, ◌+◌, ◌⊎◌, length, take, drop, true, false, slice_set, None, MatchOption, MatchResult};
ghost use Rattle.std.specs.List.{insert, remove};
ghost use Rattle.smallvec.specs.SmallVec.{HasRoomFor};
ghost use Rattle.ir_tree_laws.specs.trees.Edits.{put_entry, drop_entry, entry_at, same_key};
ghost use Rattle.ir_tree_laws.specs.trees.Meaning.{key_before_in, rises};
ghost use Rattle.ir_store_arena.specs.Slots.{has_key, is_gone, keep_gone, keys};

use ir_tree_laws::trees::sound::comes_before;
use ir_tree_laws::types::context::Context;
use ir_tree_laws::types::ids::{AttrId, NameId};
use smallvec::SmallVec;

/// Returns the index of a key in a dictionary (`Ok`), or the index at which to insert it (`Err`).
pub(crate) fn binary_search(
    ctx: &Context,
    entries: &[(NameId, AttrId)],
    key: NameId,
) -> Result<usize, usize>
    ensures { MatchResult result
        (λ i. (i < length entries.now) × ((a : ℕ) → put_entry (key_before_in ctx.now) key a entries.now ≡ slice_set entries.now i (key, a)))
        (λ i. (i ≤ length entries.now) × ((a : ℕ) → put_entry (key_before_in ctx.now) key a entries.now ≡ insert entries.now i (key, a)) × (rises (key_before_in ctx.now) entries.now ≡ true → has_key key entries.now ≡ false)) }
{
    let mut at = 0;
    let mut rest = entries;
    while let [entry, tail @ ..] = rest {
        if comes_before(ctx, key, entry.0) {
            return Err(at);
        }
        if !comes_before(ctx, entry.0, key) {
            return Ok(at);
        }
        at += 1;
        rest = tail;
    }
    Err(at)
}

/// Returns whether neither of two keys is before the other.
fn is_same(ctx: &Context, one: NameId, other: NameId) -> bool
    ensures { result ≡ same_key (key_before_in ctx.now) one other }
{
    !comes_before(ctx, one, other) && !comes_before(ctx, other, one)
}

/// Returns the index of a key in a dictionary, or `None` if the dictionary doesn't have the key.
pub(crate) fn find_entry(ctx: &Context, entries: &[(NameId, AttrId)], key: NameId) -> Option<usize>
    ensures { MatchOption result
        (entry_at (key_before_in ctx.now) key entries.now ≡ None)
        (λ i. (i < length entries.now) × (drop_entry (key_before_in ctx.now) key entries.now ≡ remove entries.now i)) }
{
    let mut at = 0;
    let mut rest = entries;
    while let [entry, tail @ ..] = rest {
        if is_same(ctx, key, entry.0) {
            return Some(at);
        }
        at += 1;
        rest = tail;
    }
    None
}

/// Returns the attribute at a key of a dictionary, or `None` if there is none.
pub(crate) fn value_at(ctx: &Context, entries: &[(NameId, AttrId)], key: NameId) -> Option<AttrId>
    ensures { result ≡ entry_at (key_before_in ctx.now) key entries.now }
{
    let mut rest = entries;
    while let [entry, tail @ ..] = rest {
        if is_same(ctx, key, entry.0) {
            return Some(entry.1);
        }
        rest = tail;
    }
    None
}

/// Returns the index of a key among the removed keys, or `None` if it isn't one.
pub(crate) fn find_gone(gone: &[(NameId, AttrId)], key: NameId) -> Option<usize>
    ensures { MatchOption result
        ((is_gone key (keys gone.now) ≡ false) × (keep_gone key (keys gone.now) ≡ keys gone.now))
        (λ i. (i < length gone.now) × (keep_gone key (keys gone.now) ≡ keys (remove gone.now i))) }
{
    let mut at = 0;
    let mut rest = gone;
    while let [entry, tail @ ..] = rest {
        if entry.0 == key {
            return Some(at);
        }
        at += 1;
        rest = tail;
    }
    None
}

/// Returns whether a dictionary has a key.
pub(crate) fn contains(entries: &[(NameId, AttrId)], key: NameId) -> bool
    ensures { result ≡ has_key key entries.now }
{
    entries.iter().any(|entry| entry.0 == key)
}

/// Releases the slot of a removed key, if the key has one.
pub(crate) fn forget(items: &mut SmallVec<(NameId, AttrId), 2>, len: usize, key: NameId)
    requires { len ≤ length items.old.items }
    ensures len { len ≤ length items.new.items }
    ensures present { take len items.new.items ≡ take len items.old.items }
    ensures gone { keys (drop len items.new.items) ≡ keep_gone key (keys (drop len items.old.items)) }
    ensures kept { (items.new.items ≡ items.old.items) ⊎ HasRoomFor items.new 1 }
    ensures headroom { is_gone key (keys (drop len items.old.items)) ≡ true → HasRoomFor items.new 1 }
{
    let (_present, gone) = items.as_slice().split_at(len);
    let Some(at) = find_gone(gone, key) else {
        return;
    };
    // The length is at most the capacity.
    let _count = items.len();
    let _slot = items.remove(len + at);
}
