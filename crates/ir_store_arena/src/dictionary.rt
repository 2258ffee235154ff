//! A dictionary with the slots of removed keys.
ghost use Rattle.std.specs.Prelude.{◌≡◌, [], true, length, nat_lt, IfOk, OnOk, OnErr, IsOk, Some, None, is_some};
ghost use Rattle.ir_tree_laws.specs.trees.Edits.{entry_at};
ghost use Rattle.ir_tree_laws.specs.trees.Meaning.{key_before_in, rises};
ghost use Rattle.ir_store_arena.specs.Slots.{has_key, has_slot, with_change};

use crate::lookup::{binary_search, contains, find_entry, forget, value_at};
use ir_tree_laws::types::context::Context;
use ir_tree_laws::types::ids::{AttrId, NameId};
use smallvec::SmallVec;
use std::alloc::{AllocError, Global};
use std::marker::Model;

/// The entries of a dictionary, sorted by the bytes of their keys, followed by the entries of removed keys. Up to two
/// entries are inline.
#[derive(Drop)]
pub struct Dictionary {
    items: SmallVec<(NameId, AttrId), 2>,
    len: usize,
}

impl Model for Dictionary {
    ghost use Rattle.std.specs.Prelude.{◌≤◌, length};
    ghost use Rattle.ir_store_arena.specs.Slots.{Slots, slots_code, slots_of};

    ghost Value = { Slots };

    ghost coded = { slots_code };

    ghost view = { λ d. slots_of d.len d.items.items };

    ghost invariant = { λ d. d.len ≤ length d.items.items };
}

impl Dictionary {
    /// Returns a dictionary without entries and slots.
    pub fn new(alloc: Global) -> Dictionary
        ensures { result ≡ record { present = []; gone = [] } }
    {
        Dictionary {
            items: SmallVec::new(alloc),
            len: 0,
        }
    }

    /// Returns a dictionary of these entries, without slots of removed keys.
    pub fn from_slice(alloc: Global, entries: &[(NameId, AttrId)]) -> Result<Dictionary, AllocError>
        ensures { IfOk result (λ d. d ≡ record { present = entries.now; gone = [] }) }
    {
        let items = SmallVec::from_slice(alloc, entries)?;
        Ok(Dictionary {
            len: items.len(),
            items,
        })
    }

    /// Returns the entries.
    pub fn as_slice(&self) -> &[(NameId, AttrId)]
        ensures { result.now ≡ self.now.present }
    {
        let (present, _gone) = self.items.as_slice().split_at(self.len);
        present
    }

    /// Returns the number of entries.
    pub fn len(&self) -> usize
        ensures { result ≡ length self.now.present }
    {
        self.as_slice().len()
    }

    /// Returns the attribute at a key, or `None` if there is none.
    pub fn get(&self, ctx: &Context, key: NameId) -> Option<AttrId>
        ensures { result ≡ entry_at (key_before_in ctx.now) key self.now.present }
    {
        value_at(ctx, self.as_slice(), key)
    }

    /// Returns whether the dictionary has an entry at `key`.
    pub fn has_key(&self, key: NameId) -> bool
        ensures { result ≡ has_key key self.now.present }
    {
        contains(self.as_slice(), key)
    }

    /// Returns whether the dictionary has an entry at `key`, or the slot of the removed key.
    pub fn has_slot(&self, key: NameId) -> bool
        ensures { result ≡ has_slot key self.now }
    {
        contains(self.items.as_slice(), key)
    }

    /// Sets `key` to an attribute, as a new entry or in place of the old one. Needs memory only if the key has no slot.
    pub fn set(&mut self, ctx: &Context, key: NameId, attr: AttrId) -> Result<(), AllocError>
        ensures set { OnOk result (self.new ≡ with_change (key_before_in ctx.now) key (Some attr) self.old) }
        ensures refused { OnErr result (self.new ≡ self.old) }
        ensures slot { rises (key_before_in ctx.now) self.old.present ≡ true → has_slot key self.old ≡ true → IsOk result }
    {
        let (present, _gone) = self.items.as_slice().split_at(self.len);
        let point = binary_search(ctx, present, key);
        forget(&mut self.items, self.len, key);
        match point {
            Ok(at) => {
                self.items[at] = (key, attr);
                Ok(())
            }
            Err(at) => match self.items.insert(at, (key, attr)) {
                Ok(()) => {
                    self.len += 1;
                    Ok(())
                }
                Err(_) => Err(AllocError),
            },
        }
    }

    /// Removes a key. Its slot is kept.
    pub fn remove(&mut self, ctx: &Context, key: NameId)
        requires { is_some (entry_at (key_before_in ctx.now) key self.old.present) ≡ true }
        ensures { self.new ≡ with_change (key_before_in ctx.now) key None self.old }
    {
        let (present, _gone) = self.items.as_slice().split_at(self.len);
        let Some(at) = find_entry(ctx, present, key) else {
            unreachable!()
        };
        // The length is at most the capacity.
        let _count = self.items.len();
        let (_key, attr) = self.items.remove(at);
        self.len -= 1;
        match self.items.push((key, attr)) {
            Ok(()) => {}
            Err(_) => unreachable!(),
        }
    }

    /// Sets a key that has a slot to an attribute, or removes the key. Needs no memory.
    pub fn revert(&mut self, ctx: &Context, key: NameId, attr: Option<AttrId>)
        requires sorted { rises (key_before_in ctx.now) self.old.present ≡ true }
        requires slot { has_slot key self.old ≡ true }
        requires entry { attr ≡ None → has_key key self.old.present ≡ true }
        ensures { self.new ≡ with_change (key_before_in ctx.now) key attr self.old }
    {
        match attr {
            None => self.remove(ctx, key),
            Some(attr) => match self.set(ctx, key, attr) {
                Ok(()) => {}
                Err(_) => unreachable!(),
            },
        }
    }

    /// Returns whether the dictionary has the slot of a removed key.
    pub fn has_gone(&self) -> bool
        ensures { result ≡ nat_lt 0 (length self.now.gone) }
    {
        self.len < self.items.len()
    }

    /// Releases the slots of removed keys.
    pub fn drop_gone(&mut self)
        ensures { self.new ≡ record self.old { gone = [] } }
    {
        self.items.truncate(self.len);
    }
}
