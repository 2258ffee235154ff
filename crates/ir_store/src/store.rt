//! The store: the module under edits.
ghost use Rattle.std.specs.Prelude.{◌≡◌, eqb, Some, None, MatchResult, option_map, IfOk, OnOk, false, true, length, slice_set, ◌<◌, []};
ghost use Rattle.std.specs.FinMap as finmap;
ghost use Rattle.std.specs.Ordering.{nat_cmp};
ghost use Rattle.ir_store_reads.specs.trees.Ids.{has_id, op_count};
ghost use Rattle.ir_store_reads.specs.trees.Tree.{head};
ghost use Rattle.ir_store_reads.specs.Lists.{free};
ghost use Rattle.ir_store_reads.specs.Spells.{Represented, Represented-prop};
ghost use Rattle.ir_store_reads.specs.tree_laws.Values.{type_of_value};
ghost use Rattle.ir_store_reads.specs.Using.{AreUses};
ghost use Rattle.ir_store_reads.specs.Reasoned.{rewire_reason};
ghost use Rattle.ir_store_reads.specs.trees.Limits.{most_next};
ghost use Rattle.ir_store_reads.specs.tree_laws.Changes.{operand_at};
ghost use Rattle.ir_store_reads.specs.tree_laws.Reasons.{take_reason};
ghost use Rattle.ir_store_reads.specs.Nodes.{node_of};
ghost use Rattle.ir_store_reads.specs.Stored.{known};
ghost use Rattle.ir_store.specs.Calls.{after_take, after_restore, after_retract, after_operand, CanRestore, CanRetract, raised};
ghost use Rattle.ir_store_reads.specs.Emptied.{seeded};
ghost use Rattle.ir_store.specs.Holds.{HoldsOf, HoldsOf-prop, GoneOf, GoneOf-prop};

use ir_store_reads::capacity::Capacity;
use ir_store_reads::find::{Keys, find, slot};
use ir_store_reads::grow::grow_slot;
use ir_store_reads::insertion_point::{find_insertion, link};
use ir_store_reads::marks::{link_slot, new_marks, reach};
use ir_store_reads::node::Node;
use ir_store_reads::row::UseNode;
use ir_store_reads::spare::NO_SLOT;
use ir_store_reads::trees::place::Place;
use ir_store_reads::trees::tree::TreeOp;
use ir_store_reads::trees::value::Value;
use ir_store_reads::types::ids::{OpId, TypeId};
use ir_store_reads::types::refusal::Refusal;
use ir_store_reads::use_lists::{
    find_idle, find_rewire, free_uses, link_operands, live_type, use_node, use_run, value_head,
};
use ir_store_reads::uses::{UsesOf, uses_from};
use ir_store_reads::{Draft, IdTable, LinkedLists, OrderedLists, Slots};
use std::alloc::{AllocError, Global};
use std::marker::Model;

/// A module under edits: its operations are in slots, linked in lists.
pub struct Store {
    pub(crate) alloc: Global,
    pub(crate) slots: Slots,
    pub(crate) keys: Keys,
    pub(crate) sibs: OrderedLists,
    /// The use lists: one list for each value.
    pub(crate) uses: LinkedLists,
    pub(crate) cells: Vec<UseNode>,
    /// The slots that `release` visits.
    pub(crate) marks: LinkedLists,
    /// The newest free slot: the head of the free list.
    pub(crate) spare: u32,
    pub(crate) root: usize,
    pub(crate) next: u32,
    /// The number of operations of the module.
    pub(crate) count: u64,
    ghost represented: { Represented slots sibs.lists root } by { Represented-prop slots sibs.lists root },
    ghost holds: { HoldsOf slots (finmap.get keys) } by { HoldsOf-prop slots (finmap.get keys) },
    ghost lacks: { GoneOf slots (finmap.get keys) } by { GoneOf-prop slots (finmap.get keys) },
}

impl Drop for Store {
    /// Frees the store. It is written out, so that the crates above call one function.
    fn drop(self) {
        let Store {
            alloc: _,
            slots: _,
            keys: _,
            sibs: _,
            uses: _,
            cells: _,
            marks: _,
            spare: _,
            root: _,
            next: _,
            count: _,
        } = self;
    }
}

impl Model for Store {
    ghost use Rattle.std.specs.Prelude.{eqb};
    ghost use Rattle.std.specs.FinMap as finmap;
    ghost use Rattle.std.specs.Ordering.{nat_cmp};
    ghost use Rattle.ir_store_reads.specs.Stored.{Stored, stored_code};
    ghost use Rattle.ir_store_reads.specs.Index.{Fits, cells_of};

    ghost Value = { Stored };

    ghost coded = { stored_code };

    ghost view = { λ s. record { module_of = record { tree = s.represented.0; next = s.next }; held = s.holds.0; gone = s.lacks.0 } };

    ghost invariant = { λ s. Fits s.slots (finmap.get s.keys) s.sibs s.root s.represented.0 s.uses.homes (cells_of s.cells.items) s.count s.next s.marks.homes };
}

impl Store {
    /// Returns the next free id.
    pub fn next_id(&self) -> u32
        ensures { result ≡ self.now.module_of.next }
    {
        self.next
    }

    /// Returns the root of the module.
    pub fn root(&self) -> OpId
        ensures { result ≡ (head self.now.module_of.tree).id }
    {
        self.slots.id(self.root)
    }

    /// Returns the number of operations of the module, the root included.
    pub fn op_count(&self) -> u64
        ensures { result ≡ op_count self.now.module_of.tree }
    {
        self.count
    }

    /// Returns whether `op` is in the module.
    pub fn in_tree(&self, op: OpId) -> bool
        ensures { result ≡ has_id op self.now.module_of.tree }
    {
        find(&self.slots, &self.keys, op).is_some()
    }
}

impl Store {
    /// Takes `op` out of the module. The store holds it until `release`.
    ///
    /// Refusals, in order: `NoSuchOp`; `IsRoot`; `NotEmpty`; `HasUses`.
    pub fn take(&mut self, op: OpId) -> Result<(), Refusal>
        ensures { MatchResult result (λ _. (take_reason op self.old.module_of.tree ≡ None) × (self.new ≡ after_take op self.old))
            (λ e. (take_reason op self.old.module_of.tree ≡ Some e) × (self.new ≡ self.old)) }
    {
        self.uses.laws();
        let key = match find_idle(
            &self.slots,
            &self.keys,
            &self.sibs,
            &self.uses,
            self.root,
            op,
        ) {
            Ok(key) => key,
            Err(e) => return Err(e),
        };
        let (base, count) = use_run(&self.slots, key);
        free_uses(&mut self.uses, base, count);
        self.sibs.remove(key);
        self.count -= 1;
        self.slots.set_live(key, false);
        link_slot(&mut self.marks, &self.slots, key);
        Ok(())
    }
}

impl Store {
    /// Inserts a held operation again, at `place`. With `fresh`, `op` is the next free id, and the next one becomes
    /// free.
    pub fn restore(&mut self, op: OpId, place: Place, fresh: bool)
        requires { CanRestore op place fresh self.old }
        ensures { self.new ≡ after_restore op place fresh self.old }
    {
        self.sibs.laws();
        let Some((key, head, before)) = find_insertion(
            &self.slots,
            &self.keys,
            &self.sibs,
            op,
            place,
        ) else {
            return;
        };
        link_operands(&mut self.uses, &self.slots, &self.keys, key);
        link(&mut self.sibs, key, head, before);
        self.count += 1;
        self.slots.set_live(key, true);
        link_slot(&mut self.marks, &self.slots, key);
        self.next = raised(fresh, op, self.next);
    }

    /// Takes out an operation that holds no operations and whose values have no uses. With `fresh`, its id becomes free
    /// again.
    pub fn undo_insert(&mut self, op: OpId, fresh: bool)
        requires { CanRetract op fresh self.old }
        ensures { self.new ≡ after_retract op fresh self.old }
    {
        match self.take(op) {
            Ok(()) => {
                if fresh {
                    self.next = op.number();
                }
            }
            Err(_) => {}
        }
    }
}

/// Returns the next free id after `op` is inserted: with `fresh`, the id of `op` is in use.
fn raised(fresh: bool, op: OpId, next: u32) -> u32
    requires { fresh ≡ true → op < most_next }
    ensures { result ≡ raised fresh op next }
{
    if fresh { op.number() + 1 } else { next }
}

impl Store {
    /// Returns the header of `op`, without the operations in its blocks. `op` is in the module or held; otherwise
    /// `None`.
    pub fn node(&self, op: OpId) -> Option<Node<'_>>
        ensures { result ≡ option_map node_of (known op self.now) }
    {
        let Some(key) = slot(&self.keys, op) else {
            return None;
        };
        Some(Node::new(&self.slots, key))
    }
}

impl Store {
    /// Sets an operand to a value of the module and returns the previous operand. Dominance isn't checked.
    pub(crate) fn set_operand_unchecked(
        &mut self,
        op: OpId,
        place: usize,
        value: Value,
    ) -> Result<Value, Refusal>
        ensures done { MatchResult result (λ _. (rewire_reason op place value self.old.module_of.tree ≡ None) × (self.new ≡ after_operand op place value self.old))
            (λ e. (rewire_reason op place value self.old.module_of.tree ≡ Some e) × (self.new ≡ self.old)) }
        ensures was { IfOk result (λ v. operand_at op place self.old.module_of.tree ≡ Some v) }
    {
        let (key, head) = match find_rewire(
            &self.slots,
            &self.keys,
            &self.uses,
            op,
            place,
            &value,
        ) {
            Ok(found) => found,
            Err(e) => return Err(e),
        };
        let node = use_node(&self.slots, key, place);
        self.uses.remove(node);
        let old = self.slots.put_operand(key, place, value);
        self.uses.push_back(node, head);
        Ok(old)
    }
}

impl Store {
    /// Returns the type of a value of the module, or `None` if the module has no such value.
    pub fn value_type(&self, value: Value) -> Option<TypeId>
        ensures { result ≡ type_of_value value self.now.module_of.tree }
    {
        live_type(&self.slots, &self.keys, &value)
    }
}

impl Store {
    /// Returns an iterator over the uses of a value of the module, each once: the user and the index of the operand.
    pub fn uses(&self, value: Value) -> UsesOf<'_>
        ensures { AreUses value self.now.module_of.tree result }
    {
        self.uses.laws();
        let head = value_head(&self.slots, &self.keys, &self.uses, &value);
        uses_from(&self.slots, &self.cells, &self.uses, head)
    }
}

impl Store {
    /// Returns a module of one operation like `header`, without operands and without the operations in its blocks.
    /// `room` is the initial capacity. The store grows beyond it.
    pub(crate) fn from_root(
        alloc: Global,
        header: &TreeOp,
        next: u32,
        headroom: &Capacity,
    ) -> Result<Store, AllocError>
        requires bare { (head header.now).operands ≡ [] }
        requires below { (head header.now).id < next }
        ensures { IfOk result (λ s. s ≡ seeded header.now next) }
    {
        let slots = Slots::with_capacity(
            alloc,
            headroom.slots,
            headroom.short,
            headroom.simple,
            headroom.entered,
            headroom.whole,
        )?;
        let sibs = OrderedLists::with_capacity(alloc, headroom.slots)?;
        let uses = LinkedLists::with_capacity(alloc, headroom.uses)?;
        let cells = Vec::with_capacity(alloc, headroom.uses)?;
        let keys = IdTable::with_capacity(alloc, headroom.ops)?;
        Store::seed_in(alloc, slots, sibs, uses, cells, keys, header, next)
    }

    /// Returns a module of one operation like `header`, in the given empty rows, lists and tables.
    fn seed_in(
        alloc: Global,
        slots: Slots,
        sibs: OrderedLists,
        uses: LinkedLists,
        cells: Vec<UseNode>,
        keys: Keys,
        header: &TreeOp,
        next: u32,
    ) -> Result<Store, AllocError>
        requires bare { (head header.now).operands ≡ [] }
        requires below { (head header.now).id < next }
        requires slots { slots ≡ [] }
        requires sibs { sibs ≡ record { lists = []; homes = []; headroom = 0 } }
        requires uses { uses ≡ record { lists = []; homes = []; headroom = 0 } }
        requires cells { cells.items ≡ [] }
        requires keys { keys ≡ finmap.empty }
        ensures { IfOk result (λ s. s ≡ seeded header.now next) }
    {
        let mut slots = slots;
        let mut sibs = sibs;
        let mut uses = uses;
        let mut cells = cells;
        let mut keys = keys;
        let (root, draft) = match grow_slot(
            alloc, &mut slots, &mut sibs, &mut uses, &mut cells, header.id, header,
        ) {
            Ok(grown) => grown,
            Err(e) => return Err(e),
        };
        sibs.laws();
        uses.laws();
        match write_root(&mut slots, &mut keys, header.id, root, draft) {
            Ok(()) => {}
            Err(e) => return Err(e),
        }
        let mut marks = match new_marks(alloc) {
            Ok(marks) => marks,
            Err(e) => return Err(e),
        };
        match reach(&mut marks, slots.len()) {
            Ok(()) => {}
            Err(e) => return Err(e),
        }
        Ok(Store {
            alloc,
            slots,
            keys,
            sibs,
            uses,
            cells,
            marks,
            spare: NO_SLOT,
            root,
            next,
            count: 1,
        })
    }
}

/// Writes the root into its slot, and maps its id to the slot.
fn write_root(
    slots: &mut Slots,
    keys: &mut Keys,
    op: OpId,
    root: usize,
    draft: Draft,
) -> Result<(), AllocError>
    requires inside { root < length slots.old }
    requires few { root < free }
    ensures key { OnOk result (keys.new ≡ finmap.insert keys.old op root) }
    ensures row { OnOk result (slots.new ≡ slice_set slots.old root (record draft { live = true })) }
{
    match keys.insert(op.number(), root) {
        Ok(()) => {}
        Err(e) => return Err(e),
    }
    match slots.write_op(root, draft) {
        Ok(()) => {}
        Err(e) => return Err(e),
    }
    slots.set_live(root, true);
    Ok(())
}
