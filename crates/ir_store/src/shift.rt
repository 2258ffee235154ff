//! Moves operations, with everything inside them, to other places.
ghost use Rattle.std.specs.Prelude.{◌≡◌, ◌-◌, eqb, length, MatchOption, Some, is_some, ◌&&◌, true, false, None, MatchResult};
ghost use Rattle.std.specs.FinMap as finmap;
ghost use Rattle.std.specs.Ordering.{nat_cmp};
ghost use Rattle.ir_store_reads.specs.types.Terms.{name_term};
ghost use Rattle.ir_store_reads.specs.types.Words.{is_table};
ghost use Rattle.ir_store_reads.specs.trees.Tree.{Op, head};
ghost use Rattle.ir_store_reads.specs.trees.Places.{shifted};
ghost use Rattle.ir_store_reads.specs.tree_laws.Tables.{table_of};
ghost use Rattle.ir_store_reads.specs.trees.Ids.{find as the_first, has_id};
ghost use Rattle.ir_store_reads.specs.trees.Limits.{most_around};
ghost use Rattle.ir_store_reads.specs.trees.Meaning.{isolated_in};
ghost use Rattle.ir_store_reads.specs.trees.WellFormed.{IsWellFormed};
ghost use Rattle.ir_store_reads.specs.tree_laws.Reads.{around, is_within};
ghost use Rattle.ir_store_reads.specs.tree_laws.Reasons.{fits_around, leads_inside, levels_in, same_table, shift_reason};
ghost use Rattle.ir_store.specs.Calls.{after_shift};
ghost use Rattle.ir_store_reads.specs.Rows.{live_slot};
ghost use Rattle.ir_store_reads.specs.Points.{point_in};
ghost use Rattle.ir_store.specs.Shifting.{CanRelink, level, relink_reason, table_at, unseen_reason};

use crate::store::Store;
use ir_store_reads::depth::op_fits;
use ir_store_reads::find::{Keys, find};
use ir_store_reads::insertion_point::{find_insertion_point, link};
use ir_store_reads::trees::limits::MOST_AROUND;
use ir_store_reads::trees::place::Place;
use ir_store_reads::types::context::Context;
use ir_store_reads::types::ids::OpId;
use ir_store_reads::types::refusal::Refusal;
use ir_store_reads::use_lists::id_at;
use ir_store_reads::{OrderedLists, Slots};

impl Store {
    /// Moves an operation of the module, but not the root, to a place outside of it. Everything inside the operation
    /// moves too. Neither the nearest symbol table nor the nesting depth nor dominance is checked, so this call is for
    /// undoing a move. It needs no memory and never fails.
    pub fn move_unchecked(&mut self, op: OpId, place: Place)
        requires { CanRelink op place self.old.module_of.tree }
        ensures { self.new ≡ after_shift op place self.old }
    {
        self.sibs.laws();
        let Some((key, head, before)) = find_move(&self.slots, &self.keys, &self.sibs, op, place)
        else {
            return;
        };
        self.sibs.remove(key);
        self.sibs.laws();
        link(&mut self.sibs, key, head, before);
    }
}

impl Store {
    /// Moves `op`, with everything inside it, to `place`.
    ///
    /// Refusals, in order: `NoSuchOp` if `op` or the parent of `place` isn't in the module; `IsRoot`; `NoSuchIndex` if
    /// there is no such place; `IntoItself` if `place` is inside `op` or directly before it; `OtherTable` if the
    /// nearest symbol table around `place` is another one; `TooDeepHere`; `NotVisible` if an operand of the module
    /// would no longer be visible (Language Reference, "Regions", on value scoping). A refused shift leaves the store
    /// unchanged. It needs no memory.
    pub fn shift(&mut self, ctx: &Context, op: OpId, place: Place) -> Result<(), Refusal>
        requires { IsWellFormed (isolated_in ctx.now) self.old.module_of }
        ensures done { MatchResult result
            (λ _. (shift_reason (isolated_in ctx.now) (λ n. is_table (name_term ctx.now n)) op place self.old.module_of.tree ≡ None) × (self.new ≡ after_shift op place self.old))
            (λ e. (shift_reason (isolated_in ctx.now) (λ n. is_table (name_term ctx.now n)) op place self.old.module_of.tree ≡ Some e) × (self.new ≡ self.old)) }
        ensures wellformed { IsWellFormed (isolated_in ctx.now) self.new.module_of }
    {
        self.distinct();
        match self.dominance_fault(ctx, op, &place) {
            Some(refusal) => return Err(refusal),
            None => {}
        }
        let Some(old) = self.place(op) else {
            return Err(Refusal::NoSuchOp);
        };
        self.move_unchecked(op, place);
        if self.operands_dominate(ctx, op) {
            return Ok(());
        }
        self.move_unchecked(op, old);
        Err(Refusal::NotVisible)
    }
}

impl Store {
    /// Returns the reason that `op` can't be moved to `place`, or `None`. Its symbol table, its nesting depth and
    /// dominance at `place` aren't checked.
    fn move_fault(&self, op: OpId, place: &Place) -> Option<Refusal>
        ensures { result ≡ relink_reason op place.now self.now.module_of.tree }
    {
        if !self.in_tree(op) || !self.in_tree(place.parent) {
            return Some(Refusal::NoSuchOp);
        }
        if self.is_root(op) {
            return Some(Refusal::IsRoot);
        }
        if !self.has_place(place) {
            return Some(Refusal::NoSuchIndex);
        }
        if self.leads_inside(op, place) {
            return Some(Refusal::IntoItself);
        }
        None
    }

    /// Returns whether `op` is the root.
    pub(crate) fn is_root(&self, op: OpId) -> bool
        ensures { result ≡ eqb (head self.now.module_of.tree).id op }
    {
        id_at(&self.slots, self.root) == op
    }

    /// Returns whether the parent of `place`, or the next operation there, is `op` or inside `op`.
    fn leads_inside(&self, op: OpId, place: &Place) -> bool
        requires { has_id op self.now.module_of.tree ≡ true }
        ensures { result ≡ leads_inside place.now (the_first op self.now.module_of.tree) }
    {
        if self.is_within(place.parent, op) {
            return true;
        }
        match place.before {
            None => false,
            Some(before) => self.is_within(before, op),
        }
    }

    /// Returns whether `inner` is `op`, an operation of the module, or inside `op`.
    pub(crate) fn is_within(&self, inner: OpId, op: OpId) -> bool
        requires { has_id op self.now.module_of.tree ≡ true }
        ensures { result ≡ is_within inner (the_first op self.now.module_of.tree) }
    {
        self.distinct();
        let mut at = inner;
        'around: while at != op {
            let Some(place) = self.place(at) else {
                return false;
            };
            at = place.parent;
        }
        true
    }
}

impl Store {
    /// Returns the reason that `op` can't be shifted to `place`, or `None`. Dominance at `place` isn't checked.
    pub(crate) fn dominance_fault(&self, ctx: &Context, op: OpId, place: &Place) -> Option<Refusal>
        ensures { result ≡ unseen_reason (λ n. is_table (name_term ctx.now n)) op place.now self.now.module_of.tree }
    {
        match self.move_fault(op, place) {
            Some(refusal) => return Some(refusal),
            None => {}
        }
        if !self.keeps_table(ctx, op, place) {
            return Some(Refusal::OtherTable);
        }
        if !self.fits_in(op, place.parent) {
            return Some(Refusal::TooDeepHere);
        }
        None
    }
}

impl Store {
    /// Returns whether `op`, which can be moved to `place`, has the same nearest symbol table there.
    fn keeps_table(&self, ctx: &Context, op: OpId, place: &Place) -> bool
        requires { CanRelink op place.now self.now.module_of.tree }
        ensures { result ≡ same_table (table_of (λ n. is_table (name_term ctx.now n)) op self.now.module_of.tree) (table_of (λ n. is_table (name_term ctx.now n)) op (shifted op place.now self.now.module_of.tree)) }
    {
        self.distinct();
        let Some(old) = self.place(op) else {
            return false;
        };
        self.table_from(ctx, old.parent) == self.table_from(ctx, place.parent)
    }

    /// Returns the nearest symbol table: `op`, an operation of the module, or its nearest ancestor that is one.
    fn table_from(&self, ctx: &Context, op: OpId) -> Option<OpId>
        requires { has_id op self.now.module_of.tree ≡ true }
        ensures { result ≡ table_at (λ n. is_table (name_term ctx.now n)) op self.now.module_of.tree }
    {
        self.distinct();
        let mut at = op;
        'around: while !self.is_table(ctx, at) {
            let Some(place) = self.place(at) else {
                return None;
            };
            at = place.parent;
        }
        Some(at)
    }

    /// Returns whether an operation of the module has a symbol table.
    fn is_table(&self, ctx: &Context, op: OpId) -> bool
        ensures { (o : Op) → the_first op self.now.module_of.tree ≡ Some o → result ≡ is_table (name_term ctx.now (head o).name) }
    {
        match self.node(op) {
            None => false,
            Some(node) => ctx.table(node.name()),
        }
    }
}

impl Store {
    /// Returns whether `op`, moved into `parent`, keeps within the depth limit, with everything inside it.
    fn fits_in(&self, op: OpId, parent: OpId) -> bool
        requires op { has_id op self.now.module_of.tree ≡ true }
        requires parent { has_id parent self.now.module_of.tree ≡ true }
        ensures { result ≡ fits_around (levels_in (the_first op self.now.module_of.tree)) (around parent self.now.module_of.tree) }
    {
        self.sibs.laws();
        self.distinct();
        let Some(key) = find(&self.slots, &self.keys, op) else {
            return false;
        };
        let headroom = self.headroom_in(parent);
        op_fits(&self.slots, &self.sibs, key, headroom)
    }

    /// Returns whether an operation with `levels` levels inside it keeps within the depth limit as a child of `parent`.
    pub fn fits_around(&self, parent: OpId, levels: u32) -> bool
        requires { has_id parent self.now.module_of.tree ≡ true }
        ensures { result ≡ fits_around levels (around parent self.now.module_of.tree) }
    {
        self.distinct();
        levels < self.headroom_in(parent)
    }

    /// Returns how many levels may be nested inside an operation of the module.
    fn headroom_in(&self, op: OpId) -> u32
        ensures { result ≡ most_around - level (around op self.now.module_of.tree) }
    {
        self.distinct();
        let mut at = op;
        let mut headroom = MOST_AROUND as u32;
        'around: while headroom > 0 {
            let Some(place) = self.place(at) else {
                return headroom;
            };
            at = place.parent;
            headroom -= 1;
        }
        0
    }
}

/// Returns the slot of an operation of the module, and the insertion point of its new place.
fn find_move(
    slots: &Slots,
    keys: &Keys,
    sibs: &OrderedLists,
    op: OpId,
    place: Place,
) -> Option<(usize, usize, Option<usize>)>
    requires { length slots.now ≡ length sibs.now.homes }
    ensures { MatchOption result ((is_some (live_slot slots.now (finmap.get keys.now) op) && is_some (point_in slots.now (finmap.get keys.now) sibs.now.homes place)) ≡ false)
        (λ p. (Some p.0 ≡ live_slot slots.now (finmap.get keys.now) op) × (Some (p.1, p.2) ≡ point_in slots.now (finmap.get keys.now) sibs.now.homes place)) }
{
    let key = find(slots, keys, op)?;
    let (head, before) = find_insertion_point(slots, keys, sibs, place)?;
    Some((key, head, before))
}
