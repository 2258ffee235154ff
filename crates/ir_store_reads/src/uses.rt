//! An iterator over the uses of a value.
ghost use Rattle.std.specs.Prelude.{◌≡◌, length, IfSome};
ghost use Rattle.std.specs.Iterator.{YieldsFirst, item_count};
ghost use Rattle.ir_store_slots.specs.Lists.{IsHead};
ghost use Rattle.ir_store_slots.specs.Index.{cells_of};
ghost use Rattle.ir_store_slots.specs.Using.{uses_at};

use crate::users::user_at;
use ir_store_slots::row::UseNode;
use ir_store_slots::types::ids::OpId;
use ir_store_slots::{LinkedLists, Slots};
use std::iter::FusedIterator;
use std::marker::Model;

/// An iterator over the uses of a value, which borrows the module: the users, and the indices of the operands.
/// Contracts see the list of the remaining uses.
#[derive(Drop)]
pub struct UsesOf<'a> {
    slots: &'a Slots,
    cells: &'a Vec<UseNode>,
    uses: &'a LinkedLists,
    /// The node of the next use.
    at: Option<usize>,
}

impl<'a> Model for UsesOf<'a> {
    ghost use Rattle.std.specs.Prelude.{ℕ, List};
    ghost use Rattle.ir_store_slots.specs.Index.{cells_of};
    ghost use Rattle.ir_store_reads.specs.Uses.{uses_left, IsNode};

    ghost Value = { List (ℕ × ℕ) };

    ghost view = { λ s. uses_left s.slots.now (cells_of s.cells.now.items) s.uses.now s.at };

    ghost invariant = { λ s. IsNode s.uses.now.homes s.at };
}

/// Returns an iterator over the uses in the list of a head, or an empty one if there is no head.
pub fn uses_from<'a>(
    slots: &'a Slots,
    cells: &'a Vec<UseNode>,
    uses: &'a LinkedLists,
    head: Option<usize>,
) -> UsesOf<'a>
    requires { IfSome head (λ h. IsHead uses.now.homes h) }
    ensures { result ≡ uses_at slots.now (cells_of cells.now.items) uses.now.lists head }
{
    uses.laws();
    let at = match head {
        None => None,
        Some(head) => uses.first(head),
    };
    UsesOf {
        slots,
        cells,
        uses,
        at,
    }
}

impl<'a> UsesOf<'a> {
    /// Returns the number of remaining uses, by a walk over them.
    pub fn len(&self) -> usize
        ensures { result ≡ length self.now }
    {
        self.uses.laws();
        let mut count = 0;
        let mut at = self.at;
        'uses: while let Some(node) = at {
            count += 1;
            at = self.uses.next(node);
        }
        count
    }
}

impl<'a> Iterator for UsesOf<'a> {
    type Item = (OpId, u32);

    ghost next_gives = { YieldsFirst (λ left. left) };

    ghost remaining = { item_count (λ left. left) };

    fn next(&mut self) -> Option<(OpId, u32)> {
        let Some(node) = self.at else {
            return None;
        };
        self.uses.laws();
        self.at = self.uses.next(node);
        Some(user_at(self.slots, self.cells, node))
    }
}

impl<'a> FusedIterator for UsesOf<'a> {}
