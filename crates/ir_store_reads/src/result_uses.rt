//! The uses of the results of an operation.
ghost use Rattle.std.specs.Prelude.{◌≡◌, ◌<◌, [], length, get_or};
ghost use Rattle.ir_store_slots.specs.Index.{AreHeads, cells_of};
ghost use Rattle.ir_store_reads.specs.Uses.{uses_of_each};

use crate::uses::{UsesOf, uses_from};
use ir_store_slots::row::UseNode;
use ir_store_slots::{LinkedLists, Slots};
use std::marker::Model;

/// The uses of the results of an operation, which borrow the module. Contracts see a list of uses for each result.
#[derive(Drop)]
pub struct ResultUses<'a> {
    slots: &'a Slots,
    cells: &'a Vec<UseNode>,
    uses: &'a LinkedLists,
    /// The head of the use list of the first result. The heads of the others follow it.
    first: usize,
    /// The number of results.
    count: usize,
}

impl<'a> Model for ResultUses<'a> {
    ghost use Rattle.std.specs.Prelude.{ℕ, List};
    ghost use Rattle.ir_store_slots.specs.Index.{AreHeads, cells_of};
    ghost use Rattle.ir_store_reads.specs.Uses.{uses_of_each};

    ghost Value = { List (List (ℕ × ℕ)) };

    ghost view = { λ s. uses_of_each s.slots.now (cells_of s.cells.now.items) s.uses.now.lists s.first s.count };

    ghost invariant = { λ s. AreHeads s.first s.count s.uses.now.homes };
}

impl<'a> ResultUses<'a> {
    /// Returns the uses of `count` results. `first` is the head of the use list of the first result.
    #[inline(always)]
    pub fn new(
        slots: &'a Slots,
        cells: &'a Vec<UseNode>,
        uses: &'a LinkedLists,
        first: usize,
        count: usize,
    ) -> ResultUses<'a>
        requires { AreHeads first count uses.now.homes }
        ensures { result ≡ uses_of_each slots.now (cells_of cells.now.items) uses.now.lists first count }
    {
        ResultUses {
            slots,
            cells,
            uses,
            first,
            count,
        }
    }

    /// Returns an iterator over the uses of a result.
    #[inline(always)]
    pub fn of(&self, place: u32) -> UsesOf<'a>
        requires { place < length self.now }
        ensures { result ≡ get_or self.now place [] }
    {
        let head = self.first + place as usize;
        uses_from(self.slots, self.cells, self.uses, Some(head))
    }
}
