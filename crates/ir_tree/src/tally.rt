//! The counts of a walk through a tree.
ghost use Rattle.std.specs.Prelude.{◌≡◌};
ghost use Rattle.ir_tree.specs.Tallied.{nothing_visited, with_op, inwards};

use crate::limits::fits;
use crate::tree::TreeOp;

/// The number of operations that a walk has visited, whether all keep within the depth limit, and whether all keep
/// within the limits of counts. The number saturates at `u64::MAX`.
#[derive(Drop)]
pub struct Tally {
    /// The number of visited operations.
    pub ops: u64,
    /// Whether all visited operations keep within the depth limit.
    pub shallow: bool,
    /// Whether all visited operations keep within the limits of counts.
    pub fits: bool,
}

impl Tally {
    /// Returns the tally before a walk.
    pub fn new() -> Tally
        ensures { result ≡ nothing_visited }
    {
        Tally {
            ops: 0,
            shallow: true,
            fits: true,
        }
    }

    /// Counts an operation.
    pub fn meet(&mut self, op: &TreeOp)
        ensures { self.new ≡ with_op op.now self.old }
    {
        self.ops = self.ops.saturating_add(1);
        self.fits = self.fits && fits(op);
    }

    /// Enters a nested operation, with `spare` levels left of the depth limit.
    pub fn go_in(&mut self, spare: u64)
        ensures { self.new ≡ inwards spare self.old }
    {
        self.shallow = self.shallow && 0 < spare;
    }
}
