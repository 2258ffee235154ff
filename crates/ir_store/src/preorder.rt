//! The pre-order of the operations of the module.
ghost use Rattle.std.specs.Prelude.{◌≡◌};
ghost use Rattle.ir_store_reads.specs.tree_laws.Reads.{precedes};
ghost use Rattle.ir_store.specs.Lifted.{level_of, lifted};

use crate::store::Store;
use ir_store_reads::types::ids::OpId;

impl Store {
    /// Returns whether `op` comes before `other` in pre-order: an operation comes before the operations inside it, and
    /// these follow the order of the regions and blocks. False if either isn't in the module.
    pub fn precedes(&self, op: OpId, other: OpId) -> bool
        ensures { result ≡ precedes op other self.now.module_of.tree }
    {
        self.distinct();
        let first = self.lift(op, self.lift(op, other));
        let second = self.lift(other, self.lift(other, op));
        if first == second {
            second != other
        } else {
            self.goes_first(first, second)
        }
    }

    /// Returns the ancestor of `op` at the nesting depth of `guide`, or the outermost ancestor if `op` is less deep.
    fn lift(&self, op: OpId, guide: OpId) -> OpId
        ensures { result ≡ lifted (level_of guide self.now.module_of.tree) op self.now.module_of.tree }
    {
        self.distinct();
        let mut at = op;
        let mut left = guide;
        'levels: while let Some(above) = self.parent(left) {
            left = above;
            if let Some(parent) = self.parent(at) {
                at = parent;
            }
        }
        at
    }

    /// Returns whether `op` comes before `other` in pre-order. Both have the same nesting depth.
    fn goes_first(&self, op: OpId, other: OpId) -> bool
        requires { level_of op self.now.module_of.tree ≡ level_of other self.now.module_of.tree }
        ensures { result ≡ precedes op other self.now.module_of.tree }
    {
        self.distinct();
        let mut first = op;
        let mut second = other;
        'around: loop {
            let Some(place) = self.place(first) else {
                return false;
            };
            let Some(trailing) = self.place(second) else {
                return false;
            };
            if place.parent == trailing.parent {
                if place.region == trailing.region {
                    return self.is_before(first, second);
                }
                return place.region < trailing.region;
            }
            first = place.parent;
            second = trailing.parent;
        }
    }
}
