//! Tests of every operation of a tree.
ghost use Rattle.std.specs.Prelude.{◌≡◌, Bool};
ghost use Rattle.ir_tree.specs.Tree.{Op};
ghost use Rattle.ir_tree.specs.Limits.{every, region_every};
ghost use Rattle.ir_tree.specs.View.{region_view};

use crate::tree::{TreeOp, TreeRegion};

/// A test of one operation.
pub trait OpTest {
    /// The operations that pass.
    ghost passes: { Self → Op → Bool };

    /// Returns whether the operation passes.
    fn test(&self, op: &TreeOp) -> bool
        ensures { result ≡ passes self.now op.now };
}

/// Returns whether every operation of a tree passes a test.
#[cycle(every)]
pub fn every_op<T: OpTest>(root: &TreeOp, test: &T) -> bool
    ensures { result ≡ every (T.passes test.now) root.now }
{
    let regions = &root.regions;
    if !test.test(root) {
        return false;
    }
    for region in regions {
        if !every_op_of_region(region, test) {
            return false;
        }
    }
    true
}

/// Returns whether every operation in a region, at every depth, passes a test.
#[cycle(every)]
fn every_op_of_region<T: OpTest>(region: &TreeRegion, test: &T) -> bool
    ensures { result ≡ region_every (T.passes test.now) (region_view region.now) }
{
    if let TreeRegion::Block { ops, .. } = region {
        for op in ops {
            if !every_op(op, test) {
                return false;
            }
        }
    }
    true
}
