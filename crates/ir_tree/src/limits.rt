//! The limits of a module's counts.
ghost use Rattle.std.specs.Prelude.{◌≡◌, map};
ghost use Rattle.ir_tree.specs.Tree.{head, regions_of};
ghost use Rattle.ir_tree.specs.Limits.{op_fits, head_fits, items_fit, arguments_pass, all_arguments_pass, counts_fit};
ghost use Rattle.ir_tree.specs.View.{region_view};

use crate::count::op_count;
use crate::every::{OpTest, every_op};
use crate::tree::{TreeOp, TreeRegion};

/// The limit of operations of a module, the root included.
pub const MOST_OPS: u64 = 1_048_576;

/// The depth limit: the number of ancestors of an operation.
pub const MOST_AROUND: u64 = 128;

/// The limit of operands, of results, of arguments of a block and of entries of a dictionary.
pub const MOST_ITEMS: usize = 256;

/// The limit of regions of an operation.
pub const MOST_REGIONS: usize = 16;

/// The test of one operation's counts.
struct Counts;

impl OpTest for Counts {
    ghost passes = { λ _. op_fits };

    /// Returns whether each count of the operation is within its limit.
    fn test(&self, op: &TreeOp) -> bool {
        fits(op)
    }
}

/// Returns whether every count of a tree is within its limit: its operations, and for each operation the operands,
/// results, entries of a dictionary, regions and arguments of a block.
pub fn counts_are_within(root: &TreeOp) -> bool
    ensures { result ≡ counts_fit root.now }
{
    op_count(root) <= MOST_OPS && every_op(root, &Counts)
}

/// Returns whether the counts of an operation are within the limits.
#[tactic(auto, using(crate::proofs::Lists::region_count_of_list))]
pub(crate) fn fits(op: &TreeOp) -> bool
    ensures { result ≡ op_fits op.now }
{
    head_is_within(op) && op.regions.len() <= MOST_REGIONS && all_arguments_are_within(&op.regions)
}

/// Returns whether the operands, results, properties and attributes of an operation are within the limits.
fn head_is_within(op: &TreeOp) -> bool
    ensures { result ≡ head_fits (head op.now) }
{
    op.operands.len() <= MOST_ITEMS
        && op.results.len() <= MOST_ITEMS
        && op.props.len() <= MOST_ITEMS
        && op.attrs.len() <= MOST_ITEMS
}

/// Returns whether the arguments of each block of some regions are within the limit.
fn all_arguments_are_within(regions: &Vec<TreeRegion>) -> bool
    ensures { result ≡ all_arguments_pass items_fit (regions_of (map region_view regions.now.items)) }
{
    for region in regions {
        if !arguments_are_within(region) {
            return false;
        }
    }
    true
}

/// Returns whether the arguments of the block of a region, if it has one, are within the limit.
fn arguments_are_within(region: &TreeRegion) -> bool
    ensures { result ≡ arguments_pass items_fit (region_view region.now) }
{
    match region {
        TreeRegion::Empty => true,
        TreeRegion::Block { args, .. } => args.len() <= MOST_ITEMS,
    }
}
