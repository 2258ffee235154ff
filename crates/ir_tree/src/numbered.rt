//! Whether ids are consecutive, and whether they are distinct.
ghost use Rattle.std.specs.Prelude.{◌≡◌, ◌≤◌, ◌↔◌, ◌^◌, IsTrue, IfSome, IfOk, IfErr};
ghost use Rattle.ir_types.specs.declared.refusal.Refusal.TheVariants.{Memory};
ghost use Rattle.ir_tree.specs.Ids.{IsNumberedFrom, HasDistinctIds};
ghost use Rattle.ir_tree.specs.Numbered.{number_after as after, region_after};
ghost use Rattle.ir_tree.specs.View.{region_view};

use crate::find::list_ids;
use crate::tree::{TreeOp, TreeRegion};
use ir_types::refusal::Refusal;
use std::alloc::Global;
use std::collections::HashSet;

/// Returns whether the ids are `from`, `from + 1`, .. in pre-order.
#[tactic(auto, using(crate::proofs::Counted::numbered_from_after))]
pub fn numbered(tree: &TreeOp, from: u32) -> bool
    ensures { IsTrue result ↔ IsNumberedFrom from tree.now }
{
    number_after(tree, u64::from(from)).is_some()
}

/// Returns the number after the ids of the tree, or `None` if they aren't `from`, `from + 1`, ..
#[cycle(numbered)]
fn number_after(tree: &TreeOp, from: u64) -> Option<u64>
    requires { from ≤ 2 ^ 32 }
    ensures after { result ≡ after from tree.now }
    ensures fits { IfSome result (λ n. n ≤ 2 ^ 32) }
{
    if u64::from(tree.id.number()) != from {
        return None;
    }
    let mut next = from + 1;
    for region in &tree.regions {
        let Some(number) = number_after_region(region, next) else {
            return None;
        };
        next = number;
    }
    Some(next)
}

/// Returns the number after the ids in a region, or `None` if they aren't `from`, `from + 1`, .. in pre-order.
#[cycle(numbered)]
fn number_after_region(region: &TreeRegion, from: u64) -> Option<u64>
    requires { from ≤ 2 ^ 32 }
    ensures after { result ≡ region_after from (region_view region.now) }
    ensures fits { IfSome result (λ n. n ≤ 2 ^ 32) }
{
    let mut next = from;
    if let TreeRegion::Block { ops, .. } = region {
        for op in ops {
            let Some(number) = number_after(op, next) else {
                return None;
            };
            next = number;
        }
    }
    Some(next)
}

/// Returns whether all ids are distinct. Takes memory for the ids.
///
/// Refusals: `Memory`.
pub fn distinct(alloc: Global, root: &TreeOp) -> Result<bool, Refusal>
    ensures distinct { IfOk result (λ b. IsTrue b ↔ HasDistinctIds root.now) }
    ensures refused { IfErr result (λ e. e ≡ Memory) }
{
    let ids = list_ids(alloc, root)?;
    let different: HashSet<u32> = ids.iter().map(|id| id.number()).collect(alloc)?;
    Ok(different.len() == ids.len())
}
