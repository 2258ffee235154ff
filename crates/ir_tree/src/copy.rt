//! Copies of trees.
ghost use Rattle.std.specs.Prelude.{◌≡◌, IfOk};

use crate::edits::{NoEdit, edited};
use crate::tree::TreeOp;
use std::alloc::AllocError;

/// Returns a copy of a tree.
#[tactic(auto, using(crate::proofs::Edited::nothing_edited))]
pub fn copy(root: &TreeOp) -> Result<TreeOp, AllocError>
    ensures { IfOk result (λ t. t ≡ root.now) }
{
    edited(*root.regions.allocator(), root, &NoEdit, &NoEdit)
}
