//! Replaces the results of one operation by those of another.
ghost use Rattle.std.specs.Prelude.{◌≡◌, ◌≤◌, ◌+◌, OnOk, ◌++◌, length};
ghost use Rattle.ir_event.specs.trees.Limits.{most_next};
ghost use Rattle.ir_event.specs.trees.Tree.{head};
ghost use Rattle.patterns_soundness.specs.base.Lowering.{marked};
ghost use Rattle.patterns_lowering.specs.Numbers.{give_edits};

use crate::lists::{crossed, push_bridges, push_edit, push_replaced, results_of};
use crate::numbers::Casts;
use ir_event::trees::tree::TreeOp;
use ir_event::types::ids::OpId;
use patterns_soundness::base::edit::Edit;
use std::alloc::{AllocError, Global};

/// Appends the edits that replace the results of `op` by those of the other operation, through casts to index, and
/// erase `op`.
pub(crate) fn push_given(
    alloc: Global,
    edits: &mut Vec<Edit>,
    casts: &Casts,
    marks: &[bool],
    op: &TreeOp,
    defining: OpId,
) -> Result<(), AllocError>
    requires few { length (head op.now).results ≤ 256 }
    requires headroom { casts.now.first + marked marks.now ≤ most_next }
    ensures { OnOk result (edits.new.items ≡ edits.old.items
        ++ give_edits casts.now.ty casts.now.place marks.now op.now defining casts.now.first) }
{
    let given = results_of(alloc, defining, &op.results)?;
    push_bridges(alloc, edits, casts.ty, &casts.place, marks, &given)?;
    let news = crossed(alloc, casts.first, marks, &given)?;
    let olds = results_of(alloc, op.id, &op.results)?;
    push_replaced(edits, &olds, &news)?;
    push_edit(edits, Edit::Erase { op: op.id })
}
