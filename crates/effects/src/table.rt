//! Changes of the table.
ghost use Rattle.listeners_support.specs.Map as idmap;
ghost use Rattle.std.specs.Prelude.{◌≡◌, false, Some, None, ℕ, List, ◌∷◌};
ghost use Rattle.std.specs.Bool.{OnTrue};
ghost use Rattle.effects.specs.RowMaps.{zero_counts};
ghost use Rattle.effects.specs.Points.{Point, Apart, with_row};
ghost use Rattle.effects.specs.Walks.{rows_at, row_at};
ghost use Rattle.effects.specs.Following.{Whole, PutIn, TakenOut, ShiftedTo};

use crate::effect_rows::EffectRows;
use crate::row::Row;
use crate::row_map::RowMap;
use crate::walk::{drop_row, gain, lose, mark, row_of, write};
use ir_event::types::ids::OpId;
use listeners_support::BitSet;
use op_registry::own::Own;
use std::alloc::Global;

/// Returns an empty table.
pub(crate) fn no_rows(alloc: Global) -> EffectRows
    ensures { (x : ℕ) → row_at result x ≡ None }
{
    EffectRows {
        rows: RowMap::new(alloc),
        acting: BitSet::new(alloc),
    }
}

/// Writes an entry of a map. All its counts are 0. Returns `false` if memory ran out.
fn record_row(rows: &mut RowMap, op: OpId, row: &Row, inner: bool) -> bool
    requires { row.now.counts ≡ zero_counts }
    ensures there { OnTrue result ((x : ℕ) → rows_at rows.new x ≡ with_row op (Some row.now) (rows_at rows.old) x) }
    ensures same { result ≡ false → idmap.IsUnchanged rows.old rows.new }
{
    rows.insert(op.number(), row, inner).is_ok()
}

/// Writes an entry of the table. All its counts are 0. Returns `false` if memory ran out.
fn add(rows: &mut EffectRows, op: OpId, row: &Row, inner: bool) -> bool
    requires { row.now.counts ≡ zero_counts }
    ensures { OnTrue result ((x : ℕ) → row_at rows.new x ≡ with_row op (Some row.now) (row_at rows.old) x) }
{
    if rows.acting.reserve(op.number()).is_err() {
        return false;
    }
    if !record_row(&mut rows.rows, op, row, inner) {
        return false;
    }
    mark(&mut rows.acting, op, &row.has);
    true
}

/// Inserts an operation without children. `inner` says whether it has regions. Returns `false` if memory ran out or a
/// count overflows.
pub(crate) fn insert_leaf(
    rows: &mut EffectRows,
    op: OpId,
    parent: Option<OpId>,
    own: &Own,
    inner: bool,
) -> bool
    ensures { OnTrue result (PutIn op parent own.now (row_at rows.old) (row_at rows.new)) }
{
    let row = Row::leaf(parent, own);
    if !add(rows, op, &row, inner) {
        return false;
    }
    gain(rows, row.parent, &row.has)
}

/// Removes an operation without children. Needs no memory.
pub(crate) fn take(rows: &mut EffectRows, op: OpId)
    ensures { TakenOut op (row_at rows.old) (row_at rows.new) }
{
    if let Some(gone) = drop_row(rows, op) {
        lose(rows, gone.parent, &gone.has);
    }
}

/// Removes an operation from its parent.
fn detach(rows: &mut EffectRows, op: OpId)
    ensures { ShiftedTo op None (row_at rows.old) (row_at rows.new) }
{
    if let Some(row) = row_of(rows, op) {
        let alone = row.moved(None);
        if !write(rows, op, &alone) {
            return;
        }
        lose(rows, row.parent, &row.has);
    }
}

/// Gives an operation without a parent a parent. Returns `false` if a count overflows.
fn attach(rows: &mut EffectRows, op: OpId, parent: OpId) -> bool
    ensures { OnTrue result ((n : Point) (ns : List Point) → n.id ≡ op → n.parent ≡ None → Apart (n ∷ ns)
        → Whole (row_at rows.old) (n ∷ ns) → Whole (row_at rows.new) (record n { parent = Some parent } ∷ ns)) }
{
    let Some(row) = row_of(rows, op) else {
        return false;
    };
    let inside = row.moved(Some(parent));
    if !write(rows, op, &inside) {
        return false;
    }
    gain(rows, Some(parent), &row.has)
}

/// Moves an operation with its subtree to another parent. Returns `false` if a count overflows.
pub(crate) fn shift(rows: &mut EffectRows, op: OpId, parent: OpId) -> bool
    ensures { OnTrue result (ShiftedTo op (Some parent) (row_at rows.old) (row_at rows.new)) }
{
    detach(rows, op);
    attach(rows, op, parent)
}
