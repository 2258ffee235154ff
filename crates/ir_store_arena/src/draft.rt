//! A row to be written.
ghost use Rattle.std.specs.Prelude.{◌≡◌, map, IfOk};
ghost use Rattle.ir_store_arena.specs.trees.Tree.{head};
ghost use Rattle.ir_store_arena.specs.Shapes.{shape_of};
ghost use Rattle.ir_store_arena.specs.Rows.{row_held};

use crate::trees::tree::TreeOp;
use crate::types::ids::{NameId, OpId};
use crate::{OpData, RegionData};
use std::alloc::{AllocError, Global};
use std::marker::Model;

/// The row of a held operation, before it is written into a slot.
#[derive(Drop)]
pub struct Draft {
    pub(crate) id: OpId,
    pub(crate) name: NameId,
    pub(crate) uses: u32,
    pub(crate) values: u32,
    pub(crate) made: OpData,
}

impl Model for Draft {
    ghost use Rattle.ir_store_arena.specs.Rows.{Row, row_code};
    ghost use Rattle.ir_store_arena.specs.Drafts.{draft_row};

    ghost Value = { Row };

    ghost coded = { row_code };

    ghost view = { λ d. draft_row d.id d.name d.uses d.values d.made };
}

impl Draft {
    /// Returns the row of a held operation like `header`, with these regions, first use node and first head of values.
    pub fn new(
        alloc: Global,
        op: OpId,
        header: &TreeOp,
        areas: Vec<RegionData>,
        uses: usize,
        values: usize,
    ) -> Result<Draft, AllocError>
        ensures { IfOk result (λ r. r ≡ row_held op (head header.now) (map shape_of areas.items) uses values) }
    {
        Ok(Draft {
            id: op,
            name: header.name,
            uses: node_number(uses)?,
            values: node_number(values)?,
            made: OpData::new(alloc, header, areas)?,
        })
    }
}

/// Returns a node number as rows store it.
fn node_number(node: usize) -> Result<u32, AllocError>
    ensures { IfOk result (λ n. n ≡ node) }
{
    match u32::try_from(node) {
        Ok(node) => Ok(node),
        Err(_) => Err(AllocError),
    }
}
