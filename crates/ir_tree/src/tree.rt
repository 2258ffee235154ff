//! Trees of operations.
use crate::value::Value;
use ir_types::ids::{AttrId, NameId, OpId, TypeId};
use std::marker::Model;

/// An operation with everything inside it (Language Reference, "Operations").
///
/// It has a result for each type of `results`. The entries of a dictionary are pairs of a key and an attribute. Names,
/// types and attributes are ids of one context.
#[cycle(tree)]
#[derive(Drop)]
pub struct TreeOp {
    /// The id of the operation, unique in the tree.
    pub id: OpId,
    /// The name, with the dialect.
    pub name: NameId,
    /// The operands.
    pub operands: Vec<Value>,
    /// The types of the results.
    pub results: Vec<TypeId>,
    /// The properties, by key.
    pub props: Vec<(NameId, AttrId)>,
    /// The discardable attributes, by key.
    pub attrs: Vec<(NameId, AttrId)>,
    /// The regions, by index.
    pub regions: Vec<TreeRegion>,
}

/// A region of an operation, with one block or none. The block has arguments of types `args`, and operations (Language
/// Reference, "Regions" and "Blocks").
#[cycle(tree)]
#[derive(Drop)]
pub enum TreeRegion {
    /// A region without a block.
    Empty,
    /// A region whose block has arguments of types `args`, and the operations `ops` in order.
    Block { args: Vec<TypeId>, ops: Vec<TreeOp> },
}

impl Model for TreeOp {
    ghost use Rattle.ir_tree.specs.Tree.{Op, op_size};
    ghost use Rattle.ir_tree.specs.Code.{op_code};

    ghost Value = { Op };

    ghost coded = { op_code };

    ghost use Rattle.ir_tree.specs.View.{op_view};

    ghost view = { op_view };

    ghost size = { op_size };

    ghost use Rattle.ir_tree.specs.Falls.{op_falls};

    ghost size_decreases = { λ a h. op_falls a };
}
