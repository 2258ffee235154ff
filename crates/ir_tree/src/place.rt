//! Places of operations, and the two dictionaries of an operation.
use ir_types::ids::OpId;

/// The place of an operation, or an insertion point: in a block, before an operation of the block or at its end.
#[derive(Clone, Copy, Debug, PartialEq, Eq)]
pub struct Place {
    /// The operation that has the block.
    pub parent: OpId,
    /// The index of the region that has the block.
    pub region: u32,
    /// The next operation, or `None` at the end of the block.
    pub before: Option<OpId>,
}

/// A dictionary of an operation: the properties, or the discardable attributes (Language Reference, "Attributes":
/// inherent attributes are kept as properties, the others are discardable).
#[derive(Clone, Copy, Debug, PartialEq, Eq)]
pub enum Part {
    /// The properties.
    Props,
    /// The discardable attributes.
    Attrs,
}
