//! Uses, and the keys that sort them.
ghost use Rattle.std.specs.Prelude.{◌≡◌};
ghost use Rattle.ir_event.specs.trees.declared.value.Value.{Value as TreeValue};

use ir_event::trees::value::Value;
use ir_event::types::ids::OpId;

/// A use of a value: the operation that has it as an operand, and the operand's number.
#[derive(Clone, Copy, Debug)]
pub struct Use {
    pub value: Value,
    pub user: OpId,
    pub operand: u32,
}

/// A use with its value split into the owner, the region if it is an argument, and the place. Keys sort like the
/// report's rows: by value, results before arguments, then by user and operand number.
#[derive(Clone, Copy, Debug, PartialEq, Eq, PartialOrd, Ord)]
pub struct UseKey {
    pub owner: OpId,
    pub region: Option<u32>,
    pub place: u32,
    pub user: OpId,
    pub operand: u32,
}
