//! The operations and values that a command names.
ghost use Rattle.std.specs.Prelude.{◌≡◌};
ghost use Rattle.mlir_work_script.specs.Commands.{said_of};
ghost use Rattle.mlir_work_script_base.specs.InsertionPoints.{insertion_point_of};
ghost use Rattle.mlir_work_notes.specs.Named.{entry_dropped, entry_set, holder_of, place_of_command, point_op, subject_of};
ghost use Rattle.mlir_work_notes.specs.Named.{value_given, value_replaced};

use ir_event::trees::value::Value;
use ir_event::types::ids::OpId;
use mlir_work_script::command::Command;
use mlir_work_script_base::insertion_points::InsertionPoint;

/// Returns the operation that a command changes.
pub(crate) fn subject_of(command: &Command<'_>) -> Option<OpId>
    ensures { result ≡ subject_of (said_of command.now) }
{
    match command {
        Command::Erase(op) => Some(*op),
        Command::Move { op, .. } => Some(*op),
        Command::SetOperand { op, .. } => Some(*op),
        Command::SetAttr { op, .. } => Some(*op),
        Command::DropAttr { op, .. } => Some(*op),
        Command::Apply { op, .. } => Some(*op),
        _ => None,
    }
}

/// Returns the operation that an insertion point names.
fn point_op(point: &InsertionPoint) -> OpId
    ensures { result ≡ point_op (insertion_point_of point.now) }
{
    match *point {
        InsertionPoint::Before(op) => op,
        InsertionPoint::After(op) => op,
        InsertionPoint::Start(op, _) => op,
        InsertionPoint::End(op, _) => op,
    }
}

/// Returns the operation that the insertion point of a command names.
pub(crate) fn place_of_command(command: &Command<'_>) -> Option<OpId>
    ensures { result ≡ place_of_command (said_of command.now) }
{
    match command {
        Command::Move { point, .. } => Some(point_op(point)),
        Command::Insert { point, .. } => Some(point_op(point)),
        _ => None,
    }
}

/// Returns the operation whose region or operand a command names.
pub(crate) fn holder_of(command: &Command<'_>) -> Option<OpId>
    ensures { result ≡ holder_of (said_of command.now) }
{
    match command {
        Command::Move { point, .. } => Some(point_op(point)),
        Command::Insert { point, .. } => Some(point_op(point)),
        Command::SetOperand { op, .. } => Some(*op),
        _ => None,
    }
}

/// Returns the operation whose attribute a command sets.
pub(crate) fn entry_set(command: &Command<'_>) -> Option<OpId>
    ensures { result ≡ entry_set (said_of command.now) }
{
    match command {
        Command::SetAttr { op, .. } => Some(*op),
        _ => None,
    }
}

/// Returns the operation whose attribute a command removes.
pub(crate) fn entry_dropped(command: &Command<'_>) -> Option<OpId>
    ensures { result ≡ entry_dropped (said_of command.now) }
{
    match command {
        Command::DropAttr { op, .. } => Some(*op),
        _ => None,
    }
}

/// Returns the value that a command replaces.
pub(crate) fn value_replaced(command: &Command<'_>) -> Option<Value>
    ensures { result ≡ value_replaced (said_of command.now) }
{
    match command {
        Command::Replace { old, .. } => Some(*old),
        _ => None,
    }
}

/// Returns the value that a command uses in place of another.
pub(crate) fn value_given(command: &Command<'_>) -> Option<Value>
    ensures { result ≡ value_given (said_of command.now) }
{
    match command {
        Command::Replace { new, .. } => Some(*new),
        Command::SetOperand { value, .. } => Some(*value),
        _ => None,
    }
}
