//! The words of the subject of a partial report.
ghost use Rattle.std.specs.Prelude.{◌≡◌};
ghost use Rattle.mlir_work_script_base.specs.Subjects.{subject_in};

use crate::values::{op_named, value_named};
use ir_event::subject::Subject;

/// Parses an operation or a value: `#3`, `%v2.0`, `%a1.0.0`.
pub fn subject_named(word: &[u8]) -> Option<Subject>
    ensures { result ≡ subject_in word.now }
{
    if let Some(op) = op_named(word) {
        return Some(Subject::Op(op));
    }
    let value = value_named(word)?;
    Some(Subject::Val(value))
}
