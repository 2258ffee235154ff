//! The theorem about refused pattern files, as the contract of a function with an empty body.
ghost use Rattle.mlir_work_cli.specs.Patterns.{RefusedLinesHaveOne, WrongLinesAreReported};

/// A pattern file is refused if and only if it has a first malformed line, and for the fault of that line.
pub fn refused_lines_have_a_first_wrong_one()
    ensures reported { WrongLinesAreReported }
    ensures one { RefusedLinesHaveOne }
{}
