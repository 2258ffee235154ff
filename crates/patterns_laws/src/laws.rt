//! The rewrite rules keep values: for all operand values for which the old operations fold, the new ones fold to the
//! same value, at every width. Each theorem is a function that does nothing; its contract states the theorem, and its
//! name is the rule's word. The names in brackets are MLIR's.
ghost use Rattle.std.specs.Prelude.{codes};
ghost use Rattle.patterns_laws.specs.Words.{commutative, with_zero_as_right_identity, with_one_as_right_identity, self_inverse, idempotent, remainders};
ghost use Rattle.patterns_laws.specs.Words.{associative, index_casts, arithmetic, predicate_of_min_max, division_of_remainder};
ghost use Rattle.patterns_laws.specs.Keeps.{Each, Folding, Swapping, Ignoring, IgnoringOnes, Cancelling};
ghost use Rattle.patterns_laws.specs.Keeps.{KeepingItself, LeavingNothing, Regrouping, AddingTheNegative};
ghost use Rattle.patterns_laws.specs.Keeps.{ComparingItself, Mirroring, NotBelowZero, ChoosingOne};
ghost use Rattle.patterns_laws.specs.Keeps.{ChoosingByConstant, ChoosingTruth, ChoosingByOpposite, Extending};
ghost use Rattle.patterns_laws.specs.Keeps.{CuttingTwice, CuttingBack, ComingBack, Choosing, AddingTheComplement};
ghost use Rattle.patterns_laws.specs.Keeps.{Dividing, LoweringTwo, LoweringComparison, LoweringChoice};
ghost use Rattle.patterns_laws.specs.Keeps.{LoweringConstant};

/// An operation that folds over its constant operands becomes that constant (`Operation::fold`).
pub fn fold_to_constant()
    ensures { Folding }
{}

/// A constant first operand of a commutative operation moves to the second operand (`OpTrait::IsCommutative`).
pub fn swap_constant()
    ensures { Each Swapping commutative }
{}

/// A second operand 0 changes nothing: `addi(a, 0)` is a (`AddIOp::fold` and similar).
pub fn drop_zero()
    ensures { Each (Ignoring 0) with_zero_as_right_identity }
{}

/// A second operand 1 changes nothing: `muli(a, 1)` is a (`MulIOp::fold`, `DivSIOp::fold`, `DivUIOp::fold`).
pub fn drop_one()
    ensures { Each (Ignoring 1) with_one_as_right_identity }
{}

/// `andi(a, -1)` is a (`AndIOp::fold`).
pub fn drop_all_ones()
    ensures { IgnoringOnes }
{}

/// `subi(a, a)` and `xori(a, a)` are 0 (`SubIOp::fold`, `XOrIOp::fold`).
pub fn cancel_itself()
    ensures { Each Cancelling self_inverse }
{}

/// `andi(a, a)`, `maxsi(a, a)` and similar operations are a (`OpTrait::IsIdempotent`, `MaxSIOp::fold` and similar).
pub fn keep_itself()
    ensures { Each KeepingItself idempotent }
{}

/// `remsi(a, 1)` and `remui(a, 1)` are 0 (`RemSIOp::fold`, `RemUIOp::fold`).
pub fn zero_remainder()
    ensures { Each LeavingNothing remainders }
{}

/// `addi(addi(a, c), d)` is `addi(a, c + d)`; the same holds for other associative operations (`AddIAddConstant`,
/// `MulIMulIConstant`).
pub fn regroup_constants()
    ensures { Each Regrouping associative }
{}

/// `subi(a, c)` is `addi(a, -c)`.
pub fn add_negative()
    ensures { AddingTheNegative }
{}

/// `cmpi(a, a)` is true or false, depending on its predicate (`CmpIOp::fold`).
pub fn compare_itself()
    ensures { ComparingItself }
{}

/// A constant first operand of `cmpi` moves to the second operand, and the predicate is mirrored (`CmpIOp::fold`).
pub fn mirror_comparison()
    ensures { Mirroring }
{}

/// No unsigned value is less than 0: `cmpi ult, a, 0` is false, `cmpi uge, a, 0` is true.
pub fn compare_zero()
    ensures below { NotBelowZero 6 0 }
    ensures at_least { NotBelowZero 9 1 }
{}

/// `select(c, a, a)` is a (`SelectOp::fold`).
pub fn choose_same()
    ensures { ChoosingOne }
{}

/// `select` with a constant condition is the selected operand (`SelectOp::fold`).
pub fn choose_known()
    ensures { ChoosingByConstant }
{}

/// `select(c, true, false)` is c (`SelectOp::fold`).
pub fn choose_truth()
    ensures { ChoosingTruth }
{}

/// `select(xori(c, true), a, b)` is `select(c, b, a)` (`SelectNotCond`).
pub fn choose_opposite()
    ensures { ChoosingByOpposite }
{}

/// An extension of an extension is one extension (`ExtSIOp::fold`, `ExtUIOp::fold`, `ExtSIOfExtUI`).
pub fn extend_extension()
    ensures signed { Extending (codes "arith.extsi") (codes "arith.extsi") (codes "arith.extsi") }
    ensures unsigned { Extending (codes "arith.extui") (codes "arith.extui") (codes "arith.extui") }
    ensures signed_of_unsigned { Extending (codes "arith.extui") (codes "arith.extsi") (codes "arith.extui") }
{}

/// A truncation of a truncation is one truncation. A truncation of an extension back to the source width is the source
/// (`TruncIOp::fold`).
pub fn cut_cast()
    ensures twice { CuttingTwice }
    ensures signed { CuttingBack (codes "arith.extsi") }
    ensures unsigned { CuttingBack (codes "arith.extui") }
{}

/// A cast to or from index, and back, is the operand if the type in the middle has at least as many bits
/// (`IndexCastOfIndexCast`, `IndexCastUIOfIndexCastUI`).
pub fn cast_back()
    ensures { Each ComingBack index_casts }
{}

/// A minimum or maximum is a comparison and a select (`MaxMinIOpConverter` of `arith-expand`).
pub fn expand_min_max()
    ensures { Each Choosing predicate_of_min_max }
{}

/// `subi(a, b)` is `addi(a, addi(xori(b, -1), 1))`.
pub fn expand_difference()
    ensures { AddingTheComplement }
{}

/// `remsi(a, b)` is `subi(a, muli(divsi(a, b), b))`; the same holds for the unsigned remainder.
pub fn expand_remainder()
    ensures { Each Dividing division_of_remainder }
{}

/// An operation on index gives the same number on i64. Casts between index and i64 keep the number.
pub fn lower_index()
    ensures two { Each LoweringTwo arithmetic }
    ensures comparison { LoweringComparison }
    ensures choice { LoweringChoice }
    ensures constant { LoweringConstant }
{}
