//! The operations that fold, by what they compute (`arith` Dialect).
ghost use Rattle.std.specs.Prelude.{◌≡◌, ℕ, List, map, slice_get};
ghost use Rattle.ir_types.specs.Things.{ContextModel};
ghost use Rattle.ir_types.specs.Terms.{name_term};
ghost use Rattle.ir_types.specs.Sound.{IsSound};
ghost use Rattle.dialects_int.specs.Folds.{rules, predicates};
ghost use Rattle.dialects_int.specs.Folds as folds;

use ir_types::ids::NameId;

/// An operation on two values of the type of its result.
#[derive(Clone, Copy)]
pub enum Arithmetic {
    /// `arith.addi`.
    Add,
    /// `arith.subi`.
    Subtract,
    /// `arith.muli`.
    Multiply,
    /// `arith.shli`.
    ShiftLeft,
    /// `arith.divsi`.
    DivideSigned,
    /// `arith.divui`.
    DivideUnsigned,
    /// `arith.remsi`.
    RemainderSigned,
    /// `arith.remui`.
    RemainderUnsigned,
    /// `arith.andi`.
    And,
    /// `arith.ori`.
    Or,
    /// `arith.xori`.
    ExclusiveOr,
    /// `arith.shrsi`.
    ShiftRightSigned,
    /// `arith.shrui`.
    ShiftRightUnsigned,
    /// `arith.maxsi`.
    MaximumSigned,
    /// `arith.maxui`.
    MaximumUnsigned,
    /// `arith.minsi`.
    MinimumSigned,
    /// `arith.minui`.
    MinimumUnsigned,
}

/// The predicates of `arith.cmpi`, in the order of their numbers in the property `predicate`.
#[derive(Clone, Copy)]
pub enum Predicate {
    /// 0, `eq`.
    Equal,
    /// 1, `ne`.
    NotEqual,
    /// 2, `slt`.
    SignedLess,
    /// 3, `sle`.
    SignedLessOrEqual,
    /// 4, `sgt`.
    SignedGreater,
    /// 5, `sge`.
    SignedGreaterOrEqual,
    /// 6, `ult`.
    UnsignedLess,
    /// 7, `ule`.
    UnsignedLessOrEqual,
    /// 8, `ugt`.
    UnsignedGreater,
    /// 9, `uge`.
    UnsignedGreaterOrEqual,
}

/// A conversion of a value to another width.
#[derive(Clone, Copy)]
pub enum Cast {
    /// Sign extension, or truncation: `arith.extsi`, `arith.index_cast`.
    ExtendSigned,
    /// Zero extension, or truncation: `arith.extui`, `arith.index_castui`.
    ExtendUnsigned,
    /// Truncation to a smaller width: `arith.trunci`.
    Truncate,
}

/// The fold rule of an operation.
#[derive(Clone, Copy)]
pub enum Rule {
    /// Folds to the property `value`: `arith.constant`.
    Constant,
    /// Folds two operands of the result's type.
    Binary(Arithmetic),
    /// Folds two operands of one type to an `i1`: `arith.cmpi`.
    Compare,
    /// Folds to the operand that an `i1` selects: `arith.select`.
    Select,
    /// Converts from one integer type to another: `arith.extsi`, `arith.extui`, `arith.trunci`.
    IntegerCast(Cast),
    /// Converts between integer types and index: `arith.index_cast`, `arith.index_castui`.
    IndexCast(Cast),
}

/// The rules, from the id of `arith.constant` on.
static RULES: [Rule; 25] = [
    Rule::Constant,
    // addi, subi, muli, shli
    Rule::Binary(Arithmetic::Add),
    Rule::Binary(Arithmetic::Subtract),
    Rule::Binary(Arithmetic::Multiply),
    Rule::Binary(Arithmetic::ShiftLeft),
    // divsi, divui, remsi, remui
    Rule::Binary(Arithmetic::DivideSigned),
    Rule::Binary(Arithmetic::DivideUnsigned),
    Rule::Binary(Arithmetic::RemainderSigned),
    Rule::Binary(Arithmetic::RemainderUnsigned),
    // andi, ori, xori
    Rule::Binary(Arithmetic::And),
    Rule::Binary(Arithmetic::Or),
    Rule::Binary(Arithmetic::ExclusiveOr),
    // shrsi, shrui
    Rule::Binary(Arithmetic::ShiftRightSigned),
    Rule::Binary(Arithmetic::ShiftRightUnsigned),
    // maxsi, maxui, minsi, minui
    Rule::Binary(Arithmetic::MaximumSigned),
    Rule::Binary(Arithmetic::MaximumUnsigned),
    Rule::Binary(Arithmetic::MinimumSigned),
    Rule::Binary(Arithmetic::MinimumUnsigned),
    // cmpi, select
    Rule::Compare,
    Rule::Select,
    // extsi, extui, trunci
    Rule::IntegerCast(Cast::ExtendSigned),
    Rule::IntegerCast(Cast::ExtendUnsigned),
    Rule::IntegerCast(Cast::Truncate),
    // index_cast, index_castui
    Rule::IndexCast(Cast::ExtendSigned),
    Rule::IndexCast(Cast::ExtendUnsigned),
];

/// The id of the first word that has a rule, `arith.constant`.
const FIRST: u32 = 5;

/// Returns the fold rule of an operation, or `None` if it doesn't fold.
pub(crate) fn rule_of(name: NameId) -> Option<Rule>
    ensures { (c : ContextModel) → IsSound c → result ≡ folds.rule_of (name_term c name) }
{
    let number = name.number();
    if number < FIRST {
        return None;
    }
    rule_at((number - FIRST) as usize)
}

/// Returns the rule at an index among the rules.
fn rule_at(place: usize) -> Option<Rule>
    ensures { result ≡ slice_get (map (λ (row : List ℕ × Rule). row.1) rules) place }
{
    entry(&RULES, place)
}

/// Returns the item at an index of a table, or `None` beyond its end.
fn entry<T: Copy>(table: &[T], place: usize) -> Option<T>
    ensures { result ≡ slice_get table.now place }
{
    if place < table.len() {
        Some(table[place])
    } else {
        None
    }
}

/// The predicates, in the order of their numbers.
static PREDICATES: [Predicate; 10] = [
    Predicate::Equal,
    Predicate::NotEqual,
    Predicate::SignedLess,
    Predicate::SignedLessOrEqual,
    Predicate::SignedGreater,
    Predicate::SignedGreaterOrEqual,
    Predicate::UnsignedLess,
    Predicate::UnsignedLessOrEqual,
    Predicate::UnsignedGreater,
    Predicate::UnsignedGreaterOrEqual,
];

/// Returns the predicate with a number, or `None` if there is none (`arith` Dialect, "arith.cmpi").
pub fn predicate_at(number: u128) -> Option<Predicate>
    ensures { result ≡ slice_get predicates number }
{
    if number < 10 {
        entry(&PREDICATES, number as usize)
    } else {
        None
    }
}
