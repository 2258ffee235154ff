//! The constant folder.
ghost use Rattle.std.specs.Prelude.{◌≡◌, ◌<◌, ◌≤◌, ◌^◌, IfSome, List, map};
ghost use Rattle.std.specs.List.{All};
ghost use Rattle.std.specs.Option.{option_map};
ghost use Rattle.ir_types.specs.Bits.{width_of};
ghost use Rattle.ir_types.specs.Limits.{most_width};
ghost use Rattle.ir_types.specs.Things.{IsAttr, IsType};
ghost use Rattle.ir_types.specs.Terms.{name_term, type_term};
ghost use Rattle.dialects_int.specs.Arithmetic.{absorbs};
ghost use Rattle.dialects_int.specs.Folds.{known_of, entries_of, fold_of, both};
ghost use Rattle.dialects_int.specs.Folds as folds;

use crate::arithmetic::{compare, compute, resize};
use crate::known::{are_properties, bits_at, kind_of, property_of, same_kind};
use crate::operations::{Arithmetic, Cast, Predicate, Rule, predicate_at, rule_of};
use ir_types::bits::{Bits, BitsKind, width};
use ir_types::context::Context;
use ir_types::ids::{AttrId, NameId, TypeId};
use ir_types::readings::mask;
use ir_types::word::Word;

/// Returns the constant that an operation folds to, from its name, its properties, its operands as far as they are
/// constants, and the types of its results (`arith` Dialect); or `None`.
///
/// An operation folds if it has one result, the number of operands in its row, only properties that are allowed for it,
/// and constant operands of the kinds in its row. In four cases the other operands aren't read: a product or a
/// conjunction with an operand 0, a disjunction with an operand of all ones, and a select with a constant condition.
/// Needs no memory.
#[tactic(auto, unfolding(crate::specs::Folds::fold_of))]
pub fn fold(
    ctx: &Context,
    name: NameId,
    props: &[(NameId, AttrId)],
    operands: &[Option<Bits>],
    results: &[TypeId],
) -> Option<Bits>
    requires props { All (λ e. IsAttr ctx.now e.1) props.now }
    requires results { All (λ t. IsType ctx.now t) results.now }
    ensures { known_of result ≡ fold_of (name_term ctx.now name) (entries_of ctx.now props.now) (map known_of operands.now) (map (type_term ctx.now) results.now) }
{
    let [result] = results else {
        return None;
    };
    if !are_properties(ctx, name, props) {
        return None;
    }
    ctx.sound();
    let rule = rule_of(name)?;
    let kind = kind_of(ctx, *result)?;
    let value = fold_by(ctx, rule, props, kind, operands)?;
    Some(Bits { kind, value })
}

/// Returns the bits of the result of a rule.
fn fold_by(
    ctx: &Context,
    rule: Rule,
    props: &[(NameId, AttrId)],
    kind: BitsKind,
    operands: &[Option<Bits>],
) -> Option<u128>
    requires props { All (λ e. IsAttr ctx.now e.1) props.now }
    requires low { 1 ≤ width_of kind }
    requires high { width_of kind ≤ most_width }
    ensures value { result ≡ folds.fold_by rule (entries_of ctx.now props.now) kind (map known_of operands.now) }
    ensures below { IfSome result (λ v. v < 2 ^ width_of kind) }
{
    match rule {
        Rule::Constant => constant_fold(ctx, props, kind, operands),
        Rule::Binary(operation) => pair_fold(operation, kind, operands),
        Rule::Compare => compare_fold(ctx, props, kind, operands),
        Rule::Select => select_fold(kind, operands),
        Rule::IntegerCast(cast) => resize_fold(cast, kind, operands),
        Rule::IndexCast(cast) => index_cast_fold(cast, kind, operands),
    }
}

/// Returns the bits of the result of an arithmetic operation on two operands of the result's kind.
fn pair_fold(operation: Arithmetic, kind: BitsKind, operands: &[Option<Bits>]) -> Option<u128>
    requires low { 1 ≤ width_of kind }
    requires high { width_of kind ≤ most_width }
    ensures value { result ≡ folds.pair_fold operation kind (map known_of operands.now) }
    ensures below { IfSome result (λ v. v < 2 ^ width_of kind) }
{
    let [x, y] = operands else {
        return None;
    };
    pair_value(operation, width(kind), bits_at(kind, x), bits_at(kind, y))
}

/// Returns the result of two operands, of which one may be absorbing.
fn pair_value(operation: Arithmetic, width: u32, x: Option<u128>, y: Option<u128>) -> Option<u128>
    requires low { 1 ≤ width }
    requires high { width ≤ most_width }
    requires left { IfSome x (λ v. v < 2 ^ width) }
    requires right { IfSome y (λ v. v < 2 ^ width) }
    ensures value { result ≡ folds.pair_value operation width x y }
    ensures below { IfSome result (λ v. v < 2 ^ width) }
{
    if let Some(a) = x {
        if absorbs(operation, width, a) {
            return Some(a);
        }
    }
    if let Some(b) = y {
        if absorbs(operation, width, b) {
            return Some(b);
        }
    }
    compute(operation, width, x?, y?)
}

/// Returns whether an operand is absorbing: it is then the result.
#[tactic(auto, unfolding(crate::specs::Arithmetic::absorbs))]
fn absorbs(operation: Arithmetic, width: u32, a: u128) -> bool
    requires low { 1 ≤ width }
    requires high { width ≤ most_width }
    ensures { result ≡ absorbs operation width a }
{
    match operation {
        Arithmetic::Multiply => a == 0,
        Arithmetic::And => a == 0,
        Arithmetic::Or => a == mask(width),
        Arithmetic::Add
        | Arithmetic::Subtract
        | Arithmetic::ShiftLeft
        | Arithmetic::DivideSigned
        | Arithmetic::DivideUnsigned
        | Arithmetic::RemainderSigned
        | Arithmetic::RemainderUnsigned
        | Arithmetic::ExclusiveOr
        | Arithmetic::ShiftRightSigned
        | Arithmetic::ShiftRightUnsigned
        | Arithmetic::MaximumSigned
        | Arithmetic::MaximumUnsigned
        | Arithmetic::MinimumSigned
        | Arithmetic::MinimumUnsigned => false,
    }
}

/// Compares two constant operands of one kind by the property `predicate`: 1 if they satisfy it, and 0 otherwise.
fn compare_fold(
    ctx: &Context,
    props: &[(NameId, AttrId)],
    kind: BitsKind,
    operands: &[Option<Bits>],
) -> Option<u128>
    requires props { All (λ e. IsAttr ctx.now e.1) props.now }
    ensures value { result ≡ folds.fold_by Rule.Compare (entries_of ctx.now props.now) kind (map known_of operands.now) }
    ensures below { IfSome result (λ v. v < 2 ^ width_of kind) }
{
    let [x, y] = operands else {
        return None;
    };
    if !same_kind(kind, BitsKind::Int(1)) {
        return None;
    }
    let (_ty, number) = property_of(ctx, Word::Predicate, props)?;
    both_compared(predicate_at(number)?, x, y)
}

/// Compares two operands by a predicate, if both are constants of one kind: 1 if they satisfy it, and 0 otherwise.
fn both_compared(predicate: Predicate, x: &Option<Bits>, y: &Option<Bits>) -> Option<u128>
    ensures value { result ≡ both (folds.compared predicate) (known_of x.now) (known_of y.now) }
    ensures below { IfSome result (λ v. v < 2 ^ 1) }
{
    match x {
        Some(x) => match y {
            Some(y) => compared(predicate, x, y),
            None => None,
        },
        None => None,
    }
}

/// Compares two constants of one kind by a predicate: 1 if they satisfy it, and 0 otherwise.
fn compared(predicate: Predicate, x: &Bits, y: &Bits) -> Option<u128>
    ensures value { result ≡ folds.compared predicate (x.now.kind, x.now.value) (y.now.kind, y.now.value) }
    ensures below { IfSome result (λ v. v < 2 ^ 1) }
{
    if !same_kind(x.kind, y.kind) {
        return None;
    }
    Some(compare(predicate, width(x.kind), x.value, y.value) as u128)
}

/// Returns the bits of the operand that a constant condition selects: the second operand for 1, the third for 0.
fn select_fold(kind: BitsKind, operands: &[Option<Bits>]) -> Option<u128>
    ensures value { result ≡ folds.select_fold kind (map known_of operands.now) }
    ensures below { IfSome result (λ v. v < 2 ^ width_of kind) }
{
    let [condition, x, y] = operands else {
        return None;
    };
    if bits_at(BitsKind::Int(1), condition)? == 0 {
        bits_at(kind, y)
    } else {
        bits_at(kind, x)
    }
}

/// Returns the bits of a constant operand converted from one integer type to another.
fn resize_fold(cast: Cast, kind: BitsKind, operands: &[Option<Bits>]) -> Option<u128>
    requires low { 1 ≤ width_of kind }
    requires high { width_of kind ≤ most_width }
    ensures value { result ≡ folds.resize_fold cast kind (map known_of operands.now) }
    ensures below { IfSome result (λ v. v < 2 ^ width_of kind) }
{
    let [x] = operands else {
        return None;
    };
    match x {
        Some(x) => resized(cast, kind, x),
        None => None,
    }
}

/// Returns a value of an integer type converted to another.
fn resized(cast: Cast, kind: BitsKind, x: &Bits) -> Option<u128>
    requires low { 1 ≤ width_of kind }
    requires high { width_of kind ≤ most_width }
    ensures value { result ≡ folds.resized cast kind (x.now.kind, x.now.value) }
    ensures below { IfSome result (λ v. v < 2 ^ width_of kind) }
{
    match (kind, x.kind) {
        (BitsKind::Int(to), BitsKind::Int(from)) => resize(cast, from, to, x.value),
        (BitsKind::Int(_), BitsKind::Index) => None,
        (BitsKind::Index, BitsKind::Int(_)) => None,
        (BitsKind::Index, BitsKind::Index) => None,
    }
}

/// Returns the bits of a constant operand converted between an integer type and index.
fn index_cast_fold(cast: Cast, kind: BitsKind, operands: &[Option<Bits>]) -> Option<u128>
    requires low { 1 ≤ width_of kind }
    requires high { width_of kind ≤ most_width }
    ensures value { result ≡ folds.index_cast_fold cast kind (map known_of operands.now) }
    ensures below { IfSome result (λ v. v < 2 ^ width_of kind) }
{
    let [x] = operands else {
        return None;
    };
    match x {
        Some(x) => resize(cast, width(x.kind), width(kind), x.value),
        None => None,
    }
}

/// Returns the bits of a constant's property `value`, if it is of the result's kind.
fn constant_fold(
    ctx: &Context,
    props: &[(NameId, AttrId)],
    kind: BitsKind,
    operands: &[Option<Bits>],
) -> Option<u128>
    requires props { All (λ e. IsAttr ctx.now e.1) props.now }
    ensures value { result ≡ folds.fold_by Rule.Constant (entries_of ctx.now props.now) kind (map known_of operands.now) }
    ensures below { IfSome result (λ v. v < 2 ^ width_of kind) }
{
    let [] = operands else {
        return None;
    };
    let (ty, value) = property_of(ctx, Word::Value, props)?;
    if same_kind(kind_of(ctx, ty)?, kind) {
        Some(value)
    } else {
        None
    }
}
