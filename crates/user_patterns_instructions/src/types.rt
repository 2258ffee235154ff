//! The types of a claim. Type 0 of a claim is i1, and type t of the pattern is type t + 1, or type 0 if it is a
//! concrete i1.
ghost use Rattle.std.specs.Prelude.{◌≡◌, ◌+◌, ◌≤◌, ◌++◌, [], IfOk, IfSome, OnOk, length};
ghost use Rattle.dialects_int.specs.Folds.{same_kind};
ghost use Rattle.user_patterns_instructions.specs.Code.{AreWidths};
ghost use Rattle.user_patterns_instructions.specs.Expressions.{is_one_bit, is_repeated, is_same, is_truth, narrower_types, type_at, type_number, width_at, width_if, with_narrower};

use ir_types::bits::{BitsKind, width};
use ir_types::limits::MOST_WIDTH;
use std::alloc::AllocError;
use user_patterns_data::pattern::{PatternType, TypeConstraint};
use width_claims::width::{Narrower, Width};

fn is_one_bit(kind: &BitsKind) -> bool
    ensures { result ≡ is_one_bit kind.now }
{
    match kind {
        BitsKind::Int(width) => *width == 1,
        BitsKind::Index => false,
    }
}

fn is_truth(kind: &PatternType) -> bool
    ensures { result ≡ is_truth kind.now }
{
    match kind {
        PatternType::Concrete(kind) => is_one_bit(kind),
        PatternType::Variable(_) => false,
    }
}

/// Returns whether two kinds are equal.
pub fn same_kind(a: &BitsKind, b: &BitsKind) -> bool
    ensures { result ≡ same_kind a.now b.now }
{
    match a {
        BitsKind::Int(v) => match b {
            BitsKind::Int(w) => *v == *w,
            BitsKind::Index => false,
        },
        BitsKind::Index => match b {
            BitsKind::Int(_) => false,
            BitsKind::Index => true,
        },
    }
}

/// Returns whether two types are the same concrete type or the same type variable.
pub fn is_same(a: &PatternType, b: &PatternType) -> bool
    ensures { result ≡ is_same a.now b.now }
{
    match a {
        PatternType::Concrete(a) => match b {
            PatternType::Concrete(b) => same_kind(a, b),
            PatternType::Variable(_) => false,
        },
        PatternType::Variable(v) => match b {
            PatternType::Concrete(_) => false,
            PatternType::Variable(w) => *v == *w,
        },
    }
}

/// Returns whether a type equals one of the first `count` types.
fn is_repeated(count: usize, value_types: &[PatternType], kind: &PatternType) -> bool
    ensures { result ≡ is_repeated count value_types.now kind.now }
{
    let [first, tail @ ..] = value_types else {
        return false;
    };
    if count == 0 {
        return false;
    }
    is_same(kind, first) || is_repeated(count - 1, tail, kind)
}

/// Returns the number in the claim of type `ty`, or `None` if the pattern has no such type or an earlier type equals
/// it.
pub fn type_at(value_types: &[PatternType], ty: usize) -> Option<usize>
    ensures { result ≡ type_at value_types.now ty }
{
    let kind = value_types.get(ty)?;
    if is_repeated(ty, value_types, kind) {
        return None;
    }
    Some(if is_truth(kind) { 0 } else { ty + 1 })
}

/// Returns the width of a type, if it is 1 to 128.
fn width_at(kind: &PatternType) -> Option<Width>
    ensures { IfSome result (λ w. w ≡ width_at kind.now) }
{
    match kind {
        PatternType::Variable(_) => Some(Width::Free),
        PatternType::Concrete(kind) => {
            let bits = width(*kind);
            if bits == 0 || bits > MOST_WIDTH {
                return None;
            }
            Some(Width::Fixed(bits))
        }
    }
}

/// Returns the width of a type of a claim.
fn width_if(repeated: bool, kind: &PatternType) -> Option<Width>
    ensures { IfSome result (λ w. w ≡ width_if repeated kind.now) }
{
    if repeated {
        Some(Width::Fixed(1))
    } else {
        width_at(kind)
    }
}

/// Appends the widths of the types from number `i` on. Returns whether all are 1 to 128.
pub fn push_widths(
    all: &[PatternType],
    i: usize,
    value_types: &[PatternType],
    widths: &mut Vec<Width>,
) -> Result<bool, AllocError>
    requires { i + length value_types.now ≤ 1000 }
    ensures { IfOk result (AreWidths all.now i value_types.now widths.old.items widths.new.items) }
{
    let [kind, tail @ ..] = value_types else {
        return Ok(true);
    };
    let Some(width) = width_if(is_repeated(i, all, kind), kind) else {
        return Ok(false);
    };
    widths.push(width)?;
    push_widths(all, i + 1, tail, widths)
}

fn push_if_both(
    narrow: Option<usize>,
    wide: Option<usize>,
    narrower: &mut Vec<Narrower>,
) -> Result<(), AllocError>
    ensures { OnOk result (narrower.new.items ≡ narrower.old.items ++ with_narrower narrow wide []) }
{
    if let Some(narrow) = narrow {
        if let Some(wide) = wide {
            narrower.push(Narrower { narrow, wide })?;
        }
    }
    Ok(())
}

/// Appends the constraints that types are narrower than others.
pub fn push_narrower(
    value_types: &[PatternType],
    type_constraints: &[TypeConstraint],
    narrower: &mut Vec<Narrower>,
) -> Result<(), AllocError>
    ensures { OnOk result (narrower.new.items ≡ narrower.old.items ++ narrower_types value_types.now type_constraints.now) }
{
    let [first, tail @ ..] = type_constraints else {
        return Ok(());
    };
    if let TypeConstraint::Narrower(narrow, wide) = first {
        push_if_both(
            type_at(value_types, *narrow),
            type_at(value_types, *wide),
            narrower,
        )?;
    }
    push_narrower(value_types, tail, narrower)
}
