//! The claim about both sides: the old value is poison, or the new value is known and equal.
ghost use Rattle.std.specs.Prelude.{◌≡◌, IfOk};
ghost use Rattle.user_patterns_instructions.specs.Code.{IsMade};
ghost use Rattle.user_patterns_claims.specs.Code.{AreSidesIf};
ghost use Rattle.user_patterns_instructions.specs.Expressions.{push_expr};
ghost use Rattle.user_patterns_claims.specs.Translation.{both_true, known_and, refined, sides, sides_by};
ghost use Rattle.user_patterns_instructions.specs.declared.operand.Poison.TheVariants.{Never};
ghost use Rattle.width_claims.specs.declared.form.Form.TheVariants as form;

use std::alloc::AllocError;
use user_patterns_instructions::operand::{Operand, Poison};
use user_patterns_instructions::values::push_expr;
use width_claims::form::{Expr, Form};

/// The places of two values that are claimed to be equal.
#[derive(Clone, Copy)]
pub struct Equation {
    pub left: usize,
    pub right: usize,
}

/// Appends the conjunction of a truth and an unset flag.
fn known_and_when(g: usize, equal: usize, exprs: &mut Vec<Expr>) -> Result<usize, AllocError>
    ensures { IfOk result (IsMade (both_true (exprs.old.items, equal) (push_expr exprs.old.items 0 (form.ExclusiveOr g 1))) exprs.new.items) }
{
    let known = push_expr(exprs, 0, Form::ExclusiveOr(g, 1))?;
    push_expr(exprs, 0, Form::And(equal, known))
}

fn known_and(g: &Poison, equal: usize, exprs: &mut Vec<Expr>) -> Result<usize, AllocError>
    ensures { IfOk result (IsMade (known_and g.now (exprs.old.items, equal)) exprs.new.items) }
{
    match g {
        Poison::Never => Ok(equal),
        Poison::Always => Ok(0),
        Poison::When(g) => known_and_when(*g, equal, exprs),
    }
}

/// Appends the truth that the new value is known and equal to the old value.
fn refined(x: &Operand, y: &Operand, exprs: &mut Vec<Expr>) -> Result<usize, AllocError>
    ensures { IfOk result (IsMade (refined x.now y.now exprs.old.items) exprs.new.items) }
{
    let equal = push_expr(exprs, 0, Form::Same(x.value, y.value))?;
    known_and(&y.poison, equal, exprs)
}

/// Returns the two sides of a claim whose old value isn't poison.
fn known_sides(
    x: &Operand,
    y: &Operand,
    exprs: &mut Vec<Expr>,
) -> Result<Option<Equation>, AllocError>
    ensures { IfOk result (AreSidesIf (sides_by Never y.now.poison x.now y.now exprs.old.items) exprs.new.items) }
{
    if let Poison::Never = y.poison {
        return Ok(Some(Equation {
            left: x.value,
            right: y.value,
        }));
    }
    let left = refined(x, y, exprs)?;
    Ok(Some(Equation { left, right: 1 }))
}

/// Returns the two sides of the claim that the new value refines the old value, or `None` if there is nothing to claim.
pub fn sides(
    x: &Operand,
    y: &Operand,
    exprs: &mut Vec<Expr>,
) -> Result<Option<Equation>, AllocError>
    ensures { IfOk result (AreSidesIf (sides x.now y.now exprs.old.items) exprs.new.items) }
{
    match x.poison {
        Poison::Always => Ok(None),
        Poison::Never => known_sides(x, y, exprs),
        Poison::When(f) => {
            let known = refined(x, y, exprs)?;
            let left = push_expr(exprs, 0, Form::Or(f, known))?;
            Ok(Some(Equation { left, right: 1 }))
        }
    }
}
