//! Poison flags.
ghost use Rattle.std.specs.Prelude.{◌≡◌, IfOk};
ghost use Rattle.user_patterns_instructions.specs.Code.{IsFlagged};
ghost use Rattle.user_patterns_instructions.specs.declared.operand.Poison.TheVariants.{When};
ghost use Rattle.width_claims.specs.declared.form.Form.TheVariants as form;
ghost use Rattle.user_patterns_instructions.specs.Expressions.{chosen_poison, either, flag_by, flag_place, push_expr};

use crate::operand::Poison;
use crate::values::push_expr;
use std::alloc::AllocError;
use width_claims::form::{Expr, Form};

/// Appends the flag that is set if expression `i` is 1 or `g` is set.
fn either_when(i: usize, g: &Poison, exprs: &mut Vec<Expr>) -> Result<Poison, AllocError>
    ensures { IfOk result (IsFlagged (either (When i) g.now exprs.old.items) exprs.new.items) }
{
    match g {
        Poison::Never => Ok(Poison::When(i)),
        Poison::Always => Ok(Poison::Always),
        Poison::When(j) => Ok(Poison::When(push_expr(exprs, 0, Form::Or(i, *j))?)),
    }
}

/// Appends the flag of a value that is poison if one of two values is.
pub fn either(f: &Poison, g: &Poison, exprs: &mut Vec<Expr>) -> Result<Poison, AllocError>
    ensures { IfOk result (IsFlagged (either f.now g.now exprs.old.items) exprs.new.items) }
{
    match f {
        Poison::Never => Ok(*g),
        Poison::Always => Ok(Poison::Always),
        Poison::When(i) => either_when(*i, g, exprs),
    }
}

/// Returns the place of a flag's expression. Expressions 0 and 1 are the numbers 0 and 1.
pub fn flag_place(f: &Poison) -> usize
    ensures { result ≡ flag_place f.now }
{
    match f {
        Poison::Never => 0,
        Poison::Always => 1,
        Poison::When(i) => *i,
    }
}

/// Appends the flag of the selected one of two values.
fn select_flag(
    c: usize,
    f: &Poison,
    g: &Poison,
    exprs: &mut Vec<Expr>,
) -> Result<Poison, AllocError>
    ensures { IfOk result (IsFlagged (flag_by (push_expr exprs.old.items 0 (form.Select c (flag_place f.now) (flag_place g.now)))) exprs.new.items) }
{
    let place = push_expr(exprs, 0, Form::Select(c, flag_place(f), flag_place(g)))?;
    Ok(Poison::When(place))
}

/// Appends the flag of the selected one of two values, unless it is known.
pub fn chosen_poison(
    c: usize,
    f: &Poison,
    g: &Poison,
    exprs: &mut Vec<Expr>,
) -> Result<Poison, AllocError>
    ensures { IfOk result (IsFlagged (chosen_poison c f.now g.now exprs.old.items) exprs.new.items) }
{
    match f {
        Poison::Never => match g {
            Poison::Never => Ok(Poison::Never),
            Poison::Always => select_flag(c, f, g, exprs),
            Poison::When(_) => select_flag(c, f, g, exprs),
        },
        Poison::Always => match g {
            Poison::Never => select_flag(c, f, g, exprs),
            Poison::Always => Ok(Poison::Always),
            Poison::When(_) => select_flag(c, f, g, exprs),
        },
        Poison::When(_) => select_flag(c, f, g, exprs),
    }
}
