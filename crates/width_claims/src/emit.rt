//! The steps of a claim.
ghost use Rattle.std.specs.Prelude.{◌≡◌, ◌≤◌, ◌++◌, ◌∷◌, [], IfOk, IfSome, OnOk};
ghost use Rattle.width_claims.specs.Emission.{condition_steps, type_numbers, type_steps, type_truths};
ghost use Rattle.width_claims.specs.Blocks.{AreNarrow, ArePatternOps, AreTypes};

use crate::block::{at, block};
use crate::form::Expr;
use crate::step::Step;
use crate::width::{Narrower, Width};
use std::alloc::AllocError;

/// The numbers of numbers and truths.
#[derive(Clone, Copy)]
pub struct Counts {
    pub numbers: usize,
    pub truths: usize,
}

/// The limit of numbers and truths.
const MOST: usize = 100000;

/// Appends steps, after which there are so many numbers and truths.
fn push_counted(
    steps: &mut Vec<Step>,
    more: &[Step],
    numbers: usize,
    truths: usize,
) -> Result<Counts, AllocError>
    ensures steps { OnOk result (steps.new.items ≡ steps.old.items ++ more.now) }
    ensures counts { IfOk result (λ c. (c.numbers ≡ numbers) × (c.truths ≡ truths)) }
{
    steps.extend_from_slice(more)?;
    Ok(Counts { numbers, truths })
}

/// Appends the steps of a type's mask, which is the variable `v` if the type is free.
fn emit_type(
    v: usize,
    width: &Width,
    steps: &mut Vec<Step>,
    n: usize,
    t: usize,
) -> Result<Counts, AllocError>
    requires numbers { n ≤ 100000 }
    requires truths { t ≤ 100000 }
    ensures steps { OnOk result (steps.new.items ≡ steps.old.items ++ type_steps v (width.now ∷ []) n) }
    ensures counts { IfOk result (λ c. (c.numbers ≡ type_numbers (width.now ∷ []) n) × (c.truths ≡ type_truths (width.now ∷ []) t)) }
{
    match width {
        Width::Free => {
            let free = [
                Step::Variable(v),
                Step::Add(n, 1),
                Step::And(n, n + 1),
                Step::Suppose(n + 2, 0),
                Step::And(n, 1),
                Step::Suppose(n + 3, 1),
            ];
            push_counted(steps, &free, n + 4, t + 2)
        }
        Width::Fixed(w) => push_counted(steps, &[Step::Ones(*w)], n + 1, t),
    }
}

/// Appends the masks of types, and their places. The masks of free types are the variables from `v` on.
pub fn emit_types(
    v: usize,
    types: &[Width],
    steps: &mut Vec<Step>,
    masks: &mut Vec<usize>,
    n: usize,
    t: usize,
) -> Result<Option<Counts>, AllocError>
    ensures { IfOk result (λ c. IfSome c (AreTypes v types.now n t steps.old.items masks.old.items steps.new.items masks.new.items)) }
{
    if v > MOST || n > MOST || t > MOST {
        return Ok(None);
    }
    let [width, tail @ ..] = types else {
        return Ok(Some(Counts {
            numbers: n,
            truths: t,
        }));
    };
    masks.push(n)?;
    let typed = emit_type(v, width, steps, n, t)?;
    emit_types(v + 1, tail, steps, masks, typed.numbers, typed.truths)
}

/// Appends the assumptions that types are narrower than others.
pub fn emit_narrower(
    masks: &[usize],
    narrower: &[Narrower],
    steps: &mut Vec<Step>,
    n: usize,
    t: usize,
) -> Result<Option<Counts>, AllocError>
    ensures { IfOk result (λ c. IfSome c (AreNarrow masks.now narrower.now n t steps.old.items steps.new.items)) }
{
    if n > MOST || t > MOST {
        return Ok(None);
    }
    let [pair, tail @ ..] = narrower else {
        return Ok(Some(Counts {
            numbers: n,
            truths: t,
        }));
    };
    steps.extend_from_slice(&[
        Step::Less(at(masks, pair.narrow), at(masks, pair.wide)),
        Step::Select(t, 1, 0),
        Step::Suppose(n, 1),
    ])?;
    emit_narrower(masks, tail, steps, n + 1, t + 2)
}

/// Appends the steps of expressions, and the places of their numbers.
pub fn emit_pattern_ops(
    masks: &[usize],
    exprs: &[Expr],
    places: &mut Vec<usize>,
    steps: &mut Vec<Step>,
    n: usize,
    t: usize,
) -> Result<Option<Counts>, AllocError>
    ensures { IfOk result (λ c. IfSome c (ArePatternOps masks.now exprs.now n t places.old.items steps.old.items places.new.items steps.new.items)) }
{
    if n > MOST || t > MOST {
        return Ok(None);
    }
    let [expr, tail @ ..] = exprs else {
        return Ok(Some(Counts {
            numbers: n,
            truths: t,
        }));
    };
    let ends = block(
        at(masks, expr.ty),
        masks,
        places.as_slice(),
        n,
        t,
        &expr.form,
        steps,
    )?;
    places.push(ends.result)?;
    emit_pattern_ops(masks, tail, places, steps, ends.numbers, ends.truths)
}

/// Appends the assumptions that values are 1.
pub fn emit_conditions(
    places: &[usize],
    conditions: &[usize],
    steps: &mut Vec<Step>,
) -> Result<(), AllocError>
    ensures { OnOk result (steps.new.items ≡ steps.old.items ++ condition_steps places.now conditions.now) }
{
    let [place, tail @ ..] = conditions else {
        return Ok(());
    };
    steps.push(Step::Suppose(at(places, *place), 1))?;
    emit_conditions(places, tail, steps)
}
