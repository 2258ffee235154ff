//! The steps of one form.
ghost use Rattle.std.specs.Prelude.{◌≡◌, ◌≤◌, ◌+◌, ◌∷◌, [], IfOk};
ghost use Rattle.width_claims.specs.PatternOpValues.{at};
ghost use Rattle.width_claims.specs.Emission.{block, block_of};
ghost use Rattle.width_claims.specs.declared.step.Step.TheVariants as step;
ghost use Rattle.width_claims.specs.Blocks.{IsBlock};

use crate::form::Form;
use crate::step::Step;
use std::alloc::AllocError;

/// The place of a form's number, and the counts of numbers and truths after its steps.
#[derive(Clone, Copy)]
pub struct Ends {
    pub result: usize,
    pub numbers: usize,
    pub truths: usize,
}

/// Returns the number at a place, or 0 if there is none.
pub fn at(list: &[usize], place: usize) -> usize
    ensures { result ≡ at list.now place }
{
    match list.get(place) {
        Some(number) => *number,
        None => 0,
    }
}

/// Appends steps.
fn push_steps(
    steps: &mut Vec<Step>,
    more: &[Step],
    place: usize,
    numbers: usize,
    truths: usize,
) -> Result<Ends, AllocError>
    ensures { IfOk result (IsBlock (block more.now place numbers truths) steps.old.items steps.new.items) }
{
    steps.extend_from_slice(more)?;
    Ok(Ends {
        result: place,
        numbers,
        truths,
    })
}

/// Appends a step whose number is the form's.
fn push_one(steps: &mut Vec<Step>, one: Step, n: usize, t: usize) -> Result<Ends, AllocError>
    requires { n ≤ 1000000 }
    ensures { IfOk result (IsBlock (block (one ∷ []) n (n + 1) t) steps.old.items steps.new.items) }
{
    push_steps(steps, &[one], n, n + 1, t)
}

/// Appends a step whose number may be too great, and cuts the number by the mask at `m`.
fn push_masked(
    steps: &mut Vec<Step>,
    one: Step,
    m: usize,
    n: usize,
    t: usize,
) -> Result<Ends, AllocError>
    requires { n ≤ 1000000 }
    ensures { IfOk result (IsBlock (block (one ∷ step.And n m ∷ []) (n + 1) (n + 2) t) steps.old.items steps.new.items) }
{
    push_steps(steps, &[one, Step::And(n, m)], n + 1, n + 2, t)
}

/// Appends the negation of a literal.
fn push_negative(
    steps: &mut Vec<Step>,
    literal: u128,
    m: usize,
    n: usize,
    t: usize,
) -> Result<Ends, AllocError>
    requires { n ≤ 1000000 }
    ensures { IfOk result (IsBlock (block (step.Literal literal ∷ step.Subtract 0 n ∷ step.And (n + 1) m ∷ []) (n + 2) (n + 3) t) steps.old.items steps.new.items) }
{
    push_steps(
        steps,
        &[
            Step::Literal(literal),
            Step::Subtract(0, n),
            Step::And(n + 1, m),
        ],
        n + 2,
        n + 3,
        t,
    )
}

/// Appends a test, and the number 1 or 0 that it selects.
fn push_test(steps: &mut Vec<Step>, test: Step, n: usize, t: usize) -> Result<Ends, AllocError>
    requires numbers { n ≤ 1000000 }
    requires truths { t ≤ 1000000 }
    ensures { IfOk result (IsBlock (block (test ∷ step.Select t 1 0 ∷ []) n (n + 1) (t + 1)) steps.old.items steps.new.items) }
{
    push_steps(steps, &[test, Step::Select(t, 1, 0)], n, n + 1, t + 1)
}

/// Appends the signed comparison of the numbers at `x` and `y`, whose type's mask is at `mask`.
fn push_less_signed(
    steps: &mut Vec<Step>,
    mask: usize,
    x: usize,
    y: usize,
    n: usize,
    t: usize,
) -> Result<Ends, AllocError>
    requires numbers { n ≤ 1000000 }
    requires truths { t ≤ 1000000 }
    ensures { IfOk result (IsBlock (block (step.Subtract mask x ∷ step.Subtract mask y ∷ step.Less n x ∷ step.Less (n + 1) y ∷ step.Less x y ∷ step.Differ t (t + 1) ∷ step.Differ (t + 3) (t + 2) ∷ step.Select (t + 4) 1 0 ∷ []) (n + 2) (n + 3) (t + 5)) steps.old.items steps.new.items) }
{
    push_steps(
        steps,
        &[
            Step::Subtract(mask, x),
            Step::Subtract(mask, y),
            Step::Less(n, x),
            Step::Less(n + 1, y),
            Step::Less(x, y),
            Step::Differ(t, t + 1),
            Step::Differ(t + 3, t + 2),
            Step::Select(t + 4, 1, 0),
        ],
        n + 2,
        n + 3,
        t + 5,
    )
}

/// Appends the number at `x` or the one at `y`: the second if the number at `c` is 0.
fn push_choice(
    steps: &mut Vec<Step>,
    c: usize,
    x: usize,
    y: usize,
    n: usize,
    t: usize,
) -> Result<Ends, AllocError>
    requires numbers { n ≤ 1000000 }
    requires truths { t ≤ 1000000 }
    ensures { IfOk result (IsBlock (block (step.Equal c 0 ∷ step.Select t y x ∷ []) n (n + 1) (t + 1)) steps.old.items steps.new.items) }
{
    push_steps(
        steps,
        &[Step::Equal(c, 0), Step::Select(t, y, x)],
        n,
        n + 1,
        t + 1,
    )
}

/// Appends the sign extension of the number at `x`, whose type's mask is at `mask`, to the type whose mask is at `m`.
fn push_signs(
    steps: &mut Vec<Step>,
    m: usize,
    mask: usize,
    x: usize,
    n: usize,
    t: usize,
) -> Result<Ends, AllocError>
    requires numbers { n ≤ 1000000 }
    requires truths { t ≤ 1000000 }
    ensures { IfOk result (IsBlock (block (step.Subtract mask x ∷ step.Less n x ∷ step.ExclusiveOr m mask ∷ step.Or x (n + 1) ∷ step.Select t (n + 2) x ∷ []) (n + 3) (n + 4) (t + 1)) steps.old.items steps.new.items) }
{
    push_steps(
        steps,
        &[
            Step::Subtract(mask, x),
            Step::Less(n, x),
            Step::ExclusiveOr(m, mask),
            Step::Or(x, n + 1),
            Step::Select(t, n + 2, x),
        ],
        n + 3,
        n + 4,
        t + 1,
    )
}

/// Appends the number at `x`, whose type's mask is at `mask`, extended by its sign or cut to the type whose mask is at
/// `m`.
fn push_resized(
    steps: &mut Vec<Step>,
    m: usize,
    mask: usize,
    x: usize,
    n: usize,
    t: usize,
) -> Result<Ends, AllocError>
    requires numbers { n ≤ 1000000 }
    requires truths { t ≤ 1000000 }
    ensures { IfOk result (IsBlock (block (step.Subtract mask x ∷ step.Less n x ∷ step.Subtract 0 1 ∷ step.ExclusiveOr (n + 1) mask ∷ step.Or x (n + 2) ∷ step.Select t (n + 3) x ∷ step.And (n + 4) m ∷ []) (n + 5) (n + 6) (t + 1)) steps.old.items steps.new.items) }
{
    push_steps(
        steps,
        &[
            Step::Subtract(mask, x),
            Step::Less(n, x),
            Step::Subtract(0, 1),
            Step::ExclusiveOr(n + 1, mask),
            Step::Or(x, n + 2),
            Step::Select(t, n + 3, x),
            Step::And(n + 4, m),
        ],
        n + 5,
        n + 6,
        t + 1,
    )
}

/// Appends the steps of a form, after `n` numbers and `t` truths. `m` is the place of its type's mask.
pub fn block(
    m: usize,
    masks: &[usize],
    places: &[usize],
    n: usize,
    t: usize,
    form: &Form,
    steps: &mut Vec<Step>,
) -> Result<Ends, AllocError>
    requires numbers { n ≤ 1000000 }
    requires truths { t ≤ 1000000 }
    ensures { IfOk result (IsBlock (block_of m masks.now places.now n t form.now) steps.old.items steps.new.items) }
{
    match form {
        Form::Value(i) => push_masked(steps, Step::Variable(*i), m, n, t),
        Form::Literal(k) => push_masked(steps, Step::Literal(*k), m, n, t),
        Form::Negative(k) => push_negative(steps, *k, m, n, t),
        Form::Add(i, j) => {
            let sum = Step::Add(at(places, *i), at(places, *j));
            push_masked(steps, sum, m, n, t)
        }
        Form::Subtract(i, j) => {
            let difference = Step::Subtract(at(places, *i), at(places, *j));
            push_masked(steps, difference, m, n, t)
        }
        Form::And(i, j) => push_one(steps, Step::And(at(places, *i), at(places, *j)), n, t),
        Form::Or(i, j) => push_one(steps, Step::Or(at(places, *i), at(places, *j)), n, t),
        Form::ExclusiveOr(i, j) => {
            push_one(
                steps,
                Step::ExclusiveOr(at(places, *i), at(places, *j)),
                n,
                t,
            )
        }
        Form::Same(i, j) => push_test(steps, Step::Equal(at(places, *i), at(places, *j)), n, t),
        Form::Less(i, j) => push_test(steps, Step::Less(at(places, *i), at(places, *j)), n, t),
        Form::LessSigned(u, i, j) => {
            push_less_signed(steps, at(masks, *u), at(places, *i), at(places, *j), n, t)
        }
        Form::Select(c, i, j) => {
            push_choice(steps, at(places, *c), at(places, *i), at(places, *j), n, t)
        }
        Form::Signs(u, i) => push_signs(steps, m, at(masks, *u), at(places, *i), n, t),
        Form::Resize(u, i) => push_resized(steps, m, at(masks, *u), at(places, *i), n, t),
        Form::Zeros(i) => push_steps(steps, &[], at(places, *i), n, t),
        Form::Cut(i) => push_one(steps, Step::And(at(places, *i), m), n, t),
        Form::Quotient(i, k) => push_one(steps, Step::Quotient(at(places, *i), *k), n, t),
    }
}
