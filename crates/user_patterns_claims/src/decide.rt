//! Whether a pattern holds at every width.
ghost use Rattle.std.specs.Prelude.{◌≡◌, ◌≤◌, [], IfOk, IfSome, Some, length, true};
ghost use Rattle.user_patterns_data.specs.Shapes.{pattern_model};
ghost use Rattle.user_patterns_claims.specs.Code.{state};
ghost use Rattle.user_patterns_claims.specs.Settled.{AreGoalsDecided, IsAimDecided, IsEmptyDecided, IsGoalDecided, IsPatternDecided, decision_by};
ghost use Rattle.user_patterns_claims.specs.Translation.{claim_from, empty_goal_of, empty_sides, goal_for, goal_from, goal_of, set_count};
ghost use Rattle.user_patterns_instructions.specs.Expressions.{claim_types, narrower_types};

use crate::aim::Aim;
use crate::decision::Decision;
use crate::goal::{Results, translate_old, translate_pattern};
use crate::question::Question;
use crate::refining::sides;
use crate::variables::set_count;
use std::alloc::{AllocError, Global};
use user_patterns_data::pattern::Pattern;
use user_patterns_instructions::operand::{Operand, Poison};
use user_patterns_instructions::types::{push_narrower, push_widths};
use width_claims::claim::decide_equal;
use width_claims::form::Expr;
use width_claims::verdict::Verdict;
use width_claims::width::{Narrower, Width};

/// The most sets of poison variables.
const MOST_SETS: usize = 64;

/// The most variables, and the most types.
const MOST_VARIABLES: usize = 1000;

/// Whether the results of both sides are as they have to be.
fn decide_results(
    alloc: Global,
    question: &Question,
    results: &Results,
    exprs: &mut Vec<Expr>,
    conditions: &[usize],
) -> Result<Verdict, AllocError>
    ensures { IfOk result (IsGoalDecided (goal_from (pattern_model question.now.pattern.now) (state exprs.old.items [] conditions.now) results.now.old results.now.new)) }
{
    if results.old.ty != results.new.ty {
        return Ok(Verdict::TooMany);
    }
    let Some(equation) = sides(&results.old, &results.new, exprs)? else {
        return Ok(Verdict::Always);
    };
    decide_equal(
        alloc,
        question.pattern.values.len(),
        question.types,
        question.narrower,
        exprs.as_slice(),
        conditions,
        equation.left,
        equation.right,
        question.most,
    )
}

/// Whether the new side refines the old side for a set of poison variables. The lists are empty at first.
fn decide_refines(
    alloc: Global,
    question: &Question,
    set: usize,
    exprs: &mut Vec<Expr>,
    operands: &mut Vec<Operand>,
    conditions: &mut Vec<usize>,
) -> Result<Verdict, AllocError>
    requires none { exprs.old.items ≡ [] }
    requires empty { operands.old.items ≡ [] }
    requires free { conditions.old.items ≡ [] }
    ensures { IfOk result (IsGoalDecided (goal_of (pattern_model question.now.pattern.now) set)) }
{
    let results = translate_pattern(
        question.pattern,
        question.narrower,
        set,
        exprs,
        operands,
        conditions,
    )?;
    let Some(results) = results else {
        return Ok(Verdict::TooMany);
    };
    decide_results(alloc, question, &results, exprs, conditions.as_slice())
}

/// Whether the value at a place is 1.
fn decide_one(
    alloc: Global,
    question: &Question,
    exprs: &[Expr],
    conditions: &[usize],
    place: usize,
) -> Result<Verdict, AllocError>
    ensures { IfOk result (IsGoalDecided (Some (claim_from (pattern_model question.now.pattern.now) conditions.now (Some (exprs.now, place, 1))))) }
{
    decide_equal(
        alloc,
        question.pattern.values.len(),
        question.types,
        question.narrower,
        exprs,
        conditions,
        place,
        1,
        question.most,
    )
}

/// Whether the old result is poison.
fn decide_poison(
    alloc: Global,
    question: &Question,
    old: &Operand,
    exprs: &[Expr],
    conditions: &[usize],
) -> Result<Verdict, AllocError>
    ensures { IfOk result (IsGoalDecided (Some (claim_from (pattern_model question.now.pattern.now) conditions.now (empty_sides old.now.poison exprs.now)))) }
{
    match old.poison {
        Poison::Always => Ok(Verdict::Always),
        Poison::When(place) => decide_one(alloc, question, exprs, conditions, place),
        Poison::Never => decide_one(alloc, question, exprs, conditions, 0),
    }
}

/// Whether the old side is never a number for a set of poison variables. The lists are empty at first.
fn decide_empty_set(
    alloc: Global,
    question: &Question,
    set: usize,
    exprs: &mut Vec<Expr>,
    operands: &mut Vec<Operand>,
    conditions: &mut Vec<usize>,
) -> Result<Verdict, AllocError>
    requires none { exprs.old.items ≡ [] }
    requires empty { operands.old.items ≡ [] }
    requires free { conditions.old.items ≡ [] }
    ensures { IfOk result (IsGoalDecided (empty_goal_of (pattern_model question.now.pattern.now) set)) }
{
    let old = translate_old(
        question.pattern,
        question.narrower,
        set,
        exprs,
        operands,
        conditions,
    )?;
    let Some(old) = old else {
        return Ok(Verdict::TooMany);
    };
    decide_poison(
        alloc,
        question,
        &old,
        exprs.as_slice(),
        conditions.as_slice(),
    )
}

/// Whether the goal for a set of poison variables is reached.
fn decide_set(alloc: Global, question: &Question, set: usize) -> Result<Verdict, AllocError>
    ensures { IfOk result (IsGoalDecided (goal_for question.now.aim (pattern_model question.now.pattern.now) set)) }
{
    let mut exprs = Vec::new(alloc);
    let mut operands = Vec::new(alloc);
    let mut conditions = Vec::new(alloc);
    match question.aim {
        Aim::Refines => decide_refines(
            alloc,
            question,
            set,
            &mut exprs,
            &mut operands,
            &mut conditions,
        ),
        Aim::IsEmpty => decide_empty_set(
            alloc,
            question,
            set,
            &mut exprs,
            &mut operands,
            &mut conditions,
        ),
    }
}

/// What a verdict on the goal for a set says of the pattern.
fn decision_of(set: usize, verdict: Verdict) -> Decision
    ensures { result ≡ decision_by set verdict }
{
    match verdict {
        Verdict::Always => Decision::Always,
        Verdict::Fails(word) => Decision::Fails(set, word),
        Verdict::TooMany => Decision::Undecided,
    }
}

/// Whether the goals for the sets below a number are reached.
fn decide_sets(alloc: Global, question: &Question, count: usize) -> Result<Decision, AllocError>
    ensures { IfOk result (AreGoalsDecided question.now.aim (pattern_model question.now.pattern.now) count) }
{
    if count == 0 {
        return Ok(Decision::Always);
    }
    let before = decide_sets(alloc, question, count - 1)?;
    let Decision::Always = before else {
        return Ok(before);
    };
    let verdict = decide_set(alloc, question, count - 1)?;
    Ok(decision_of(count - 1, verdict))
}

/// Returns the number of sets of poison variables, if the pattern and that number are small enough.
fn few_sets(pattern: &Pattern) -> Option<usize>
    ensures few { IfSome result (λ _. length pattern.now.values.items ≤ 1000) }
    ensures types { IfSome result (λ _. length pattern.now.value_types.items ≤ 1000) }
    ensures count { IfSome result (λ n. n ≡ set_count (pattern_model pattern.now) 0 pattern.now.values.items) }
{
    if pattern.values.len() > MOST_VARIABLES || pattern.value_types.len() > MOST_VARIABLES {
        return None;
    }
    let Some(count) = set_count(pattern, 0, &pattern.values) else {
        return None;
    };
    if count > MOST_SETS { None } else { Some(count) }
}

/// Appends the types of a pattern's claims to empty lists, with the pairs of a narrower and a wider type. Returns whether
/// claims can express all types.
fn push_types(
    pattern: &Pattern,
    types: &mut Vec<Width>,
    narrower: &mut Vec<Narrower>,
) -> Result<bool, AllocError>
    requires few { length pattern.now.value_types.items ≤ 1000 }
    requires types { types.old.items ≡ [] }
    requires narrower { narrower.old.items ≡ [] }
    ensures types { IfOk result (λ done. done ≡ true → types.new.items ≡ claim_types pattern.now.value_types.items) }
    ensures narrower { IfOk result (λ done. done ≡ true → narrower.new.items ≡ narrower_types pattern.now.value_types.items pattern.now.type_constraints.items) }
{
    types.push(Width::Fixed(1))?;
    if !push_widths(&pattern.value_types, 0, &pattern.value_types, types)? {
        return Ok(false);
    }
    push_narrower(&pattern.value_types, &pattern.type_constraints, narrower)?;
    Ok(true)
}

/// Whether the goals for all sets of poison variables are reached.
fn decide_aim(
    alloc: Global,
    pattern: &Pattern,
    aim: Aim,
    most: usize,
) -> Result<Decision, AllocError>
    ensures { IfOk result (IsAimDecided aim (pattern_model pattern.now)) }
{
    let Some(count) = few_sets(pattern) else {
        return Ok(Decision::Undecided);
    };
    let mut types = Vec::new(alloc);
    let mut narrower = Vec::new(alloc);
    if !push_types(pattern, &mut types, &mut narrower)? {
        return Ok(Decision::Undecided);
    }
    let question = Question {
        pattern,
        aim,
        types: types.as_slice(),
        narrower: narrower.as_slice(),
        most,
    };
    decide_sets(alloc, &question, count)
}

/// Returns whether a pattern holds at every width, for all outcomes of its variables. Looks at no more than `most`
/// transitions of each claim. A pattern whose new side makes a signed division isn't decided.
pub fn decide_pattern(alloc: Global, pattern: &Pattern, most: usize) -> Result<Decision, AllocError>
    ensures { IfOk result (IsPatternDecided (pattern_model pattern.now)) }
{
    decide_aim(alloc, pattern, Aim::Refines, most)
}

/// Whether the old side of a pattern is never a number, at every width and for all outcomes of its variables. Looks at no
/// more than `most` transitions of each claim.
pub fn decide_empty(alloc: Global, pattern: &Pattern, most: usize) -> Result<Decision, AllocError>
    ensures { IfOk result (IsEmptyDecided (pattern_model pattern.now)) }
{
    decide_aim(alloc, pattern, Aim::IsEmpty, most)
}
