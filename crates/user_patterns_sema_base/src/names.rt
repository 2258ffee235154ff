//! The names of a pattern.
ghost use Rattle.std.specs.Prelude.{◌≡◌, ◌≤◌, [], map, length, IfOk, IfSome};
ghost use Rattle.user_patterns_text.specs.Parts.{kind_view, part_view, pattern_view};
ghost use Rattle.user_patterns_text.specs.Refusing.{Returns};
ghost use Rattle.user_patterns_sema_base.specs.Views.{variable_view, variable_views};
ghost use Rattle.user_patterns_sema_base.specs.Names.{all_known, counted, function_weight, condition_weight, is_unknown, is_variable, most_of, name_weight, names_of, place_of, taken, weight, with_part, with_variable};
ghost use Rattle.user_patterns_sema_base.specs.NameViews.{names_view};

use crate::words::{Function, function_named, is_condition, is_narrower, is_power, truth_named};
use ir_text_tokens::refusal::TextRefusal;
use std::alloc::Global;
use user_patterns_text::error::PatternError;
use user_patterns_text::parts::{Part, PartKind, Pattern};
use user_patterns_text::steps::refused;

/// The limit of variables, and of operations on each side.
const MOST: usize = 16;

/// The limit of constants on the left, and of computed numbers.
const MOST_NUMBERS: u32 = 256;

/// A variable: a value, written with `%`, or a number.
#[derive(Clone, Copy)]
pub struct Variable<'a> {
    pub is_value: bool,
    pub name: &'a [u8],
}

/// The items that a limit counts.
#[derive(Clone, Copy)]
pub enum Count {
    /// Operations.
    Operations,
    /// Constants on the left.
    Constants,
    /// Numbers computed on the right and in conditions.
    Numbers,
}

/// The names of a pattern: its variables, and the numbers of constants and operations on the left and of computed
/// numbers.
#[derive(Drop)]
pub struct Names<'a> {
    pub variables: Vec<Variable<'a>>,
    pub constants: u32,
    pub old: u32,
    pub numbers: u32,
}

fn is_variable(is_value: bool, name: &[u8], variable: &Variable<'_>) -> bool
    ensures { result ≡ is_variable is_value name.now (variable_view variable.now) }
{
    if is_value {
        variable.is_value && variable.name == name
    } else {
        !variable.is_value && variable.name == name
    }
}

/// Returns the place of a variable, or `None` if there is no such variable.
#[tactic(auto, unfolding(crate::specs::Names::place_from))]
pub fn place_of(is_value: bool, name: &[u8], variables: &[Variable<'_>]) -> Option<usize>
    ensures { result ≡ place_of is_value name.now (variable_views variables.now) }
{
    let mut rest = variables;
    let mut place = 0;
    'variables: while let [variable, tail @ ..] = rest {
        if is_variable(is_value, name, variable) {
            return Some(place);
        }
        rest = tail;
        place += 1;
    }
    None
}

/// Appends a variable, unless it is in the list.
#[tactic(auto, using(crate::proofs::Lists::variables_and))]
fn with_variable<'a>(
    variables: &mut Vec<Variable<'a>>,
    is_value: bool,
    name: &'a [u8],
    at: usize,
) -> Result<(), PatternError>
    ensures gives { Returns (λ _. variable_views variables.new.items) result (with_variable at is_value name.now (variable_views variables.old.items)) }
    ensures few { length variables.old.items ≤ 16 → length variables.new.items ≤ 16 }
{
    if place_of(is_value, name, variables).is_some() {
        return Ok(());
    }
    if variables.len() >= MOST {
        return Err(refused(TextRefusal::TooMany, at));
    }
    variables.push(Variable { is_value, name })?;
    Ok(())
}

fn with_part<'a>(variables: &mut Vec<Variable<'a>>, part: &Part<'a>) -> Result<(), PatternError>
    ensures gives { Returns (λ _. variable_views variables.new.items) result (with_part (variable_views variables.old.items) (part_view part.now)) }
    ensures few { length variables.old.items ≤ 16 → length variables.new.items ≤ 16 }
{
    match part.kind {
        PartKind::Value(name) => with_variable(variables, true, name, part.left),
        PartKind::Name(name) => {
            if truth_named(name).is_some() {
                Ok(())
            } else {
                with_variable(variables, false, name, part.left)
            }
        }
        _ => Ok(()),
    }
}

/// Returns the variables of the left side.
#[tactic(auto, unfolding(crate::specs::Names::taken))]
fn taken<'a>(alloc: Global, parts: &[Part<'a>]) -> Result<Vec<Variable<'a>>, PatternError>
    ensures gives { Returns (λ v. variable_views v.items) result (taken [] (map part_view parts.now)) }
    ensures few { IfOk result (λ v. length v.items ≤ 16) }
{
    let mut variables = Vec::new(alloc);
    let mut rest = parts;
    'parts: while let [part, tail @ ..] = rest {
        match with_part(&mut variables, part) {
            Ok(()) => rest = tail,
            Err(e) => return Err(e),
        }
    }
    Ok(variables)
}

fn function_weight(function: Option<Function>) -> u32
    ensures is { result ≡ function_weight function }
    ensures few { result ≤ 2 }
{
    match function {
        Some(Function::Negate) => 2,
        Some(Function::Complement) => 2,
        _ => 1,
    }
}

fn condition_weight(word: &[u8]) -> u32
    ensures is { result ≡ condition_weight word.now }
    ensures few { result ≤ 2 }
{
    if is_narrower(word) {
        0
    } else if is_power(word) {
        1
    } else {
        2
    }
}

fn name_weight(word: &[u8]) -> u32
    ensures is { result ≡ name_weight word.now }
    ensures few { result ≤ 1 }
{
    if truth_named(word).is_some() { 1 } else { 0 }
}

fn weight(count: Count, kind: &PartKind<'_>) -> u32
    ensures is { result ≡ weight count (kind_view kind.now) }
    ensures few { result ≤ 2 }
{
    match count {
        Count::Operations => match kind {
            PartKind::Operation(_, _) => 1,
            _ => 0,
        },
        Count::Constants => match kind {
            PartKind::Literal(_, _) => 1,
            PartKind::Name(_) => 1,
            _ => 0,
        },
        Count::Numbers => match kind {
            PartKind::Literal(_, _) => 1,
            PartKind::Name(name) => name_weight(name),
            PartKind::Function(name) => function_weight(function_named(name)),
            PartKind::Constraint(name) => condition_weight(name),
            _ => 0,
        },
    }
}

fn most_of(count: Count) -> u32
    ensures is { result ≡ most_of count }
    ensures few { result ≤ 256 }
{
    match count {
        Count::Operations => MOST as u32,
        Count::Constants => MOST_NUMBERS,
        Count::Numbers => MOST_NUMBERS,
    }
}

/// Returns `before` plus the number of items in `parts`. Refuses the first item beyond the limit with `TooMany`.
#[tactic(auto, unfolding(crate::specs::Names::counted))]
fn counted(count: Count, before: u32, parts: &[Part<'_>]) -> Result<u32, PatternError>
    requires { before ≤ 256 }
    ensures gives { Returns (λ n. n) result (counted count before (map part_view parts.now)) }
    ensures few { IfOk result (λ n. n ≤ 256) }
{
    let mut rest = parts;
    let mut found = before;
    'parts: while let [part, tail @ ..] = rest {
        let more = found + weight(count, &part.kind);
        if more > most_of(count) {
            return Err(refused(TextRefusal::TooMany, part.left));
        }
        found = more;
        rest = tail;
    }
    Ok(found)
}

fn is_unknown(variables: &[Variable<'_>], kind: &PartKind<'_>) -> bool
    ensures { result ≡ is_unknown (variable_views variables.now) (kind_view kind.now) }
{
    match kind {
        PartKind::Value(name) => place_of(true, name, variables).is_none(),
        PartKind::Name(name) => {
            truth_named(name).is_none() && place_of(false, name, variables).is_none()
        }
        PartKind::Function(name) => function_named(name).is_none(),
        PartKind::Constraint(name) => !is_condition(name),
        _ => false,
    }
}

/// Refuses the first unknown name with `UnknownValue`.
#[tactic(auto, unfolding(crate::specs::Names::all_known))]
fn all_known(variables: &[Variable<'_>], parts: &[Part<'_>]) -> Result<(), PatternError>
    ensures { Returns (λ _. tt) result (all_known (variable_views variables.now) (map part_view parts.now)) }
{
    let mut rest = parts;
    'parts: while let [part, tail @ ..] = rest {
        if is_unknown(variables, &part.kind) {
            return Err(refused(TextRefusal::UnknownValue, part.left));
        }
        rest = tail;
    }
    Ok(())
}

/// Returns the names of a pattern.
///
/// Refusals, each with its position, in order: `TooMany` at the seventeenth variable or operation of a side, or at a
/// constant on the left or a computed number beyond 256; `UnknownValue` at a name that is neither on the left nor in
/// the language.
#[tactic(auto, unfolding(crate::specs::Names::names_of))]
pub fn names_of<'a>(alloc: Global, pattern: &Pattern<'a>) -> Result<Names<'a>, PatternError>
    ensures gives { Returns names_view result (names_of (pattern_view pattern.now)) }
    ensures few { IfOk result (λ n. length n.variables.items ≤ 16) }
    ensures constants { IfOk result (λ n. n.constants ≤ 256) }
    ensures old { IfOk result (λ n. n.old ≤ 256) }
    ensures numbers { IfOk result (λ n. n.numbers ≤ 256) }
{
    let variables = match taken(alloc, &pattern.old) {
        Ok(variables) => variables,
        Err(e) => return Err(e),
    };
    let old = match counted(Count::Operations, 0, &pattern.old) {
        Ok(old) => old,
        Err(e) => return Err(e),
    };
    match counted(Count::Operations, 0, &pattern.new) {
        Ok(_) => {}
        Err(e) => return Err(e),
    }
    let constants = match counted(Count::Constants, 0, &pattern.old) {
        Ok(constants) => constants,
        Err(e) => return Err(e),
    };
    let numbers = match counted(Count::Numbers, 0, &pattern.new) {
        Ok(numbers) => numbers,
        Err(e) => return Err(e),
    };
    let numbers = match counted(Count::Numbers, numbers, &pattern.conditions) {
        Ok(numbers) => numbers,
        Err(e) => return Err(e),
    };
    match all_known(&variables, &pattern.new) {
        Ok(()) => {}
        Err(e) => return Err(e),
    }
    match all_known(&variables, &pattern.conditions) {
        Ok(()) => {}
        Err(e) => return Err(e),
    }
    Ok(Names {
        variables,
        constants,
        old,
        numbers,
    })
}
