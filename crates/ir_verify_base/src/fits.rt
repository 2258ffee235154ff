//! Compares types with the type rules of the operation table.
ghost use Rattle.std.specs.Prelude.{◌≡◌, IfSome, Some, ◌+◌, ◌≤◌, length};
ghost use Rattle.std.specs.List.{All, list_all};
ghost use Rattle.std.specs.Option.{option_eq, option_map};
ghost use Rattle.ir_types.specs.Things.{IsType};
ghost use Rattle.ir_types.specs.Terms.{type_term};
ghost use Rattle.op_registry.specs.Registry.{types_row};
ghost use Rattle.ir_verify_base.specs.Numbers.{typed, known_in, AreKnown};
ghost use Rattle.ir_types.specs.SameTypes.{same_type};
ghost use Rattle.ir_verify_base.specs.Fits as fits;

use crate::types::{is_boolean, is_index, is_integer, is_memref, is_number, same, same_types};
use ir_types::context::Context;
use ir_types::ids::TypeId;
use op_registry::definition::{TypeRule, Types};

/// The types of an operation with which a type rule may compare a type.
#[derive(Clone, Copy)]
pub struct ComparedTypes<'a> {
    /// The type of the first operand whose rule is `Number`.
    pub number: Option<TypeId>,
    /// The type of the first operand whose rule is `Any`.
    pub same: Option<TypeId>,
    /// The types of the operands after the fixed ones.
    pub initial: &'a [TypeId],
    /// The types of the results.
    pub results: &'a [TypeId],
    /// The inputs of the operation's function type.
    pub inputs: &'a [TypeId],
}

/// Returns whether the types satisfy the type rules of a row.
pub fn types_fit(ctx: &Context, known: &ComparedTypes<'_>, row: &Types, types: &[TypeId]) -> bool
    requires known { AreKnown ctx.now known.now }
    requires types { All (λ t. IsType ctx.now t) types.now }
    ensures { result ≡ fits.types_fit (known_in ctx.now known.now) (types_row row.now) (typed ctx.now types.now) }
{
    let mut rules: &[TypeRule] = row.first;
    let mut rest = types;
    while let [rule, more @ ..] = rules {
        let [ty, others @ ..] = rest else {
            return false;
        };
        if !type_fits(ctx, known, *rule, *ty) {
            return false;
        }
        rules = more;
        rest = others;
    }
    more_fit(ctx, known, row.more, rest)
}

/// Returns whether the types after the fixed ones satisfy the rule `more`. Without a rule there must be none.
fn more_fit(
    ctx: &Context,
    known: &ComparedTypes<'_>,
    more: Option<TypeRule>,
    types: &[TypeId],
) -> bool
    requires known { AreKnown ctx.now known.now }
    requires types { All (λ t. IsType ctx.now t) types.now }
    ensures { result ≡ fits.more_fit (known_in ctx.now known.now) more (typed ctx.now types.now) }
{
    match more {
        None => types.is_empty(),
        Some(rule) => rest_fit(ctx, known, rule, types),
    }
}

/// Returns whether the types after the fixed ones equal the list that the rule names, or each of them satisfies the
/// rule.
fn rest_fit(ctx: &Context, known: &ComparedTypes<'_>, rule: TypeRule, types: &[TypeId]) -> bool
    requires known { AreKnown ctx.now known.now }
    requires types { All (λ t. IsType ctx.now t) types.now }
    ensures { result ≡ fits.more_fit (known_in ctx.now known.now) (Some rule) (typed ctx.now types.now) }
{
    match rule {
        TypeRule::Initial => same_types(ctx, known.initial, types),
        TypeRule::Result => same_types(ctx, known.results, types),
        TypeRule::Input => same_types(ctx, known.inputs, types),
        TypeRule::Any
        | TypeRule::Number
        | TypeRule::OtherNumber
        | TypeRule::Integer
        | TypeRule::Boolean
        | TypeRule::Index
        | TypeRule::Memref
        | TypeRule::Element
        | TypeRule::Same => all_fit(ctx, known, rule, types),
    }
}

/// Returns whether each type satisfies the rule.
fn all_fit(ctx: &Context, known: &ComparedTypes<'_>, rule: TypeRule, types: &[TypeId]) -> bool
    requires known { AreKnown ctx.now known.now }
    requires types { All (λ t. IsType ctx.now t) types.now }
    ensures { result ≡ list_all (fits.fits (known_in ctx.now known.now) rule) (typed ctx.now types.now) }
{
    let mut rest = types;
    while let [ty, others @ ..] = rest {
        if !type_fits(ctx, known, rule, *ty) {
            return false;
        }
        rest = others;
    }
    true
}

/// Returns whether a type satisfies the rule. The element types of memrefs are tested by rule 20.
fn type_fits(ctx: &Context, known: &ComparedTypes<'_>, rule: TypeRule, ty: TypeId) -> bool
    requires known { AreKnown ctx.now known.now }
    requires ty { IsType ctx.now ty }
    ensures { result ≡ fits.fits (known_in ctx.now known.now) rule (Some (type_term ctx.now ty)) }
{
    match rule {
        TypeRule::Any => true,
        TypeRule::Number => is_the_number(ctx, known.number, ty),
        TypeRule::OtherNumber => is_number(ctx, ty),
        TypeRule::Integer => is_integer(ctx, ty),
        TypeRule::Boolean => is_boolean(ctx, ty),
        TypeRule::Index => is_index(ctx, ty),
        TypeRule::Memref => is_memref(ctx, ty),
        TypeRule::Element => true,
        TypeRule::Same => is_the_same(ctx, known.same, ty),
        TypeRule::Initial => true,
        TypeRule::Result => true,
        TypeRule::Input => true,
    }
}

/// Returns whether a type equals `number`, or is any number if there is no such type.
fn is_the_number(ctx: &Context, number: Option<TypeId>, ty: TypeId) -> bool
    requires number { IfSome number (λ t. IsType ctx.now t) }
    requires ty { IsType ctx.now ty }
    ensures { result ≡ fits.is_the_number (option_map (type_term ctx.now) number) (Some (type_term ctx.now ty)) }
{
    match number {
        None => is_number(ctx, ty),
        Some(number) => same(ctx, number, ty),
    }
}

/// Returns whether there is a type `wanted` and the type equals it.
fn is_the_same(ctx: &Context, wanted: Option<TypeId>, ty: TypeId) -> bool
    requires wanted { IfSome wanted (λ t. IsType ctx.now t) }
    requires ty { IsType ctx.now ty }
    ensures { result ≡ option_eq same_type (option_map (type_term ctx.now) wanted) (Some (type_term ctx.now ty)) }
{
    match wanted {
        None => false,
        Some(wanted) => same(ctx, wanted, ty),
    }
}

/// Returns whether `count` types fit the row's number of types, given the number of operands after the fixed ones.
pub fn count_fits(initial: usize, row: &Types, count: usize) -> bool
    ensures { result ≡ fits.count_fits initial (types_row row.now) count }
{
    let first = row.first.len();
    match row.more {
        None => count == first,
        Some(rule) => more_count(initial, first, rule, count),
    }
}

/// Returns whether `count` types fit `first` fixed types and more by the rule, given `initial` operands after the fixed
/// ones.
fn more_count(initial: usize, first: usize, rule: TypeRule, count: usize) -> bool
    ensures { result ≡ fits.more_count initial first (Some rule) count }
{
    match rule {
        TypeRule::Initial => count >= first && count - first == initial,
        TypeRule::Any
        | TypeRule::Number
        | TypeRule::OtherNumber
        | TypeRule::Integer
        | TypeRule::Boolean
        | TypeRule::Index
        | TypeRule::Memref
        | TypeRule::Element
        | TypeRule::Same
        | TypeRule::Result
        | TypeRule::Input => first <= count,
    }
}
