//! The check whether a target is accepted.
ghost use Rattle.std.specs.Prelude.{◌≡◌, map, not};
ghost use Rattle.std.specs.List.{All, list_all, list_any};
ghost use Rattle.ir_event.specs.types.Things.{IsName};
ghost use Rattle.ir_event.specs.types.Terms.{name_term};
ghost use Rattle.ir_event.specs.types.WordNames.{word_bytes};
ghost use Rattle.patterns_base.specs.RuleNames.{is_converting};
ghost use Rattle.patterns_base.specs.Words.{among, named};
ghost use Rattle.conversion_base.specs.Targets.{IsNamedIn, target_model, cast_name, each_once, is_accepted, names_of};
ghost use Rattle.conversion_base.specs.Numbers.{are_apart, lists_apart, lists_once};

use crate::names::Names;
use crate::target::Target;
use ir_event::types::context::Context;
use ir_event::types::ids::NameId;
use ir_event::types::word::Word;
use patterns_base::rule::Rule;

/// Returns whether `name` is among `names`.
pub(crate) fn is_among(ctx: &Context, names: &Names, name: NameId) -> bool
    requires names { All (IsName ctx.now) names.now }
    requires name { IsName ctx.now name }
    ensures { result ≡ among (map (name_term ctx.now) names.now) (name_term ctx.now name) }
{
    ctx.sound();
    names.has(name)
}

/// Returns whether a known word is among `names`.
fn has_word(ctx: &Context, names: &Names, word: Word) -> bool
    ensures { result ≡ list_any (named (word_bytes word)) (map (name_term ctx.now) names.now) }
{
    let mut rest = names.list();
    'names: while let [name, tail @ ..] = rest {
        if ctx.is_word(*name, word) {
            return true;
        }
        rest = tail;
    }
    false
}

/// Returns whether a list of names has no duplicate.
fn have_no_duplicates(ctx: &Context, names: &Names) -> bool
    requires names { All (IsName ctx.now) names.now }
    ensures { result ≡ each_once (map (name_term ctx.now) names.now) }
{
    ctx.sound();
    !names.repeats()
}

/// Returns whether no name of one list is in the other.
fn are_apart(ctx: &Context, names: &Names, others: &Names) -> bool
    requires names { All (IsName ctx.now) names.now }
    requires others { All (IsName ctx.now) others.now }
    ensures { result ≡ are_apart (map (name_term ctx.now) names.now) (map (name_term ctx.now) others.now) }
{
    let mut rest = names.list();
    'names: while let [name, tail @ ..] = rest {
        if is_among(ctx, others, *name) {
            return false;
        }
        rest = tail;
    }
    true
}

/// Returns whether a conversion may try each of some rules.
fn are_converting(rules: &[Rule]) -> bool
    ensures { result ≡ list_all is_converting rules.now }
{
    let mut rest = rules;
    'rules: while let [rule, tail @ ..] = rest {
        if !rule.is_converting() {
            return false;
        }
        rest = tail;
    }
    true
}

/// Returns whether no list of a target has a duplicate.
fn lists_once(ctx: &Context, target: &Target) -> bool
    requires names { IsNamedIn ctx.now target.now }
    ensures { result ≡ lists_once (target_model ctx.now target.now) }
{
    have_no_duplicates(ctx, &target.legal)
        && have_no_duplicates(ctx, &target.illegal)
        && have_no_duplicates(ctx, &target.dynamic)
}

/// Returns whether no name is in two lists of a target.
fn lists_apart(ctx: &Context, target: &Target) -> bool
    requires names { IsNamedIn ctx.now target.now }
    ensures { result ≡ lists_apart (target_model ctx.now target.now) }
{
    are_apart(ctx, &target.legal, &target.illegal)
        && are_apart(ctx, &target.legal, &target.dynamic)
        && are_apart(ctx, &target.illegal, &target.dynamic)
}

/// Returns whether each name of a target is listed once.
fn each_once(ctx: &Context, target: &Target) -> bool
    requires names { IsNamedIn ctx.now target.now }
    ensures { result ≡ each_once (names_of (target_model ctx.now target.now)) }
{
    lists_once(ctx, target) && lists_apart(ctx, target)
}

/// Returns whether no list of a target has the name of unrealized casts.
fn lacks_casts(ctx: &Context, target: &Target) -> bool
    ensures { result ≡ not (list_any (named cast_name) (names_of (target_model ctx.now target.now))) }
{
    let word = Word::BuiltinUnrealizedConversionCast;
    !has_word(ctx, &target.legal, word)
        && !has_word(ctx, &target.illegal, word)
        && !has_word(ctx, &target.dynamic, word)
}

/// Returns whether a target is accepted: each name is listed once, unrealized casts aren't listed, a conversion may
/// try each of the rules, and the depth is within its limits.
pub fn is_accepted(ctx: &Context, target: &Target) -> bool
    requires names { IsNamedIn ctx.now target.now }
    ensures { result ≡ is_accepted (target_model ctx.now target.now) }
{
    each_once(ctx, target)
        && lacks_casts(ctx, target)
        && are_converting(&target.rules)
        && 1 <= target.depth
        && target.depth <= 16
}
