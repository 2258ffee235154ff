//! The operation names that the rules refer to.
ghost use Rattle.std.specs.Prelude.{◌≡◌, IfSome, option_map};
ghost use Rattle.std.specs.Str.{bytes_eq};
ghost use Rattle.ir_event.specs.types.Things.{IsName};
ghost use Rattle.ir_event.specs.types.Terms.{name_term};
ghost use Rattle.ir_event.specs.types.WordNames.{word_bytes};
ghost use Rattle.op_registry.specs.Registry.{next_to};
ghost use Rattle.patterns_laws.specs.Words.{among, predicate_of_min_max, self_inverse, division_of_remainder, extensions, with_zero_as_right_identity};
ghost use Rattle.patterns_laws.specs.Words.{with_one_as_right_identity, index_casts, idempotent, associative, remainders, commutative};
ghost use Rattle.patterns_base.specs.Casting.{resizing};

use ir_event::types::context::Context;
use ir_event::types::ids::NameId;
use ir_event::types::word::Word;

/// Returns the interned name of a word.
pub fn word_name(ctx: &Context, word: Word) -> NameId
    ensures name { name_term ctx.now result ≡ word_bytes word }
    ensures of { IsName ctx.now result }
{
    ctx.sound();
    word.id()
}

/// Returns whether two names are equal.
#[tactic(auto, using(crate::proofs::Names::same_names))]
pub fn is_same_name(ctx: &Context, a: NameId, b: NameId) -> bool
    requires a { IsName ctx.now a }
    requires b { IsName ctx.now b }
    ensures { result ≡ bytes_eq (name_term ctx.now a) (name_term ctx.now b) }
{
    ctx.sound();
    a == b
}

/// Returns whether an operation is commutative, so that `swap-constant` moves a constant to its second operand.
#[tactic(auto, unfolding(patterns_laws::specs::Words::commutative))]
pub fn is_commutative(ctx: &Context, name: NameId) -> bool
    ensures { result ≡ among commutative (name_term ctx.now name) }
{
    ctx.is_word(name, Word::ArithAddi)
        || ctx.is_word(name, Word::ArithMuli)
        || ctx.is_word(name, Word::ArithAndi)
        || ctx.is_word(name, Word::ArithOri)
        || ctx.is_word(name, Word::ArithXori)
        || ctx.is_word(name, Word::ArithMaxsi)
        || ctx.is_word(name, Word::ArithMaxui)
        || ctx.is_word(name, Word::ArithMinsi)
        || ctx.is_word(name, Word::ArithMinui)
}

/// Returns whether a second operand 0 changes nothing.
#[tactic(auto, unfolding(patterns_laws::specs::Words::with_zero_as_right_identity))]
pub fn has_zero_as_right_identity(ctx: &Context, name: NameId) -> bool
    ensures { result ≡ among with_zero_as_right_identity (name_term ctx.now name) }
{
    ctx.is_word(name, Word::ArithAddi)
        || ctx.is_word(name, Word::ArithSubi)
        || ctx.is_word(name, Word::ArithOri)
        || ctx.is_word(name, Word::ArithXori)
        || ctx.is_word(name, Word::ArithShli)
        || ctx.is_word(name, Word::ArithShrsi)
        || ctx.is_word(name, Word::ArithShrui)
}

/// Returns whether a second operand 1 changes nothing.
#[tactic(auto, unfolding(patterns_laws::specs::Words::with_one_as_right_identity))]
pub fn has_one_as_right_identity(ctx: &Context, name: NameId) -> bool
    ensures { result ≡ among with_one_as_right_identity (name_term ctx.now name) }
{
    ctx.is_word(name, Word::ArithMuli)
        || ctx.is_word(name, Word::ArithDivsi)
        || ctx.is_word(name, Word::ArithDivui)
}

/// Returns whether the operation on a value and itself gives the value.
#[tactic(auto, unfolding(patterns_laws::specs::Words::idempotent))]
pub fn is_idempotent(ctx: &Context, name: NameId) -> bool
    ensures { result ≡ among idempotent (name_term ctx.now name) }
{
    ctx.is_word(name, Word::ArithAndi)
        || ctx.is_word(name, Word::ArithOri)
        || ctx.is_word(name, Word::ArithMaxsi)
        || ctx.is_word(name, Word::ArithMaxui)
        || ctx.is_word(name, Word::ArithMinsi)
        || ctx.is_word(name, Word::ArithMinui)
}

/// Returns whether the operation on a value and itself gives 0.
#[tactic(auto, unfolding(patterns_laws::specs::Words::self_inverse))]
pub fn is_self_inverse(ctx: &Context, name: NameId) -> bool
    ensures { result ≡ among self_inverse (name_term ctx.now name) }
{
    ctx.is_word(name, Word::ArithSubi) || ctx.is_word(name, Word::ArithXori)
}

/// Returns whether the operation is a remainder.
#[tactic(auto, unfolding(patterns_laws::specs::Words::remainders))]
pub fn is_remainder(ctx: &Context, name: NameId) -> bool
    ensures { result ≡ among remainders (name_term ctx.now name) }
{
    ctx.is_word(name, Word::ArithRemsi) || ctx.is_word(name, Word::ArithRemui)
}

/// Returns whether the operation is associative.
#[tactic(auto, unfolding(patterns_laws::specs::Words::associative))]
pub fn is_associative(ctx: &Context, name: NameId) -> bool
    ensures { result ≡ among associative (name_term ctx.now name) }
{
    ctx.is_word(name, Word::ArithAddi)
        || ctx.is_word(name, Word::ArithMuli)
        || ctx.is_word(name, Word::ArithAndi)
        || ctx.is_word(name, Word::ArithOri)
        || ctx.is_word(name, Word::ArithXori)
}

/// Returns whether the operation is an extension.
#[tactic(auto, unfolding(patterns_laws::specs::Words::extensions))]
pub fn is_extension(ctx: &Context, name: NameId) -> bool
    ensures { result ≡ among extensions (name_term ctx.now name) }
{
    ctx.is_word(name, Word::ArithExtsi) || ctx.is_word(name, Word::ArithExtui)
}

/// Returns whether the operation is a cast between integers and index.
#[tactic(auto, unfolding(patterns_laws::specs::Words::index_casts))]
pub fn is_index_cast(ctx: &Context, name: NameId) -> bool
    ensures { result ≡ among index_casts (name_term ctx.now name) }
{
    ctx.is_word(name, Word::ArithIndexCast) || ctx.is_word(name, Word::ArithIndexCastui)
}

/// Returns whether the operation is a cast between integers whose result a truncation may read.
pub fn is_integer_cast(ctx: &Context, name: NameId) -> bool
    ensures { result ≡ among resizing (name_term ctx.now name) }
{
    ctx.is_word(name, Word::ArithTrunci) || is_extension(ctx, name)
}

/// Returns the predicate that compares the operands of a minimum or maximum, or `None` for another operation.
#[tactic(auto, unfolding(patterns_laws::specs::Words::predicate_of_min_max))]
pub fn predicate_of_min_max(ctx: &Context, name: NameId) -> Option<u128>
    ensures { result ≡ next_to (name_term ctx.now name) predicate_of_min_max }
{
    if ctx.is_word(name, Word::ArithMaxsi) {
        return Some(4);
    }
    if ctx.is_word(name, Word::ArithMaxui) {
        return Some(8);
    }
    if ctx.is_word(name, Word::ArithMinsi) {
        return Some(2);
    }
    if ctx.is_word(name, Word::ArithMinui) {
        return Some(6);
    }
    None
}

/// Returns the division of a remainder, or `None` for another operation.
#[tactic(auto, unfolding(patterns_laws::specs::Words::division_of_remainder))]
pub fn division_of_remainder(ctx: &Context, name: NameId) -> Option<NameId>
    ensures name { option_map (name_term ctx.now) result ≡ next_to (name_term ctx.now name) division_of_remainder }
    ensures of { IfSome result (IsName ctx.now) }
{
    if ctx.is_word(name, Word::ArithRemsi) {
        return Some(word_name(ctx, Word::ArithDivsi));
    }
    if ctx.is_word(name, Word::ArithRemui) {
        return Some(word_name(ctx, Word::ArithDivui));
    }
    None
}
