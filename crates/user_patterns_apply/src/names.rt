//! The names of the operations of a pattern.
ghost use Rattle.std.specs.Prelude.{◌≡◌};
ghost use Rattle.ir_event.specs.types.Things.{IsName};
ghost use Rattle.ir_event.specs.types.Terms.{name_term};
ghost use Rattle.ir_event.specs.types.WordNames.{word_bytes};
ghost use Rattle.patterns_base.specs.Words.{named};
ghost use Rattle.user_patterns_data.specs.Names.{cast_name, name_of, pair_name, predicate_number};
ghost use Rattle.user_patterns_apply.specs.Matched.{name_by};

use dialects_int::operations::{Arithmetic, Cast, Predicate};
use ir_event::types::context::Context;
use ir_event::types::ids::NameId;
use ir_event::types::things;
use ir_event::types::word::Word;
use user_patterns_data::pattern::Expression;

fn pair_word(operation: Arithmetic) -> Word
    ensures { word_bytes result ≡ pair_name operation }
{
    match operation {
        Arithmetic::Add => Word::ArithAddi,
        Arithmetic::Subtract => Word::ArithSubi,
        Arithmetic::Multiply => Word::ArithMuli,
        Arithmetic::ShiftLeft => Word::ArithShli,
        Arithmetic::DivideSigned => Word::ArithDivsi,
        Arithmetic::DivideUnsigned => Word::ArithDivui,
        Arithmetic::RemainderSigned => Word::ArithRemsi,
        Arithmetic::RemainderUnsigned => Word::ArithRemui,
        Arithmetic::And => Word::ArithAndi,
        Arithmetic::Or => Word::ArithOri,
        Arithmetic::ExclusiveOr => Word::ArithXori,
        Arithmetic::ShiftRightSigned => Word::ArithShrsi,
        Arithmetic::ShiftRightUnsigned => Word::ArithShrui,
        Arithmetic::MaximumSigned => Word::ArithMaxsi,
        Arithmetic::MaximumUnsigned => Word::ArithMaxui,
        Arithmetic::MinimumSigned => Word::ArithMinsi,
        Arithmetic::MinimumUnsigned => Word::ArithMinui,
    }
}

fn cast_word(cast: Cast) -> Word
    ensures { word_bytes result ≡ cast_name cast }
{
    match cast {
        Cast::ExtendSigned => Word::ArithExtsi,
        Cast::ExtendUnsigned => Word::ArithExtui,
        Cast::Truncate => Word::ArithTrunci,
    }
}

/// Returns the operation name of `form`, or `None` if `form` has none.
pub fn word_of(form: &Expression) -> Option<Word>
    ensures { name_by result ≡ name_of form.now }
{
    match form {
        Expression::Binary(operation, _, _) => Some(pair_word(*operation)),
        Expression::Compare(_, _, _) => Some(Word::ArithCmpi),
        Expression::Select(_, _, _) => Some(Word::ArithSelect),
        Expression::IntegerCast(cast, _) => Some(cast_word(*cast)),
        Expression::IndexCast(cast, _) => match cast {
            Cast::ExtendSigned => Some(Word::ArithIndexCast),
            Cast::ExtendUnsigned => Some(Word::ArithIndexCastui),
            Cast::Truncate => None,
        },
    }
}

/// Returns the number of a predicate in MLIR's `predicate` attribute.
pub fn predicate_number(predicate: Predicate) -> u128
    ensures { result ≡ predicate_number predicate }
{
    match predicate {
        Predicate::Equal => 0,
        Predicate::NotEqual => 1,
        Predicate::SignedLess => 2,
        Predicate::SignedLessOrEqual => 3,
        Predicate::SignedGreater => 4,
        Predicate::SignedGreaterOrEqual => 5,
        Predicate::UnsignedLess => 6,
        Predicate::UnsignedLessOrEqual => 7,
        Predicate::UnsignedGreater => 8,
        Predicate::UnsignedGreaterOrEqual => 9,
    }
}

/// Returns whether `name` is the operation name of `form`. If `form` has no name, returns whether `name` is empty.
pub(crate) fn is_named(ctx: &Context, name: NameId, form: &Expression) -> bool
    requires { IsName ctx.now name }
    ensures { result ≡ named (name_of form.now) (name_term ctx.now name) }
{
    match word_of(form) {
        Some(word) => ctx.is_word(name, word),
        None => {
            ctx.sound();
            things::name_of(ctx, name).is_empty()
        }
    }
}
