//! The operations that may have operands or results of type index.
ghost use Rattle.std.specs.Prelude.{◌≡◌, map};
ghost use Rattle.ir_event.specs.types.Terms.{name_term};
ghost use Rattle.ir_event.specs.types.WordNames.{word_bytes};
ghost use Rattle.patterns_soundness.specs.base.Words.{among, index_users};

use ir_event::types::context::Context;
use ir_event::types::ids::NameId;
use ir_event::types::word::Word;

/// The words of these operations.
static USERS: [Word; 20] = [
    Word::ArithConstant,
    Word::ArithCmpi,
    Word::ArithSelect,
    Word::ArithAddi,
    Word::ArithSubi,
    Word::ArithMuli,
    Word::ArithShli,
    Word::ArithDivsi,
    Word::ArithDivui,
    Word::ArithRemsi,
    Word::ArithRemui,
    Word::ArithAndi,
    Word::ArithOri,
    Word::ArithXori,
    Word::ArithShrsi,
    Word::ArithShrui,
    Word::ArithMaxsi,
    Word::ArithMaxui,
    Word::ArithMinsi,
    Word::ArithMinui,
];

/// Returns the words of the operations, except casts, that may have an operand or result of type index.
fn users() -> &'static [Word]
    ensures { map (λ w. word_bytes w) result.now ≡ index_users }
{
    &USERS
}

/// Returns whether an operation name is one of some words.
fn is_among(ctx: &Context, name: NameId, words: &[Word]) -> bool
    ensures { result ≡ among (map (λ w. word_bytes w) words.now) (name_term ctx.now name) }
{
    let mut rest = words;
    'words: while let [word, tail @ ..] = rest {
        if ctx.is_word(name, *word) {
            return true;
        }
        rest = tail;
    }
    false
}

/// Returns whether operations with this name may have an operand or result of type index, and aren't casts.
pub(crate) fn is_user(ctx: &Context, name: NameId) -> bool
    ensures { result ≡ among index_users (name_term ctx.now name) }
{
    is_among(ctx, name, users())
}
