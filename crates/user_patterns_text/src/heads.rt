//! The kinds of the first token of a term or a number.
ghost use Rattle.std.specs.Prelude.{◌≡◌, ◌==◌, if◌then◌else◌};
ghost use Rattle.ir_text_tokens.specs.Tokens.{lexeme_of};
ghost use Rattle.user_patterns_text.specs.Heads.{has_dot, head_of, of_operation, of_word};
ghost use Rattle.user_patterns_text.specs.Views.{head_view};

use ir_text_tokens::token::{Mark, Token};

/// The kind of a token. A word with a dot names an operation.
#[derive(Clone, Copy)]
pub(crate) enum TokenKind<'a> {
    Value(&'a [u8]),
    Operation(&'a [u8]),
    Word(&'a [u8]),
    Digits(&'a [u8]),
    Minus,
    Other,
}

fn has_dot(word: &[u8]) -> bool
    ensures { result ≡ has_dot word.now }
{
    word.iter().any(|byte| *byte == b'.')
}

fn bare<'a>(word: &'a [u8]) -> TokenKind<'a>
    ensures { head_view result ≡ (if has_dot word.now then of_operation word.now else of_word word.now) }
{
    if has_dot(word) {
        TokenKind::Operation(word)
    } else {
        TokenKind::Word(word)
    }
}

pub(crate) fn head_of<'a>(token: Token<'a>) -> TokenKind<'a>
    ensures { head_view result ≡ head_of (lexeme_of token.entry) }
{
    match token {
        Token::Value(name) => TokenKind::Value(name),
        Token::Bare(word) => bare(word),
        Token::Integer(digits) => TokenKind::Digits(digits),
        Token::Mark(Mark::Minus) => TokenKind::Minus,
        _ => TokenKind::Other,
    }
}
