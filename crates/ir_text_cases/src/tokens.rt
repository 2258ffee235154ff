//! Lexes the token at the front of a text.
use crate::shown::{refused, write_bytes};
use ir_text::reader::ReadError;
use ir_text_tokens::lexer::token;
use ir_text_tokens::token::Token;
use ir_types::refusal::Refusal;
use std::alloc::{AllocError, Global};

/// Returns the kind of a token as a word.
fn kind_of(token: &Token<'_>) -> &'static str {
    match token {
        Token::Mark(_) => "mark",
        Token::Integer(_) => "integer",
        Token::Float(_) => "float",
        Token::String(_) => "string",
        Token::Bare(_) => "bare",
        Token::Value(_) => "value",
        Token::Label(_) => "label",
        Token::Hash(_) => "hash",
        Token::Bang(_) => "bang",
        Token::Symbol(_) => "symbol",
        Token::Quoted(_) => "quoted",
    }
}

/// Returns the text that a token carries.
fn held_by<'a>(token: &Token<'a>) -> &'a [u8] {
    match token {
        Token::Mark(_) => b"",
        Token::Integer(text)
        | Token::Float(text)
        | Token::String(text)
        | Token::Bare(text)
        | Token::Value(text)
        | Token::Label(text)
        | Token::Hash(text)
        | Token::Bang(text)
        | Token::Symbol(text)
        | Token::Quoted(text) => text,
    }
}

fn write_token(out: &mut String, found: &Token<'_>, rest: &[u8]) -> Result<(), AllocError> {
    out.push_str(kind_of(found))?;
    out.push_str(" [")?;
    write_bytes(out, held_by(found))?;
    out.push_str("] [")?;
    write_bytes(out, rest)?;
    out.push_str("]")
}

fn shown_token(alloc: Global, found: &Token<'_>, rest: &[u8]) -> Result<String, AllocError> {
    let mut out = String::new(alloc);
    write_token(&mut out, found, rest)?;
    Ok(out)
}

/// Returns the token at the front of a text, its text and the rest; or why no token begins there.
pub fn preceding(alloc: Global, bytes: &[u8]) -> Result<String, Refusal> {
    match token(bytes) {
        Ok((found, rest)) => Ok(shown_token(alloc, &found, rest)?),
        Err(fault) => {
            let refusal = fault.refusal.refusal();
            let offset = fault.offset(bytes);
            refused(alloc, ReadError::Refused { refusal, offset })
        }
    }
}
