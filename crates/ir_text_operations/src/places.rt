//! The places of the faults of an operation. Language Reference, "Operations".
ghost use Rattle.ir_text_operations.specs.Openings.{IsOfText};

use crate::op_header::begin_refusal;
use ir_text_names::pack::ValueGroup;
use ir_text_names::value_names::{counted, results};
use ir_text_tokens::fault::Fault;
use ir_text_tokens::lexer::{skip, token};
use ir_text_tokens::names::ScopedNames;
use ir_text_tokens::refusal::TextRefusal;
use ir_text_tokens::token::{Mark, Token};
use ir_text_types::error::{ReadError, wrong};
use ir_text_types::steps::after;
use ir_tree::limits::MOST_ITEMS;
use ir_tree::value::Value;
use ir_types::ids::OpId;
use std::alloc::{AllocError, Global};

/// Returns the fault at the name of an operation, or the fault of a token that is no name.
fn fault_at(refusal: TextRefusal, bytes: &[u8], named: bool) -> Fault {
    match token(bytes) {
        Ok((Token::String([]), _)) => wrong(TextRefusal::Unexpected, bytes),
        Ok((Token::String(_), _)) => wrong(refusal, bytes),
        Ok((found, _)) => wrong(begin_refusal(&found, named), bytes),
        Err(fault) => fault,
    }
}

/// Returns the error of an operation that isn't allowed here. The fault is at the operation's name.
pub(crate) fn error_at_name(alloc: Global, refusal: TextRefusal, bytes: &[u8]) -> ReadError
    ensures { IsOfText result }
{
    match results(Vec::new(alloc), bytes) {
        Ok((names, rest)) => ReadError::Refused(fault_at(refusal, rest, names.is_some())),
        Err(ReadError::Refused(fault)) => ReadError::Refused(fault),
        Err(_) => ReadError::Memory,
    }
}

/// Returns the fault after the maximum number of operations: at the name of one more, or at the closing mark.
pub(crate) fn past_ops(alloc: Global, close: Mark, bytes: &[u8]) -> Result<Fault, AllocError> {
    match after(bytes, close) {
        Some(_) => Ok(wrong(TextRefusal::TooMany, bytes)),
        None => match error_at_name(alloc, TextRefusal::TooMany, bytes) {
            ReadError::Refused(fault) => Ok(fault),
            _ => Err(AllocError),
        },
    }
}

/// Returns whether a name is bound to the results of an operation from index `place` on.
fn is_result<'a>(names: &ScopedNames<'a, ValueGroup>, name: &'a [u8], id: u32, place: u32) -> bool {
    let Some(pack) = names.find(name) else {
        return false;
    };
    match pack.get(0) {
        Some(bound) => bound.value == Value::Result(OpId::new(id), place),
        None => false,
    }
}

/// Returns the count after the name of a result, or 1, and the rest of the text.
fn trailing_name(bytes: &[u8]) -> (u32, &[u8]) {
    let Some(rest) = after(bytes, Mark::Colon) else {
        return (1, bytes);
    };
    match token(rest) {
        Ok((Token::Integer(digits), rest)) => (counted(digits, 0).unwrap_or(1), rest),
        _ => (1, bytes),
    }
}

/// Returns the fault at the first name of an operation's results that is bound to something else.
fn redefined<'a>(names: &ScopedNames<'a, ValueGroup>, id: u32, bytes: &'a [u8]) -> Fault {
    let mut rest = bytes;
    let mut place = 0u32;
    for _ in 0..MOST_ITEMS {
        let Ok((Token::Value(name), tail)) = token(rest) else {
            return wrong(TextRefusal::Redefined, rest);
        };
        if !is_result(names, name, id, place) {
            return wrong(TextRefusal::Redefined, rest);
        }
        let (count, tail) = trailing_name(tail);
        place = place.saturating_add(count);
        match after(tail, Mark::Comma) {
            Some(next) => rest = next,
            None => return wrong(TextRefusal::Redefined, rest),
        }
    }
    wrong(TextRefusal::Redefined, rest)
}

/// Returns the fault to report for the part of an operation after its regions: `Successors` if successors follow the
/// operands, `Redefined` at the name that is bound already, or `fault`. The operation begins at `bytes`.
pub(crate) fn placed<'a>(
    names: &ScopedNames<'a, ValueGroup>,
    id: u32,
    bytes: &'a [u8],
    after_operands: &'a [u8],
    fault: Fault,
) -> Fault {
    if after(after_operands, Mark::OpenSquare).is_some() {
        return wrong(TextRefusal::Successors, after_operands);
    }
    match fault.refusal {
        TextRefusal::Redefined => redefined(names, id, bytes),
        _ => fault,
    }
}

/// Returns the fault at a region over the limit, or at a token that begins no region.
pub(crate) fn region_too_many(bytes: &[u8]) -> Fault {
    match after(bytes, Mark::OpenCurly) {
        Some(_) => wrong(TextRefusal::TooMany, bytes),
        None => wrong(TextRefusal::Unexpected, bytes),
    }
}

/// Returns the number of open braces after a token.
fn open_after(found: &Token<'_>, open: usize) -> usize {
    match found {
        Token::Mark(Mark::OpenCurly) => open.saturating_add(1),
        Token::Mark(Mark::CloseCurly) => open.saturating_sub(1),
        _ => open,
    }
}

/// Returns whether no brace is open where `left` bytes of the text are left.
pub(crate) fn is_outside(bytes: &[u8], left: usize) -> bool {
    let mut rest = bytes;
    let mut open = 0usize;
    for _ in 0..bytes.len() {
        if skip(rest).len() <= left {
            return open == 0;
        }
        let Ok((found, tail)) = token(rest) else {
            return false;
        };
        open = open_after(&found, open);
        rest = tail;
    }
    open == 0
}
