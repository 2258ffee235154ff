//! Tokens that are expected next, optional tokens, and interning during a parse.
ghost use Rattle.std.specs.Prelude.{◌≡◌, option_map, length};
ghost use Rattle.ir_types.specs.Things.{TypeIsOf, AttrIsOf, IsExtendedBy};
ghost use Rattle.ir_text_tokens.specs.declared.token.Mark.TheVariants.{Arrow, Colon};
ghost use Rattle.ir_text_tokens.specs.Tokens.{trailing_first, lexeme_of, next};
ghost use Rattle.ir_text_types.specs.Outcomes.{Returns, of_option};
ghost use Rattle.ir_text_types.specs.Marks.{mark_code, is_single, after};
ghost use Rattle.ir_text_types.specs.Typed.{name_step, type_step, attr_step};

use crate::error::{ReadError, refused_by_context, wrong};
use ir_text_tokens::lexer;
use ir_text_tokens::refusal::TextRefusal;
use ir_text_tokens::token::{Mark, Token};
use ir_types::context::Context;
use ir_types::ids::{AttrId, NameId, TypeId};
use ir_types::node::{AttrNode, TypeNode};

fn code(mark: Mark) -> u8
    ensures { result ≡ mark_code mark }
{
    match mark {
        Mark::OpenRound => 40,
        Mark::CloseRound => 41,
        Mark::OpenCurly => 123,
        Mark::CloseCurly => 125,
        Mark::OpenSquare => 91,
        Mark::CloseSquare => 93,
        Mark::Less => 60,
        Mark::Greater => 62,
        Mark::Comma => 44,
        Mark::Equal => 61,
        Mark::Colon => 58,
        Mark::DoubleColon => 2,
        Mark::Minus => 45,
        Mark::Arrow => 1,
        Mark::Question => 63,
        Mark::Star => 42,
        Mark::End => 0,
    }
}

/// Returns whether the mark is one byte that begins no longer mark.
fn is_single(mark: Mark) -> bool
    ensures { result ≡ is_single mark }
{
    match mark {
        Mark::Colon => false,
        Mark::DoubleColon => false,
        Mark::Minus => false,
        Mark::Arrow => false,
        Mark::End => false,
        _ => true,
    }
}

/// Returns the rest of the text after the mark, if the mark is the next token.
#[tactic(auto, using(crate::proofs::Marked::after_is), unfolding(crate::specs::Marks::after))]
fn after_any(bytes: &[u8], mark: Mark) -> Option<&[u8]>
    ensures { option_map (λ r. r.now) result ≡ after mark bytes.now }
{
    let (found, rest) = lexer::mark(bytes)?;
    if code(found) == code(mark) {
        Some(rest)
    } else {
        None
    }
}

/// Returns the rest of the text after a colon, if a colon is the next token. A second colon makes it `::`.
#[tactic(auto, using(crate::proofs::Marked::colon_is))]
fn after_colon(bytes: &[u8]) -> Option<&[u8]>
    ensures { option_map (λ r. r.now) result ≡ after Colon bytes.now }
{
    match lexer::after_byte(bytes, b':') {
        Some([b':', ..]) => None,
        found => found,
    }
}

/// Returns the rest of the text after `byte`, if it is the first byte.
fn after_first(bytes: &[u8], byte: u8) -> Option<&[u8]>
    ensures { option_map (λ r. r.now) result ≡ trailing_first byte bytes.now }
{
    match bytes {
        [first, rest @ ..] if *first == byte => Some(rest),
        _ => None,
    }
}

/// Returns the rest of the text after an arrow, if an arrow is the next token.
#[tactic(auto, using(crate::proofs::Marked::arrow_is))]
fn after_arrow(bytes: &[u8]) -> Option<&[u8]>
    ensures { option_map (λ r. r.now) result ≡ after Arrow bytes.now }
{
    match lexer::after_byte(bytes, b'-') {
        Some(rest) => after_first(rest, b'>'),
        None => None,
    }
}

/// Returns the rest of the text after a mark that isn't single, if the mark is the next token.
fn after_other(bytes: &[u8], mark: Mark) -> Option<&[u8]>
    ensures { option_map (λ r. r.now) result ≡ after mark bytes.now }
{
    match mark {
        Mark::Colon => after_colon(bytes),
        Mark::Arrow => after_arrow(bytes),
        _ => after_any(bytes, mark),
    }
}

/// Returns the rest of the text after the mark, if the mark is the next token.
#[inline(always)]
#[tactic(auto, using(crate::proofs::Marked::single_is))]
pub fn after(bytes: &[u8], mark: Mark) -> Option<&[u8]>
    ensures { option_map (λ r. r.now) result ≡ after mark bytes.now }
{
    if is_single(mark) {
        return lexer::after_byte(bytes, code(mark));
    }
    after_other(bytes, mark)
}

/// Returns the rest of the text after the mark. Errors if the mark isn't the next token.
#[inline(always)]
pub fn expect(bytes: &[u8], mark: Mark) -> Result<&[u8], ReadError>
    ensures { Returns (λ r. r.now) result (of_option (after mark bytes.now)) }
{
    match after(bytes, mark) {
        Some(rest) => Ok(rest),
        None => Err(ReadError::Refused(wrong(TextRefusal::Unexpected, bytes))),
    }
}

/// Returns the next token and the rest of the text.
#[inline(always)]
pub fn token(bytes: &[u8]) -> Result<(Token<'_>, &[u8]), ReadError>
    ensures { Returns (λ x. (lexeme_of x.0, x.1.now)) result (of_option (next bytes.now)) }
{
    match lexer::token(bytes) {
        Ok(found) => Ok(found),
        Err(fault) => Err(ReadError::Refused(fault)),
    }
}

/// Interns a name and returns its id. `rest` is the text that is left, which an error reports.
#[inline(always)]
#[tactic(auto, using(ir_types::proofs::Growth::grows_refl, ir_types::proofs::Growth::grows_trans, crate::proofs::Stepping::step_fails, crate::proofs::Stepping::step_reads), unfolding(crate::specs::Typed::name_step))]
pub fn name(ctx: &mut Context, bytes: &[u8], rest: &[u8]) -> Result<NameId, ReadError>
    ensures reads { Returns (λ n. (n, ctx.new)) result (name_step bytes.now ctx.old) }
    ensures grows { IsExtendedBy ctx.old ctx.new }
{
    match ctx.name(bytes) {
        Ok(id) => Ok(id),
        Err(refusal) => Err(refused_by_context(refusal, rest)),
    }
}

/// Interns a type and returns its id. `rest` is the text that is left, which an error reports.
#[inline(always)]
#[tactic(auto, using(ir_types::proofs::Growth::grows_refl, ir_types::proofs::Growth::grows_trans, crate::proofs::Stepping::step_fails, crate::proofs::Stepping::step_reads), unfolding(crate::specs::Typed::type_step))]
pub fn ty(ctx: &mut Context, node: TypeNode, rest: &[u8]) -> Result<TypeId, ReadError>
    requires { TypeIsOf ctx.old node }
    ensures reads { Returns (λ n. (n, ctx.new)) result (type_step node ctx.old) }
    ensures grows { IsExtendedBy ctx.old ctx.new }
{
    match ctx.ty(node) {
        Ok(id) => Ok(id),
        Err(refusal) => Err(refused_by_context(refusal, rest)),
    }
}

/// Interns an attribute and returns its id. `rest` is the text that is left, which an error reports.
#[tactic(auto, using(ir_types::proofs::Growth::grows_refl, ir_types::proofs::Growth::grows_trans, crate::proofs::Stepping::step_fails, crate::proofs::Stepping::step_reads), unfolding(crate::specs::Typed::attr_step))]
pub fn attr(ctx: &mut Context, node: AttrNode, rest: &[u8]) -> Result<AttrId, ReadError>
    requires { AttrIsOf ctx.old node }
    ensures reads { Returns (λ n. (n, ctx.new)) result (attr_step node ctx.old) }
    ensures grows { IsExtendedBy ctx.old ctx.new }
{
    match ctx.attr(node) {
        Ok(id) => Ok(id),
        Err(refusal) => Err(refused_by_context(refusal, rest)),
    }
}
