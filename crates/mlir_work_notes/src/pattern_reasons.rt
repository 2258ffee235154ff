//! Says why the text of a pattern was refused: what was found, what was expected, and what to do.
ghost use Rattle.std.specs.Prelude.{◌≡◌, ◌++◌, false, IfOk, OnOk};
ghost use Rattle.mlir_work_notes.specs.PatternReasons.{after_operation, after_token, before_byte, count_of, ends_dotted, expected_in_pattern, has_arrow, has_dot, has_open_angle};
ghost use Rattle.mlir_work_notes.specs.PatternReasons.{has_where, in_conditions, in_parentheses, is_begun, is_boolean, is_condition_head, is_logical, is_nested, is_number};
ghost use Rattle.mlir_work_notes.specs.PatternReasons.{left_out, mismatch, on_left, on_right, operands_of, pattern_note, pattern_reason, unexpected, unknown, within};

use crate::text_tokens::{is_word, token_at, token_len, write_found};
use ir_event::types::refusal::Refusal;
use ir_text_tokens::print::print_string;
use mlir_work_script_base::words::trim;
use std::alloc::{AllocError, Global};

/// Returns the text before a byte, without spaces at its ends.
fn before_byte(text: &[u8], offset: usize) -> &[u8]
    ensures { result.now ≡ before_byte text.now offset }
{
    trim(&text[..offset.min(text.len())])
}

/// Returns the text after the token at a byte, without spaces at its ends.
fn after_token(text: &[u8], offset: usize) -> &[u8]
    ensures { result.now ≡ after_token text.now offset }
{
    let Some(rest) = text.get(offset..) else {
        return b"";
    };
    trim(&rest[token_len(rest)..])
}

/// Returns how often a text has a byte.
fn count_of(text: &[u8], wanted: u8) -> usize
    ensures { result ≡ count_of text.now wanted }
{
    text.iter().filter(|byte| **byte == wanted).count()
}

/// Returns whether a parenthesis is open at the end of a text.
fn is_nested(text: &[u8]) -> bool
    ensures { result ≡ is_nested text.now }
{
    count_of(text, b')') < count_of(text, b'(')
}

/// Returns whether a text has `=`, which begins the arrow.
fn has_arrow(text: &[u8]) -> bool
    ensures { result ≡ has_arrow text.now }
{
    text.iter().any(|byte| *byte == b'=')
}

/// Returns whether a text has an opening parenthesis.
fn is_begun(text: &[u8]) -> bool
    ensures { result ≡ is_begun text.now }
{
    text.iter().any(|byte| *byte == b'(')
}

/// Returns whether an angle bracket is open at the end of a text. The arrow ends with one that closes none.
fn has_open_angle(text: &[u8]) -> bool
    ensures { result ≡ has_open_angle text.now }
{
    let open = count_of(text, b'<');
    let closed = count_of(text, b'>');
    if has_arrow(text) {
        closed <= open
    } else {
        closed < open
    }
}

/// Returns whether a text has the word `where`.
fn has_where(text: &[u8]) -> bool
    ensures { result ≡ has_where text.now }
{
    let mut rest = text;
    'bytes: while let [_, tail @ ..] = rest {
        if rest.starts_with(b"where") {
            return true;
        }
        rest = tail;
    }
    false
}

/// Returns whether a text ends with the name of an operation: a word with a dot.
fn ends_with_operation(text: &[u8]) -> bool
    ensures { result ≡ ends_dotted false text.now }
{
    let mut dotted = false;
    let mut rest = text;
    'bytes: while let [byte, tail @ ..] = rest {
        dotted = is_word(*byte) && (dotted || *byte == b'.');
        rest = tail;
    }
    dotted
}

/// Returns whether the conditions of a pattern are being read after a text, outside parentheses.
fn is_condition_head(before: &[u8]) -> bool
    ensures { result ≡ is_condition_head before.now }
{
    has_arrow(before) && has_where(before) && !is_nested(before)
}

/// Returns what is expected after the name of an operation.
fn after_operation(before: &[u8], token: &[u8]) -> &'static [u8]
    ensures { result.now ≡ after_operation before.now token.now }
{
    if token == b"<".as_slice() {
        return b"expected `(`: remove `<..>`, since patterns match no flags";
    }
    if before.ends_with(b"arith.cmpi") {
        return b"expected `<`: write a predicate, as in arith.cmpi<eq>(%a, %b)";
    }
    b"expected `(`: write the operands in parentheses, as in arith.addi(%a, 0)"
}

/// Returns whether a token has a dot.
fn has_dot(token: &[u8]) -> bool
    ensures { result ≡ has_dot token.now }
{
    token.iter().any(|byte| *byte == b'.')
}

/// Returns whether a token begins a value or names an operation.
fn is_logical(token: &[u8]) -> bool
    ensures { result ≡ is_logical token.now }
{
    token.starts_with(b"%") || has_dot(token)
}

/// Returns whether a number is expected at a token inside parentheses.
fn is_number(before: &[u8], token: &[u8]) -> bool
    ensures { result ≡ is_number before.now token.now }
{
    is_logical(token) || has_where(before)
}

/// Returns what is expected inside parentheses.
fn in_parentheses(before: &[u8], token: &[u8]) -> &'static [u8]
    ensures { result.now ≡ in_parentheses before.now token.now }
{
    if !before.ends_with(b"(") && !before.ends_with(b",") {
        return b"expected `,` or `)`: write commas between operands, and close the parentheses";
    }
    if is_number(before, token) {
        return b"expected a number or a constant's name, as c: conditions and number functions take no values";
    }
    b"expected a value, a number or an operation: write %a, 0 or arith.addi(%a, 1)"
}

/// Returns what is expected on the left side, outside parentheses.
fn on_left(before: &[u8]) -> &'static [u8]
    ensures { result.now ≡ on_left before.now }
{
    if is_begun(before) {
        b"expected `=>`: write NAME OLD => NEW"
    } else {
        b"expected an operation: begin the left side with one, as arith.addi(%a, 0)"
    }
}

/// Returns what is expected on the right side, outside parentheses.
fn on_right(before: &[u8]) -> &'static [u8]
    ensures { result.now ≡ on_right before.now }
{
    if before.ends_with(b">") {
        b"expected a value, a number or an operation: write %a, 0 or arith.addi(%a, 1)"
    } else {
        b"expected `where` or the end of the line: write one term after `=>`"
    }
}

/// Returns what is expected among conditions, outside parentheses.
fn in_conditions(before: &[u8]) -> &'static [u8]
    ensures { result.now ≡ in_conditions before.now }
{
    if before.ends_with(b"where") || before.ends_with(b",") {
        return b"expected a condition: power_of_two(c), eq(c, d) or another predicate, or narrower(S, T)";
    }
    if before.ends_with(b")") {
        return b"expected `,` or the end of the line: conditions are joined by commas, and all must be true";
    }
    b"expected `(`: a condition is power_of_two(c), eq(c, d) or another predicate, or narrower(S, T)"
}

/// Returns what is expected after a text that doesn't end with a mark.
fn within(before: &[u8], token: &[u8]) -> &'static [u8]
    ensures { result.now ≡ within before.now token.now }
{
    if ends_with_operation(before) {
        return after_operation(before, token);
    }
    if has_open_angle(before) {
        return b"expected `>`: close the angle brackets, as in arith.cmpi<eq>(%a, %b)";
    }
    if token == b"<".as_slice() {
        return b"expected iN, index or a name as the type: patterns have no vectors";
    }
    if is_nested(before) {
        return in_parentheses(before, token);
    }
    if !has_arrow(before) {
        return on_left(before);
    }
    if has_where(before) {
        return in_conditions(before);
    }
    on_right(before)
}

/// Returns what is expected in place of a token that the grammar doesn't allow after a text.
fn unexpected(before: &[u8], token: &[u8]) -> &'static [u8]
    ensures { result.now ≡ unexpected before.now token.now }
{
    if before.is_empty() {
        return b"expected a name without a dot: write NAME OLD => NEW";
    }
    if before.ends_with(b"<") {
        return b"expected `none`, or a predicate of arith.cmpi, as eq: patterns match no flags";
    }
    if before.ends_with(b":") || before.ends_with(b"narrower(") {
        return b"expected a type: write iN, index or a name";
    }
    if before.ends_with(b"-") {
        return b"expected digits: write a number, as -1";
    }
    if before.ends_with(b"=") {
        return b"expected `=>`: write NAME OLD => NEW";
    }
    within(before, token)
}

/// Returns what is expected in place of a name that isn't known.
fn unknown(before: &[u8], token: &[u8], after: &[u8]) -> &'static [u8]
    ensures { result.now ≡ unknown before.now token.now after.now }
{
    if token.starts_with(b"%") {
        return b"expected a value of the left side: correct the name, or match the value on the left";
    }
    if is_condition_head(before) {
        return b"expected a condition: power_of_two(c), eq(c, d) or another predicate, or narrower(S, T)";
    }
    if after.starts_with(b"(") {
        return b"expected add, sub, mul, and, or, xor, neg, not, log2 or width: correct the function";
    }
    b"expected a number of the left side: correct the name, or match the number on the left"
}

/// Returns which operands and types an operation has.
fn operands_of(name: &[u8]) -> &'static [u8]
    ensures { result.now ≡ operands_of name.now }
{
    if name == b"arith.cmpi".as_slice() {
        return b"expected two operands of one type, and i1 as the result: correct the operands or the types";
    }
    if name == b"arith.select".as_slice() {
        return b"expected an i1 and two operands of the result's type: correct the operands or the types";
    }
    if name.starts_with(b"arith.ext") {
        return b"expected one operand of a narrower type than the result: correct the operand or the types";
    }
    if name == b"arith.trunci".as_slice() {
        return b"expected one operand of a wider type than the result: correct the operand or the types";
    }
    if name.starts_with(b"arith.index_cast") {
        return b"expected one operand, and index as the type of either end: correct the operand or the types";
    }
    b"expected two operands of the result's type: correct the operands or the types"
}

/// Returns whether a token is a number of type i1.
fn is_boolean(token: &[u8]) -> bool
    ensures { result ≡ is_boolean token.now }
{
    token == b"true".as_slice() || token == b"false".as_slice()
}

/// Returns what is expected in place of a number of operands or a type that doesn't fit.
fn mismatch(before: &[u8], token: &[u8], after: &[u8]) -> &'static [u8]
    ensures { result.now ≡ mismatch before.now token.now after.now }
{
    if token.starts_with(b"arith.") {
        return operands_of(token);
    }
    if is_boolean(token) {
        return b"expected a number of the type there: write 1 or 0, since true and false have type i1";
    }
    if is_condition_head(before) {
        return b"expected one number for power_of_two, and two numbers or types for the others: correct the operands";
    }
    if after.starts_with(b"(") {
        return b"expected one number for neg, not, log2 and width, and two for the others: correct the operands";
    }
    b"expected a type that fits each use: correct the types"
}

/// Returns what is expected in place of an operation that patterns can't match.
fn left_out(token: &[u8]) -> &'static [u8]
    ensures { result.now ≡ left_out token.now }
{
    if token == b"arith.constant".as_slice() {
        b"expected the number of the constant: write it alone, as 0 or c"
    } else {
        b"expected an operation of arith that folds, as arith.addi: docs/PATTERNS.md lists them"
    }
}

/// Returns what is expected at a byte of a pattern, and what to do.
fn expected_in_pattern(refusal: Refusal, text: &[u8], offset: usize) -> &'static [u8]
    ensures { result.now ≡ expected_in_pattern refusal text.now offset }
{
    let before = before_byte(text, offset);
    let token = token_at(text, offset);
    let after = after_token(text, offset);
    match refusal {
        Refusal::BadToken => b"expected a token: remove the byte",
        Refusal::Unexpected => unexpected(before, token),
        Refusal::UnknownValue => unknown(before, token, after),
        Refusal::Redefined =>
            b"expected a new name: rename one of the two patterns, or forget the other",
        Refusal::TypeMismatch => mismatch(before, token, after),
        Refusal::BadWidth => b"expected 1 to 128 bits: correct the width",
        Refusal::BadValue =>
            b"expected a number in the range of its type: correct the number, or its type",
        Refusal::TooDeep =>
            b"expected at most 3 levels left of `=>`, and 16 right of it: nest less",
        Refusal::TooMany => b"expected fewer: docs/PATTERNS.md has the limits",
        Refusal::LeftOut => left_out(token),
        Refusal::NotUtf8 => b"expected UTF-8: save the file as UTF-8",
        _ => b"expected another text: docs/PATTERNS.md says which",
    }
}

/// Appends why the text of a pattern was refused at a byte: `found X, expected Y: Z`.
pub fn write_pattern_reason(
    out: &mut Vec<u8>,
    text: &[u8],
    offset: usize,
    refusal: Refusal,
) -> Result<(), AllocError>
    ensures { OnOk result (out.new.items ≡ out.old.items ++ pattern_reason refusal text.now offset) }
{
    write_found(out, text, offset)?;
    out.extend_from_slice(expected_in_pattern(refusal, text, offset))
}

/// Returns the note on the refusal of a pattern's text at a byte: ` about "found X, expected Y: Z"`.
pub fn pattern_note(
    alloc: Global,
    refusal: Refusal,
    text: &[u8],
    offset: usize,
) -> Result<Vec<u8>, AllocError>
    ensures { IfOk result (λ v. v.items ≡ pattern_note refusal text.now offset) }
{
    let mut reason = Vec::new(alloc);
    write_pattern_reason(&mut reason, text, offset, refusal)?;
    let mut out = Vec::new(alloc);
    out.extend_from_slice(b" about ")?;
    print_string(&mut out, &reason)?;
    Ok(out)
}
