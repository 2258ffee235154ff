//! Classifies the lines of an output.
ghost use Rattle.std.specs.Prelude.{◌≡◌};
ghost use Rattle.mlir_work_json.specs.Forms.{are_three, are_two, begins_module, begins_number, begins_op, form_of};
ghost use Rattle.mlir_work_json.specs.Forms.{has_arrow, is_number, is_outcome, is_verdict, named_form, names_value, op_form};
ghost use Rattle.mlir_work_json.specs.Forms.{counts_pattern, counts_rule, is_answer, refusal_form, symbol_form, is_checked_line, is_pattern_trace, is_rule_trace, is_unproved_line, value_form};
ghost use Rattle.mlir_work_json.specs.Forms.{word_form};

use crate::cuts::{after_cell, cut_cell, has_byte};
use crate::numbers::parse_number;
use crate::replies::says_width;
use mlir_work_script_base::cuts::cut_at;

/// The kind of an output line. The beginning of the line decides it.
#[derive(Clone, Copy, Debug, PartialEq, Eq)]
pub enum LineKind {
    /// The reply to a command; the line begins with the number.
    Reply,
    /// The heading of the report rows of a kind, or the line in their place.
    Heading,
    /// The refusal of the module.
    ModuleRefused,
    /// The refusal of an analysis.
    AttachRefused,
    /// A line of a module.
    Module,
    /// A row of `uses`.
    Use,
    /// A row of `constants`.
    Constant,
    /// A row of `dead`.
    Dead,
    /// A row of `unreached`.
    Unreached,
    /// A row of `diagnostics`.
    Diagnostic,
    /// A row of `effects`.
    Effect,
    /// A row of `symbols`: a definition, or another definition of the same name.
    Definition,
    /// A row of `symbols`: a reference and the operation to which it resolves.
    Reference,
    /// A row of `symbols`: a reference that doesn't resolve.
    Unresolved,
    /// A row of `symbols`: a call whose types don't match the function's.
    Mismatch,
    /// The reason why a rule doesn't match, or that it does.
    Reason,
    /// The reason why an operation can't be legalized.
    NotLegalised,
    /// A traced rewrite by a rule.
    AppliedRule,
    /// A traced rewrite by a user pattern.
    AppliedPattern,
    /// How many times a rule fired.
    FiredRule,
    /// How many times a user pattern fired.
    FiredPattern,
    /// A pattern by which a command rewrites and which no check proves for the module.
    Unproved,
    /// A pattern that a command checked.
    Checked,
    /// A pattern with the result of its last check.
    Pattern,
    /// A row of a check: a variable or a result, with its value.
    Outcome,
    /// The empty line at the end of an answer of a live run.
    End,
    /// Not an output line.
    Other,
}

/// Returns whether a line that begins with this byte is a line of a module.
fn begins_module(byte: u8) -> bool
    ensures { result ≡ begins_module byte }
{
    byte == b' ' || byte == b'"' || byte == b'}' || byte == b'^'
}

/// Returns the kind of a row that begins with an operation; `trailing` is the rest of the row.
fn op_form(trailing: &[u8]) -> LineKind
    ensures { result ≡ op_form trailing.now }
{
    match trailing {
        [] => LineKind::Dead,
        [b'@', ..] => LineKind::Unreached,
        [b'V', ..] => LineKind::Diagnostic,
        _ => LineKind::Effect,
    }
}

/// Returns whether a word is a number.
fn is_number(word: &[u8]) -> bool
    ensures { result ≡ is_number word.now }
{
    parse_number(word).is_some()
}

/// Returns whether a text is two numbers: `2.0`.
fn are_two(text: &[u8]) -> bool
    ensures { result ≡ are_two text.now }
{
    let (op, place) = cut_at(text, b'.');
    is_number(op) && is_number(place)
}

/// Returns whether a text is three numbers: `1.0.0`.
fn are_three(text: &[u8]) -> bool
    ensures { result ≡ are_three text.now }
{
    let (op, rest) = cut_at(text, b'.');
    is_number(op) && are_two(rest)
}

/// Returns whether a word is the name of a module's value; the first byte isn't tested.
fn names_value(word: &[u8]) -> bool
    ensures { result ≡ names_value word.now }
{
    match word {
        [_, b'v', text @ ..] => are_two(text),
        [_, b'a', text @ ..] => are_three(text),
        _ => false,
    }
}

/// Returns the kind of a row that begins with the name of a value, of a module or of a pattern.
fn named_form(word: &[u8]) -> LineKind
    ensures { result ≡ named_form word.now }
{
    if names_value(word) {
        LineKind::Constant
    } else {
        LineKind::Outcome
    }
}

/// Returns the kind of a row that begins with the name of a value; `trailing` is the rest of the row.
fn value_form(word: &[u8], trailing: &[u8]) -> LineKind
    ensures { result ≡ value_form word.now trailing.now }
{
    match trailing {
        [b'#', ..] => LineKind::Use,
        _ => named_form(word),
    }
}

/// Returns whether a word begins like a number.
fn begins_number(word: &[u8]) -> bool
    ensures { result ≡ begins_number word.now }
{
    match word {
        [] => false,
        [first, ..] => first.is_ascii_digit() || *first == b'-',
    }
}

/// Returns whether a word is a value of a variable or result in a check, or the beginning of such a value.
fn is_outcome(word: &[u8]) -> bool
    ensures { result ≡ is_outcome word.now }
{
    begins_number(word)
        || word == b"true".as_slice()
        || word == b"false".as_slice()
        || word == b"poison".as_slice()
        || word == b"undefined".as_slice()
}

/// Returns whether a text begins with an operation id.
fn begins_op(text: &[u8]) -> bool
    ensures { result ≡ begins_op text.now }
{
    match text {
        [b'#', ..] => true,
        _ => false,
    }
}

/// Returns whether a line is the trace of a rewrite by a rule.
fn is_rule_trace(line: &[u8]) -> bool
    ensures { result ≡ is_rule_trace line.now }
{
    let (word, trailing) = cut_cell(line);
    let rule = after_cell(trailing);
    word == b"rewrote".as_slice() && begins_op(after_cell(rule))
}

/// Returns whether a line is the trace of a rewrite by a user pattern.
fn is_pattern_trace(line: &[u8]) -> bool
    ensures { result ≡ is_pattern_trace line.now }
{
    let (word, trailing) = cut_cell(line);
    word == b"rewrote".as_slice() && begins_op(after_cell(trailing))
}

/// Returns whether a line says how many times a rule fired.
fn counts_rule(line: &[u8]) -> bool
    ensures { result ≡ counts_rule line.now }
{
    let (word, trailing) = cut_cell(line);
    let name = after_cell(trailing);
    word == b"fired".as_slice() && is_number(after_cell(name))
}

/// Returns whether a line says how many times a user pattern fired.
fn counts_pattern(line: &[u8]) -> bool
    ensures { result ≡ counts_pattern line.now }
{
    let (word, trailing) = cut_cell(line);
    word == b"fired".as_slice() && is_number(after_cell(trailing))
}

/// Returns whether a line has the arrow of a pattern.
fn has_arrow(line: &[u8]) -> bool
    ensures { result ≡ has_arrow line.now }
{
    has_byte(line, b'=')
}

/// Returns whether a word is a check result, or `unchecked`.
fn is_verdict(word: &[u8]) -> bool
    ensures { result ≡ is_verdict word.now }
{
    says_width(word) || word == b"unchecked".as_slice()
}

/// Returns whether a line names a pattern that no check proves.
fn is_unproved_line(line: &[u8]) -> bool
    ensures { result ≡ is_unproved_line line.now }
{
    let (word, trailing) = cut_cell(line);
    let said = after_cell(trailing);
    word == b"unproved".as_slice() && is_verdict(cut_cell(said).0) && !has_arrow(line)
}

/// Returns whether a word is a check result, or says that a check was refused.
fn is_answer(word: &[u8]) -> bool
    ensures { result ≡ is_answer word.now }
{
    says_width(word) || word == b"refused".as_slice()
}

/// Returns whether a line names a pattern that a command checked.
fn is_checked_line(line: &[u8]) -> bool
    ensures { result ≡ is_checked_line line.now }
{
    let (word, trailing) = cut_cell(line);
    let said = after_cell(trailing);
    word == b"checked".as_slice() && is_answer(cut_cell(said).0) && !has_arrow(line)
}

/// Returns the kind of a row that begins with this word, followed by an operation.
fn symbol_form(word: &[u8]) -> LineKind
    ensures { result ≡ symbol_form word.now }
{
    if word == b"def".as_slice() || word == b"duplicate".as_slice() {
        return LineKind::Definition;
    }
    if word == b"use".as_slice() {
        return LineKind::Reference;
    }
    if word == b"unresolved".as_slice() || word == b"unknown".as_slice() {
        return LineKind::Unresolved;
    }
    if word == b"mismatch".as_slice() {
        return LineKind::Mismatch;
    }
    if word == b"why".as_slice() {
        return LineKind::Reason;
    }
    if word == b"stays".as_slice() {
        return LineKind::NotLegalised;
    }
    LineKind::Other
}

/// Returns the kind of a refusal line that begins with this word.
fn refusal_form(word: &[u8]) -> LineKind
    ensures { result ≡ refusal_form word.now }
{
    if word == b"module".as_slice() {
        return LineKind::ModuleRefused;
    }
    if word == b"attach".as_slice() {
        return LineKind::AttachRefused;
    }
    LineKind::Other
}

/// Returns the kind of a line that begins with a word.
fn word_form(line: &[u8]) -> LineKind
    ensures { result ≡ word_form line.now }
{
    let (word, trailing) = cut_cell(line);
    if word == b"--".as_slice() {
        return LineKind::Heading;
    }
    if begins_op(trailing) {
        return symbol_form(word);
    }
    if is_rule_trace(line) {
        return LineKind::AppliedRule;
    }
    if is_pattern_trace(line) {
        return LineKind::AppliedPattern;
    }
    if counts_rule(line) {
        return LineKind::FiredRule;
    }
    if counts_pattern(line) {
        return LineKind::FiredPattern;
    }
    if is_unproved_line(line) {
        return LineKind::Unproved;
    }
    if is_checked_line(line) {
        return LineKind::Checked;
    }
    if is_outcome(cut_cell(trailing).0) {
        return LineKind::Outcome;
    }
    if has_arrow(line) {
        return LineKind::Pattern;
    }
    refusal_form(word)
}

/// Returns the kind of a line.
pub(crate) fn form_of(line: &[u8]) -> LineKind
    ensures { result ≡ form_of line.now }
{
    let Some(first) = line.first() else {
        return LineKind::End;
    };
    if first.is_ascii_digit() {
        return LineKind::Reply;
    }
    if *first == b'#' {
        return op_form(after_cell(line));
    }
    if *first == b'%' {
        let (word, trailing) = cut_cell(line);
        return value_form(word, trailing);
    }
    if begins_module(*first) {
        return LineKind::Module;
    }
    word_form(line)
}
