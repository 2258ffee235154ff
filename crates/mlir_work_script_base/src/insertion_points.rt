//! Parses insertion points: `before #N`, `after #N`, `start #N R` and `end #N R`.
ghost use Rattle.std.specs.Prelude.{◌≡◌};
ghost use Rattle.std.specs.Option.{option_map};
ghost use Rattle.rewriter_machine.specs.Points as points;
ghost use Rattle.mlir_work_script_base.specs.Numbers.{number_of};
ghost use Rattle.mlir_work_script_base.specs.InsertionPoints.{insertion_point_of, next_to_in, inside_in, point_in};
ghost use Rattle.mlir_work_script_base.specs.Values.{op_of};
ghost use Rattle.mlir_work_script_base.specs.Words.{word_of, after_word};

use crate::numbers::parse_number;
use crate::values::op_named;
use crate::words::split_word;
use ir_event::types::ids::OpId;

/// The insertion point that a command names.
#[derive(Clone, Copy)]
pub enum InsertionPoint {
    /// Directly before an operation.
    Before(OpId),
    /// Directly after an operation.
    After(OpId),
    /// At the start of the block of an operation's region.
    Start(OpId, u32),
    /// At the end of the block of an operation's region.
    End(OpId, u32),
}

/// Parses the first word as an operation, and returns the rest of the text.
fn op_in(text: &[u8]) -> (Option<OpId>, &[u8])
    ensures op { result.0 ≡ op_of (word_of text.now) }
    ensures rest { result.1.now ≡ after_word text.now }
{
    let (word, rest) = split_word(text);
    (op_named(word), rest)
}

/// Parses the first word as a number, and returns the rest of the text.
fn number_in(text: &[u8]) -> (Option<u32>, &[u8])
    ensures number { result.0 ≡ number_of (word_of text.now) }
    ensures rest { result.1.now ≡ after_word text.now }
{
    let (word, rest) = split_word(text);
    (parse_number(word), rest)
}

/// Parses the argument of `before #N`, and returns the rest of the text.
fn before(text: &[u8]) -> Option<(InsertionPoint, &[u8])>
    ensures { option_map (λ x. (insertion_point_of x.0, x.1.now)) result ≡ next_to_in points.Before text.now }
{
    let (op, rest) = op_in(text);
    let op = op?;
    Some((InsertionPoint::Before(op), rest))
}

/// Parses the argument of `after #N`, and returns the rest of the text.
fn after(text: &[u8]) -> Option<(InsertionPoint, &[u8])>
    ensures { option_map (λ x. (insertion_point_of x.0, x.1.now)) result ≡ next_to_in points.After text.now }
{
    let (op, rest) = op_in(text);
    let op = op?;
    Some((InsertionPoint::After(op), rest))
}

/// Parses the arguments of `start #N R`, and returns the rest of the text.
fn start(text: &[u8]) -> Option<(InsertionPoint, &[u8])>
    ensures { option_map (λ x. (insertion_point_of x.0, x.1.now)) result ≡ inside_in points.Start text.now }
{
    let (op, rest) = op_in(text);
    let (region, rest) = number_in(rest);
    let op = op?;
    let region = region?;
    Some((InsertionPoint::Start(op, region), rest))
}

/// Parses the arguments of `end #N R`, and returns the rest of the text.
fn end(text: &[u8]) -> Option<(InsertionPoint, &[u8])>
    ensures { option_map (λ x. (insertion_point_of x.0, x.1.now)) result ≡ inside_in points.End text.now }
{
    let (op, rest) = op_in(text);
    let (region, rest) = number_in(rest);
    let op = op?;
    let region = region?;
    Some((InsertionPoint::End(op, region), rest))
}

/// Parses an insertion point at the start of a text, and returns the rest of the text. Returns `None` if there is
/// none.
pub fn split_insertion_point(text: &[u8]) -> Option<(InsertionPoint, &[u8])>
    ensures { option_map (λ x. (insertion_point_of x.0, x.1.now)) result ≡ point_in text.now }
{
    let (name, rest) = split_word(text);
    if name == b"before".as_slice() {
        return before(rest);
    }
    if name == b"after".as_slice() {
        return after(rest);
    }
    if name == b"start".as_slice() {
        return start(rest);
    }
    if name == b"end".as_slice() {
        return end(rest);
    }
    None
}
