//! Reads a whole pattern.
ghost use Rattle.std.specs.Prelude.{◌≡◌, [], map, IfOk};
ghost use Rattle.user_patterns_text.specs.Syntax.{Pattern as Rendered};
ghost use Rattle.user_patterns_text.specs.Rendered.{IsReadAs, IsRendered, Spells, whole_at};
ghost use Rattle.user_patterns_text.specs.Parts.{part_view, pattern_view, views};
ghost use Rattle.user_patterns_text.specs.Refusing.{Returns};
ghost use Rattle.user_patterns_text.specs.Reading.{begins_operation, after_arrow, pattern_at, root_at, sides_at};

use crate::conditions::{NEW_DEPTH, conditions};
use crate::error::PatternError;
use crate::numbers::word;
use crate::parts::{Part, PartKind, Pattern};
use crate::steps::{begins, expect, refused};
use crate::terms::term;
use ir_text_tokens::limits::check_text;
use ir_text_tokens::refusal::TextRefusal;
use ir_text_tokens::token::Mark;
use std::alloc::Global;

/// The greatest depth of terms on the left side.
const OLD_DEPTH: u32 = 3;

fn begins_operation(parts: &[Part<'_>]) -> bool
    ensures { result ≡ begins_operation (map part_view parts.now) }
{
    matches!(
        parts,
        [
            Part {
                kind: PartKind::Operation(_, _),
                ..
            },
            ..
        ]
    )
}

/// Reads the left side. Refuses a value or a constant there with `Unexpected`.
#[tactic(auto, unfolding(crate::specs::Reading::root_at))]
fn root<'a>(parts: &mut Vec<Part<'a>>, bytes: &'a [u8]) -> Result<&'a [u8], PatternError>
    requires { parts.old.items ≡ [] }
    ensures { Returns (λ rest. (views parts.new.items, rest.now)) result (root_at bytes.now) }
{
    let rest = term(parts, bytes, true, OLD_DEPTH)?;
    if !begins_operation(parts) {
        return Err(refused(TextRefusal::Unexpected, begins(bytes)));
    }
    Ok(rest)
}

/// Returns the rest of the text after the arrow `=>`.
#[tactic(auto, unfolding(crate::specs::Reading::after_arrow))]
fn after_arrow(bytes: &[u8]) -> Result<&[u8], PatternError>
    ensures { Returns (λ r. r.now) result (after_arrow bytes.now) }
{
    let rest = expect(bytes, Mark::Equal)?;
    expect(rest, Mark::Greater)
}

/// Reads the rest of a pattern after its name: both sides and the conditions.
#[tactic(auto, unfolding(crate::specs::Reading::sides_at))]
fn sides<'a>(alloc: Global, name: &'a [u8], bytes: &'a [u8]) -> Result<Pattern<'a>, PatternError>
    ensures { Returns (λ p. pattern_view p) result (sides_at name.now bytes.now) }
{
    let mut old = Vec::new(alloc);
    let rest = root(&mut old, bytes)?;
    let rest = after_arrow(rest)?;
    let mut new = Vec::new(alloc);
    let rest = term(&mut new, rest, false, NEW_DEPTH)?;
    let mut requested = Vec::new(alloc);
    conditions(&mut requested, rest)?;
    Ok(Pattern {
        name,
        old,
        new,
        conditions: requested,
    })
}

/// Reads a pattern up to the end of the text.
#[tactic(auto, unfolding(crate::specs::Reading::pattern_at))]
fn pattern(alloc: Global, bytes: &[u8]) -> Result<Pattern<'_>, PatternError>
    ensures { Returns (λ p. pattern_view p) result (pattern_at bytes.now) }
{
    let (name, rest) = word(bytes)?;
    sides(alloc, name, rest)
}

/// Reads a pattern. Refuses a text that isn't UTF-8 or has too many bytes.
#[tactic(auto, unfolding(crate::specs::Rendered::whole_at))]
fn whole(alloc: Global, bytes: &[u8]) -> Result<Pattern<'_>, PatternError>
    ensures { Returns pattern_view result (whole_at bytes.now) }
{
    match check_text(bytes) {
        Ok(()) => pattern(alloc, bytes),
        Err((refusal, offset)) => Err(refused(refusal, bytes.len().saturating_sub(offset))),
    }
}

/// Returns the pattern that a text spells: its name, both sides and the conditions.
///
/// Refuses the first error from left to right, with how many bytes of the text are left at it:
/// - `NotUtf8`: the text isn't UTF-8.
/// - `TooMany`: the text has too many bytes, or a list has more than 16 operands, numbers, types or conditions.
/// - `BadToken`: no token begins there.
/// - `Unexpected`: the token isn't allowed there.
/// - `BadWidth`: no type has that width.
/// - `BadValue`: the number is 2^128 or more.
/// - `TooDeep`: the term or number is too deep.
/// - `LeftOut`: the operation doesn't fold.
pub fn read(alloc: Global, bytes: &[u8]) -> Result<Pattern<'_>, PatternError>
    // The text spells the pattern that is returned.
    ensures found { IfOk result (IsRendered bytes.now) }
    // A text that spells a pattern is refused only if memory runs out.
    ensures only { (q : Rendered) → Spells bytes.now q → IsReadAs result q }
    // The parts and the refusal are those of `whole_at`.
    ensures exact { Returns pattern_view result (whole_at bytes.now) }
{
    whole(alloc, bytes)
}
