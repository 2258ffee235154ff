//! The members of reply lines.
ghost use Rattle.std.specs.Prelude.{◌≡◌, ◌∷◌, codes};
ghost use Rattle.mlir_work_json.specs.Cuts.{trailing, cell};
ghost use Rattle.mlir_work_json.specs.Items.{HasMembers, text};
ghost use Rattle.mlir_work_json.specs.Replies.{about_members, place_members, worded_members, refusal_members, expected_members, result_members};
ghost use Rattle.mlir_work_json.specs.Replies.{number_key, says_width, done_members, answer_members, reply_members, unparsed_members};
ghost use Rattle.mlir_work_json.specs.Replies.{unattached_members, state_members, heading_members};

use crate::cuts::{after_cell, cut_cell};
use crate::members::{Object, set_cells, set_number, set_text};
use std::alloc::{AllocError, Global};

/// Sets the members of the note of a refusal, if there is one: `about #3 %v2.0`.
fn set_about(object: &mut Object, alloc: Global, rest: &[u8]) -> Result<(), AllocError>
    ensures { HasMembers result object.old object.new (about_members rest.now) }
{
    if rest.is_empty() {
        return Ok(());
    }
    set_cells(object, alloc, "about", after_cell(rest))
}

/// Sets the operation of a refusal and the members of its note.
fn set_refused_op(object: &mut Object, alloc: Global, place: &[u8]) -> Result<(), AllocError>
    ensures { HasMembers result object.old object.new (text (codes "op") (cell place.now) ∷ about_members (trailing place.now)) }
{
    let (op, rest) = cut_cell(place);
    set_text(object, alloc, "op", op)?;
    set_about(object, alloc, rest)
}

/// Sets the members of `about #3`, or of `at 17` with an optional note such as `about location`.
fn set_worded(object: &mut Object, alloc: Global, place: &[u8]) -> Result<(), AllocError>
    ensures { HasMembers result object.old object.new (worded_members place.now) }
{
    let (word, rest) = cut_cell(place);
    if word == b"about".as_slice() {
        return set_about(object, alloc, place);
    }
    let (offset, trailing) = cut_cell(rest);
    set_number(object, alloc, "offset", offset)?;
    set_about(object, alloc, trailing)
}

/// Sets the members of the text after a refusal: nothing, `#2`, `at 17`, or a note.
fn set_place(object: &mut Object, alloc: Global, place: &[u8]) -> Result<(), AllocError>
    ensures { HasMembers result object.old object.new (place_members place.now) }
{
    match place {
        [] => Ok(()),
        [b'#', ..] => set_refused_op(object, alloc, place),
        _ => set_worded(object, alloc, place),
    }
}

/// Sets the members of a refusal, `22 HasUses`, and of the text after it.
fn set_refusal(object: &mut Object, alloc: Global, line: &[u8]) -> Result<(), AllocError>
    ensures { HasMembers result object.old object.new (refusal_members line.now) }
{
    let (refusal, rest) = cut_cell(line);
    let (word, place) = cut_cell(rest);
    set_number(object, alloc, "refused", refusal)?;
    set_text(object, alloc, "word", word)?;
    set_place(object, alloc, place)
}

/// Sets the members of an expected refusal, `22 HasUses`.
fn set_expected(object: &mut Object, alloc: Global, line: &[u8]) -> Result<(), AllocError>
    ensures { HasMembers result object.old object.new (expected_members line.now) }
{
    let (refusal, word) = cut_cell(line);
    set_number(object, alloc, "expected", refusal)?;
    set_text(object, alloc, "word", word)
}

/// Returns whether the word is a check result, which a width may follow.
pub(crate) fn says_width(word: &[u8]) -> bool
    ensures { result ≡ says_width word.now }
{
    word == b"holds".as_slice()
        || word == b"empty".as_slice()
        || word == b"fails".as_slice()
        || word == b"unrefuted".as_slice()
}

/// Returns the key of the number that follows this word: `width` or `count`.
fn number_key(word: &[u8]) -> &'static str
    ensures { result.now ≡ number_key word.now }
{
    if says_width(word) { "width" } else { "count" }
}

/// Sets the members of the text after an outcome's word: nothing, `#12`, or `3`.
fn set_result(
    object: &mut Object,
    alloc: Global,
    word: &[u8],
    made: &[u8],
) -> Result<(), AllocError>
    ensures { HasMembers result object.old object.new (result_members word.now made.now) }
{
    match made {
        [] => Ok(()),
        [b'#', ..] => set_text(object, alloc, "op", made),
        _ => set_number(object, alloc, number_key(word), made),
    }
}

/// Sets the members of an accepted reply: `ok`, `ok #12`, `converged 3`, `holds 8`, `holds`.
fn set_done(object: &mut Object, alloc: Global, line: &[u8]) -> Result<(), AllocError>
    ensures { HasMembers result object.old object.new (done_members line.now) }
{
    let (word, made) = cut_cell(line);
    set_text(object, alloc, "reply", word)?;
    set_result(object, alloc, word, made)
}

/// Sets the members of the text after a reply's number.
fn set_answer(object: &mut Object, alloc: Global, line: &[u8]) -> Result<(), AllocError>
    ensures { HasMembers result object.old object.new (answer_members line.now) }
{
    let (word, rest) = cut_cell(line);
    if word == b"refused".as_slice() {
        return set_refusal(object, alloc, rest);
    }
    if word == b"expected".as_slice() {
        return set_expected(object, alloc, rest);
    }
    set_done(object, alloc, line)
}

/// Sets the members of a reply line.
pub(crate) fn set_reply(object: &mut Object, alloc: Global, line: &[u8]) -> Result<(), AllocError>
    ensures { HasMembers result object.old object.new (reply_members line.now) }
{
    let (n, answer) = cut_cell(line);
    set_number(object, alloc, "n", n)?;
    set_answer(object, alloc, answer)
}

/// Sets the members of the refusal of a module.
pub(crate) fn add_module_refused(
    object: &mut Object,
    alloc: Global,
    line: &[u8],
) -> Result<(), AllocError>
    ensures { HasMembers result object.old object.new (unparsed_members line.now) }
{
    set_refusal(object, alloc, after_cell(after_cell(line)))
}

/// Sets the members of the refusal of an analysis.
pub(crate) fn add_attach_refused(
    object: &mut Object,
    alloc: Global,
    line: &[u8],
) -> Result<(), AllocError>
    ensures { HasMembers result object.old object.new (unattached_members line.now) }
{
    let (kind, rest) = cut_cell(after_cell(line));
    set_text(object, alloc, "attach", kind)?;
    set_refusal(object, alloc, after_cell(rest))
}

/// Sets the member for the word in place of the rows of a kind.
fn set_state(object: &mut Object, alloc: Global, state: &[u8]) -> Result<(), AllocError>
    ensures { HasMembers result object.old object.new (state_members state.now) }
{
    if state.is_empty() {
        return Ok(());
    }
    set_text(object, alloc, "state", state)
}

/// Sets the members of the heading of a kind's rows, or of the line in their place.
pub(crate) fn set_heading(object: &mut Object, alloc: Global, line: &[u8]) -> Result<(), AllocError>
    ensures { HasMembers result object.old object.new (heading_members line.now) }
{
    let (kind, state) = cut_cell(after_cell(line));
    set_text(object, alloc, "kind", kind)?;
    set_state(object, alloc, state)
}
