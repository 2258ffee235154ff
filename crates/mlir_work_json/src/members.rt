//! Sets members of the object of a line.
ghost use Rattle.std.specs.Prelude.{◌≡◌, ◌==◌, [], ◌∷◌, map, IfOk};
ghost use Rattle.serde_json.specs.View.{view};
ghost use Rattle.mlir_work_json.specs.Cuts.{cells, parts};
ghost use Rattle.mlir_work_json.specs.Items.{Flag, HasMembers, Texts, text, numeral, text_data};

use crate::cuts::cut_cell;
use crate::numbers::parse_number;
use mlir_work_script_base::cuts::cut_at;
use serde_json::{Map, Value, put};
use std::alloc::{AllocError, Global};

/// The members of an object, ordered by their keys.
pub(crate) type Object = Map<String, Value>;

/// Returns a text as a JSON string. An invalid UTF-8 sequence becomes U+FFFD.
fn text_value(alloc: Global, word: &[u8]) -> Result<Value, AllocError>
    ensures { IfOk result (λ v. view v ≡ text_data word.now) }
{
    Ok(Value::String(String::from_utf8_lossy(alloc, word)?))
}

/// Sets a member to a text.
pub(crate) fn set_text(
    object: &mut Object,
    alloc: Global,
    key: &str,
    word: &[u8],
) -> Result<(), AllocError>
    ensures { HasMembers result object.old object.new (text key.now word.now ∷ []) }
{
    let value = text_value(alloc, word)?;
    put(object, alloc, key, value)
}

/// Sets a member to the number that a word spells, or else to the word.
pub(crate) fn set_number(
    object: &mut Object,
    alloc: Global,
    key: &str,
    word: &[u8],
) -> Result<(), AllocError>
    ensures { HasMembers result object.old object.new (numeral key.now word.now ∷ []) }
{
    match parse_number(word) {
        Some(n) => put(object, alloc, key, Value::from(n)),
        None => set_text(object, alloc, key, word),
    }
}

/// Sets a member to `true`.
pub(crate) fn set_flag(object: &mut Object, alloc: Global, key: &str) -> Result<(), AllocError>
    ensures { HasMembers result object.old object.new ((key.now, Flag) ∷ []) }
{
    put(object, alloc, key, Value::Bool(true))
}

/// Returns the parts of a text as JSON strings. The byte `end` ends a part.
fn parts_value(alloc: Global, text: &[u8], end: u8) -> Result<Vec<Value>, AllocError>
    ensures { IfOk result (λ v. map view v.items ≡ map text_data (parts (λ b. b == end) text.now)) }
{
    let mut values = Vec::new(alloc);
    let mut rest = text;
    while !rest.is_empty() {
        let (word, trailing) = cut_at(rest, end);
        values.push(text_value(alloc, word)?)?;
        rest = trailing;
    }
    Ok(values)
}

/// Returns the cells of a text as JSON strings.
fn cells_value(alloc: Global, text: &[u8]) -> Result<Vec<Value>, AllocError>
    ensures { IfOk result (λ v. map view v.items ≡ map text_data (cells text.now)) }
{
    let mut values = Vec::new(alloc);
    let mut rest = text;
    while !rest.is_empty() {
        let (word, trailing) = cut_cell(rest);
        values.push(text_value(alloc, word)?)?;
        rest = trailing;
    }
    Ok(values)
}

/// Sets a member to the cells of a text.
pub(crate) fn set_cells(
    object: &mut Object,
    alloc: Global,
    key: &str,
    text: &[u8],
) -> Result<(), AllocError>
    ensures { HasMembers result object.old object.new ((key.now, Texts (cells text.now)) ∷ []) }
{
    let values = cells_value(alloc, text)?;
    put(object, alloc, key, Value::Array(values))
}

/// Sets a member to the parts of a text. The byte `end` ends a part.
pub(crate) fn set_parts(
    object: &mut Object,
    alloc: Global,
    key: &str,
    text: &[u8],
    end: u8,
) -> Result<(), AllocError>
    ensures { HasMembers result object.old object.new ((key.now, Texts (parts (λ b. b == end) text.now)) ∷ []) }
{
    let values = parts_value(alloc, text, end)?;
    put(object, alloc, key, Value::Array(values))
}
