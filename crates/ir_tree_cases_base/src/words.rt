//! Parses the words of a line.
use ir_tree::place::{Part, Place};
use ir_tree::value::Value;
use ir_types::ids::{AttrId, NameId, OpId, TypeId};

/// Returns the first word of a text, and the rest of the text after it.
pub fn first_word(text: &str) -> (&str, &str) {
    text.split_once(' ').unwrap_or((text, ""))
}

/// Parses a number. Returns 4294967295 if the word isn't a number.
pub fn number(word: &str) -> u32 {
    word.parse::<u32>().unwrap_or(u32::MAX)
}

/// Parses the id of an operation.
pub fn op_id(word: &str) -> OpId {
    OpId::new(number(word))
}

/// Parses the id of a name.
pub fn name_id(word: &str) -> NameId {
    NameId::new(number(word))
}

/// Parses the id of a type.
pub fn type_id(word: &str) -> TypeId {
    TypeId::new(number(word))
}

/// Parses the id of an attribute.
pub fn attr_id(word: &str) -> AttrId {
    AttrId::new(number(word))
}

/// Parses a value: a result `2.0`, or an argument `1.0.0`.
pub fn value(word: &str) -> Value {
    let (op, rest) = word.split_once('.').unwrap_or((word, ""));
    match rest.split_once('.') {
        Some((region, place)) => Value::Arg(op_id(op), number(region), number(place)),
        None => Value::Result(op_id(op), number(rest)),
    }
}

/// Parses an entry: `39=0`.
pub fn entry(word: &str) -> (NameId, AttrId) {
    let (key, attr) = word.split_once('=').unwrap_or((word, ""));
    (name_id(key), attr_id(attr))
}

/// Parses an attribute. Returns `None` if the word isn't a number.
pub fn some_attr(word: &str) -> Option<AttrId> {
    match word.parse::<u32>() {
        Ok(number) => Some(AttrId::new(number)),
        Err(_) => None,
    }
}

/// Parses an operation. Returns `None` if the word isn't a number.
fn some_op(word: &str) -> Option<OpId> {
    match word.parse::<u32>() {
        Ok(number) => Some(OpId::new(number)),
        Err(_) => None,
    }
}

/// Parses a dictionary: `props` for the properties, any other word for the attributes.
pub fn part(word: &str) -> Part {
    if word == "props" {
        Part::Props
    } else {
        Part::Attrs
    }
}

/// Parses a place: `2 0 4` before operation 4, or `2 0 end`.
pub fn place(text: &str) -> Place {
    let (parent, rest) = first_word(text);
    let (region, before) = first_word(rest);
    Place {
        parent: op_id(parent),
        region: number(region),
        before: some_op(before),
    }
}
