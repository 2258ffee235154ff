//! Prints the parts of a pattern.
ghost use Rattle.std.specs.Prelude.{◌≡◌, ◌∷◌, ◌++◌, [], IfOk, OnOk, map, option_map, true};
ghost use Rattle.ir_text_tokens.specs.Printing.{signed_text};
ghost use Rattle.user_patterns_text.specs.Printing.{show_requested};
ghost use Rattle.user_patterns_text.specs.Parts.{bytes_of, kind_view, pattern_view, unplaced, views};
ghost use Rattle.user_patterns_text.specs.Printed.{item, opens, part_text, parts_text, pattern_text, type_text, where_text};

use crate::parts::{Part, PartKind, Pattern};
use ir_text_tokens::print::print_number;
use std::alloc::{AllocError, Global};

/// Prints a comma and a blank, unless the item is the first of its list.
fn write_comma(out: &mut Vec<u8>, first: bool) -> Result<(), AllocError>
    ensures { OnOk result (out.new.items ≡ out.old.items ++ item first []) }
{
    if !first {
        out.extend_from_slice(b", ")?;
    }
    Ok(())
}

/// Prints `word` and `trailing` as an item of a list.
#[tactic(auto, using(crate::proofs::Items::item_then))]
fn write_item(
    out: &mut Vec<u8>,
    first: bool,
    word: &[u8],
    trailing: &[u8],
) -> Result<(), AllocError>
    ensures { OnOk result (out.new.items ≡ out.old.items ++ item first (word.now ++ trailing.now)) }
{
    write_comma(out, first)?;
    out.extend_from_slice(word)?;
    out.extend_from_slice(trailing)?;
    Ok(())
}

/// Prints the constraint in angle brackets, if there is one, and the opening parenthesis.
fn write_requested(out: &mut Vec<u8>, asks: &Option<&[u8]>) -> Result<(), AllocError>
    ensures { OnOk result (out.new.items ≡ out.old.items ++ show_requested (option_map bytes_of asks.now) (40 ∷ [])) }
{
    if let Some(word) = asks {
        out.push(b'<')?;
        out.extend_from_slice(word)?;
        out.push(b'>')?;
    }
    out.push(b'(')?;
    Ok(())
}

fn write_operation(
    out: &mut Vec<u8>,
    first: bool,
    name: &[u8],
    asks: &Option<&[u8]>,
) -> Result<(), AllocError>
    ensures { OnOk result (out.new.items ≡ out.old.items ++ item first (name.now ++ show_requested (option_map bytes_of asks.now) (40 ∷ []))) }
{
    write_comma(out, first)?;
    out.extend_from_slice(name)?;
    write_requested(out, asks)
}

fn write_literal(
    out: &mut Vec<u8>,
    first: bool,
    negative: bool,
    magnitude: u128,
) -> Result<(), AllocError>
    ensures { OnOk result (out.new.items ≡ out.old.items ++ item first (signed_text negative magnitude)) }
{
    write_comma(out, first)?;
    print_number(out, negative, magnitude)
}

fn write_type(out: &mut Vec<u8>, items: bool, first: bool, word: &[u8]) -> Result<(), AllocError>
    ensures { OnOk result (out.new.items ≡ out.old.items ++ type_text items first word.now) }
{
    if items {
        return write_item(out, first, word, b"");
    }
    out.extend_from_slice(b" : ")?;
    out.extend_from_slice(word)?;
    Ok(())
}

fn write_end(out: &mut Vec<u8>) -> Result<(), AllocError>
    ensures { OnOk result (out.new.items ≡ out.old.items ++ 41 ∷ []) }
{
    out.push(b')')?;
    Ok(())
}

/// Prints a part. `items` says whether types are items of a list, `first` whether the part is the first of its list.
fn write_part(
    out: &mut Vec<u8>,
    items: bool,
    first: bool,
    kind: &PartKind<'_>,
) -> Result<(), AllocError>
    ensures { OnOk result (out.new.items ≡ out.old.items ++ part_text items first (kind_view kind.now)) }
{
    match kind {
        PartKind::Operation(name, asks) => write_operation(out, first, name, asks),
        PartKind::Value(name) => write_item(out, first, b"%", name),
        PartKind::Literal(negative, magnitude) => write_literal(out, first, *negative, *magnitude),
        PartKind::Name(word) => write_item(out, first, word, b""),
        PartKind::Function(word) => write_item(out, first, word, b"("),
        PartKind::Constraint(word) => write_item(out, first, word, b"("),
        PartKind::Type(word) => write_type(out, items, first, word),
        PartKind::End => write_end(out),
    }
}

/// Returns whether the next part is the first item of a list.
fn opens(kind: &PartKind<'_>) -> bool
    ensures { result ≡ opens (kind_view kind.now) }
{
    matches!(
        kind,
        PartKind::Operation(_, _) | PartKind::Function(_) | PartKind::Constraint(_)
    )
}

#[tactic(auto, unfolding(crate::specs::Printed::parts_text))]
fn write_parts(out: &mut Vec<u8>, items: bool, parts: &[Part<'_>]) -> Result<(), AllocError>
    ensures { OnOk result (out.new.items ≡ out.old.items ++ parts_text items true (unplaced (views parts.now))) }
{
    let mut first = true;
    let mut rest = parts;
    'parts: while let [part, tail @ ..] = rest {
        write_part(out, items, first, &part.kind)?;
        first = opens(&part.kind);
        rest = tail;
    }
    Ok(())
}

fn write_where(out: &mut Vec<u8>, parts: &[Part<'_>]) -> Result<(), AllocError>
    ensures { OnOk result (out.new.items ≡ out.old.items ++ where_text (unplaced (views parts.now))) }
{
    if parts.is_empty() {
        return Ok(());
    }
    out.extend_from_slice(b" where ")?;
    write_parts(out, true, parts)
}

/// Returns the text of a pattern.
#[tactic(auto, unfolding(crate::specs::Printed::pattern_text))]
pub fn print_pattern(alloc: Global, pattern: &Pattern<'_>) -> Result<Vec<u8>, AllocError>
    ensures { IfOk result (λ v. v.items ≡ pattern_text (pattern_view pattern.now)) }
{
    let mut out = Vec::new(alloc);
    out.extend_from_slice(pattern.name)?;
    out.push(b' ')?;
    write_parts(&mut out, false, &pattern.old)?;
    out.extend_from_slice(b" => ")?;
    write_parts(&mut out, false, &pattern.new)?;
    write_where(&mut out, &pattern.conditions)?;
    Ok(out)
}
