//! Comma-separated lists in one word.
ghost use Rattle.std.specs.Prelude.{◌≡◌, ◌∷◌, ◌<◌, length, IfSome};
ghost use Rattle.std.specs.Option.{option_copied};
ghost use Rattle.mlir_work_script_base.specs.Items.{are_names, are_numbers, is_name, is_number, items_after, items_of};

use crate::cuts::place_of;
use crate::numbers::parse_number;

/// Splits a list into its first item and the remaining list, which is `None` after the last item.
pub fn split_item(text: &[u8]) -> (&[u8], Option<&[u8]>)
    ensures items { items_of text.now ≡ result.0.now ∷ items_after (option_copied result.1) }
    ensures shorter { IfSome result.1 (λ rest. length rest.now < length text.now) }
{
    match place_of(text, b',') {
        Some(place) => (&text[..place], Some(&text[place + 1..])),
        None => (text, None),
    }
}

fn is_name(item: &[u8]) -> bool
    ensures { result ≡ is_name item.now }
{
    !item.is_empty()
}

fn is_number(item: &[u8]) -> bool
    ensures { result ≡ is_number item.now }
{
    parse_number(item).is_some()
}

/// Returns whether each item of a list is a name.
pub(crate) fn are_names(text: &[u8]) -> bool
    ensures { result ≡ are_names text.now }
{
    let mut rest = Some(text);
    'items: while let Some(items) = rest {
        let (item, trailing) = split_item(items);
        if !is_name(item) {
            return false;
        }
        rest = trailing;
    }
    true
}

/// Returns whether each item of a list is a number.
pub(crate) fn are_numbers(text: &[u8]) -> bool
    ensures { result ≡ are_numbers text.now }
{
    let mut rest = Some(text);
    'items: while let Some(items) = rest {
        let (item, trailing) = split_item(items);
        if !is_number(item) {
            return false;
        }
        rest = trailing;
    }
    true
}
