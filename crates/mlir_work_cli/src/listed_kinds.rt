//! The kinds of analyses that the command line lists.
ghost use Rattle.std.specs.Prelude.{◌≡◌, ◌++◌, ◌∷◌, [], map, option_map, IfOk};
ghost use Rattle.std.specs.List.{list_all};
ghost use Rattle.mlir_work_cli.specs.ListedKinds.{has_comma, is_analysis, is_known, items_of, kinds_in, kinds_named};
ghost use Rattle.mlir_work_cli.specs.ListedKinds.{listed_kinds};

use crate::text;
use mlir_work_script_base::cuts::cut_at;
use mlir_work_script_base::kind::{KINDS, Kind, kind_named, name_of};
use std::alloc::{AllocError, Global};

/// Returns whether a list has a comma.
fn has_comma(list: &[u8]) -> bool
    ensures { result ≡ has_comma list.now }
{
    let (item, _) = cut_at(list, b',');
    item.len() < list.len()
}

/// Appends an item.
fn push_item<'a>(items: &mut Vec<&'a [u8]>, item: &'a [u8]) -> Result<(), AllocError>
    ensures { IfOk result (λ _. map (λ s. s.now) items.new.items ≡ map (λ s. s.now) items.old.items ++ item.now ∷ []) }
{
    items.push(item)?;
    Ok(())
}

/// Returns the items of a list with commas between them.
fn items_of<'a>(alloc: Global, list: &'a [u8]) -> Result<Vec<&'a [u8]>, AllocError>
    ensures { IfOk result (λ items. map (λ s. s.now) items.items ≡ items_of list.now) }
{
    let mut items = Vec::new(alloc);
    let mut rest = list;
    let mut most = list.len();
    'items: while most > 0 && has_comma(rest) {
        let (item, tail) = cut_at(rest, b',');
        push_item(&mut items, item)?;
        rest = tail;
        most -= 1;
    }
    push_item(&mut items, rest)?;
    Ok(items)
}

/// Returns whether there is a kind, and it is that of an analysis of the program.
fn is_analysis(kind: Option<Kind>) -> bool
    ensures { result ≡ is_analysis kind }
{
    match kind {
        Some(kind) => name_of(kind).is_some(),
        None => false,
    }
}

/// Returns whether an item of a list is `all`, `none` or the word of an analysis of the program.
fn is_known(item: &[u8]) -> bool
    ensures { result ≡ is_known item.now }
{
    item == text::ALL.as_bytes() || item == text::NONE.as_bytes() || is_analysis(kind_named(item))
}

/// Returns whether each item of a list is known.
fn are_known(items: &[&[u8]]) -> bool
    ensures { result ≡ list_all is_known (map (λ s. s.now) items.now) }
{
    let mut rest = items;
    'items: while let [item, tail @ ..] = rest {
        if !is_known(item) {
            return false;
        }
        rest = tail;
    }
    true
}

/// Appends the kinds that an item of the list names.
fn add_named(named: &mut Vec<Kind>, item: &[u8]) -> Result<(), AllocError>
    ensures { IfOk result (λ _. named.new.items ≡ named.old.items ++ kinds_named item.now) }
{
    if item == text::ALL.as_bytes() {
        return named.extend_from_slice(&KINDS);
    }
    match kind_named(item) {
        Some(kind) => {
            named.push(kind)?;
            Ok(())
        }
        None => Ok(()),
    }
}

/// Returns the kinds that the items of a list name, in the order of the list.
fn kinds_of(alloc: Global, items: &[&[u8]]) -> Result<Vec<Kind>, AllocError>
    ensures { IfOk result (λ named. named.items ≡ listed_kinds (map (λ s. s.now) items.now)) }
{
    let mut named = Vec::new(alloc);
    let mut rest = items;
    'items: while let [item, tail @ ..] = rest {
        add_named(&mut named, item)?;
        rest = tail;
    }
    Ok(named)
}

/// Returns the kinds that a list names, in the order of the list, or `None` if an item isn't known. Items have commas
/// between them: `all` names each kind of the program, the word of a kind names that kind, and `none` names no kind.
///
/// Errors: memory runs out.
pub fn kinds_in(alloc: Global, list: &[u8]) -> Result<Option<Vec<Kind>>, AllocError>
    ensures { IfOk result (λ found. option_map (λ named. named.items) found ≡ kinds_in list.now) }
{
    let items = items_of(alloc, list)?;
    if !are_known(&items) {
        return Ok(None);
    }
    let named = kinds_of(alloc, &items)?;
    Ok(Some(named))
}
