//! Lists of rules and patterns in a command, as `1-3,7,mine` or `canon,mine`.
ghost use Rattle.std.specs.Prelude.{◌≡◌, ◌≤◌, IfSome, option_map};
ghost use Rattle.mlir_work_script_base.specs.RuleNames.{name_of};
ghost use Rattle.mlir_work_script.specs.RuleLists.{are_items, is_item, names_in, names_left, names_of, names_or, opened, range_in, with_first};

use mlir_work_script_base::cuts::cut_at;
use mlir_work_script_base::items::split_item;
use mlir_work_script_base::numbers::parse_number;
use mlir_work_script_base::rule_name::{RuleName, name_in, rule_named};

/// The largest number of a rewriting rule. The rules above it are for conversion.
const MOST_TRIED: u32 = 24;

/// The remaining names of a rule list.
#[derive(Clone, Copy)]
pub struct RuleNames<'a> {
    /// The next number of the current range, and the number at which the range has ended.
    next: u32,
    end: u32,
    /// The items after the current one.
    rest: Option<&'a [u8]>,
    /// Whether `canon` is a name as any other.
    has_canon: bool,
}

/// Parses a range of rule numbers, as `4-9`: both are 1 to 24, and the first isn't above the second.
fn parse_range(item: &[u8]) -> Option<(u32, u32)>
    ensures range { result ≡ range_in item.now }
    ensures small { IfSome result (λ r. (r.0 ≤ r.1) × (r.1 ≤ 24)) }
{
    let (first, last) = cut_at(item, b'-');
    let first = parse_number(first)?;
    let last = parse_number(last)?;
    if 1 <= first && first <= last && last <= MOST_TRIED {
        Some((first, last))
    } else {
        None
    }
}

/// Returns whether an item of a list is a range, or may name a rewriting rule.
fn is_item(item: &[u8]) -> bool
    ensures { result ≡ is_item item.now }
{
    if parse_range(item).is_some() {
        return true;
    }
    match rule_named(item) {
        Some(RuleName::Number(number)) => number <= MOST_TRIED,
        Some(RuleName::Word(_)) => true,
        None => false,
    }
}

/// Returns whether each item of a list is a range, or may name a rewriting rule.
pub(crate) fn are_items(text: &[u8]) -> bool
    ensures { result ≡ are_items text.now }
{
    let mut rest = Some(text);
    'items: while let Some(items) = rest {
        let (item, trailing) = split_item(items);
        if !is_item(item) {
            return false;
        }
        rest = trailing;
    }
    true
}

/// Returns the names of a list in order. A range stands for its numbers. `canon` stands for the numbers 1 to 24,
/// unless `has_canon` says that a pattern has this name.
pub fn names_in(list: &[u8], has_canon: bool) -> RuleNames<'_>
    ensures { names_left result ≡ opened has_canon (names_of list.now) }
{
    RuleNames {
        next: 0,
        end: 0,
        rest: Some(list),
        has_canon,
    }
}

/// Returns the first and the last number of a range, and of `canon` if no pattern has this name.
fn numbers_of(item: &[u8], has_canon: bool) -> Option<(u32, u32)>
    ensures names { opened has_canon (names_in item.now) ≡ names_or result item.now }
    ensures small { IfSome result (λ r. (r.0 ≤ r.1) × (r.1 ≤ 24)) }
{
    if has_canon {
        return parse_range(item);
    }
    if item == b"canon".as_slice() {
        return Some((1, MOST_TRIED));
    }
    parse_range(item)
}

/// Returns the next name, or `None` after the last one.
pub fn next_name<'a>(names: &mut RuleNames<'a>) -> Option<RuleName<'a>>
    ensures { names_left names.old ≡ with_first (option_map name_of result) (names_left names.new) }
{
    if names.next < names.end {
        let number = names.next;
        names.next += 1;
        return Some(RuleName::Number(number));
    }
    let Some(items) = names.rest else {
        return None;
    };
    let (item, trailing) = split_item(items);
    names.rest = trailing;
    let Some((first, last)) = numbers_of(item, names.has_canon) else {
        return Some(name_in(item));
    };
    names.next = first + 1;
    names.end = last + 1;
    Some(RuleName::Number(first))
}
