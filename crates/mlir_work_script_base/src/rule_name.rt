//! Parses rule names and lists of rules.
ghost use Rattle.std.specs.Prelude.{◌≡◌, option_map};
ghost use Rattle.mlir_work_script_base.specs.RuleNames.{are_rewriting_rules, is_rewriting_rule, name_of, name_or_none, numbered, rule_in};

use crate::items::split_item;
use crate::numbers::parse_number;

/// A rule name in a command: a number or a word.
#[derive(Clone, Copy)]
pub enum RuleName<'a> {
    /// A number from 1 to 30.
    Number(u32),
    /// A word, which may not be a rule's.
    Word(&'a [u8]),
}

/// Returns the rule name for a number from 1 to 30, or `None` for another number.
fn numbered<'a>(number: u32) -> Option<RuleName<'a>>
    ensures { option_map name_of result ≡ numbered number }
{
    if 1 <= number && number <= 30 {
        Some(RuleName::Number(number))
    } else {
        None
    }
}

/// Parses a rule name. A word that begins with a digit must be a number from 1 to 30.
pub fn rule_named(word: &[u8]) -> Option<RuleName<'_>>
    ensures { option_map name_of result ≡ rule_in word.now }
{
    let [first, ..] = word else {
        return None;
    };
    if !first.is_ascii_digit() {
        return Some(RuleName::Word(word));
    }
    numbered(parse_number(word)?)
}

/// Parses an item of a rule list. A malformed item becomes a word that no rule has.
pub fn name_in(item: &[u8]) -> RuleName<'_>
    ensures { name_of result ≡ name_or_none (rule_in item.now) }
{
    match rule_named(item) {
        Some(name) => name,
        None => RuleName::Word(b""),
    }
}

/// Returns whether an item of a list may name a rewriting rule. The numbers 25 to 30 are conversion rules.
fn is_rewriting_rule(item: &[u8]) -> bool
    ensures { result ≡ is_rewriting_rule item.now }
{
    match rule_named(item) {
        Some(RuleName::Number(number)) => number <= 24,
        Some(RuleName::Word(_)) => true,
        None => false,
    }
}

/// Returns whether each item of a list may name a rewriting rule.
pub fn are_rewriting_rules(text: &[u8]) -> bool
    ensures { result ≡ are_rewriting_rules text.now }
{
    let mut rest = Some(text);
    'items: while let Some(items) = rest {
        let (item, trailing) = split_item(items);
        if !is_rewriting_rule(item) {
            return false;
        }
        rest = trailing;
    }
    true
}
