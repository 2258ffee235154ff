//! The lines that count which rules and patterns fired: `fired 4 drop-zero 37`. A line shows a user pattern by its name:
//! `names` has the name of each rule and pattern of the list, at the same index.
ghost use Rattle.std.specs.Prelude.{◌≡◌, ◌++◌, [], OnOk, map};
ghost use Rattle.greedy.specs.declared.applied_rewrite.AppliedPattern.TheVariants as by;
ghost use Rattle.mlir_work_transforms.specs.FiredText.{fired_after, fired_line, fired_of, fired_text, first_of, is_in, is_same, last_hundred, times_in};

use crate::trace_lines::{write_number, write_pattern};
use greedy::applied_rewrite::AppliedPattern;
use greedy::patterns::rule::Rule;
use std::alloc::AllocError;

/// How many of the last rewrites are counted.
const MOST_COUNTED: usize = 100;

/// Returns whether `applied` is this rule.
fn is_rule(rule: Rule, applied: &AppliedPattern) -> bool
    ensures { result ≡ is_same (by.Rule rule) applied.now }
{
    match applied {
        AppliedPattern::Rule(other) => rule.number() == other.number(),
        AppliedPattern::UserPattern(_) => false,
    }
}

/// Returns whether `applied` is the user pattern at this index of the list.
fn is_user_pattern(place: usize, applied: &AppliedPattern) -> bool
    ensures { result ≡ is_same (by.UserPattern place) applied.now }
{
    match applied {
        AppliedPattern::Rule(_) => false,
        AppliedPattern::UserPattern(other) => place == *other,
    }
}

/// Returns whether both are the same rule, or the same user pattern.
fn is_same(one: &AppliedPattern, other: &AppliedPattern) -> bool
    ensures { result ≡ is_same one.now other.now }
{
    match one {
        AppliedPattern::Rule(rule) => is_rule(*rule, other),
        AppliedPattern::UserPattern(place) => is_user_pattern(*place, other),
    }
}

/// Returns whether a rule or pattern is in a list.
fn is_in(one: &AppliedPattern, list: &[AppliedPattern]) -> bool
    ensures { result ≡ is_in one.now list.now }
{
    let mut rest = list;
    'entries: while let [entry, tail @ ..] = rest {
        if is_same(one, entry) {
            return true;
        }
        rest = tail;
    }
    false
}

/// Returns how many times a rule or pattern is in a list.
fn times_in(one: &AppliedPattern, list: &[AppliedPattern]) -> usize
    ensures { result ≡ times_in one.now list.now }
{
    let mut count: usize = 0;
    let mut rest = list;
    'entries: while let [entry, tail @ ..] = rest {
        if is_same(one, entry) {
            count += 1;
        }
        rest = tail;
    }
    count
}

/// Appends the line of a rule or pattern that fired so many times.
fn write_firing(
    text: &mut Vec<u8>,
    names: &[Vec<u8>],
    applied: AppliedPattern,
    times: usize,
) -> Result<(), AllocError>
    ensures { OnOk result (text.new.items ≡ text.old.items
        ++ fired_line (map (λ n. n.items) names.now) (record { applied = applied; times = times })) }
{
    text.extend_from_slice(b"fired ")?;
    write_pattern(text, names, applied)?;
    text.extend_from_slice(b" ")?;
    write_number(text, times as u64)?;
    text.extend_from_slice(b"\n")
}

/// Appends the line of the first entry of `rest`, unless the same rule or pattern is among the entries before.
fn write_first(
    text: &mut Vec<u8>,
    names: &[Vec<u8>],
    before: &[AppliedPattern],
    rest: &[AppliedPattern],
) -> Result<(), AllocError>
    ensures { OnOk result (text.new.items ≡ text.old.items
        ++ fired_text (map (λ n. n.items) names.now) (first_of before.now rest.now)) }
{
    let [first, ..] = rest else {
        return Ok(());
    };
    if is_in(first, before) {
        return Ok(());
    }
    write_firing(text, names, *first, times_in(first, rest))
}

/// Appends a line for each rule and pattern of a list, in the order of their first entries.
fn write_firings(
    text: &mut Vec<u8>,
    names: &[Vec<u8>],
    list: &[AppliedPattern],
) -> Result<(), AllocError>
    ensures { OnOk result (text.new.items ≡ text.old.items
        ++ fired_text (map (λ n. n.items) names.now) (fired_after [] list.now)) }
{
    let mut place = 0;
    'places: while place < list.len() {
        let (before, rest) = list.split_at(place);
        write_first(text, names, before, rest)?;
        place += 1;
    }
    Ok(())
}

/// Returns the last hundred entries of a list.
fn last_hundred(list: &[AppliedPattern]) -> &[AppliedPattern]
    ensures { result.now ≡ last_hundred list.now }
{
    let (_, last) = list.split_at(list.len().saturating_sub(MOST_COUNTED));
    last
}

/// Appends a line for each rule and pattern of the last hundred entries of a list.
pub(crate) fn write_last(
    text: &mut Vec<u8>,
    names: &[Vec<u8>],
    list: &[AppliedPattern],
) -> Result<(), AllocError>
    ensures { OnOk result (text.new.items ≡ text.old.items ++ fired_text (map (λ n. n.items) names.now) (fired_of list.now)) }
{
    write_firings(text, names, last_hundred(list))
}
