//! Resolves the names of a rule list.
ghost use Rattle.std.specs.Prelude.{◌≡◌, is_some, option_map};
ghost use Rattle.mlir_work_script_base.specs.RuleNames.{name_of};
ghost use Rattle.mlir_work_registry.specs.Registry.{registry_model};
ghost use Rattle.mlir_work_registry.specs.RuleLists.{names_left, names_of, opened};
ghost use Rattle.mlir_work_transforms.specs.RuleLists.{all_listed, has_canon, listed_named};
ghost use Rattle.mlir_work_transforms.specs.Views.{listed_view};

use crate::greedy::pattern_set::RuleOrPattern;
use crate::named_patterns::find_pattern;
use crate::rewrite::canonical_named;
use mlir_work_registry::registry::{PatternRegistry, find};
use mlir_work_registry::rule_lists::{RuleNames, names_in, next_name};
use mlir_work_script_base::rule_name::RuleName;

/// A rule, or a user pattern with its name.
#[derive(Clone, Copy)]
pub(crate) struct RuleItem<'a> {
    pub(crate) candidate: RuleOrPattern<'a>,
    pub(crate) name: &'a [u8],
}

/// Resolves a name to a registered pattern, or else to a canonicalization rule. Returns `None` if it is neither.
pub(crate) fn listed_named<'a>(
    registry: &'a PatternRegistry,
    name: &RuleName<'_>,
) -> Option<RuleItem<'a>>
    ensures { option_map listed_view result ≡ listed_named (registry_model registry.now) (name_of name.now) }
{
    if let Some(held) = find_pattern(registry, name) {
        return Some(RuleItem {
            candidate: RuleOrPattern::UserPattern(&held.pattern),
            name: held.name.as_slice(),
        });
    }
    let Some(rule) = canonical_named(name) else {
        return None;
    };
    Some(RuleItem {
        candidate: RuleOrPattern::Rule(rule),
        name: b"",
    })
}

/// Returns the names of a list. If a pattern is named `canon`, this word is a name as any other.
pub(crate) fn names_listed<'a>(registry: &PatternRegistry, list: &'a [u8]) -> RuleNames<'a>
    ensures { names_left result ≡ opened (has_canon (registry_model registry.now)) (names_of list.now) }
{
    names_in(list, find(registry, b"canon").is_some())
}

/// Returns whether each item of a list names a rule or a registered pattern.
pub(crate) fn are_listed(registry: &PatternRegistry, list: &[u8]) -> bool
    ensures { result ≡ is_some (all_listed (registry_model registry.now) (names_of list.now)) }
{
    let mut names = names_listed(registry, list);
    'names: while let Some(name) = next_name(&mut names) {
        let Some(_) = listed_named(registry, &name) else {
            return false;
        };
    }
    true
}
