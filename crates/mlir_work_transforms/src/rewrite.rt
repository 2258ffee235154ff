//! Parses the rule list of a rewriting command.
ghost use Rattle.std.specs.Prelude.{◌≡◌, true, is_some, IfErr, IfOk, IfSome, option_map};
ghost use Rattle.ir_event.specs.types.declared.refusal.Refusal.TheVariants.{Memory as NoMemory};
ghost use Rattle.conversion.specs.patterns.Rows.{AreCanonical};
ghost use Rattle.mlir_work_script_base.specs.RuleNames.{name_of};
ghost use Rattle.mlir_work_registry.specs.RuleLists.{names_of};
ghost use Rattle.mlir_work_transforms.specs.Rewriting.{canonical_named, rules_named};

use crate::apply::rule_named;
use greedy::patterns::rule::Rule;
use ir_event::types::refusal::Refusal;
use mlir_work_registry::rule_lists::{names_in, next_name};
use mlir_work_script_base::rule_name::RuleName;
use std::alloc::Global;

/// Returns the canonicalization rule with this name, or `None`.
pub fn canonical_named(name: &RuleName<'_>) -> Option<Rule>
    ensures { result ≡ canonical_named (name_of name.now) }
{
    let Some(rule) = rule_named(name) else {
        return None;
    };
    if rule.is_canonical() {
        Some(rule)
    } else {
        None
    }
}

/// Returns whether each item of a list names a canonicalization rule.
fn are_named(list: &[u8]) -> bool
    ensures { result ≡ is_some (rules_named (names_of list.now)) }
{
    let mut names = names_in(list, false);
    'names: while let Some(name) = next_name(&mut names) {
        let Some(_) = canonical_named(&name) else {
            return false;
        };
    }
    true
}

/// Returns the rules of a list in their order, or `None` if an item doesn't name a canonicalization rule.
///
/// Errors: `Memory`, only if each item names a rule.
pub fn rules_in(alloc: Global, list: &[u8]) -> Result<Option<Vec<Rule>>, Refusal>
    ensures rules { IfOk result (λ found. option_map (λ v. v.items) found ≡ rules_named (names_of list.now)) }
    ensures canonical { IfOk result (λ found. IfSome found (λ v. AreCanonical v.items)) }
    ensures want { IfErr result
        (λ refusal. (refusal ≡ NoMemory) × (is_some (rules_named (names_of list.now)) ≡ true)) }
{
    if !are_named(list) {
        return Ok(None);
    }
    let mut rules = Vec::new(alloc);
    let mut names = names_in(list, false);
    'names: while let Some(name) = next_name(&mut names) {
        let Some(rule) = canonical_named(&name) else {
            return Ok(None);
        };
        match rules.push(rule) {
            Ok(()) => {}
            Err(_) => return Err(Refusal::Memory),
        }
    }
    Ok(Some(rules))
}
