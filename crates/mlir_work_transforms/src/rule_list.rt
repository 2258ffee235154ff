//! Lists of rules and user patterns, with the names for a trace.
ghost use Rattle.std.specs.Prelude.{◌≡◌, ◌∷◌, ◌++◌, [], List, is_some, true, IfErr, IfOk, OnOk};
ghost use Rattle.ir_event.specs.types.declared.refusal.Refusal.TheVariants.{Memory as NoMemory};
ghost use Rattle.mlir_work_registry.specs.RuleLists.{names_of as names_said};
ghost use Rattle.mlir_work_registry.specs.Registry.{registry_model};
ghost use Rattle.mlir_work_transforms.specs.RuleLists.{Listed, all_listed};
ghost use Rattle.mlir_work_transforms.specs.Views.{IsRuleList, IsRuleListOf, listed_view};

use crate::greedy::pattern_set::RuleOrPattern;
use crate::rule_items::{RuleItem, are_listed, listed_named, names_listed};
use ir_event::types::refusal::Refusal;
use mlir_work_registry::registry::PatternRegistry;
use mlir_work_registry::rule_lists::next_name;
use std::alloc::{AllocError, Global};

/// Rules and user patterns in their order, with the names for a trace. A rule has an empty name.
#[derive(Drop)]
pub struct RuleList<'a> {
    pub candidates: Vec<RuleOrPattern<'a>>,
    pub names: Vec<Vec<u8>>,
}

/// Appends a resolved item.
fn add_item<'a>(
    alloc: Global,
    rule_list: &mut RuleList<'a>,
    item: &RuleItem<'a>,
) -> Result<(), AllocError>
    ensures { OnOk result ((ls : List Listed) → IsRuleListOf rule_list.old ls → IsRuleListOf rule_list.new (ls ++ listed_view item.now ∷ [])) }
{
    let name = Vec::from_slice(alloc, item.name)?;
    rule_list.names.push(name)?;
    rule_list.candidates.push(item.candidate)?;
    Ok(())
}

/// Parses a rule list. Returns `None` if an item names neither a rule nor a registered pattern.
///
/// Errors: `Memory`, only if each item can be resolved.
pub fn parse_rule_list<'a>(
    alloc: Global,
    registry: &'a PatternRegistry,
    list: &[u8],
) -> Result<Option<RuleList<'a>>, Refusal>
    ensures rule_list { IfOk result (λ found. IsRuleList found (all_listed (registry_model registry.now) (names_said list.now))) }
    ensures want { IfErr result (λ refusal. (refusal ≡ NoMemory)
        × (is_some (all_listed (registry_model registry.now) (names_said list.now)) ≡ true)) }
{
    if !are_listed(registry, list) {
        return Ok(None);
    }
    let mut rule_list = RuleList {
        candidates: Vec::new(alloc),
        names: Vec::new(alloc),
    };
    let mut names = names_listed(registry, list);
    'names: while let Some(name) = next_name(&mut names) {
        let Some(item) = listed_named(registry, &name) else {
            return Ok(None);
        };
        match add_item(alloc, &mut rule_list, &item) {
            Ok(()) => {}
            Err(_) => return Err(Refusal::Memory),
        }
    }
    Ok(Some(rule_list))
}
