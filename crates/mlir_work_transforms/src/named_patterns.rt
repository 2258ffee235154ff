//! Looks up registered patterns by the rule names of a command.
ghost use Rattle.std.specs.Prelude.{◌≡◌, is_some, option_map};
ghost use Rattle.mlir_work_script_base.specs.RuleNames.{name_of};
ghost use Rattle.mlir_work_registry.specs.Registry.{registry_model, kept_view};
ghost use Rattle.mlir_work_registry.specs.RuleLists.{names_of};
ghost use Rattle.mlir_work_transforms.specs.RuleLists.{names_user_pattern, pattern_named};

use mlir_work_registry::registry::{PatternRegistry, RegisteredPattern, find};
use mlir_work_registry::rule_lists::{names_in, next_name};
use mlir_work_script_base::rule_name::RuleName;

/// Returns the registered pattern with this name, or `None`. A rule number never names a pattern.
pub fn find_pattern<'a>(
    registry: &'a PatternRegistry,
    name: &RuleName<'_>,
) -> Option<&'a RegisteredPattern>
    ensures { option_map (λ h. kept_view h.now) result ≡ pattern_named (name_of name.now) (registry_model registry.now) }
{
    match name {
        RuleName::Number(_) => None,
        RuleName::Word(word) => find(registry, word),
    }
}

/// Returns whether a rule name is that of a registered pattern.
fn is_registered_pattern(registry: &PatternRegistry, name: &RuleName<'_>) -> bool
    ensures { result ≡ is_some (pattern_named (name_of name.now) (registry_model registry.now)) }
{
    find_pattern(registry, name).is_some()
}

/// Returns whether a list has the name of a registered pattern.
pub fn names_pattern(registry: &PatternRegistry, list: &[u8]) -> bool
    ensures { result ≡ names_user_pattern (registry_model registry.now) (names_of list.now) }
{
    let mut names = names_in(list, true);
    'names: while let Some(name) = next_name(&mut names) {
        if is_registered_pattern(registry, &name) {
            return true;
        }
    }
    false
}
