//! Theorems about the definitions of the rules. Each is a function that does nothing; its contract states the theorem.
ghost use Rattle.std.specs.Prelude.{◌≡◌, Some};
ghost use Rattle.patterns_base.specs.declared.rule.Rule.{Rule};
ghost use Rattle.patterns_base.specs.RuleNames.{by_number, by_word, number_of, word_of};
ghost use Rattle.patterns_base.specs.Rules.{OnlyListed};
ghost use Rattle.patterns_base.specs.Rewrites.{ConvertingRulesMake};
ghost use Rattle.patterns_base.specs.Canonicalization.{TableSuffices};

/// Two different rules have different numbers and different words.
pub fn rules_are_distinct()
    ensures numbers { (r : Rule) → by_number (number_of r) ≡ Some r }
    ensures words { (r : Rule) → by_word (word_of r) ≡ Some r }
{}

/// Only rules that the table lists for its name apply at an operation. The first listed rule that applies is the
/// highest-priority rule of all that apply.
pub fn only_listed_rules_apply()
    ensures applies { OnlyListed }
    ensures highest_rule { TableSuffices }
{}

/// If a rule that a conversion may try applies, it makes an operation.
pub fn converting_rules_make()
    ensures { ConvertingRulesMake }
{}
