//! Theorems about conversion, and about the reasons why a rule doesn't apply. Each is a function that does nothing; its contract states the theorem.
ghost use Rattle.std.specs.Prelude.{◌≡◌, ◌<◌, ℕ, List, true};
ghost use Rattle.std.specs.List.{list_all};
ghost use Rattle.ir_event.specs.types.Words.{is_isolated};
ghost use Rattle.ir_event.specs.trees.Ids.{ids, op_count};
ghost use Rattle.ir_event.specs.trees.WellFormed.{IsWellFormed};
ghost use Rattle.ir_event.specs.Modules.{Module};
ghost use Rattle.patterns_base.specs.Rewrites.{becomes, none};
ghost use Rattle.conversion_base.specs.Conversion.{casts_left, conversion_of, converted, has_no_cast};
ghost use Rattle.conversion_base.specs.Reasons.{NoReasonWhereRulesApply, ReportedReasonsHold};
ghost use Rattle.conversion_base.specs.Reconciling.{all_collapsed, collapse, next_collapse};
ghost use Rattle.conversion_base.specs.Targets.{Aim, is_legal};
ghost use Rattle.conversion_base.specs.declared.applied_rule.AppliedRule.{AppliedRule};

/// Each step that erases or collapses a cast makes the module smaller. So as many steps as there are operations are
/// enough, and after them every cast is used and none collapses.
pub fn none_is_left()
    ensures falls { (m n : Module) (x : ℕ) → collapse m x ≡ becomes n → op_count n.tree < op_count m.tree }
    ensures none { (m n : Module) → all_collapsed m ≡ becomes n → next_collapse n ≡ none }
{}

/// If all casts of a well-formed module were replaced, no cast is left.
pub fn no_cast_is_left()
    ensures { (m n : Module) (ks : List AppliedRule) → IsWellFormed is_isolated m → casts_left m ≡ converted n ks
        → has_no_cast n.tree ≡ true }
{}

/// After a full conversion every operation is legal.
pub fn full_conversions_are_legal()
    ensures { (g : Aim) (m n : Module) (ks : List AppliedRule) → g.full ≡ true → conversion_of g m ≡ converted n ks
        → list_all (λ x. is_legal g x n.tree) (ids n.tree) ≡ true }
{}

/// There is no reason why a rule doesn't apply exactly if the rule applies. A reported reason is a condition of the rule
/// that doesn't hold.
pub fn reported_reasons_hold()
    ensures applies { NoReasonWhereRulesApply }
    ensures fails { ReportedReasonsHold }
{}
