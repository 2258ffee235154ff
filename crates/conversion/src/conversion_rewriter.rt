//! The interface between conversions and a rewriter with rules.
ghost use Rattle.std.specs.Prelude.{◌≡◌, ◌≢◌, [], false, true, OnOk, OnErr, IfErr, IfOk, IfSome};
ghost use Rattle.ir_event.specs.types.Words.{is_isolated};
ghost use Rattle.ir_event.specs.types.declared.refusal.Refusal.TheVariants.{Memory as NoMemory};
ghost use Rattle.ir_event.specs.trees.Ids.{has_id, ids};
ghost use Rattle.ir_event.specs.trees.WellFormed.{IsWellFormed};
ghost use Rattle.patterns.specs.rewriter.Held.{TransactionModel};
ghost use Rattle.patterns.specs.rewriter.Rolling.{Dropped};
ghost use Rattle.conversion_base.specs.Rewrites.{rewrite_of};
ghost use Rattle.conversion_base.specs.RuleNames.{is_converting};
ghost use Rattle.conversion_base.specs.Targets.{IsAimIn, IsNamedIn, target_model, is_accepted, is_legal};
ghost use Rattle.conversion_base.specs.Reconciling.{collapse, index_rewrite, is_cast};
ghost use Rattle.conversion_base.specs.Reasons.{reason_of};
ghost use Rattle.conversion.specs.Walks.{Gives};
ghost use Rattle.conversion.specs.States.{State, Answers, Committed, Leads, RolledBack, marked, marked_transaction};

use conversion_base::reason::Reason;
use conversion_base::rule::Rule;
use conversion_base::target::Target;
use ir_event::types::ids::OpId;
use ir_event::types::refusal::Refusal;
use std::alloc::Global;

/// A rewriter. A call that is refused leaves the module and the marks unchanged.
pub(crate) trait ConversionRewriter {
    /// The context, the module with terms, and the open marks.
    ghost state: { Self → State };

    /// The context, the module, the journal and the marks, with interned names, types and attributes.
    ghost transaction: { Self → TransactionModel };

    /// A reflexive and transitive relation that every call keeps. It describes what the listeners were notified of.
    ghost led: { Self → Self → Type 0 };

    ghost led_none: { (a : Self) → led a a };

    ghost led_more: { (a b c : Self) → led a b → led b c → led a c };

    /// Proves that the current module is well-formed.
    fn is_whole(&self)
        ensures { IsWellFormed is_isolated (state self.now).held };

    /// Returns the next free id.
    fn next_id(&self) -> u32
        ensures { result ≡ (state self.now).held.next };

    /// Returns whether `op` is in the module.
    fn in_tree(&self, op: OpId) -> bool
        ensures { result ≡ has_id op (state self.now).held.tree };

    /// Returns whether `target` is accepted.
    fn is_accepted(&self, target: &Target) -> bool
        requires { IsNamedIn (state self.now).things target.now }
        ensures { result ≡ is_accepted (target_model (state self.now).things target.now) };

    /// Returns whether `op` is legal for `target`.
    fn is_legal(&self, target: &Target, op: OpId) -> bool
        requires { IsAimIn (state self.now).things target.now }
        ensures { result ≡ is_legal (target_model (state self.now).things target.now) op (state self.now).held.tree };

    /// Returns the operations in pre-order.
    fn operations(&self) -> Result<Vec<OpId>, Refusal>
        ensures { IfOk result (λ v. v.items ≡ ids (state self.now).held.tree) };

    /// Returns whether `op` is an unrealized cast, which a conversion leaves between types.
    fn is_cast(&self, op: OpId) -> bool
        ensures { result ≡ is_cast op (state self.now).held.tree };

    /// Returns the defining operations of the operands of `op`, or `None` if there are operations inside `op`.
    fn defining_ops(&self, alloc: Global, op: OpId) -> Result<Option<Vec<OpId>>, Refusal>
        ensures { IfOk result (λ g. IfSome g (λ v. Gives v.items op (state self.now).held.tree)) };

    /// Erases `op` if it is a cast that is unused, or that casting back collapses. Returns whether it did.
    fn collapse(&mut self, alloc: Global, op: OpId) -> Result<bool, Refusal>
        ensures answers { Answers (collapse (state self.old).held op) result (state self.old) (state self.new) }
        ensures leads { Leads state transaction led self.old self.new };

    /// Replaces `op`, a cast between index and i64, with an `arith.index_cast`. Returns whether it did.
    fn cast_index(&mut self, alloc: Global, op: OpId) -> Result<bool, Refusal>
        ensures answers { Answers (index_rewrite (state self.old).held op) result (state self.old) (state self.new) }
        ensures leads { Leads state transaction led self.old self.new };

    /// Opens a mark that isn't counted. If no mark is open, the journal is empty.
    fn step(&mut self) -> Result<(), Refusal>
        ensures ok { OnOk result (state self.new ≡ marked (state self.old)) }
        ensures err { OnErr result (state self.new ≡ state self.old) }
        ensures opened { OnOk result (transaction self.new ≡ marked_transaction (transaction self.old)) }
        ensures left { OnErr result (transaction self.new ≡ transaction self.old) }
        ensures none { (transaction self.old).marks ≡ [] → (transaction self.old).journal ≡ [] }
        ensures refused { IfErr result (λ e. e ≡ NoMemory) }
        ensures led { led self.old self.new };

    /// Closes the newest mark, if a mark is open, and keeps the module.
    fn commit(&mut self)
        ensures committed { Committed (state self.old) (state self.new) }
        ensures dropped { (transaction self.old).marks ≢ [] → Dropped true (transaction self.old) (transaction self.new) }
        ensures led { led self.old self.new };

    /// Closes the newest mark, if a mark is open, and restores its module.
    fn rollback(&mut self)
        ensures rolled { RolledBack (state self.old) (state self.new) }
        ensures dropped { (transaction self.old).marks ≢ [] → Dropped false (transaction self.old) (transaction self.new) }
        ensures led { led self.old self.new };
}

/// A rewriter with the rules that a conversion may try.
pub(crate) trait RuleApplier: ConversionRewriter {
    /// Applies a rule at `op`. Returns whether the rule applied.
    fn apply_rule(&mut self, alloc: Global, rule: Rule, op: OpId) -> Result<bool, Refusal>
        requires { is_converting rule ≡ true }
        ensures answers { Answers (rewrite_of rule (Self.state self.old).held op) result (Self.state self.old)
            (Self.state self.new) }
        ensures leads { Leads Self.state Self.transaction Self.led self.old self.new };

    /// Returns the first condition of `rule` that doesn't hold at `op`, or `None` if the rule applies.
    fn reason(&self, alloc: Global, rule: Rule, op: OpId) -> Result<Option<Reason>, Refusal>
        ensures ok { IfOk result (λ c. c ≡ reason_of rule (Self.state self.now).held op) }
        ensures refused { IfErr result (λ e. e ≡ NoMemory) };
}
