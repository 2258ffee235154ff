//! The interface between the driver and a rewriter with rules.
ghost use Rattle.std.specs.Prelude.{◌≡◌, ◌≢◌, ◌<◌, ◌≤◌, All, IfOk, IfErr, OnErr, OnOk, IfSome, IfNone, is_some, ◌⊎◌, [], ◌∷◌};
ghost use Rattle.std.specs.Prelude.{List, ℕ, true, false};
ghost use Rattle.ir_event.specs.types.declared.refusal.Refusal.TheVariants.{Memory as NoMemory};
ghost use Rattle.ir_event.specs.trees.Ids.{HasDistinctIds, has_id, ids};
ghost use Rattle.ir_event.specs.trees.Tree.{head};
ghost use Rattle.ir_event.specs.tree_laws.Reads.{precedes};
ghost use Rattle.ir_event.specs.Modules.{Module};
ghost use Rattle.rewriter_machine.specs.Machine.{OpenMark};
ghost use Rattle.patterns.specs.rewriter.Held.{TransactionModel};
ghost use Rattle.patterns.specs.rewriter.Rolling.{Dropped};
ghost use Rattle.patterns.specs.runs.Runs.{Noted};
ghost use Rattle.greedy.specs.Noting.{marked};
ghost use Rattle.greedy.specs.Outcomes.{Applied, Refuses};
ghost use Rattle.greedy.specs.Following.{following};
ghost use Rattle.greedy.specs.Orders.{IsBeyond};
ghost use Rattle.greedy.specs.Listing.{TouchedUpTo};
ghost use Rattle.greedy.specs.Ruled.{MayTry, model_of};

use crate::applied_rewrite::AppliedPattern;
use crate::pattern_set::Entries;
use ir_event::types::ids::OpId;
use ir_event::types::refusal::Refusal;
use std::alloc::Global;

/// A rewriter that can apply rules and user patterns.
pub trait GreedyRewriter {
    /// The current module.
    ghost held: { Self → Module };

    /// The open marks, newest first.
    ghost marks: { Self → List OpenMark };

    /// The number of events in the journal.
    ghost events: { Self → ℕ };

    /// The module before the events of the journal from an index on.
    ghost before: { Self → ℕ → Module };

    /// The context, the module, the journal and the marks, with interned names, types and attributes.
    ghost transaction: { Self → TransactionModel };

    /// Says that the ids of a module are distinct and less than the next free id.
    ghost wellformed: { Module → Type 0 };

    ghost distinct: { (m : Module) → wellformed m → HasDistinctIds m.tree };

    ghost below: { (m : Module) → wellformed m → All (λ y. y < m.next) (ids m.tree) };

    /// An extra relation that each call keeps between the old and the new state. For a rewriter, the relation says
    /// that the listeners were notified of every event between the two modules.
    ghost onward: { Self → Self → Type 0 };

    ghost stays: { (b : Self) → onward b b };

    ghost through: { (a b d : Self) → onward a b → onward b d → onward a d };

    /// Says that no more names, types or attributes can be interned. Once true, this stays true.
    ghost full: { Self → Type 0 };

    ghost stays_full: { (a b : Self) → onward a b → full a → full b };

    /// Proves that the current module satisfies `formed`. It does nothing.
    fn is_wellformed(&self)
        ensures { wellformed (held self.now) };

    /// Returns the root operation.
    fn root(&self) -> OpId
        ensures { result ≡ (head (held self.now).tree).id };

    /// Returns whether an operation is in the module.
    fn in_tree(&self, op: OpId) -> bool
        ensures { result ≡ has_id op (held self.now).tree };

    /// Returns whether `op` comes before `other` in pre-order.
    fn precedes(&self, op: OpId, other: OpId) -> bool
        ensures { result ≡ precedes op other (held self.now).tree };

    /// Returns whether `other` comes after `op` and everything inside `op` in pre-order.
    fn is_beyond(&self, op: OpId, other: OpId) -> bool
        ensures { result ≡ true → IsBeyond op other (held self.now).tree };

    /// Returns the next operation in pre-order, or `None` if `op` is the last.
    fn following(&self, op: OpId) -> Option<OpId>
        requires { has_id op (held self.now).tree ≡ true }
        ensures { result ≡ following op (held self.now).tree };

    /// Returns an operation close before `op` in pre-order, or `None` if `op` is the root.
    fn preceding(&self, op: OpId) -> Option<OpId>
        requires { has_id op (held self.now).tree ≡ true }
        ensures some { IfSome result (λ p. precedes p op (held self.now).tree ≡ true) }
        ensures none { IfNone result (op ≡ (head (held self.now).tree).id) };

    /// Returns the number of events in the journal.
    fn journal_len(&self) -> usize
        ensures { result ≡ events self.now };

    /// Returns the next free id.
    fn next_id(&self) -> u32
        ensures { result ≡ (held self.now).next };

    /// Applies the first of some rules and user patterns that applies at an operation. Returns the applied entry, or
    /// `None` if none applies.
    fn apply_first(
        &mut self,
        alloc: Global,
        entries: &Entries<'_>,
        op: OpId,
    ) -> Result<Option<AppliedPattern>, Refusal>
        requires there { has_id op (held self.old).tree ≡ true }
        requires may { MayTry entries.now }
        ensures ok { IfOk result
            (λ r. Applied ((model_of entries.now).comes (held self.old) op) (is_some r) (held self.old) (held self.new)) }
        ensures applied { IfOk result (λ r. r ≡ (model_of entries.now).fires (held self.old) op) }
        ensures err { OnErr result (held self.new ≡ held self.old) }
        ensures refused { IfErr result
            (λ e. Refuses ((model_of entries.now).comes (held self.old) op) (full self.new) e) }
        ensures noted { OnOk result
            (marks self.old ≢ [] → (events self.old ≤ events self.new)
            × (before self.new (events self.old) ≡ held self.old)) }
        ensures marks { marks self.new ≡ marks self.old }
        ensures journal { Noted (transaction self.old) (transaction self.new) }
        ensures onward { onward self.old self.new };

    /// Replaces `ops` with every operation, up to `passed` in pre-order, at which a rule may apply differently than
    /// before the events of the journal from index `from` on. The list may hold other operations too.
    fn touched(&self, from: usize, passed: OpId, ops: &mut Vec<OpId>) -> Result<(), Refusal>
        requires { from ≤ events self.now }
        ensures ok { OnOk result (TouchedUpTo passed (before self.now from) (held self.now) ops.new.items) }
        ensures refused { IfErr result (λ e. e ≡ NoMemory) };

    /// Opens a mark that isn't counted. If no mark is open, the journal is empty.
    fn step(&mut self) -> Result<(), Refusal>
        ensures ok { OnOk result
            (marks self.new ≡ record { marked = held self.old; counted = false } ∷ marks self.old) }
        ensures held { held self.new ≡ held self.old }
        ensures err { OnErr result (marks self.new ≡ marks self.old) }
        ensures opened { OnOk result (transaction self.new ≡ marked (transaction self.old)) }
        ensures left { OnErr result (transaction self.new ≡ transaction self.old) }
        ensures none { (transaction self.old).marks ≡ [] → (transaction self.old).journal ≡ [] }
        ensures refused { IfErr result (λ e. e ≡ NoMemory) }
        ensures onward { onward self.old self.new };

    /// Closes the newest mark, if a mark is open.
    fn commit(&mut self)
        ensures held { held self.new ≡ held self.old }
        ensures marks { (k : OpenMark) (ks : List OpenMark) → marks self.old ≡ k ∷ ks → marks self.new ≡ ks }
        ensures dropped { (transaction self.old).marks ≢ [] → Dropped true (transaction self.old) (transaction self.new) }
        ensures onward { onward self.old self.new };

    /// Closes the newest mark and restores its module, if a mark is open.
    fn rollback(&mut self)
        ensures marks { (k : OpenMark) (ks : List OpenMark) → marks self.old ≡ k ∷ ks
            → (marks self.new ≡ ks) × (held self.new ≡ k.marked) }
        ensures dropped { (transaction self.old).marks ≢ [] → Dropped false (transaction self.old) (transaction self.new) }
        ensures onward { onward self.old self.new };
}
