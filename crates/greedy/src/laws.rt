//! Theorems about the driver. Each is a function that does nothing; its contract states the theorem.
ghost use Rattle.greedy.specs.Orders.{RewritesAreOrderly, RootHasNone};
ghost use Rattle.std.specs.Prelude.{◌≡◌, ℕ, List, drop, true, false};
ghost use Rattle.ir_event.specs.types.Things.{ContextModel};
ghost use Rattle.ir_event.specs.declared.event.Event.{Event as Edit};
ghost use Rattle.ir_event.specs.Modules.{Module, module_meaning};
ghost use Rattle.ir_event.specs.Step.{Step, Steps};
ghost use Rattle.listeners_support.specs.Surroundings.{surroundings};
ghost use Rattle.ir_event.specs.trees.declared.value.Value.{Value};
ghost use Rattle.ir_event.specs.trees.Ids.{HasDistinctIds};
ghost use Rattle.ir_event.specs.store.Stored.{Stored};
ghost use Rattle.rewriter_machine.specs.Journals.{IsJournal, before};
ghost use Rattle.greedy.specs.Listing.{Lists, Touched};
ghost use Rattle.greedy.specs.Near.{Leads};
ghost use Rattle.greedy.specs.Reached.{any_reaches, ends, reaches};
ghost use Rattle.greedy.specs.Shown.{shown_operands};
ghost use Rattle.greedy.specs.Rewriting.{IsOfItsRules};
ghost use Rattle.greedy.specs.Tracing.{TraceIsCounted};
ghost use Rattle.greedy.specs.LocalContext.{ListsAround, ListsSeers, end_dominance, is_listed, local_context};

/// Rewriting with the rules of canonicalization, in the order of their numbers, is canonicalization.
pub fn rewriting_by_its_rules_is_canonicalization()
    ensures { IsOfItsRules }
{}

/// A trace has as many entries as the run made rewrites.
pub fn each_rewrite_is_traced()
    ensures { TraceIsCounted }
{}

/// The highest-priority rule of canonicalization that applies at an operation keeps all operations before that
/// operation, and the remaining operations keep their order. No rule applies at the root.
pub fn rewrites_are_orderly()
    ensures orderly { RewritesAreOrderly }
    ensures root { RootHasNone }
{}

/// Events don't change the surroundings of an operation that none of them reaches. The module after all events
/// determines which operations they reach.
pub fn events_leave_what_they_do_not_reach()
    ensures one { (c : ContextModel) (e : Edit) (m n : Module) → Step c e m n → (y : ℕ) → reaches e y n.tree ≡ false
        → surroundings y n.tree ≡ surroundings y m.tree }
    ensures all { (c : ContextModel) (es : List Edit) (m n : Module) → Steps c es m n → (y : ℕ)
        → any_reaches es y n.tree ≡ false
        → surroundings y n.tree ≡ surroundings y m.tree }
{}

/// A rule reads the same at each operation that isn't listed, if the list holds every operation that an event reaches,
/// its users, and their users.
pub fn unlisted_operations_see_the_same()
    ensures { (c : ContextModel) (es : List Edit) (m n : Module) (listed : List ℕ) → Steps c es m n
        → ListsSeers (λ y. any_reaches es y n.tree) listed n.tree → (x : ℕ) → is_listed x listed ≡ false
        → local_context x n.tree ≡ local_context x m.tree }
{}

/// An operation that ends a block of an unlisted operation ended a block of that operation before, and rules read the
/// same at it. The list must hold the parent of each block end that an event reaches or that uses a reached operation.
pub fn unlisted_operations_keep_their_ends()
    ensures { (c : ContextModel) (es : List Edit) (m n : Module) (listed : List ℕ) → Steps c es m n
        → ListsAround (λ y. any_reaches es y n.tree) listed n.tree → (x : ℕ) → is_listed x listed ≡ false
        → (l : ℕ) → ends x l n.tree ≡ true
        → (ends x l m.tree ≡ true) × (end_dominance l n.tree ≡ end_dominance l m.tree) }
{}

/// Each rule of canonicalization applies at an unlisted operation exactly if it applied there before the events. The
/// list must hold everything that `Lists` requires.
pub fn rules_apply_alike_at_unlisted_operations()
    ensures { (shown : ℕ → List Value) (c : ContextModel) (es : List Edit) (m n : Module) (listed : List ℕ)
        → Leads shown c es m n → HasDistinctIds n.tree → Lists shown es listed n.tree → Touched m n listed }
{}

/// The events of a journal from an index on lead to the module of its store. Each operation that the events took out
/// still shows its operands in the store.
pub fn journals_lead()
    ensures { (c : ContextModel) (es : List Edit) (s : Stored) → IsJournal c es s → (k : ℕ)
        → Leads (shown_operands s) c (drop k es) (before c (drop k es) s) (module_meaning c s.module_of) }
{}
