//! Laws of contexts and facts. A law is a function without effect whose contract states a theorem.
ghost use Rattle.std.specs.Prelude.{◌≡◌, Bool, ℕ, List, Option, option_map, false, IsTrue};
ghost use Rattle.std.specs.Ordering.{nat_cmp};
ghost use Rattle.std.specs.FinMap.Entries.{is_sorted, find as look_up};
ghost use Rattle.ir_event.specs.types.Things.{ContextModel};
ghost use Rattle.ir_event.specs.types.Terms.{TypeTerm, AttrTerm, name_term, type_term, attr_term};
ghost use Rattle.ir_event.specs.trees.Tree.{Op};
ghost use Rattle.ir_event.specs.trees.Meaning.{Operation, meaning};
ghost use Rattle.ir_event.specs.declared.event.Event.{Event as Edit};
ghost use Rattle.ir_event.specs.Modules.{Module};
ghost use Rattle.ir_event.specs.Step.{Step};
ghost use Rattle.listeners_support.specs.Surroundings.{SurroundingsOf, surroundings};
ghost use Rattle.listeners_support.specs.Near.{near};
ghost use Rattle.listeners_support.specs.Facts.{is_one_of, kept_of, Keeps, Renewed, kept_facts};
ghost use Rattle.listeners_support.specs.Mapped.{map_surroundings};

/// An event leaves the context of each operation that isn't near it unchanged.
pub fn far_operations_keep_their_surroundings()
    ensures { (c : ContextModel) (e : Edit) (m n : Module) → Step c e m n → (y : ℕ) → is_one_of y (near e n.tree) ≡ false
        → surroundings y n.tree ≡ surroundings y m.tree }
{}

/// A table of facts that depend only on contexts keeps the facts of the module after an event, if the entries of the
/// operations near the event were updated.
pub fn renewed_tables_keep<F>()
    ensures { (fact : SurroundingsOf (List ℕ) TypeTerm AttrTerm → F) (is_kept : F → Bool) (c : ContextModel) (e : Edit)
        (m n : Module) (before after : ℕ → Option F)
        → Step c e m n → Keeps fact is_kept m.tree before
        → Renewed (kept_of fact is_kept n.tree) (near e n.tree) before after → Keeps fact is_kept n.tree after }
{}

/// A table ordered by id that keeps the facts of a tree has them in that order, so its rows are those of the tree.
pub fn kept_facts_are_in_order<F>()
    ensures { (fact : SurroundingsOf (List ℕ) TypeTerm AttrTerm → F) (is_kept : F → Bool) (t : Operation)
        (es : List (ℕ × F)) → IsTrue (is_sorted nat_cmp es) → Keeps fact is_kept t (λ q. look_up nat_cmp q es)
        → es ≡ kept_facts fact is_kept t }
{}

/// The contexts in the tree of terms are those in the tree of numbers with terms in place of numbers, and the
/// operations near an event are the same.
pub fn surroundings_have_a_meaning()
    ensures around { (c : ContextModel) (x : ℕ) (t : Op) → surroundings x (meaning c t)
        ≡ option_map (map_surroundings (name_term c) (type_term c) (attr_term c)) (surroundings x t) }
    ensures near { (c : ContextModel) (e : Edit) (t : Op) → near e (meaning c t) ≡ near e t }
{}
