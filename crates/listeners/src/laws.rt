//! A law of unreached private symbols. A law is a function without effect whose contract states a theorem.
ghost use Rattle.std.specs.Prelude.{◌≡◌, ℕ, true};
ghost use Rattle.ir_event.specs.trees.Meaning.{Operation};
ghost use Rattle.ir_event.specs.tree_laws.Members.{In};
ghost use Rattle.listeners.specs.Unreached.{Reached, is_definition, unreached_of};

/// The listed operations are the private definitions that aren't in the least set of reached ones.
pub fn the_others_are_the_least_set()
    ensures out { (t : Operation) (x : ℕ) → In x (unreached_of t) → (is_definition t x ≡ true) × (Reached t x → ⊥) }
    ensures in_it { (t : Operation) (x : ℕ) → is_definition t x ≡ true → (In x (unreached_of t) → ⊥) → Reached t x }
{}
