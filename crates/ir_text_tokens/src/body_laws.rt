//! Theorems about bodies: a body is a prefix of its text, and reading it doesn't depend on the text after it.
ghost use Rattle.std.specs.Prelude.{◌≡◌, ◌++◌, ℕ, List, Some};
ghost use Rattle.ir_text_tokens.specs.Bodies.{body_at};

/// A body followed by the rest of the text is the whole text.
#[tactic(auto, using(crate::proofs::Again::stands_at_the_start))]
pub fn bodies_stand_at_the_start()
    ensures { (bytes b r : List ℕ) → body_at bytes ≡ Some (b, r) → bytes ≡ b ++ r }
{}

/// A body is read again, with the same end, whatever text follows it.
#[tactic(auto, using(crate::proofs::Again::reads_again))]
pub fn bodies_read_again()
    ensures { (bytes b r rest : List ℕ) → body_at bytes ≡ Some (b, r) → body_at (b ++ rest) ≡ Some (b, rest) }
{}
