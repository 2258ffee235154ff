//! Theorems: what an expansion keeps.
ghost use Rattle.std.specs.Prelude.{◌≡◌, ◌<◌, ℕ, List, false, get_or, length};
ghost use Rattle.ir_text_modules.specs.Expanded.{expanded, place_in};
ghost use Rattle.ir_text_modules.specs.Marks.{is_rendered};
ghost use Rattle.ir_text_modules.specs.Stays.{as_it_is, has_more};

/// A text with no definition and no word `loc` outside strings is its own expansion, even if it has text that looks
/// like an alias.
#[tactic(auto, using(crate::proofs::Stays::stays))]
pub fn texts_without_definitions_stay()
    ensures { (bytes : List ℕ) → has_more 0 bytes ≡ false → expanded bytes ≡ as_it_is bytes }
{}

/// A byte of an expansion outside all replacements equals the byte of the text at its origin.
#[tactic(auto, using(crate::proofs::Keeping::comes_from_there))]
pub fn bytes_come_from_the_text()
    ensures { (bytes : List ℕ) (at : ℕ) → at < length (expanded bytes).text → is_rendered (expanded bytes).marks at ≡ false → get_or (expanded bytes).text at 0 ≡ get_or bytes (place_in (length bytes) (expanded bytes) at) 0 }
{}
