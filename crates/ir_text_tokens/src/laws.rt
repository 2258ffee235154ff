//! Theorems: a token that is read is a prefix of the text, and a token that is printed is read again, if the text
//! after it doesn't extend the token.
ghost use Rattle.std.specs.Prelude.{◌≡◌, ◌++◌, ◌∷◌, ◌<◌, ◌^◌, ℕ, List, Some, true, false};
ghost use Rattle.std.specs.Fmt.{decimal};
ghost use Rattle.ir_text_tokens.specs.Bytes.{is_blank, is_suffix, is_word};
ghost use Rattle.ir_text_tokens.specs.Strings.{string_bytes};
ghost use Rattle.ir_text_tokens.specs.Tokens.{Lexeme, bare, hash, integer, label, mark, next, quoted, skip, string, symbol, value};
ghost use Rattle.ir_text_tokens.specs.Numbers.{integer_of};
ghost use Rattle.ir_text_tokens.specs.Printing.{AreBytes, ClosesMark, IsWhole, Stops, extends_integer, is_bare_id, is_suffix_id, key_text, lexeme_text, mark_text, signed_text, raw_text, string_text, symbol_text};
ghost use Rattle.ir_text_tokens.specs.declared.token.Mark.{Mark};

/// After blanks and comments, the text is the token that is read, followed by the rest. The lexer skips nothing else.
pub fn tokens_stand_at_the_start()
    ensures { (bytes rest : List ℕ) (t : Lexeme) → next bytes ≡ Some (t, rest) → skip bytes ≡ lexeme_text t ++ rest }
{}

/// An identifier that is read is a valid identifier of its kind, and the longest one at that place.
pub fn identifiers_are_whole()
    ensures { (bytes rest : List ℕ) (t : Lexeme) → next bytes ≡ Some (t, rest) → IsWhole t rest }
{}

/// A printed string is read as one string token with the same bytes, whatever text follows it.
pub fn strings_read_back()
    ensures token { (v rest : List ℕ) → AreBytes v → next (string_text v ++ rest) ≡ Some (string (raw_text v), rest) }
    ensures value { (v : List ℕ) → AreBytes v → string_bytes (raw_text v) ≡ v }
{}

/// A printed number is read as one integer token with the same value, after a minus sign if it is negative. The text
/// after it must not begin with a digit, a dot or `x`.
pub fn numbers_read_back()
    ensures token { (n : ℕ) (rest : List ℕ) → n < 2 ^ 128 → Stops extends_integer rest → next (signed_text false n ++ rest) ≡ Some (integer (decimal n), rest) }
    ensures minus { (n : ℕ) (rest : List ℕ) → n < 2 ^ 128 → next (signed_text true n ++ rest) ≡ Some (mark Mark.Minus, signed_text false n ++ rest) }
    ensures value { (n : ℕ) → n < 2 ^ 128 → integer_of (decimal n) ≡ n }
{}

/// A bare identifier is read as one token, if the next byte can't extend it.
pub fn bare_ids_read_back()
    ensures { (w rest : List ℕ) → is_bare_id w ≡ true → Stops is_word rest → next (w ++ rest) ≡ Some (bare w, rest) }
{}

/// A sigil and a suffix identifier are read as one token, if the next byte can't extend it. A decimal number is a
/// suffix identifier.
pub fn names_read_back()
    ensures value { (w rest : List ℕ) → is_suffix_id w ≡ true → Stops is_suffix rest → next (37 ∷ (w ++ rest)) ≡ Some (value w, rest) }
    ensures label { (w rest : List ℕ) → is_suffix_id w ≡ true → Stops is_suffix rest → next (94 ∷ (w ++ rest)) ≡ Some (label w, rest) }
    ensures hash { (w rest : List ℕ) → is_suffix_id w ≡ true → Stops is_suffix rest → next (35 ∷ (w ++ rest)) ≡ Some (hash w, rest) }
    ensures decimal { (n : ℕ) → n < 2 ^ 128 → is_suffix_id (decimal n) ≡ true }
{}

/// A printed key is read as one token: a bare identifier if it is one, otherwise a string.
pub fn keys_read_back()
    ensures bare { (v rest : List ℕ) → is_bare_id v ≡ true → Stops is_word rest → next (key_text v ++ rest) ≡ Some (bare v, rest) }
    ensures string { (v rest : List ℕ) → is_bare_id v ≡ false → AreBytes v → next (key_text v ++ rest) ≡ Some (string (raw_text v), rest) }
{}

/// A printed symbol is read as one token: bare if its name is a bare identifier, otherwise quoted.
pub fn symbols_read_back()
    ensures bare { (v rest : List ℕ) → is_bare_id v ≡ true → Stops is_suffix rest → next (symbol_text v ++ rest) ≡ Some (symbol v, rest) }
    ensures quoted { (v rest : List ℕ) → is_bare_id v ≡ false → AreBytes v → next (symbol_text v ++ rest) ≡ Some (quoted (raw_text v), rest) }
{}

/// A punctuation mark is read as one token, if the next byte doesn't make it a longer one.
pub fn marks_read_back()
    ensures { (m : Mark) (rest : List ℕ) → ClosesMark m rest → next (mark_text m ++ rest) ≡ Some (mark m, rest) }
{}

/// The lexer skips a blank before a token.
pub fn blanks_are_passed_over()
    ensures { (b : ℕ) (rest : List ℕ) → is_blank b ≡ true → next (b ∷ rest) ≡ next rest }
{}
