//! Theorems about the bits of integers and the numbers that they represent, at every width.
ghost use Rattle.std.specs.Prelude.{◌≡◌, ◌<◌, ◌≤◌, ◌^◌, ◌↔◌, ℕ, ℤ, pos, Bool, true, Some, int_lt, unsigned_abs};
ghost use Rattle.ir_types.specs.Terms.{TypeTerm};
ghost use Rattle.ir_types.specs.Ranges.{is_literal, is_signed_number, is_value_number};
ghost use Rattle.ir_types.specs.Readings.{IsSameModulo, is_bits_of, literal_bits, literal_number, reading_of, signed_of, type_width, wrapped};

/// The number that bits represent has these bits.
pub fn bits_come_back()
    ensures signed { (w bits : ℕ) → 1 ≤ w → bits < 2 ^ w → wrapped w (signed_of w bits) ≡ bits }
    ensures unsigned { (w bits : ℕ) → bits < 2 ^ w → wrapped w (pos bits) ≡ bits }
    ensures ty { (ty : TypeTerm) (bits : ℕ) → 1 ≤ type_width ty → is_bits_of ty bits ≡ true → wrapped (type_width ty) (reading_of ty bits) ≡ bits }
{}

/// The bits of a number in the printed range of a type represent that number.
pub fn numbers_come_back()
    ensures signed { (w : ℕ) (number : ℤ) → 1 ≤ w → is_signed_number w number ≡ true → signed_of w (wrapped w number) ≡ number }
    ensures ty { (ty : TypeTerm) (number : ℤ) → 1 ≤ type_width ty → is_value_number ty number ≡ true → reading_of ty (wrapped (type_width ty) number) ≡ number }
{}

/// Bits are below 2^w, also those of literals, and represent numbers in the printed range.
pub fn bits_have_a_range()
    ensures wrapped { (w : ℕ) (number : ℤ) → wrapped w number < 2 ^ w }
    ensures literal { (ty : TypeTerm) (negative : Bool) (magnitude bits : ℕ) → literal_bits ty negative magnitude ≡ Some bits → is_bits_of ty bits ≡ true }
    ensures signed { (w bits : ℕ) → 1 ≤ w → bits < 2 ^ w → is_signed_number w (signed_of w bits) ≡ true }
    ensures ty { (ty : TypeTerm) (bits : ℕ) → 1 ≤ type_width ty → is_bits_of ty bits ≡ true → is_value_number ty (reading_of ty bits) ≡ true }
{}

/// Two numbers have the same bits exactly if they differ by a multiple of 2^w. So do two literals of one type.
pub fn same_bits()
    ensures number { (w : ℕ) (a b : ℤ) → (wrapped w a ≡ wrapped w b) ↔ IsSameModulo (2 ^ w) a b }
    ensures literal { (ty : TypeTerm) (n k : Bool) (a b : ℕ) → is_literal ty n a ≡ true → is_literal ty k b ≡ true → (literal_bits ty n a ≡ literal_bits ty k b) ↔ IsSameModulo (2 ^ type_width ty) (literal_number n a) (literal_number k b) }
{}

/// The number that bits represent is a literal with these bits.
pub fn printed_is_read()
    ensures number { (number : ℤ) → literal_number (int_lt number (pos 0)) (unsigned_abs number) ≡ number }
    ensures bits { (ty : TypeTerm) (bits : ℕ) → 1 ≤ type_width ty → is_bits_of ty bits ≡ true → literal_bits ty (int_lt (reading_of ty bits) (pos 0)) (unsigned_abs (reading_of ty bits)) ≡ Some bits }
{}
