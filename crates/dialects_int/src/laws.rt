//! Theorems of arithmetic, which say that a rewrite keeps a value. They hold at every width, for all values of that
//! width.
ghost use Rattle.std.specs.Prelude.{◌≡◌, ◌<◌, ◌≤◌, ◌^◌, ℕ, Some, true, false, bit_xor};
ghost use Rattle.dialects_int.specs.declared.operations.Arithmetic.{Arithmetic};
ghost use Rattle.dialects_int.specs.declared.operations.Predicate.{Predicate};
ghost use Rattle.dialects_int.specs.declared.operations.Arithmetic.TheVariants as op;
ghost use Rattle.dialects_int.specs.declared.operations.Predicate.TheVariants as asks;
ghost use Rattle.dialects_int.specs.Arithmetic.{value_of, absorbs, all_ones, sum_of, difference_of, product_of, comparison_of, signed_maximum_of, maximum_of, signed_minimum_of, minimum_of, quotient_of, remainder_of, signed_quotient_of, signed_remainder_of, sign_extended, zero_extended, truncated, truth, choice_of};
ghost use Rattle.dialects_int.specs.Laws.{commutes, associates, ignores_zero, ignores_one, keeps_itself, mirrored, holds_of_itself};

/// Some operations are commutative.
pub fn operands_swap()
    ensures { (o : Arithmetic) (w a b : ℕ) → 1 ≤ w → a < 2 ^ w → b < 2 ^ w → commutes o ≡ true → value_of o w a b ≡ value_of o w b a }
{}

/// Some operations are associative.
pub fn brackets_move()
    ensures { (o : Arithmetic) (w a b c ab bc : ℕ) → associates o ≡ true → value_of o w a b ≡ Some ab → value_of o w b c ≡ Some bc → value_of o w ab c ≡ value_of o w a bc }
{}

/// Neutral operands: 0, 1 and all ones.
pub fn neutral_operands()
    ensures zero { (o : Arithmetic) (w a : ℕ) → 1 ≤ w → a < 2 ^ w → ignores_zero o ≡ true → value_of o w a 0 ≡ Some a }
    ensures one { (o : Arithmetic) (w a v : ℕ) → 1 ≤ w → a < 2 ^ w → ignores_one o ≡ true → value_of o w a 1 ≡ Some v → v ≡ a }
    ensures ones { (w a : ℕ) → a < 2 ^ w → value_of op.And w a (all_ones w) ≡ Some a }
{}

/// Absorbing operands, which determine the result: 0 and all ones.
pub fn absorbing_operands()
    ensures left { (o : Arithmetic) (w a b : ℕ) → b < 2 ^ w → absorbs o w a ≡ true → value_of o w a b ≡ Some a }
    ensures right { (o : Arithmetic) (w a b : ℕ) → a < 2 ^ w → absorbs o w b ≡ true → value_of o w a b ≡ Some b }
{}

/// Operations on two equal operands.
pub fn equal_operands()
    ensures kept { (o : Arithmetic) (w a : ℕ) → keeps_itself o ≡ true → value_of o w a a ≡ Some a }
    ensures difference { (w a : ℕ) → value_of op.Subtract w a a ≡ Some 0 }
    ensures exclusive { (w a : ℕ) → value_of op.ExclusiveOr w a a ≡ Some 0 }
{}

/// A remainder by 1 is 0.
pub fn remainders_by_one()
    ensures signed { (w a v : ℕ) → 1 ≤ w → a < 2 ^ w → value_of op.RemainderSigned w a 1 ≡ Some v → v ≡ 0 }
    ensures unsigned { (w a : ℕ) → value_of op.RemainderUnsigned w a 1 ≡ Some 0 }
{}

/// A difference as a sum: with the negation of a constant, or with the complement and 1.
pub fn differences_are_sums()
    ensures negation { (w a c : ℕ) → c < 2 ^ w → difference_of w a c ≡ sum_of w a (difference_of w 0 c) }
    ensures complement { (w a b : ℕ) → b < 2 ^ w → difference_of w a b ≡ sum_of w a (sum_of w (bit_xor b (all_ones w)) 1) }
{}

/// The complement of the complement is the value.
pub fn complement_twice()
    ensures { (w b : ℕ) → b < 2 ^ w → bit_xor (bit_xor b (all_ones w)) (all_ones w) ≡ b }
{}

/// A remainder by a quotient, a product and a difference.
pub fn remainders_by_division()
    ensures signed { (w a b q : ℕ) → 1 ≤ w → a < 2 ^ w → b < 2 ^ w → signed_quotient_of w a b ≡ Some q → signed_remainder_of w a b ≡ Some (difference_of w a (product_of w q b)) }
    ensures unsigned { (w a b q : ℕ) → a < 2 ^ w → quotient_of a b ≡ Some q → remainder_of a b ≡ Some (difference_of w a (product_of w q b)) }
{}

/// A comparison of swapped operands, by the mirrored predicate, has the same result.
pub fn comparisons_mirror()
    ensures { (p : Predicate) (w a b : ℕ) → comparison_of w p a b ≡ comparison_of w (mirrored p) b a }
{}

/// Comparisons with the same result for all values.
pub fn comparisons_known()
    ensures itself { (p : Predicate) (w a : ℕ) → comparison_of w p a a ≡ holds_of_itself p }
    ensures below_zero { (w a : ℕ) → comparison_of w asks.UnsignedLess a 0 ≡ false }
    ensures not_below_zero { (w a : ℕ) → comparison_of w asks.UnsignedGreaterOrEqual a 0 ≡ true }
{}

/// The maximum and the minimum of two values by a comparison and a select.
pub fn extremes_by_choice()
    ensures signed_maximum { (w a b : ℕ) → 1 ≤ w → a < 2 ^ w → b < 2 ^ w → signed_maximum_of w a b ≡ choice_of (truth (comparison_of w asks.SignedGreater a b)) a b }
    ensures maximum { (w a b : ℕ) → maximum_of a b ≡ choice_of (truth (comparison_of w asks.UnsignedGreater a b)) a b }
    ensures signed_minimum { (w a b : ℕ) → 1 ≤ w → a < 2 ^ w → b < 2 ^ w → signed_minimum_of w a b ≡ choice_of (truth (comparison_of w asks.SignedLess a b)) a b }
    ensures minimum { (w a b : ℕ) → minimum_of a b ≡ choice_of (truth (comparison_of w asks.UnsignedLess a b)) a b }
{}

/// Selects of equal operands, of the condition itself, and by the complement.
pub fn choices()
    ensures same { (c a : ℕ) → choice_of c a a ≡ a }
    ensures itself { (c : ℕ) → c < 2 ^ 1 → choice_of c 1 0 ≡ c }
    ensures complement { (c a b : ℕ) → c < 2 ^ 1 → choice_of (bit_xor c (all_ones 1)) a b ≡ choice_of c b a }
{}

/// Two extensions equal one.
pub fn extensions_collapse()
    ensures signed { (u v w a : ℕ) → 1 ≤ u → u ≤ v → a < 2 ^ u → sign_extended v w (sign_extended u v a) ≡ sign_extended u w a }
    ensures unsigned { (u v w a : ℕ) → u ≤ v → a < 2 ^ u → zero_extended w (zero_extended v a) ≡ zero_extended w a }
    ensures signed_of_unsigned { (u v w a : ℕ) → u < v → a < 2 ^ u → sign_extended v w (zero_extended v a) ≡ zero_extended w a }
{}

/// Two truncations equal one. Truncating an extended value to its width gives the value.
pub fn cuts_collapse()
    ensures twice { (u v w a b : ℕ) → w < v → truncated u v a ≡ Some b → truncated v w b ≡ truncated u w a }
    ensures signed { (u w a : ℕ) → 1 ≤ u → u < w → a < 2 ^ u → truncated w u (sign_extended u w a) ≡ Some a }
    ensures unsigned { (u w a : ℕ) → u < w → a < 2 ^ u → truncated w u (zero_extended w a) ≡ Some a }
{}

/// A cast to at least as many bits and back gives the value. So does a cast to its own width.
pub fn casts_come_back()
    ensures signed { (u v a : ℕ) → 1 ≤ u → u ≤ v → a < 2 ^ u → sign_extended v u (sign_extended u v a) ≡ a }
    ensures unsigned { (u v a : ℕ) → u ≤ v → a < 2 ^ u → zero_extended u (zero_extended v a) ≡ a }
    ensures same_signed { (u a : ℕ) → 1 ≤ u → a < 2 ^ u → sign_extended u u a ≡ a }
    ensures same_unsigned { (u a : ℕ) → a < 2 ^ u → zero_extended u a ≡ a }
{}
