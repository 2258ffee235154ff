//! Theorems about the constant folder.
ghost use Rattle.std.specs.Prelude.{◌≡◌, ℕ, List, Option, Some};
ghost use Rattle.ir_types.specs.declared.bits.BitsKind.{BitsKind};
ghost use Rattle.ir_types.specs.declared.bits.BitsKind.TheVariants as kind;
ghost use Rattle.ir_types.specs.Things.{ContextModel, IsExtendedBy};
ghost use Rattle.ir_types.specs.Terms.{TypeTerm, AttrTerm};
ghost use Rattle.ir_types.specs.Sound.{Holds};
ghost use Rattle.dialects_int.specs.declared.operations.Arithmetic.{Arithmetic};
ghost use Rattle.dialects_int.specs.declared.operations.Predicate.{Predicate};
ghost use Rattle.dialects_int.specs.declared.operations.Cast.{Cast};
ghost use Rattle.dialects_int.specs.declared.operations.Rule.TheVariants as rule;
ghost use Rattle.dialects_int.specs.Folds.{Known, KnowsMore, fold_of};
ghost use Rattle.dialects_int.specs.FoldLaws.{Folds, PairFolds, CompareFolds, SelectFolds, ResizeFolds, IndexCastFolds, ConstantFolds, FoldStays};

/// More constant operands never change a known result.
pub fn knowing_more()
    ensures { (name : List ℕ) (props : List (List ℕ × AttrTerm)) (xs ys : List (Option Known)) (results : List TypeTerm) (known : Known) → KnowsMore xs ys → fold_of name props xs results ≡ Some known → fold_of name props ys results ≡ Some known }
{}

/// A fold is the same in an extended context.
pub fn folds_stay()
    ensures { (c d : ContextModel) → Holds c → IsExtendedBy c d → FoldStays c d }
{}

/// The fold of an operation with constant operands, by its rule.
pub fn folds_of_known_operands()
    ensures pair { (name : List ℕ) (o : Arithmetic) (props : List (List ℕ × AttrTerm)) (ty : TypeTerm) (k : BitsKind) → Folds name (rule.Binary o) props ty k → PairFolds name o props ty k }
    ensures compare { (name : List ℕ) (p : Predicate) (props : List (List ℕ × AttrTerm)) (ty : TypeTerm) → Folds name rule.Compare props ty (kind.Int 1) → CompareFolds name p props ty }
    ensures select { (name : List ℕ) (props : List (List ℕ × AttrTerm)) (ty : TypeTerm) (k : BitsKind) → Folds name rule.Select props ty k → SelectFolds name props ty k }
    ensures resize { (name : List ℕ) (c : Cast) (props : List (List ℕ × AttrTerm)) (ty : TypeTerm) (w : ℕ) → Folds name (rule.IntegerCast c) props ty (kind.Int w) → ResizeFolds name c props ty w }
    ensures index_cast { (name : List ℕ) (c : Cast) (props : List (List ℕ × AttrTerm)) (ty : TypeTerm) (k : BitsKind) → Folds name (rule.IndexCast c) props ty k → IndexCastFolds name c props ty k }
    ensures constant { (name : List ℕ) (props : List (List ℕ × AttrTerm)) (ty : TypeTerm) (k : BitsKind) → Folds name rule.Constant props ty k → ConstantFolds name props ty k }
{}
