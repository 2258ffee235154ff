//! The rewrite rules and their names.
ghost use Rattle.std.specs.Prelude.{◌≡◌};
ghost use Rattle.patterns_base.specs.RuleNames.{all_rules, by_number, by_word, number_of, same_rule, word_of};
ghost use Rattle.patterns_base.specs.RuleNames.{is_canonical, is_converting, is_erasing, is_expanding, is_lowering};

/// A rewrite rule. Scripts name a rule by its number or its word. `specs/Rules.antt` defines the edits of each rule.
#[derive(Clone, Copy, PartialEq, Eq)]
pub enum Rule {
    /// Erases a dead operation.
    EraseDead = 1,
    /// Replaces an operation that folds over its constant operands by the constant.
    FoldToConstant = 2,
    /// Moves a constant to the second operand of a commutative operation.
    SwapConstant = 3,
    /// Replaces an operation by its first operand, if the second operand is 0 and changes nothing.
    DropZero = 4,
    /// Replaces an operation by its first operand, if the second operand is 1 and changes nothing.
    DropOne = 5,
    /// Replaces an operation by its first operand, if the second operand has all bits set and changes nothing.
    DropAllOnes = 6,
    /// Replaces the difference or exclusive or of a value and itself by 0.
    CancelItself = 7,
    /// Replaces an idempotent operation on a value and itself by the value.
    KeepItself = 8,
    /// Replaces a remainder by 1 with 0.
    ZeroRemainder = 9,
    /// Combines the constants of two nested operations into one constant.
    RegroupConstants = 10,
    /// Replaces a difference with a constant by a sum with the negated constant.
    AddNegative = 11,
    /// Replaces a comparison of a value with itself by its result.
    CompareItself = 12,
    /// Moves the constant of a comparison to the second operand, and mirrors the predicate.
    MirrorComparison = 13,
    /// Replaces an unsigned comparison with 0 whose result is known by that result.
    CompareZero = 14,
    /// Replaces a select between a value and itself by the value.
    ChooseSame = 15,
    /// Replaces a select with a constant condition by the selected value.
    ChooseKnown = 16,
    /// Replaces a select between true and false by its condition.
    ChooseTruth = 17,
    /// Replaces a select on a negated condition by a select on the condition with swapped values.
    ChooseOpposite = 18,
    /// Combines two extensions into one.
    ExtendExtension = 19,
    /// Combines two truncations into one. Replaces a truncation of an extension back to its source type by the source.
    CutCast = 20,
    /// Replaces a cast back to the original type by the original value.
    CastBack = 21,
    /// Inlines the chosen block of a branch with a constant condition.
    OpenBranch = 22,
    /// Inlines the block of a loop that runs once. Erases a loop that never runs.
    OpenLoop = 23,
    /// Inlines the first block of a while loop whose condition is false.
    StopLoop = 24,
    /// Replaces a minimum or maximum by a comparison and a select.
    ExpandMinMax = 25,
    /// Replaces a difference by a sum with the complement and 1.
    ExpandDifference = 26,
    /// Replaces a remainder by a difference with the product of the quotient.
    ExpandRemainder = 27,
    /// Lowers an `arith` operation on index to i64.
    LowerIndex = 28,
    /// Lowers a loop over index to i64.
    LowerLoop = 29,
    /// Lowers a choice with index results to i64.
    LowerChoice = 30,
}

/// The rules, by ascending number.
static RULES: [Rule; 30] = [
    Rule::EraseDead,
    Rule::FoldToConstant,
    Rule::SwapConstant,
    Rule::DropZero,
    Rule::DropOne,
    Rule::DropAllOnes,
    Rule::CancelItself,
    Rule::KeepItself,
    Rule::ZeroRemainder,
    Rule::RegroupConstants,
    Rule::AddNegative,
    Rule::CompareItself,
    Rule::MirrorComparison,
    Rule::CompareZero,
    Rule::ChooseSame,
    Rule::ChooseKnown,
    Rule::ChooseTruth,
    Rule::ChooseOpposite,
    Rule::ExtendExtension,
    Rule::CutCast,
    Rule::CastBack,
    Rule::OpenBranch,
    Rule::OpenLoop,
    Rule::StopLoop,
    Rule::ExpandMinMax,
    Rule::ExpandDifference,
    Rule::ExpandRemainder,
    Rule::LowerIndex,
    Rule::LowerLoop,
    Rule::LowerChoice,
];

/// Returns all rules, by ascending number.
pub fn all_rules() -> &'static [Rule]
    ensures { result.now ≡ all_rules }
{
    &RULES
}

impl Rule {
    /// Returns the number of the rule.
    pub fn number(self) -> u8
        ensures { result ≡ number_of self }
    {
        self as u8
    }

    /// Returns the word of the rule.
    pub fn word(self) -> &'static str
        ensures { result.now ≡ word_of self }
    {
        match self {
            Rule::EraseDead => "erase-dead",
            Rule::FoldToConstant => "fold-to-constant",
            Rule::SwapConstant => "swap-constant",
            Rule::DropZero => "drop-zero",
            Rule::DropOne => "drop-one",
            Rule::DropAllOnes => "drop-all-ones",
            Rule::CancelItself => "cancel-itself",
            Rule::KeepItself => "keep-itself",
            Rule::ZeroRemainder => "zero-remainder",
            Rule::RegroupConstants => "regroup-constants",
            Rule::AddNegative => "add-negative",
            Rule::CompareItself => "compare-itself",
            Rule::MirrorComparison => "mirror-comparison",
            Rule::CompareZero => "compare-zero",
            Rule::ChooseSame => "choose-same",
            Rule::ChooseKnown => "choose-known",
            Rule::ChooseTruth => "choose-truth",
            Rule::ChooseOpposite => "choose-opposite",
            Rule::ExtendExtension => "extend-extension",
            Rule::CutCast => "cut-cast",
            Rule::CastBack => "cast-back",
            Rule::OpenBranch => "open-branch",
            Rule::OpenLoop => "open-loop",
            Rule::StopLoop => "stop-loop",
            Rule::ExpandMinMax => "expand-min-max",
            Rule::ExpandDifference => "expand-difference",
            Rule::ExpandRemainder => "expand-remainder",
            Rule::LowerIndex => "lower-index",
            Rule::LowerLoop => "lower-loop",
            Rule::LowerChoice => "lower-choice",
        }
    }

    /// Returns whether the rule is `other`.
    pub fn is(self, other: Rule) -> bool
        ensures { result ≡ same_rule self other }
    {
        self.number() == other.number()
    }

    /// Returns whether the rule erases an operation, whatever the operation computes.
    pub fn is_erasing(self) -> bool
        ensures { result ≡ is_erasing self }
    {
        matches!(self, Rule::EraseDead)
    }

    /// Returns whether canonicalization tries the rule.
    pub fn is_canonical(self) -> bool
        ensures { result ≡ is_canonical self }
    {
        !self.is_expanding() && !self.is_lowering()
    }

    /// Returns whether the rule expands an `arith` operation into other `arith` operations.
    pub fn is_expanding(self) -> bool
        ensures { result ≡ is_expanding self }
    {
        matches!(
            self,
            Rule::ExpandMinMax | Rule::ExpandDifference | Rule::ExpandRemainder
        )
    }

    /// Returns whether the rule lowers index to i64.
    pub fn is_lowering(self) -> bool
        ensures { result ≡ is_lowering self }
    {
        matches!(self, Rule::LowerIndex | Rule::LowerLoop | Rule::LowerChoice)
    }

    /// Returns whether a conversion may try the rule.
    pub fn is_converting(self) -> bool
        ensures { result ≡ is_converting self }
    {
        matches!(self, Rule::FoldToConstant) || self.is_expanding() || self.is_lowering()
    }

    /// Returns the rule with a number, or `None` if no rule has it.
    pub fn by_number(number: u32) -> Option<Rule>
        ensures { result ≡ by_number number }
    {
        let mut rules = all_rules().iter().copied();
        rules.find(|rule| u32::from(rule.number()) == number)
    }

    /// Returns the rule with a word, or `None` if no rule has it.
    pub fn by_word(word: &[u8]) -> Option<Rule>
        ensures { result ≡ by_word word.now }
    {
        let mut rules = all_rules().iter().copied();
        rules.find(|rule| rule.word().as_bytes() == word)
    }
}
