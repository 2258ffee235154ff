//! The reasons why a rule doesn't apply at an operation, and their words.
ghost use Rattle.std.specs.Prelude.{◌≡◌};
ghost use Rattle.patterns_plans.specs.Conditions.{word_of};

/// A condition of a rule that doesn't hold at an operation.
#[derive(Clone, Copy, PartialEq, Eq)]
pub enum Reason {
    /// The operation is the root.
    IsRoot,
    /// The operation breaks a rule of the verifier, or has a property that isn't inherent to its name.
    NotVerified,
    /// The rule doesn't apply to operations with this name.
    WrongOperation,
    /// A result of the operation is used.
    Used,
    /// The operation has effects that others observe.
    HasEffects,
    /// An operand is a constant that isn't verified.
    ConstantNotVerified,
    /// An operand isn't a constant, and the operation doesn't fold over the others.
    OperandNotConstant,
    /// The operation doesn't fold over these constants.
    DoesNotFold,
    /// The first operand isn't a constant, or is one that isn't verified.
    FirstNotConstant,
    /// The second operand is a constant too.
    SecondConstant,
    /// The second operand isn't a constant, or is one that isn't verified.
    SecondNotConstant,
    /// The second operand is a constant, but not 0.
    SecondNotZero,
    /// The second operand is a constant, but not 1.
    SecondNotOne,
    /// The second operand is a constant, but not all of its bits are set.
    SecondNotAllOnes,
    /// The third operand isn't the constant 0.
    ThirdNotZero,
    /// Two operands that must be the same value differ.
    OperandsDiffer,
    /// The rule doesn't apply to this predicate.
    OtherPredicate,
    /// A type isn't the one that the rule requires.
    OtherType,
    /// The defining operation of the operand isn't a verified operation of the kind that the rule requires.
    NoDefiningOp,
    /// The second operand of the inner operation isn't a constant, or is one that isn't verified.
    InnerNotConstant,
    /// The second operand of the inner operation isn't the constant 1.
    InnerNotOne,
    /// The type in the middle has fewer bits.
    FewerBits,
    /// A bound, or the step if it matters, isn't a constant, or is one that isn't verified.
    BoundNotConstant,
    /// The loop runs more than once.
    RunsAgain,
    /// The condition isn't the constant false.
    ConditionNotFalse,
    /// A block that the rule reads doesn't exist, or its last operation isn't verified.
    BlockNotVerified,
    /// Nothing that the rule lowers has type index.
    NoIndex,
}

impl Reason {
    /// Returns the word of the condition.
    pub fn word(self) -> &'static str
        ensures { result.now ≡ word_of self }
    {
        match self {
            Reason::IsRoot => "root",
            Reason::NotVerified => "not-clean",
            Reason::WrongOperation => "other-operation",
            Reason::Used => "used",
            Reason::HasEffects => "has-effects",
            Reason::ConstantNotVerified => "constant-not-clean",
            Reason::OperandNotConstant => "operand-not-constant",
            Reason::DoesNotFold => "does-not-fold",
            Reason::FirstNotConstant => "first-not-constant",
            Reason::SecondConstant => "second-constant",
            Reason::SecondNotConstant => "second-not-constant",
            Reason::SecondNotZero => "second-not-zero",
            Reason::SecondNotOne => "second-not-one",
            Reason::SecondNotAllOnes => "second-not-all-ones",
            Reason::ThirdNotZero => "third-not-zero",
            Reason::OperandsDiffer => "operands-differ",
            Reason::OtherPredicate => "other-predicate",
            Reason::OtherType => "other-type",
            Reason::NoDefiningOp => "no-inner-operation",
            Reason::InnerNotConstant => "inner-not-constant",
            Reason::InnerNotOne => "inner-not-one",
            Reason::FewerBits => "fewer-bits",
            Reason::BoundNotConstant => "bound-not-constant",
            Reason::RunsAgain => "goes-on",
            Reason::ConditionNotFalse => "condition-not-false",
            Reason::BlockNotVerified => "block-not-clean",
            Reason::NoIndex => "no-index",
        }
    }
}
