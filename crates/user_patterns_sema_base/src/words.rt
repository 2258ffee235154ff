//! The meaning of the words of the language.
ghost use Rattle.std.specs.Prelude.{◌≡◌};
ghost use Rattle.user_patterns_sema_base.specs.Words.{first_pair, function_named, extra_pair, is_condition, is_narrower, is_power, operation_named, other_named, pair_named, predicate_named, truth_named};

use dialects_int::operations::{Arithmetic, Cast, Predicate};

/// An operation that folds.
#[derive(Clone, Copy)]
pub enum Operation {
    /// `arith.addi` and other binary operations.
    Binary(Arithmetic),
    /// `arith.cmpi`.
    Compare,
    /// `arith.select`.
    Select,
    /// `arith.extsi`, `arith.extui`, `arith.trunci`.
    IntegerCast(Cast),
    /// `arith.index_cast`, `arith.index_castui`.
    IndexCast(Cast),
}

/// A function of numbers.
#[derive(Clone, Copy)]
pub enum Function {
    /// `add`, `sub`, `mul`, `and`, `or`, `xor`.
    Binary(Arithmetic),
    /// `neg`.
    Negate,
    /// `not`.
    Complement,
    /// `log2`.
    Log2,
    /// `width`.
    Width,
}

#[tactic(auto, unfolding(crate::specs::Words::first_pair))]
fn first_pair(word: &[u8]) -> Option<Arithmetic>
    ensures { result ≡ first_pair word.now }
{
    if word == b"arith.addi".as_slice() {
        return Some(Arithmetic::Add);
    }
    if word == b"arith.subi".as_slice() {
        return Some(Arithmetic::Subtract);
    }
    if word == b"arith.muli".as_slice() {
        return Some(Arithmetic::Multiply);
    }
    if word == b"arith.shli".as_slice() {
        return Some(Arithmetic::ShiftLeft);
    }
    if word == b"arith.divsi".as_slice() {
        return Some(Arithmetic::DivideSigned);
    }
    if word == b"arith.divui".as_slice() {
        return Some(Arithmetic::DivideUnsigned);
    }
    if word == b"arith.remsi".as_slice() {
        return Some(Arithmetic::RemainderSigned);
    }
    if word == b"arith.remui".as_slice() {
        return Some(Arithmetic::RemainderUnsigned);
    }
    None
}

#[tactic(auto, unfolding(crate::specs::Words::extra_pair))]
fn extra_pair(word: &[u8]) -> Option<Arithmetic>
    ensures { result ≡ extra_pair word.now }
{
    if word == b"arith.andi".as_slice() {
        return Some(Arithmetic::And);
    }
    if word == b"arith.ori".as_slice() {
        return Some(Arithmetic::Or);
    }
    if word == b"arith.xori".as_slice() {
        return Some(Arithmetic::ExclusiveOr);
    }
    if word == b"arith.shrsi".as_slice() {
        return Some(Arithmetic::ShiftRightSigned);
    }
    if word == b"arith.shrui".as_slice() {
        return Some(Arithmetic::ShiftRightUnsigned);
    }
    if word == b"arith.maxsi".as_slice() {
        return Some(Arithmetic::MaximumSigned);
    }
    if word == b"arith.maxui".as_slice() {
        return Some(Arithmetic::MaximumUnsigned);
    }
    if word == b"arith.minsi".as_slice() {
        return Some(Arithmetic::MinimumSigned);
    }
    if word == b"arith.minui".as_slice() {
        return Some(Arithmetic::MinimumUnsigned);
    }
    None
}

#[tactic(auto, unfolding(crate::specs::Words::pair_named))]
fn pair_named(word: &[u8]) -> Option<Arithmetic>
    ensures { result ≡ pair_named word.now }
{
    match first_pair(word) {
        Some(found) => Some(found),
        None => extra_pair(word),
    }
}

#[tactic(auto, unfolding(crate::specs::Words::other_named))]
fn other_named(word: &[u8]) -> Option<Operation>
    ensures { result ≡ other_named word.now }
{
    if word == b"arith.cmpi".as_slice() {
        return Some(Operation::Compare);
    }
    if word == b"arith.select".as_slice() {
        return Some(Operation::Select);
    }
    if word == b"arith.extsi".as_slice() {
        return Some(Operation::IntegerCast(Cast::ExtendSigned));
    }
    if word == b"arith.extui".as_slice() {
        return Some(Operation::IntegerCast(Cast::ExtendUnsigned));
    }
    if word == b"arith.trunci".as_slice() {
        return Some(Operation::IntegerCast(Cast::Truncate));
    }
    if word == b"arith.index_cast".as_slice() {
        return Some(Operation::IndexCast(Cast::ExtendSigned));
    }
    if word == b"arith.index_castui".as_slice() {
        return Some(Operation::IndexCast(Cast::ExtendUnsigned));
    }
    None
}

/// Returns the operation with that name, or `None` if no operation with that name folds.
#[tactic(auto, unfolding(crate::specs::Words::operation_named))]
pub fn operation_named(word: &[u8]) -> Option<Operation>
    ensures { result ≡ operation_named word.now }
{
    match pair_named(word) {
        Some(pair) => Some(Operation::Binary(pair)),
        None => other_named(word),
    }
}

/// Returns the predicate of that word, or `None` if there is none.
#[tactic(auto, unfolding(crate::specs::Words::predicate_named))]
pub fn predicate_named(word: &[u8]) -> Option<Predicate>
    ensures { result ≡ predicate_named word.now }
{
    if word == b"eq".as_slice() {
        return Some(Predicate::Equal);
    }
    if word == b"ne".as_slice() {
        return Some(Predicate::NotEqual);
    }
    if word == b"slt".as_slice() {
        return Some(Predicate::SignedLess);
    }
    if word == b"sle".as_slice() {
        return Some(Predicate::SignedLessOrEqual);
    }
    if word == b"sgt".as_slice() {
        return Some(Predicate::SignedGreater);
    }
    if word == b"sge".as_slice() {
        return Some(Predicate::SignedGreaterOrEqual);
    }
    if word == b"ult".as_slice() {
        return Some(Predicate::UnsignedLess);
    }
    if word == b"ule".as_slice() {
        return Some(Predicate::UnsignedLessOrEqual);
    }
    if word == b"ugt".as_slice() {
        return Some(Predicate::UnsignedGreater);
    }
    if word == b"uge".as_slice() {
        return Some(Predicate::UnsignedGreaterOrEqual);
    }
    None
}

/// Returns the function with that name, or `None` if there is none.
#[tactic(auto, unfolding(crate::specs::Words::function_named))]
pub fn function_named(word: &[u8]) -> Option<Function>
    ensures { result ≡ function_named word.now }
{
    if word == b"add".as_slice() {
        return Some(Function::Binary(Arithmetic::Add));
    }
    if word == b"sub".as_slice() {
        return Some(Function::Binary(Arithmetic::Subtract));
    }
    if word == b"mul".as_slice() {
        return Some(Function::Binary(Arithmetic::Multiply));
    }
    if word == b"and".as_slice() {
        return Some(Function::Binary(Arithmetic::And));
    }
    if word == b"or".as_slice() {
        return Some(Function::Binary(Arithmetic::Or));
    }
    if word == b"xor".as_slice() {
        return Some(Function::Binary(Arithmetic::ExclusiveOr));
    }
    if word == b"neg".as_slice() {
        return Some(Function::Negate);
    }
    if word == b"not".as_slice() {
        return Some(Function::Complement);
    }
    if word == b"log2".as_slice() {
        return Some(Function::Log2);
    }
    if word == b"width".as_slice() {
        return Some(Function::Width);
    }
    None
}

/// Returns the value of a literal of `i1`: 1 for `true`, 0 for `false`, `None` for another word.
#[tactic(auto, unfolding(crate::specs::Words::truth_named))]
pub fn truth_named(word: &[u8]) -> Option<u128>
    ensures { result ≡ truth_named word.now }
{
    if word == b"true".as_slice() {
        return Some(1);
    }
    if word == b"false".as_slice() {
        return Some(0);
    }
    None
}

/// Returns whether the word is `narrower`.
pub fn is_narrower(word: &[u8]) -> bool
    ensures { result ≡ is_narrower word.now }
{
    word == b"narrower".as_slice()
}

/// Returns whether the word is `power_of_two`.
pub fn is_power(word: &[u8]) -> bool
    ensures { result ≡ is_power word.now }
{
    word == b"power_of_two".as_slice()
}

/// Returns whether the word names a condition.
pub fn is_condition(word: &[u8]) -> bool
    ensures { result ≡ is_condition word.now }
{
    is_narrower(word) || is_power(word) || predicate_named(word).is_some()
}
