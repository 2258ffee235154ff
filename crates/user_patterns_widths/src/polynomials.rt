//! Polynomials in the values at a pattern's places, with coefficients modulo 2^128.
ghost use Rattle.std.specs.Prelude.{◌≡◌, ◌∷◌, ◌++◌, [], ◌==◌, IfOk, OnOk, nat_le};
ghost use Rattle.std.specs.List.{list_all, position};
ghost use Rattle.user_patterns_widths.specs.Polynomials as polynomials;
ghost use Rattle.user_patterns_widths.specs.Views.{some_view, term_view, view};

use std::alloc::{AllocError, Global};

/// A term: its coefficient, and the places of its factors in ascending order. A power repeats its place.
#[derive(Drop)]
pub(crate) struct Term {
    pub(crate) coefficient: u128,
    pub(crate) places: Vec<usize>,
}

/// Returns the index of the first place that is at least `place`.
fn first_from(places: &[usize], place: usize) -> Option<usize>
    ensures { result ≡ position (nat_le place) places.now }
{
    places.iter().position(|other| place <= *other)
}

/// Inserts `place` and keeps the places in order.
fn insert_in_order(places: &mut Vec<usize>, place: usize) -> Result<(), AllocError>
    ensures { OnOk result (places.new.items ≡ polynomials.inserted place places.old.items) }
{
    match first_from(places, place) {
        Some(at) => places.insert(at, place)?,
        None => places.push(place)?,
    }
    Ok(())
}

/// Returns the factors of the product of two terms.
fn joined(alloc: Global, first: &[usize], second: &[usize]) -> Result<Vec<usize>, AllocError>
    ensures { IfOk result (λ places. places.items ≡ polynomials.joined first.now second.now) }
{
    let mut places = Vec::from_slice(alloc, second)?;
    let mut rest = first;
    'places: while let [place, tail @ ..] = rest {
        insert_in_order(&mut places, *place)?;
        rest = tail;
    }
    Ok(places)
}

/// Appends a term.
fn add_term(coefficient: u128, places: Vec<usize>, out: &mut Vec<Term>) -> Result<(), AllocError>
    ensures { OnOk result (view out.new.items ≡ view out.old.items ++ (coefficient, places.items) ∷ []) }
{
    out.push(Term {
        coefficient,
        places,
    })?;
    Ok(())
}

/// Appends the product of two terms.
fn push_times(
    alloc: Global,
    first: &Term,
    second: &Term,
    out: &mut Vec<Term>,
) -> Result<(), AllocError>
    ensures { OnOk result (view out.new.items ≡ view out.old.items ++ polynomials.term_times (term_view first.now) (term_view second.now) ∷ []) }
{
    let places = joined(alloc, &first.places, &second.places)?;
    let coefficient = first.coefficient.wrapping_mul(second.coefficient);
    add_term(coefficient, places, out)
}

/// Appends the products of a term with the terms of a polynomial.
fn push_times_all(
    alloc: Global,
    term: &Term,
    terms: &[Term],
    out: &mut Vec<Term>,
) -> Result<(), AllocError>
    ensures { OnOk result (view out.new.items ≡ view out.old.items ++ polynomials.times_all (term_view term.now) (view terms.now)) }
{
    let mut rest = terms;
    'terms: while let [first, tail @ ..] = rest {
        push_times(alloc, term, first, out)?;
        rest = tail;
    }
    Ok(())
}

/// Returns the product of two polynomials.
pub(crate) fn product(
    alloc: Global,
    first: &[Term],
    second: &[Term],
) -> Result<Vec<Term>, AllocError>
    ensures { IfOk result (λ terms. view terms.items ≡ polynomials.product (view first.now) (view second.now)) }
{
    let mut terms = Vec::new(alloc);
    let mut rest = first;
    'terms: while let [term, tail @ ..] = rest {
        push_times_all(alloc, term, second, &mut terms)?;
        rest = tail;
    }
    Ok(terms)
}

/// Appends a copy of a term.
fn push_copy(alloc: Global, term: &Term, out: &mut Vec<Term>) -> Result<(), AllocError>
    ensures { OnOk result (view out.new.items ≡ view out.old.items ++ term_view term.now ∷ []) }
{
    let places = Vec::from_slice(alloc, &term.places)?;
    add_term(term.coefficient, places, out)
}

/// Appends the negation of a term.
fn push_negated_copy(alloc: Global, term: &Term, out: &mut Vec<Term>) -> Result<(), AllocError>
    ensures { OnOk result (view out.new.items ≡ view out.old.items ++ polynomials.negated_term (term_view term.now) ∷ []) }
{
    let places = Vec::from_slice(alloc, &term.places)?;
    add_term(term.coefficient.wrapping_neg(), places, out)
}

/// Appends copies of terms.
fn push_copies(alloc: Global, terms: &[Term], out: &mut Vec<Term>) -> Result<(), AllocError>
    ensures { OnOk result (view out.new.items ≡ view out.old.items ++ view terms.now) }
{
    let mut rest = terms;
    'terms: while let [first, tail @ ..] = rest {
        push_copy(alloc, first, out)?;
        rest = tail;
    }
    Ok(())
}

/// Appends the negations of terms.
fn push_negated(alloc: Global, terms: &[Term], out: &mut Vec<Term>) -> Result<(), AllocError>
    ensures { OnOk result (view out.new.items ≡ view out.old.items ++ polynomials.negated (view terms.now)) }
{
    let mut rest = terms;
    'terms: while let [first, tail @ ..] = rest {
        push_negated_copy(alloc, first, out)?;
        rest = tail;
    }
    Ok(())
}

/// Returns a copy of a polynomial.
pub(crate) fn copy_of(alloc: Global, terms: &[Term]) -> Result<Vec<Term>, AllocError>
    ensures { IfOk result (λ copies. view copies.items ≡ view terms.now) }
{
    let mut copies = Vec::new(alloc);
    push_copies(alloc, terms, &mut copies)?;
    Ok(copies)
}

/// Returns the sum of two polynomials.
pub(crate) fn sum(alloc: Global, first: &[Term], second: &[Term]) -> Result<Vec<Term>, AllocError>
    ensures { IfOk result (λ terms. view terms.items ≡ view first.now ++ view second.now) }
{
    let mut terms = Vec::new(alloc);
    push_copies(alloc, first, &mut terms)?;
    push_copies(alloc, second, &mut terms)?;
    Ok(terms)
}

/// Returns the difference of two polynomials.
pub(crate) fn difference(
    alloc: Global,
    first: &[Term],
    second: &[Term],
) -> Result<Vec<Term>, AllocError>
    ensures { IfOk result (λ terms. view terms.items ≡ view first.now ++ polynomials.negated (view second.now)) }
{
    let mut terms = Vec::new(alloc);
    push_copies(alloc, first, &mut terms)?;
    push_negated(alloc, second, &mut terms)?;
    Ok(terms)
}

/// Returns a number as a polynomial.
pub(crate) fn constant_polynomial(alloc: Global, coefficient: u128) -> Result<Vec<Term>, AllocError>
    ensures { IfOk result (λ terms. view terms.items ≡ polynomials.number coefficient) }
{
    let mut terms = Vec::new(alloc);
    add_term(coefficient, Vec::new(alloc), &mut terms)?;
    Ok(terms)
}

/// Returns the value at `place` as a polynomial.
pub(crate) fn value_at(alloc: Global, place: usize) -> Result<Vec<Term>, AllocError>
    ensures { IfOk result (λ terms. view terms.items ≡ polynomials.value_at place) }
{
    let mut places = Vec::new(alloc);
    places.push(place)?;
    let mut terms = Vec::new(alloc);
    add_term(1, places, &mut terms)?;
    Ok(terms)
}

/// Returns the number of a literal modulo 2^128.
pub(crate) fn literal_coefficient(negative: bool, magnitude: u128) -> u128
    ensures { result ≡ polynomials.literal_coefficient negative magnitude }
{
    if negative {
        magnitude.wrapping_neg()
    } else {
        magnitude
    }
}

/// Returns whether two terms have the same factors.
fn same_places(first: &[usize], second: &[usize]) -> bool
    ensures { result ≡ polynomials.same_places first.now second.now }
{
    let mut first = first;
    let mut second = second;
    'places: while let [place, first_tail @ ..] = first {
        let [other, second_tail @ ..] = second else {
            return false;
        };
        if *place != *other {
            return false;
        }
        first = first_tail;
        second = second_tail;
    }
    second.is_empty()
}

/// Returns the coefficient of a product of factors: the sum over all terms with these factors.
fn coefficient_of(places: &[usize], terms: &[Term]) -> u128
    ensures { result ≡ polynomials.coefficient_of places.now (view terms.now) }
{
    let mut sum: u128 = 0;
    let mut rest = terms;
    'terms: while let [first, tail @ ..] = rest {
        if same_places(places, &first.places) {
            sum = sum.wrapping_add(first.coefficient);
        }
        rest = tail;
    }
    sum
}

/// Returns whether the factors of each term have the coefficient 0 in `others`.
fn all_vanish(terms: &[Term], others: &[Term]) -> bool
    ensures { result ≡ list_all (λ (t : polynomials.Term). polynomials.coefficient_of t.1 (view others.now) == 0) (view terms.now) }
{
    let mut rest = terms;
    'terms: while let [first, tail @ ..] = rest {
        if coefficient_of(&first.places, others) != 0 {
            return false;
        }
        rest = tail;
    }
    true
}

/// Returns whether two polynomials are equal.
pub(crate) fn are_one(alloc: Global, first: &[Term], second: &[Term]) -> Result<bool, AllocError>
    ensures { IfOk result (λ one. one ≡ polynomials.are_one (view first.now) (view second.now)) }
{
    let terms = difference(alloc, first, second)?;
    Ok(all_vanish(&terms, &terms))
}

/// The limit of terms of a polynomial.
const MOST_TERMS: usize = 256;

/// The limit of factors of a term.
const MOST_FACTORS: usize = 64;

/// Returns whether all terms have at most `MOST_FACTORS` factors.
fn all_low(terms: &[Term]) -> bool
    ensures { result ≡ list_all polynomials.is_low (view terms.now) }
{
    let mut rest = terms;
    'terms: while let [first, tail @ ..] = rest {
        if first.places.len() > MOST_FACTORS {
            return false;
        }
        rest = tail;
    }
    true
}

/// Returns the polynomial, or `None` if it exceeds the limits.
pub(crate) fn if_small(terms: Vec<Term>) -> Option<Vec<Term>>
    ensures { some_view result ≡ polynomials.if_small (view terms.items) }
{
    if terms.len() <= MOST_TERMS && all_low(&terms) {
        Some(terms)
    } else {
        None
    }
}

/// Returns the product of two polynomials, or `None` if it exceeds the limits.
pub(crate) fn small_product(
    alloc: Global,
    first: &[Term],
    second: &[Term],
) -> Result<Option<Vec<Term>>, AllocError>
    ensures { IfOk result (λ terms. some_view terms ≡ polynomials.if_small (polynomials.product (view first.now) (view second.now))) }
{
    if first.len().saturating_mul(second.len()) > MOST_TERMS {
        return Ok(None);
    }
    let terms = product(alloc, first, second)?;
    Ok(if_small(terms))
}
