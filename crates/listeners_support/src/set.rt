//! Sets of numbers.
ghost use Rattle.std.specs.Prelude.{◌≡◌, ℕ, ◌*◌, ◌<◌, ◌≤◌, [], length, true, false, OnOk, MatchOption};
ghost use Rattle.listeners_support.specs.Bits.{has, has_with, IsNext, IsNone};

use crate::bits::{clear_bit, extend, first, first_near, set_bit};
use std::alloc::{AllocError, Global};
use std::marker::Model;

/// A set of numbers: a bit for each number, and a bit for each word of these bits that isn't 0.
#[derive(Drop)]
pub struct BitSet {
    words: Vec<u64>,
    groups: Vec<u64>,
}

impl Model for BitSet {
    ghost use Rattle.std.specs.Prelude.{ℕ, List};
    ghost use Rattle.listeners_support.specs.Bits.{IsIndexed};

    ghost Value = { List ℕ };

    ghost view = { λ s. s.words.items };

    ghost invariant = { λ s. IsIndexed s.words.items s.groups.items };
}

impl BitSet {
    /// Returns an empty set without capacity.
    pub fn new(alloc: Global) -> BitSet
        ensures { result ≡ [] }
    {
        BitSet {
            words: Vec::new(alloc),
            groups: Vec::new(alloc),
        }
    }

    /// Extends the capacity to a number and all numbers below it.
    pub fn reserve(&mut self, number: u32) -> Result<(), AllocError>
        ensures headroom { OnOk result (number < 64 * length self.new) }
        ensures grows { length self.old ≤ length self.new }
        ensures same { (x : ℕ) → has self.new x ≡ has self.old x }
    {
        let word = number as usize / 64;
        extend(&mut self.groups, word / 64)?;
        extend(&mut self.words, word)
    }

    /// Adds a number within the capacity. Needs no memory.
    pub fn insert(&mut self, number: u32)
        requires { number < 64 * length self.old }
        ensures headroom { length self.new ≡ length self.old }
        ensures has { (x : ℕ) → has self.new x ≡ has_with number true self.old x }
    {
        let word = number as usize / 64;
        set_bit(&mut self.words, number as usize);
        set_bit(&mut self.groups, word);
    }

    /// Removes a number, if it is in the set. Needs no memory.
    pub fn remove(&mut self, number: u32)
        ensures headroom { length self.new ≡ length self.old }
        ensures has { (x : ℕ) → has self.new x ≡ has_with number false self.old x }
    {
        let word = number as usize / 64;
        if word < self.words.len() {
            let empty = clear_bit(&mut self.words, number as usize);
            if empty {
                let _left = clear_bit(&mut self.groups, word);
            }
        }
    }

    /// Returns the first number of the set from `from` on, or `None` if there is none.
    pub fn next(&self, from: usize) -> Option<u32>
        ensures { MatchOption result (IsNone self.now from) (IsNext self.now from) }
    {
        if let Some(number) = first_near(&self.words, from) {
            return Some(number as u32);
        }
        let Some(word) = first(&self.groups, from / 64 + 1) else {
            return None;
        };
        match first_near(&self.words, word * 64) {
            Some(number) => Some(number as u32),
            None => None,
        }
    }
}
