//! Sets of numbers as bits, and of the names that have these numbers.

ghost use Rattle.std.specs.Prelude.{◌≡◌, ◌<◌, ◌≤◌, ◌&&◌, ◌||◌, ◌==◌, ℕ, List, [], length, slice_get, Some, true, false, not, nat_lt, filter, bytes_eq, IfOk, IsTrue, ◌↔◌};
ghost use Rattle.tla_token.specs.Signs.{is_among};
ghost use Rattle.tla_tree.specs.Tree.{Word};
ghost use Rattle.name_bits.specs.NamesIn.{most, has, names_in, AllApart};

use crate::order::Order;
use std::alloc::{AllocError, Global};
use tla_tree::{Name, NameList};

/// Numbers from this one on are in no set.
pub const MOST: usize = 1088;

const WORDS: usize = 17;

// How many bits a word has.
const WIDTH: usize = 64;

/// A set of numbers below `MOST`.
#[derive(Clone, Copy)]
pub struct Bits {
    words: [u64; WORDS],
}

impl Bits {
    /// No number.
    pub fn empty() -> Bits
        ensures numbers { (i : ℕ) → has result i ≡ false }
        ensures names { (order : List Word) → names_in order result ≡ [] }
    {
        Bits { words: [0; WORDS] }
    }

    /// All numbers that may be in a set.
    pub fn all() -> Bits
        ensures numbers { (i : ℕ) → has result i ≡ nat_lt i most }
        ensures names { (order : List Word) → length order ≤ most → names_in order result ≡ order }
    {
        Bits {
            words: [u64::MAX; WORDS],
        }
    }

    /// Whether a number is in.
    pub fn has(&self, number: usize) -> bool
        ensures { result ≡ has self.now number }
    {
        number < MOST && self.words[number / WIDTH] >> (number % WIDTH) & 1 == 1
    }

    /// With this number too. A number from `MOST` on is left out: who puts numbers in bounds how many there are.
    pub fn with(self, number: usize) -> Bits
        ensures numbers { (i : ℕ) → has result i ≡ (has self i || ((i == number) && nat_lt i most)) }
        ensures among { (order : List Word) (y : Word) → AllApart order → number < most → slice_get order number ≡ Some y → (x : Word) → is_among (names_in order result) x ≡ (is_among (names_in order self) x || bytes_eq y x) }
    {
        let mut words = self.words;
        if number < MOST {
            words[number / WIDTH] |= 1 << (number % WIDTH);
        }
        Bits { words }
    }

    /// With this name of an order too.
    pub fn with_name(self, order: &Order, name: &Name) -> Bits
        ensures { length order.now ≤ most → is_among order.now name.now ≡ true → (x : Word) → is_among (names_in order.now result) x ≡ (is_among (names_in order.now self) x || bytes_eq name.now x) }
    {
        order.apart();
        match order.number(name) {
            Some(number) => self.with(number),
            None => self,
        }
    }

    /// What is in this set or in the other.
    pub fn union(self, other: &Bits) -> Bits
        ensures numbers { (i : ℕ) → has result i ≡ (has self i || has other.now i) }
        ensures among { (order : List Word) → AllApart order → (x : Word) → is_among (names_in order result) x ≡ (is_among (names_in order self) x || is_among (names_in order other.now) x) }
        ensures names { (order : List Word) → AllApart order → names_in order result ≡ filter (λ x. is_among (names_in order self) x || is_among (names_in order other.now) x) order }
    {
        let mut words = self.words;
        for k in 0..WORDS {
            words[k] |= other.words[k];
        }
        Bits { words }
    }

    /// What is in this set and not in the other.
    pub fn left_of(self, other: &Bits) -> Bits
        ensures numbers { (i : ℕ) → has result i ≡ (has self i && not (has other.now i)) }
        ensures among { (order : List Word) → AllApart order → (x : Word) → is_among (names_in order result) x ≡ (is_among (names_in order self) x && not (is_among (names_in order other.now) x)) }
        ensures names { (order : List Word) → AllApart order → names_in order result ≡ filter (λ x. is_among (names_in order self) x && not (is_among (names_in order other.now) x)) order }
    {
        let mut words = self.words;
        for k in 0..WORDS {
            words[k] &= !other.words[k];
        }
        Bits { words }
    }

    /// Whether no number is in.
    pub fn is_empty(&self) -> bool
        ensures numbers { IsTrue result ↔ ((i : ℕ) → has self.now i ≡ false) }
        ensures names { IsTrue result → (order : List Word) → names_in order self.now ≡ [] }
    {
        for k in 0..WORDS {
            if self.words[k] != 0 {
                return false;
            }
        }
        true
    }

    /// Whether a name of an order is in.
    pub fn has_name(&self, order: &Order, name: &Name) -> bool
        ensures { result ≡ is_among (names_in order.now self.now) name.now }
    {
        order.apart();
        match order.number(name) {
            Some(number) => self.has(number),
            None => false,
        }
    }

    /// The names of an order that are in, in the order.
    ///
    /// # Errors
    ///
    /// Only for want of memory.
    pub fn names(&self, alloc: Global, order: &Order) -> Result<NameList, AllocError>
        ensures { IfOk result (λ names. names ≡ names_in order.now self.now) }
    {
        let mut names = NameList::new(alloc);
        for number in 0..order.len() {
            if self.has(number) {
                names.push(order.name(number).copied()?)?;
            }
        }
        Ok(names)
    }
}
