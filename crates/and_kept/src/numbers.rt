//! A set of numbers below a size, with the least one, the next one and the k-th one at hand.
ghost use Rattle.std.specs.Prelude.{◌≡◌, ℕ, ◌+◌, ◌*◌, ◌/◌, ◌^◌, ◌<◌, ◌≤◌, ◌==◌, true, false, length, slice_index_or, IfOk, IfSome, IfNone, if◌then◌else◌};
ghost use Rattle.std.specs.Int.{bit_at};
ghost use Rattle.and_kept.specs.Numbers.{has, has_in, IsPut, one_if, rank, count};

use and_policy::NoMemory;
use std::alloc::Global;
use std::marker::Model;

/// A set of numbers below its size. Contracts see it as that set. A look at it takes a word of 64 numbers at a time.
#[derive(Drop)]
pub struct NumberSet {
    words: Vec<u64>,
    size: u32,
    count: u32,
}

impl Model for NumberSet {
    ghost use Rattle.and_kept.specs.Numbers.{Numbers, IsSet};

    ghost Value = { Numbers };

    ghost view = { λ r. record { words = r.words.items; size = r.size } };

    ghost invariant = { λ r. IsSet r.words.items r.size r.count };
}

// The lowest bit from this one on, or 64 where there is none.
fn next_in(word: u64, from: u32) -> u32
    requires { from < 64 }
    ensures within { result ≤ 64 }
    ensures past { from ≤ result }
    ensures set { result < 64 → bit_at word result ≡ 1 }
    ensures none { (i : ℕ) → from ≤ i → i < result → bit_at word i ≡ 0 }
{
    let rest = word & (u64::MAX << from);
    if rest == 0 { 64 } else { rest.trailing_zeros() }
}

// The word of this number.
fn word_of(words: &[u64], n: u32) -> u64
    requires { n < 64 * length words.now }
    ensures { result ≡ slice_index_or words.now (n / 64) 0 }
{
    words[(n / 64) as usize]
}

// Whether the number is in.
fn is_in(words: &[u64], n: u32) -> bool
    requires { n < 64 * length words.now }
    ensures { result ≡ has_in words.now n }
{
    (word_of(words, n) >> (n % 64)) & 1 == 1
}

// The word with this number's bit set or cleared.
fn with_bit(word: u64, n: u32, on: bool) -> u64
    ensures { IsPut word result n on }
{
    let bit = 1u64 << (n % 64);
    if on { word | bit } else { word & !bit }
}

// Puts the number in, or takes it out.
fn put_in(words: &mut Vec<u64>, n: u32, on: bool)
    requires { n < 64 * length words.old.items }
    ensures length { length words.new.items ≡ length words.old.items }
    ensures has { (j : ℕ) → has_in words.new.items j ≡ (if j == n then on else has_in words.old.items j) }
{
    let word = with_bit(word_of(words, n), n, on);
    words[(n / 64) as usize] = word;
}

// The least number from `from` on that is in, and below `size`.
fn next_of(words: &[u64], size: u32, from: u32) -> Option<u32>
    requires wide { size ≤ 64 * length words.now }
    requires small { size < 2 ^ 16 }
    requires from { from ≤ size }
    ensures within { IfSome result (λ n. n < size) }
    ensures past { IfSome result (λ n. from ≤ n) }
    ensures there { IfSome result (λ n. has_in words.now n ≡ true) }
    ensures least { IfSome result (λ n. (j : ℕ) → from ≤ j → j < n → has_in words.now j ≡ false) }
    ensures none { IfNone result ((j : ℕ) → from ≤ j → j < size → has_in words.now j ≡ false) }
{
    let mut at = from;
    while at < size {
        let low = at / 64 * 64;
        let found = next_in(word_of(words, at), at % 64);
        if found < 64 {
            let number = low + found;
            return if number < size { Some(number) } else { None };
        }
        at = low + 64;
    }
    None
}

// A count after one member more or less.
fn recount(count: u32, was: bool, on: bool) -> u32
    requires small { count < 2 ^ 16 }
    requires some { one_if was ≤ count }
    ensures { result + one_if was ≡ count + one_if on }
{
    count + if on { 1 } else { 0 } - if was { 1 } else { 0 }
}

impl NumberSet {
    /// No number below `size`. All memory is taken here.
    pub fn make(alloc: Global, size: u32) -> Result<NumberSet, NoMemory>
        requires { size < 2 ^ 16 }
        ensures size { IfOk result (λ r. r.size ≡ size) }
        ensures none { IfOk result (λ r. (n : ℕ) → has r n ≡ false) }
    {
        match vec![in alloc; 0u64; (size / 64 + 1) as usize] {
            Ok(words) => Ok(NumberSet {
                words,
                size,
                count: 0,
            }),
            Err(_) => Err(NoMemory),
        }
    }

    /// Whether the number is in.
    pub fn has(&self, n: u32) -> bool
        requires { n < self.now.size }
        ensures { result ≡ has self.now n }
    {
        is_in(&self.words, n)
    }

    /// Puts the number in, or takes it out.
    pub fn put(&mut self, n: u32, on: bool)
        requires { n < self.old.size }
        ensures size { self.new.size ≡ self.old.size }
        ensures has { (j : ℕ) → has self.new j ≡ (if j == n then on else has self.old j) }
    {
        let was = is_in(&self.words, n);
        put_in(&mut self.words, n, on);
        self.count = recount(self.count, was, on);
    }

    /// How many numbers are in.
    pub fn count(&self) -> u32
        ensures is { result ≡ count self.now }
        ensures small { result < 2 ^ 16 }
    {
        self.count
    }

    /// The least number that is in.
    pub fn first(&self) -> Option<u32>
        ensures within { IfSome result (λ n. n < self.now.size) }
        ensures there { IfSome result (λ n. has self.now n ≡ true) }
        ensures least { IfSome result (λ n. (j : ℕ) → j < n → has self.now j ≡ false) }
        ensures none { IfNone result ((j : ℕ) → j < self.now.size → has self.now j ≡ false) }
    {
        self.next(0)
    }

    /// The least number that is in and at least `from`.
    pub fn next(&self, from: u32) -> Option<u32>
        requires { from ≤ self.now.size }
        ensures small { self.now.size < 2 ^ 16 }
        ensures within { IfSome result (λ n. n < self.now.size) }
        ensures past { IfSome result (λ n. from ≤ n) }
        ensures there { IfSome result (λ n. has self.now n ≡ true) }
        ensures least { IfSome result (λ n. (j : ℕ) → from ≤ j → j < n → has self.now j ≡ false) }
        ensures none { IfNone result ((j : ℕ) → from ≤ j → j < self.now.size → has self.now j ≡ false) }
    {
        next_of(&self.words, self.size, from)
    }

    /// The number that is in and has `k` smaller ones in.
    pub fn nth(&self, k: u32) -> u32
        requires { k < count self.now }
        ensures within { result < self.now.size }
        ensures there { has self.now result ≡ true }
        ensures rank { rank self.now result ≡ k }
    {
        let mut from = 0;
        'skip: for i in 0..k {
            let _ = i;
            match self.next(from) {
                Some(found) => from = found + 1,
                None => unreachable!(),
            }
        }
        match self.next(from) {
            Some(found) => found,
            None => unreachable!(),
        }
    }
}
