//! A set of numbers below a bound that its type fixes, one bit for each in words of 64.
//!
//! Each call takes any numbers: one at or past the bound is no member, and never becomes one.
#![tactic(auto)]

mod bits;
mod word;

ghost use Rattle.std.specs.Prelude.{◌≡◌, ◌-◌, ◌*◌, ◌<◌, ◌≤◌, false, replicate, IfSome, nat_lt};
ghost use Rattle.bitset.specs.Members.{members};
ghost use Rattle.bitset.specs.Set.{Bounded, First, cut, empty, first_of, joined, put, tally};

pub use bits::BitSet;

// The numbers of so many words fit a `usize`, and those of no word after them do.
const MOST_WORDS: usize = 1 << 58;

// W words of 0.
fn zeros<const W: usize>() -> [u64; W]
    ensures { result ≡ replicate W 0 }
{
    [0; W]
}

impl<const W: usize> BitSet<W> {
    /// The set with no members.
    pub fn new() -> Self
        ensures { members result ≡ empty }
    {
        BitSet { words: zeros() }
    }

    /// Whether `i` is a member. No number at or past 64 * W is.
    pub fn contains(&self, i: usize) -> bool
        ensures value { result ≡ members self.now i }
        ensures bound { Bounded (64 * W) (members self.now) }
    {
        self.words
            .get(i / 64)
            .is_some_and(|word| word::has(*word, i))
    }

    /// Makes `i` a member if it is below 64 * W, and else alters nothing.
    pub fn insert(&mut self, i: usize)
        ensures put { members self.new ≡ put (members self.old) i (nat_lt i (64 * W)) }
        ensures past { 64 * W ≤ i → members self.new ≡ members self.old }
        ensures joined { members self.new ≡ joined (64 * W) (members self.old) i }
    {
        // By index: the contract of `get_mut` leaves open what the other words are after the write.
        let w = i / 64;
        if w < W {
            self.words[w] = word::with(self.words[w], i);
        }
    }

    /// Makes `i` no member, if it is one.
    pub fn remove(&mut self, i: usize)
        ensures { members self.new ≡ put (members self.old) i false }
    {
        // As `insert`, with the other change of a word; one function for both would take the change as a closure and be longer.
        let w = i / 64;
        if w < W {
            self.words[w] = word::without(self.words[w], i);
        }
    }

    /// Removes all members.
    pub fn clear(&mut self)
        ensures { members self.new ≡ empty }
    {
        *self = BitSet::new();
    }

    /// The lowest member at or above `from`, if there is one.
    pub fn first(&self, from: usize) -> Option<usize>
        ensures first { First (members self.now) from result }
        ensures bound { IfSome result (λ i. i < 64 * W) }
    {
        let words = &self.words[..W.min(MOST_WORDS)];
        let mut w = from / 64;
        let mut x = word::from(*words.get(w)?, from);
        // A search by `position` takes a third longer where most words have members, above the 1.25 of docs/BENCHMARKS.md.
        while x == 0 {
            w += 1;
            x = *words.get(w)?;
        }
        Some(64 * w + word::lowest(x))
    }

    /// The lowest member, if there is one.
    pub fn lowest(&self) -> Option<usize>
        ensures value { result ≡ first_of (members self.now) 0 (64 * W) }
        ensures bound { IfSome result (λ i. i < 64 * W) }
    {
        self.first(0)
    }

    /// How many members there are from `a` to below `b`; 0 if `a` is not below `b`.
    pub fn count(&self, a: usize, b: usize) -> usize
        ensures { result ≡ tally (members self.now) a (b - a) }
    {
        let low = a / 64;
        let high = b / 64;
        if a >= b || low >= W {
            return 0;
        }
        let words = &self.words[..];
        if low == high {
            return word::size(word::below(word::from(words[low], a), b));
        }
        let start = word::size(word::from(words[low], a));
        let between = word::total(&words[low + 1..high.min(W)]);
        let end = words
            .get(high)
            .map_or(0, |x| word::size(word::below(*x, b)));
        start + between + end
    }

    /// Removes the members from `a` to below `b`.
    pub fn remove_range(&mut self, a: usize, b: usize)
        ensures { members self.new ≡ cut (members self.old) a b }
    {
        let low = a / 64;
        let high = b / 64;
        if a >= b || low >= W {
            return;
        }
        let words = &mut self.words[..];
        if low == high {
            words[low] = word::below(words[low], a) | word::from(words[low], b);
            return;
        }
        words[low] = word::below(words[low], a);
        words[low + 1..high.min(W)].fill(0);
        // By index, as in `insert`.
        if high < W {
            words[high] = word::from(words[high], b);
        }
    }
}
