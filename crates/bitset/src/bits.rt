//! The words of a bit set.
ghost use Rattle.std.specs.Prelude.{◌≡◌, length};

/// A set of numbers below 64 * W, one bit for each.
///
/// Clauses see it by `members`, which tells of each number whether it is in the set. It has no `impl Model`, whose value may hold
/// no function, as that is.
#[derive(Clone, Copy)]
pub struct BitSet<const W: usize> {
    pub(crate) words: [u64; W],
    ghost len: { length words ≡ W },
}
