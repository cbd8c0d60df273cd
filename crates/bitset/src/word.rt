//! Words of a bit set: in its word, the bit of a number `i` is at place `i % 64`.
ghost use Rattle.std.specs.Prelude.{◌≡◌, ◌-◌, ◌/◌, ◌%◌, ◌^◌, ◌<◌, ◌==◌, ◌*◌, bit_and, bit_or, count_ones, length};
ghost use Rattle.bitset.specs.Members.{in_words};
ghost use Rattle.bitset.specs.Set.{tally};
ghost use Rattle.std.specs.Int.Count.{count_trailing_zeros};

/// The word with the bit of `i` alone.
fn bit(i: usize) -> u64
    ensures { result ≡ 2 ^ (i % 64) }
{
    1 << (i % 64)
}

/// The word with the bits below that of `i`.
fn bits_below(i: usize) -> u64
    ensures { result ≡ 2 ^ (i % 64) - 1 }
{
    bit(i) - 1
}

/// Whether `x` has the bit of `i`.
pub(crate) fn has(x: u64, i: usize) -> bool
    ensures { result ≡ (bit_and (x / 2 ^ (i % 64)) 1 == 1) }
{
    (x >> (i % 64)) & 1 == 1
}

/// `x` with the bit of `i`.
pub(crate) fn with(x: u64, i: usize) -> u64
    ensures { result ≡ bit_or x (2 ^ (i % 64)) }
{
    x | bit(i)
}

/// `x` without the bit of `i`.
pub(crate) fn without(x: u64, i: usize) -> u64
    ensures { result ≡ bit_and x ((2 ^ 64 - 1) - 2 ^ (i % 64)) }
{
    x & !bit(i)
}

/// The bits of `x` below that of `i`.
pub(crate) fn below(x: u64, i: usize) -> u64
    ensures { result ≡ bit_and x (2 ^ (i % 64) - 1) }
{
    x & bits_below(i)
}

/// The bits of `x` from that of `i` on.
pub(crate) fn from(x: u64, i: usize) -> u64
    ensures { result ≡ bit_and x ((2 ^ 64 - 1) - (2 ^ (i % 64) - 1)) }
{
    x & !bits_below(i)
}

/// The place of the lowest bit of `x`, 64 if it has none.
pub(crate) fn lowest(x: u64) -> usize
    ensures { result ≡ count_trailing_zeros 64 x }
{
    x.trailing_zeros() as usize
}

/// How many bits `x` has.
pub(crate) fn size(x: u64) -> usize
    ensures { result ≡ count_ones x }
{
    x.count_ones() as usize
}

/// How many numbers the words hold.
pub(crate) fn total(words: &[u64]) -> usize
    requires { length words.now < 2 ^ 58 }
    ensures { result ≡ tally (in_words words.now) 0 (64 * length words.now) }
{
    words.iter().map(|x| size(*x)).sum()
}
