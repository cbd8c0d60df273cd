//! Work on a bit set of 32,768 numbers, for a program in another language to call and to time.
#![tactic(auto)]

use bitset::BitSet;

/// The state of the pseudo random sequence after `state`.
fn next(state: u64) -> u64 {
    state
        .wrapping_mul(6364136223846793005)
        .wrapping_add(1442695040888963407)
}

/// The number below 32,768 that a state stands for.
fn number(state: u64) -> usize {
    (state >> 49) as usize
}

/// Inserts `tries` numbers of the sequence, and tells the state after them.
fn fill(set: &mut BitSet<512>, seed: u64, tries: u64) -> u64 {
    let mut state = seed;
    for _ in 0..tries {
        state = next(state);
        set.insert(number(state));
    }
    state
}

/// A checksum, by 31 times what it was plus the next number.
fn add(sum: u64, number: usize) -> u64 {
    sum.wrapping_mul(31).wrapping_add(number as u64)
}

/// Removes all members from the lowest on, and adds them into a checksum.
fn drained(set: &mut BitSet<512>) -> u64 {
    let mut sum = 0;
    let mut from = 0;
    // No iterator: the set loses each member as it is met.
    while let Some(k) = set.first(from) {
        set.remove(k);
        sum = add(sum, k);
        from = k + 1;
    }
    sum
}

/// Counts and removes the members of ranges of 512 numbers that begin at `shift`, and adds the counts into a checksum.
fn swept(set: &mut BitSet<512>, shift: usize) -> u64 {
    let mut sum = 0;
    let mut a = 0;
    for r in 0..65 {
        let b = 512 * r + shift % 512;
        sum = add(sum, set.count(a, b));
        set.remove_range(a, b);
        a = b;
    }
    sum
}

/// How many of `tries` numbers of the sequence are members.
fn hits(set: &BitSet<512>, seed: u64, tries: u64) -> u64 {
    let mut state = seed;
    let mut sum = 0u64;
    for _ in 0..tries {
        state = next(state);
        sum = sum.wrapping_add(u64::from(set.contains(number(state))));
    }
    sum
}

/// Fills a set and has `work` done on it, which empties it and tells a number, `rounds` times. Adds those numbers. `work` is
/// given the state of the sequence after the set was filled.
fn repeated<F: Fn(&mut BitSet<512>, u64) -> u64>(seed: u64, tries: u64, rounds: u64, work: F) -> u64
    requires { F.IsAlwaysCallable work }
{
    let mut set = BitSet::new();
    let mut state = seed;
    let mut sum = 0u64;
    for _ in 0..rounds {
        state = fill(&mut set, state, tries);
        sum = sum.wrapping_add(work(&mut set, state));
    }
    sum
}

/// Fills and drains a set, `rounds` times.
#[unsafe(no_mangle)]
pub extern "C" fn bitset_drain(seed: u64, tries: u64, rounds: u64) -> u64 {
    repeated(seed, tries, rounds, |set, _| drained(set))
}

/// Fills a set, and counts and removes its members range by range, `rounds` times.
#[unsafe(no_mangle)]
pub extern "C" fn bitset_sweep(seed: u64, tries: u64, rounds: u64) -> u64 {
    repeated(seed, tries, rounds, |set, state| swept(set, number(state)))
}

/// Fills a set, asks it for 1,000 numbers, and clears it, `rounds` times.
#[unsafe(no_mangle)]
pub extern "C" fn bitset_ask(seed: u64, tries: u64, rounds: u64) -> u64 {
    repeated(seed, tries, rounds, |set, state| {
        let found = hits(set, state, 1000);
        set.clear();
        found
    })
}
