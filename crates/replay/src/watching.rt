//! A checksum of all that a heap knows, after each call.
use crate::running::call_at;
use heap::Heap;
use layout::Layout;
use life::serve;
use memory::{Memory, reference_to};
use store::Store;

/// A checksum, by 31 times what it was plus the next number.
fn add(sum: u32, number: u32) -> u32 {
    sum.wrapping_mul(31).wrapping_add(number)
}

/// Adds the kind, fill, live count and stamp of each region. Kinds are numbered in the order of their declaration.
fn add_regions<S: Store, L: Layout>(memory: &Memory<S, L>, sum: u32) -> u32 {
    (0..memory.regions.count).fold(sum, |sum, g| {
        let region = memory.regions.get(g);
        [region.kind as u32, region.fill, region.live, region.stamp]
            .iter()
            .fold(sum, |sum, number| add(sum, *number))
    })
}

// Each of the sums below is one fold over another thing that the memory tells; a function that takes the question as a closure
// would be as long.

/// Adds 1 for each dirty card and 0 for each clean one.
fn add_dirty<S: Store, L: Layout>(memory: &Memory<S, L>, sum: u32) -> u32 {
    (0..16 * u32::from(memory.regions.count)).fold(sum, |sum, card| {
        add(sum, u32::from(memory.cards.is_dirty(card)))
    })
}

/// Adds 1 for each card in the table of a region and 0 for each other.
fn add_table<S: Store, L: Layout>(memory: &Memory<S, L>, region: u32, sum: u32) -> u32 {
    (0..16 * u32::from(memory.regions.count)).fold(sum, |sum, card| {
        add(sum, u32::from(memory.cards.is_remembered(region, card)))
    })
}

/// Does so for the tables of all regions.
fn add_tables<S: Store, L: Layout>(memory: &Memory<S, L>, sum: u32) -> u32 {
    (0..memory.regions.count).fold(sum, |sum, g| add_table(memory, u32::from(g), sum))
}

/// Adds for each place 2 if it is marked, and 1 more if it is pending.
fn add_marks<S: Store, L: Layout>(memory: &Memory<S, L>, sum: u32) -> u32 {
    (0..1024 * u32::from(memory.regions.count)).fold(sum, |sum, place| {
        let marked = u32::from(memory.marks.is_marked(place));
        let pending = u32::from(memory.marks.is_pending(place));
        add(sum, 2 * marked + pending)
    })
}

/// Adds what each root holds: the place + 1, or 0.
fn add_roots<S: Store, L: Layout>(memory: &Memory<S, L>, sum: u32) -> u32 {
    memory
        .roots
        .iter()
        .fold(sum, |sum, root| { add(sum, reference_to(*root)) })
}

/// The checksum of a memory. Phases are numbered in the order of their declaration.
fn checksum<S: Store, L: Layout>(memory: &Memory<S, L>) -> u32 {
    let sum = add_regions(memory, memory.phase as u32);
    let sum = add_tables(memory, add_dirty(memory, sum));
    add_roots(memory, add_marks(memory, sum))
}

/// Runs calls on a heap in `words`, and stores the checksum after each. The answer is how many calls were run.
pub fn watch<L: Layout>(calls: &[u32], words: &mut [u32], sums: &mut [u32]) -> u64 {
    let mut heap = Heap::<&mut [u32], L>::over(words);
    for (k, sum) in sums.iter_mut().enumerate() {
        let Some(call) = call_at(calls, k) else {
            return k as u64;
        };
        let _ = serve(&mut heap, call);
        *sum = checksum(heap.memory());
    }
    sums.len() as u64
}
