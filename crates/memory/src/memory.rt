//! What a heap holds.
use crate::phase::Phase;
use bitset::BitSet;
use layout::Layout;
use std::marker::PhantomData;
use store::Store;
use tables::{Cards, Marks, Regions};

/// The words of a heap, its tables and its roots.
///
/// Contracts read it by `view`. It has no `impl Model`, whose value may hold no function, as the sets of a state are.
#[derive(Drop)]
pub struct Memory<S: Store, L: Layout> {
    /// The words.
    pub store: S,
    /// What a header says.
    pub layout: PhantomData<L>,
    /// The place of the object that each root holds, if it holds one.
    pub roots: [Option<u32>; 64],
    /// The regions.
    pub regions: Regions,
    /// The places at which objects start.
    pub starts: BitSet<512>,
    /// Which objects are marked and pending.
    pub marks: Marks,
    /// Which cards are dirty and remembered.
    pub cards: Cards,
    /// How far the marking is.
    pub phase: Phase,
}
