//! The phases of a heap.

/// How far the marking of objects is.
#[derive(Clone, Copy, PartialEq, Eq, Debug)]
pub enum Phase {
    /// It was never begun.
    Idle,
    /// It is under way.
    Marking,
    /// It is done.
    Marked,
}
