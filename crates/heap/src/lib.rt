//! A heap of objects in regions, edited through 64 roots.
#![tactic(auto)]

mod edits;
mod heap;
mod images;
mod steps;

pub use heap::Heap;
