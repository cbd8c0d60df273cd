//! The tables of a heap: its regions, its cards, and the marks of its objects.
//!
//! Every call takes any numbers: a region, a card or a place that there is none of is read as an empty one, and writing to it
//! alters nothing.
#![tactic(auto)]

mod cards;
mod marks;
mod region;
mod regions;

pub use cards::Cards;
pub use marks::Marks;
pub use region::{Kind, Region};
pub use regions::Regions;
