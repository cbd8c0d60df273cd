//! Marking the objects of a memory, and refining its cards, in small steps.
//!
//! Every call takes any memory, whatever its words and tables hold, and does what its definition says.
#![tactic(auto)]

mod admission;
mod referents;
mod refining;
mod scanning;

pub use admission::{Step, admit};
pub use refining::{Refined, refine};
pub use scanning::{Marked, begin, mark};
