//! The memory of a heap: the words of its store, its tables and its roots, and the edits on them.
//!
//! Every call takes any arguments on any memory, whatever its words and tables hold, and does what its definition says. That
//! the words below the fills are objects, and that references name objects, is the business of the crate above.
#![tactic(auto)]

mod edits;
mod memory;
mod objects;
mod phase;

pub use edits::reference_to;
pub use memory::Memory;
pub use phase::Phase;
