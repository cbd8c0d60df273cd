//! The heap that never collects. It says what a planner must see: objects under numbers in the order in which they were
//! made, 64 roots, and every edit.
#![tactic(auto)]

mod edits;
mod model;
mod object;
mod roots;

pub use edits::{Edit, Refusal, Reply};
pub use model::Model;
pub use roots::root_index;
