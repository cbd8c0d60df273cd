//! What was asked of a heap and what it answered, as lines of text.
#![tactic(auto)]

mod answered;
mod asked;
mod line;

pub use answered::Answered;
pub use asked::Asked;
pub use line::Line;
