//! A life of a heap: any list of calls, served one after another on a heap that is made for it.
#![tactic(auto)]

mod calls;
mod living;

pub use calls::{Answer, Call};
pub use living::{live, serve};
