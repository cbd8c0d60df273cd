//! What can be asked of a heap, and what it answers.
use marking::{Marked, Refined};
use model::{Edit, Reply};

/// A call. It is data and no closure, since calls come in lists.
#[derive(Clone, Copy)]
pub enum Call {
    /// An edit of the model.
    Edit(Edit),
    /// A marking begins.
    Begin,
    /// One step of a marking.
    Mark,
    /// One card is refined.
    Refine,
}

/// The answer to a call that is not refused.
#[derive(Clone, Copy)]
pub enum Answer {
    /// The reply to an edit.
    Edit(Reply),
    /// A marking has begun.
    Begun,
    /// What a step of a marking did.
    Mark(Marked),
    /// What a refine did.
    Refine(Refined),
}
