//! One line: a call and its answer.
ghost use Rattle.daybook.specs.Lines.{line_of};
ghost use Rattle.std.specs.Prelude.{Some};

use crate::answered::Answered;
use crate::asked::Asked;
use life::{Answer, Call};
use model::Refusal;
use std::fmt;

/// A call and what it was answered, shown as `peek 3 3: 500`.
#[derive(Clone, Copy)]
pub struct Line {
    /// What was asked.
    pub call: Call,
    /// What was answered.
    pub answer: Result<Answer, Refusal>,
}

impl fmt::Display for Line {
    ghost output = { λ l. Some (line_of l.call l.answer) };

    fn fmt<W: fmt::Write>(&self, f: &mut fmt::Formatter<W>) -> fmt::Result {
        let asked = Asked(self.call);
        let answered = Answered(self.answer);
        write!(f, "{asked}: {answered}")
    }
}
