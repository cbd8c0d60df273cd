//! Answers as text.
ghost use Rattle.daybook.specs.Lines.{answer_text};
ghost use Rattle.std.specs.Prelude.{Some};

use life::Answer;
use marking::{Marked, Refined};
use model::{Refusal, Reply};
use std::fmt;

/// What a call was answered, shown as `granted`, as a number, as `yes` or `no`, as `refused 32`, or by the step that was done:
/// `begun`, `scanned`, `done`, `refined` or `clean`.
#[derive(Clone, Copy)]
pub struct Answered(pub Result<Answer, Refusal>);

impl fmt::Display for Answered {
    ghost output = { λ a. Some (answer_text a.0) };

    fn fmt<W: fmt::Write>(&self, f: &mut fmt::Formatter<W>) -> fmt::Result {
        match self.0 {
            Ok(Answer::Edit(Reply::Granted)) => write!(f, "granted"),
            Ok(Answer::Edit(Reply::Word(word))) => write!(f, "{word}"),
            Ok(Answer::Edit(Reply::Same(true))) => write!(f, "yes"),
            Ok(Answer::Edit(Reply::Same(false))) => write!(f, "no"),
            Ok(Answer::Begun) => write!(f, "begun"),
            Ok(Answer::Mark(Marked::Scanned)) => write!(f, "scanned"),
            Ok(Answer::Mark(Marked::Done)) => write!(f, "done"),
            Ok(Answer::Refine(Refined::Refined)) => write!(f, "refined"),
            Ok(Answer::Refine(Refined::Clean)) => write!(f, "clean"),
            Err(refusal) => write!(f, "refused {}", u32::from(refusal)),
        }
    }
}
