//! Calls as text.
ghost use Rattle.daybook.specs.Lines.{call_text};
ghost use Rattle.std.specs.Prelude.{Some};

use life::Call;
use model::Edit;
use std::fmt;

/// A call, shown by its name and its arguments in order, as `peek 3 3`.
#[derive(Clone, Copy)]
pub struct Asked(pub Call);

impl fmt::Display for Asked {
    ghost output = { λ a. Some (call_text a.0) };

    fn fmt<W: fmt::Write>(&self, f: &mut fmt::Formatter<W>) -> fmt::Result {
        match self.0 {
            Call::Edit(Edit::New { root, header }) => write!(f, "new {root} {header}"),
            Call::Edit(Edit::Set { i, position, k }) => write!(f, "set {i} {position} {k}"),
            Call::Edit(Edit::Get { i, position, k }) => write!(f, "get {i} {position} {k}"),
            Call::Edit(Edit::Put { i, position, word }) => write!(f, "put {i} {position} {word}"),
            Call::Edit(Edit::Peek { i, position }) => write!(f, "peek {i} {position}"),
            Call::Edit(Edit::Copy { i, k }) => write!(f, "copy {i} {k}"),
            Call::Edit(Edit::Clear { i }) => write!(f, "clear {i}"),
            Call::Edit(Edit::Same { i, k }) => write!(f, "same {i} {k}"),
            Call::Edit(Edit::Head { i }) => write!(f, "head {i}"),
            Call::Begin => write!(f, "begin"),
            Call::Mark => write!(f, "mark"),
            Call::Refine => write!(f, "refine"),
        }
    }
}
