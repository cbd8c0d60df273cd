//! What can be asked of a heap through its roots, and what it answers.
ghost use Rattle.model.specs.Refusals.{number_of};
ghost use Rattle.std.specs.Prelude.{◌≡◌};

/// Why a call is refused.
#[derive(Clone, Copy, PartialEq, Eq, Debug)]
pub enum Refusal {
    /// A root number of the call is above 63.
    RootAbove63,
    /// The layout does not call the header legal.
    IllegalHeader,
    /// The work list has fewer words than the image has objects.
    WorkListShort,
    /// The output has fewer bytes than the image.
    OutputShort,
    /// The root whose object the call speaks of is nil.
    RootNil,
    /// The object has no position of the sort wanted there.
    WrongPosition,
    /// The object cannot be placed.
    NoSpace,
    /// A marking is under way.
    AlreadyMarking,
    /// No marking is under way.
    NotMarking,
    /// No marking is done.
    NotMarked,
}

/// The number by which the refusal is reported.
impl From<Refusal> for u32 {
    ghost from_gives = { λ refusal number. number ≡ number_of refusal };

    fn from(refusal: Refusal) -> u32 {
        match refusal {
            Refusal::RootAbove63 => 1,
            Refusal::IllegalHeader => 2,
            Refusal::WorkListShort => 5,
            Refusal::OutputShort => 6,
            Refusal::RootNil => 31,
            Refusal::WrongPosition => 32,
            Refusal::NoSpace => 33,
            Refusal::AlreadyMarking => 34,
            Refusal::NotMarking => 35,
            Refusal::NotMarked => 36,
        }
    }
}

/// An edit. Objects are named by the roots that hold them: `i` is the root of the object that the edit speaks of, `k` the
/// other root.
#[derive(Clone, Copy)]
pub enum Edit {
    /// Makes an object with that header and a body of zeros; the root then holds it.
    New { root: u32, header: u32 },
    /// Stores what root `k` holds at a reference position.
    Set { i: u32, position: u32, k: u32 },
    /// Loads root `k` from a reference position.
    Get { i: u32, position: u32, k: u32 },
    /// Stores a word at a plain position.
    Put { i: u32, position: u32, word: u32 },
    /// Asks for the word at a plain position.
    Peek { i: u32, position: u32 },
    /// Makes root `k` hold what root `i` holds.
    Copy { i: u32, k: u32 },
    /// Makes root `i` nil.
    Clear { i: u32 },
    /// Asks whether two roots hold the same.
    Same { i: u32, k: u32 },
    /// Asks for the header.
    Head { i: u32 },
}

/// The answer to an edit that is granted.
#[derive(Clone, Copy)]
pub enum Reply {
    /// It is done, and there is no more to say.
    Granted,
    /// The plain word, or the header.
    Word(u32),
    /// Whether the two roots hold the same.
    Same(bool),
}
