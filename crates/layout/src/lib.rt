//! What the header word of an object says: whether it is legal, how many words the object has, and which of them are
//! references.
#![tactic(auto)]

mod cabling;
mod counted;

ghost use Rattle.std.specs.Prelude.{◌≡◌, ℕ};
ghost use Rattle.layout.specs.Shape.{Shape, Lawful, plain};

pub use cabling::{Cabling, Kind};
pub use counted::Counted;

/// How the words of an object are told from its header, which is the first of them.
///
/// An object has from 1 to 64 words, and its references stand at positions from 1 to its size less 1. A header that is not
/// legal has size 0, and no position of it holds a reference.
pub trait Layout {
    ghost shape: { Shape };

    ghost IMAGE_SIGN: { ℕ };

    /// The sign that images of this layout carry, from 1 to 127.
    const IMAGE_SIGN: u32;

    ghost SAMPLE_HEADER: { ℕ };

    /// A header that is legal.
    const SAMPLE_HEADER: u32;

    /// Whether `header` is legal.
    fn legal(header: u32) -> bool
        ensures { result ≡ shape.legal header };

    /// How many words an object under `header` has, the header included; 0 where `header` is not legal.
    fn size(header: u32) -> u32
        ensures { result ≡ shape.size header };

    /// Whether the word at `position` of an object under `header` is a reference; never where `header` is not legal.
    fn is_reference(header: u32, position: u32) -> bool
        ensures { result ≡ shape.reference header position };

    ghost lawful: { Lawful shape };

    // The sign and the sample of the shape are the constants.
    ghost sign: { IMAGE_SIGN ≡ shape.sign };

    ghost sample: { SAMPLE_HEADER ≡ shape.sample };
}

/// Whether the word at `position` of an object under `header` is plain: it stands after the header, and is no reference.
/// Never where `header` is not legal.
pub fn is_plain<L: Layout>(header: u32, position: u32) -> bool
    ensures { result ≡ plain L.shape header position }
{
    (1..L::size(header)).contains(&position) && !L::is_reference(header, position)
}
