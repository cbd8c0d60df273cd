//! What an object refers to.
ghost use Rattle.marking.specs.Referents.{referent_in};
ghost use Rattle.memory.specs.State.{view};
ghost use Rattle.std.specs.Prelude.{◌≡◌};

use layout::Layout;
use memory::Memory;
use store::Store;

/// The place that the word at a position of the object at a place names, if it is a reference and not nil.
pub(crate) fn referent<S: Store, L: Layout>(
    memory: &Memory<S, L>,
    place: u32,
    header: u32,
    position: u32,
) -> Option<u32>
    ensures { result ≡ referent_in L.shape (view S.words S.spare memory.now) place header position }
{
    if L::is_reference(header, position) {
        memory
            .word(place as usize + position as usize)
            .checked_sub(1)
    } else {
        None
    }
}
