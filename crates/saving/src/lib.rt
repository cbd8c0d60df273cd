//! Saving: the image of what the roots of a memory reach.
//!
//! It takes any memory, whatever its words and tables hold. Objects are numbered as they are first met in a work list, which
//! the caller lends.
#![tactic(auto)]

mod numbered;
mod numbering;
mod passes;

ghost use Rattle.canonical.specs.Saving.{content_of};
ghost use Rattle.memory.specs.Graph.{graph_in};
ghost use Rattle.memory.specs.State.{view};
ghost use Rattle.saving.specs.Saved.{room, saved};
ghost use Rattle.std.specs.Prelude.{◌≡◌, length, replicate};

use crate::numbered::Numbered;
use crate::numbering::number_objects;
use layout::Layout;
use memory::Memory;
use model::Refusal;
use store::Store;

/// Writes the image of what the roots reach at the start of the output, and tells its length.
fn write_image<S: Store, L: Layout>(
    memory: &Memory<S, L>,
    list: &mut [u32],
    output: &mut [u8],
) -> Result<usize, Refusal>
    ensures { (result, output.new) ≡ saved L.shape (content_of L.shape (graph_in (view S.words S.spare memory.now)) (room (length list.old))) (room (length list.old)) output.old }
{
    let count = number_objects(memory, list)?;
    Numbered::of(memory, &list[..count]).write(output)
}

/// Writes the image of what the roots reach at the start of the output, and tells its length. Later bytes of the output stay.
/// The work list may hold anything, and is all 0 after the call.
/// Refused: 5 if the work list is shorter than the objects are many, or they are more than there are places for objects; 6 if
/// the output is shorter than the image. A refusal alters no byte of the output.
pub fn save<S: Store, L: Layout>(
    memory: &Memory<S, L>,
    list: &mut [u32],
    output: &mut [u8],
) -> Result<usize, Refusal>
    ensures answer { (result, output.new) ≡ saved L.shape (content_of L.shape (graph_in (view S.words S.spare memory.now)) (room (length list.old))) (room (length list.old)) output.old }
    ensures list { list.new ≡ replicate (length list.old) 0 }
{
    let answer = write_image(memory, list, output);
    list.fill(0);
    answer
}
