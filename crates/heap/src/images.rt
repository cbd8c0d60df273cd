//! Saving a heap.
ghost use Rattle.canonical.specs.Saving.{content_of};
ghost use Rattle.heap.specs.Effects.{graph_of};
ghost use Rattle.heap.specs.Images.{places};
ghost use Rattle.heap.specs.View.{state_of};
ghost use Rattle.saving.specs.Saved.{saved};
ghost use Rattle.std.specs.Prelude.{◌≡◌, length, replicate};

use crate::heap::Heap;
use layout::Layout;
use model::Refusal;
use store::Store;

impl<S: Store, L: Layout> Heap<S, L> {
    /// Writes the image of what the roots reach at the start of the output, and tells its length. Later bytes of the output
    /// stay. The work list may hold anything, and is all 0 after the call.
    /// Refused: 5 if the work list is shorter than the objects of the image are many, 6 if the output is shorter than the image.
    /// A refusal alters no byte of the output.
    pub fn save(&self, list: &mut [u32], output: &mut [u8]) -> Result<usize, Refusal>
        ensures answer { (result, output.new) ≡ saved L.shape (content_of L.shape (graph_of (state_of S.words S.spare self.now)) places) (length list.old) output.old }
        ensures list { list.new ≡ replicate (length list.old) 0 }
    {
        saving::save(&self.memory, list, output)
    }
}
