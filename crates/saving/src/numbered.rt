//! The numbers of an image, in their order.
ghost use Rattle.canonical.specs.Saving.{object_of, roots_of};
ghost use Rattle.memory.specs.Graph.{graph_in};
ghost use Rattle.memory.specs.State.{view};
ghost use Rattle.saving.specs.Passes.{content_in, head_numbers, image_numbers, number_in, object_numbers, objects_numbers};
ghost use Rattle.saving.specs.Saved.{fitted};
ghost use Rattle.std.specs.Prelude.{◌≡◌, ◌≤◌, fold, length, map};

use crate::numbering::{place_of, root_count};
use crate::passes::{Measure, Pass, Write};
use layout::Layout;
use memory::{Memory, reference_to};
use model::Refusal;
use store::Store;

/// What an image is made of: a memory, and the references of the objects in the order of their numbers.
#[derive(Drop)]
pub(crate) struct Numbered<'a, S: Store, L: Layout> {
    memory: &'a Memory<S, L>,
    entries: &'a [u32],
    ghost few: { length entries.now ≤ 32768 },
}

impl<'a, S: Store, L: Layout> Numbered<'a, S, L> {
    /// The image of the objects that the entries refer to.
    pub(crate) fn of(memory: &'a Memory<S, L>, entries: &'a [u32]) -> Numbered<'a, S, L>
        requires { length entries.now ≤ 32768 }
        ensures memory { result.memory.now ≡ memory.now }
        ensures entries { result.entries.now ≡ entries.now }
    {
        Numbered { memory, entries }
    }

    /// The number of a reference.
    fn number(&self, reference: u32) -> u32
        ensures { result ≡ number_in self.now.entries.now reference }
    {
        if reference == 0 {
            0
        } else {
            1 + place_of(self.entries, reference) as u32
        }
    }

    /// Passes over the roots up to the last that is not nil.
    fn roots<P: Pass>(&self, output: &mut [u8], mut at: usize) -> usize
        ensures { (result, output.new) ≡ fold P.step (at, output.old) (map (number_in self.now.entries.now) (roots_of (graph_in (view S.words S.spare self.now.memory.now)))) }
    {
        let roots = &self.memory.roots[..root_count(self.memory)];
        for root in roots {
            at = P::number(output, at, self.number(reference_to(*root)));
        }
        at
    }

    /// Passes over the object of a reference: its header, and the words after it.
    fn object<P: Pass>(&self, output: &mut [u8], mut at: usize, reference: u32) -> usize
        ensures { (result, output.new) ≡ fold P.step (at, output.old) (object_numbers (object_of L.shape (graph_in (view S.words S.spare self.now.memory.now)) (number_in self.now.entries.now) reference)) }
    {
        let Some(place) = reference.checked_sub(1) else {
            return P::number(output, at, 0);
        };
        let header = self.memory.word(place as usize);
        at = P::number(output, at, header);
        for position in 1..L::size(header) {
            let word = self.memory.word(place as usize + position as usize);
            let value = if L::is_reference(header, position) {
                self.number(word)
            } else {
                word
            };
            at = P::number(output, at, value);
        }
        at
    }

    /// Passes over the objects.
    fn objects<P: Pass>(&self, output: &mut [u8], mut at: usize) -> usize
        ensures { (result, output.new) ≡ fold P.step (at, output.old) (objects_numbers (map (object_of L.shape (graph_in (view S.words S.spare self.now.memory.now)) (number_in self.now.entries.now)) self.now.entries.now)) }
    {
        for entry in self.entries {
            at = self.object::<P>(output, at, *entry);
        }
        at
    }

    /// Passes over the start and the counts.
    fn head<P: Pass>(&self, output: &mut [u8]) -> usize
        ensures { (result, output.new) ≡ fold P.step (0, output.old) (head_numbers L.shape (content_in L.shape (graph_in (view S.words S.spare self.now.memory.now)) self.now.entries.now)) }
    {
        let at = P::number(output, 0, 0x43);
        let at = P::number(output, at, 0x4D);
        let at = P::number(output, at, L::IMAGE_SIGN);
        let at = P::number(output, at, self.entries.len() as u32);
        P::number(output, at, root_count(self.memory) as u32)
    }

    /// Passes over all numbers of the image, and tells the place after the last.
    fn pass<P: Pass>(&self, output: &mut [u8]) -> usize
        ensures { (result, output.new) ≡ fold P.step (0, output.old) (image_numbers L.shape (content_in L.shape (graph_in (view S.words S.spare self.now.memory.now)) self.now.entries.now)) }
    {
        let at = self.head::<P>(output);
        let at = self.roots::<P>(output, at);
        self.objects::<P>(output, at)
    }

    /// Writes the image at the start of the output, if it has room there, and tells its length.
    pub(crate) fn write(&self, output: &mut [u8]) -> Result<usize, Refusal>
        ensures { (result, output.new) ≡ fitted L.shape (content_in L.shape (graph_in (view S.words S.spare self.now.memory.now)) self.now.entries.now) output.old }
    {
        let length = self.pass::<Measure>(output);
        if length > output.len() {
            return Err(Refusal::OutputShort);
        }
        self.pass::<Write>(output);
        Ok(length)
    }
}
