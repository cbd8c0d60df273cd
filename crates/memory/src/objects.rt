//! Making a memory, and making objects in it.
ghost use Rattle.std.specs.Prelude.{◌≡◌, ◌+◌, slice_index};
ghost use Rattle.memory.specs.Objects.{born, laid, making, new_object, zeroed};
ghost use Rattle.memory.specs.State.{view, with_start, with_word};

use crate::memory::Memory;
use crate::phase::Phase;
use bitset::BitSet;
use layout::Layout;
use model::{Refusal, root_index};
use std::marker::PhantomData;
use store::Store;
use tables::{Cards, Marks, Regions};

/// Writes `count` zeros after the word at a place.
#[tactic(auto, unfolding(crate::specs::Objects::zeroed))]
fn write_zeros<S: Store>(store: &mut S, place: u32, count: u32)
    ensures words { S.words store.new ≡ zeroed (S.words store.old) (place + 1) count }
    ensures spare { S.spare store.new ≡ S.spare store.old }
{
    let start = place as usize + 1;
    for index in start..start + count as usize {
        let _ = store.write(index, 0);
    }
}

impl<S: Store, L: Layout> Memory<S, L> {
    /// A memory without objects, on the words of a store. It writes no word.
    pub fn over(store: S) -> Memory<S, L>
        ensures { view S.words S.spare result ≡ making (S.words store) (S.spare store) }
    {
        let regions = Regions::new(store.len());
        Memory {
            store,
            layout: PhantomData,
            roots: [None; 64],
            regions,
            starts: BitSet::new(),
            marks: Marks::new(),
            cards: Cards::new(),
            phase: Phase::Idle,
        }
    }

    /// The word at an index; 0 where there is none.
    pub fn word(&self, index: usize) -> u32
        ensures { result ≡ slice_index (S.words self.now.store) index }
    {
        self.store.read(index).unwrap_or(0)
    }

    /// Puts a word at an index, if there is one.
    pub fn set_word(&mut self, index: usize, word: u32)
        ensures { view S.words S.spare self.new ≡ with_word (view S.words S.spare self.old) index word }
    {
        let _ = self.store.write(index, word);
    }

    /// Writes an object at a place: its header and a body of zeros.
    fn lay(&mut self, place: u32, header: u32, size: u32)
        ensures { view S.words S.spare self.new ≡ laid (view S.words S.spare self.old) place header size }
    {
        self.set_word(place as usize, header);
        write_zeros(&mut self.store, place, size.saturating_sub(1));
        self.add_start(place);
    }

    /// An object starts at a place.
    fn add_start(&mut self, place: u32)
        ensures { view S.words S.spare self.new ≡ with_start (view S.words S.spare self.old) place }
    {
        self.starts.insert(place as usize);
    }

    /// Marks the new object at a place and counts it live, unless no marking was ever begun.
    fn mark_new(&mut self, place: u32, size: u32)
        ensures { view S.words S.spare self.new ≡ born self.old.phase (view S.words S.spare self.old) place size }
    {
        if self.phase != Phase::Idle {
            let region = self.regions.last;
            self.marks.mark(place, size);
            self.regions.add_live(region, size);
        }
    }

    /// Makes an object with a body of zeros; the root then holds it.
    pub fn new(&mut self, root: u32, header: u32) -> Result<(), Refusal>
        ensures { (result, view S.words S.spare self.new) ≡ new_object L.shape (view S.words S.spare self.old) root header }
    {
        let root = root_index(root)?;
        if !L::legal(header) {
            return Err(Refusal::IllegalHeader);
        }
        let size = L::size(header);
        let place = self.regions.take(size).ok_or(Refusal::NoSpace)?;
        self.lay(place, header, size);
        self.mark_new(place, size);
        self.roots[root] = Some(place);
        Ok(())
    }
}
