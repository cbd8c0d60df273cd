//! The edits of objects that roots hold.
ghost use Rattle.memory.specs.Edits.{clear_root, copy_root, get_reference, guarded, head_of, named_by, noted, peek_word, put_word, reference_to, same_roots, set_reference, storing};
ghost use Rattle.memory.specs.State.{view, word_in};
ghost use Rattle.model.specs.declared.edits.Refusal.TheVariants.{RootNil, WrongPosition};
ghost use Rattle.std.specs.Prelude.{◌≡◌, Bool, cond, Ok, Err, MatchOption};

use crate::memory::Memory;
use crate::phase::Phase;
use layout::{Layout, is_plain};
use model::{Refusal, root_index};
use store::Store;

/// The reference of the object at a place, or nil.
pub fn reference_to(root: Option<u32>) -> u32
    ensures { result ≡ reference_to root }
{
    root.map_or(0, |place| place.saturating_add(1))
}

/// The place that a reference names, if it is not nil.
fn place_of(reference: u32) -> Option<u32>
    ensures { result ≡ named_by reference }
{
    reference.checked_sub(1)
}

impl<S: Store, L: Layout> Memory<S, L> {
    /// While marking, the object that an old reference names is marked and made pending, unless it is marked already.
    fn guard(&mut self, old: u32)
        ensures { view S.words S.spare self.new ≡ guarded self.old.phase (view S.words S.spare self.old) old }
    {
        if self.phase == Phase::Marking
            && let Some(place) = place_of(old)
        {
            self.marks.shade(place);
        }
    }

    /// The card of the object at a place becomes dirty, if a new reference of it names an object of another region.
    fn note(&mut self, place: u32, reference: u32)
        ensures { view S.words S.spare self.new ≡ noted (view S.words S.spare self.old) place reference }
    {
        if place_of(reference).is_some_and(|referent| referent / 1024 != place / 1024) {
            self.cards.make_dirty(place / 64);
        }
    }

    /// Stores a reference at a position of the object at a place.
    fn store_reference(&mut self, place: u32, position: u32, reference: u32)
        ensures { view S.words S.spare self.new ≡ storing (view S.words S.spare self.old) place position reference }
    {
        let at = place as usize + position as usize;
        let old = self.word(at);
        self.guard(old);
        self.set_word(at, reference);
        self.note(place, reference);
    }

    /// The place of the object that a root holds, if `has` says of its header that the position wanted is there.
    fn place_if<F: FnOnce(u32) -> bool>(&self, root: Option<u32>, has: F) -> Result<u32, Refusal>
        requires { F.IsAlwaysCallable has }
        ensures { MatchOption root (result ≡ Err RootNil) (λ place. (b : Bool) × F.post has (word_in (view S.words S.spare self.now) place) b × (result ≡ cond b (Ok place) (Err WrongPosition))) }
    {
        let place = root.ok_or(Refusal::RootNil)?;
        if has(self.word(place as usize)) {
            Ok(place)
        } else {
            Err(Refusal::WrongPosition)
        }
    }

    /// Stores what root `k` holds at a reference position of the object at root `i`.
    pub fn set(&mut self, i: u32, position: u32, k: u32) -> Result<(), Refusal>
        ensures { (result, view S.words S.spare self.new) ≡ set_reference L.shape (view S.words S.spare self.old) i position k }
    {
        let i = root_index(i)?;
        let k = root_index(k)?;
        let place = self.place_if(self.roots[i], |header| L::is_reference(header, position))?;
        let reference = reference_to(self.roots[k]);
        self.store_reference(place, position, reference);
        Ok(())
    }

    /// Loads root `k` from a reference position of the object at root `i`.
    pub fn get(&mut self, i: u32, position: u32, k: u32) -> Result<(), Refusal>
        ensures { (result, view S.words S.spare self.new) ≡ get_reference L.shape (view S.words S.spare self.old) i position k }
    {
        let i = root_index(i)?;
        let k = root_index(k)?;
        let place = self.place_if(self.roots[i], |header| L::is_reference(header, position))?;
        let reference = self.word(place as usize + position as usize);
        self.roots[k] = place_of(reference);
        Ok(())
    }

    /// Stores a word at a plain position of the object at root `i`.
    pub fn put(&mut self, i: u32, position: u32, word: u32) -> Result<(), Refusal>
        ensures { (result, view S.words S.spare self.new) ≡ put_word L.shape (view S.words S.spare self.old) i position word }
    {
        let i = root_index(i)?;
        let place = self.place_if(self.roots[i], |header| is_plain::<L>(header, position))?;
        self.set_word(place as usize + position as usize, word);
        Ok(())
    }

    /// The word at a plain position of the object at root `i`.
    pub fn peek(&self, i: u32, position: u32) -> Result<u32, Refusal>
        ensures { result ≡ peek_word L.shape (view S.words S.spare self.now) i position }
    {
        let i = root_index(i)?;
        let place = self.place_if(self.roots[i], |header| is_plain::<L>(header, position))?;
        Ok(self.word(place as usize + position as usize))
    }

    /// Makes root `k` hold what root `i` holds.
    pub fn copy(&mut self, i: u32, k: u32) -> Result<(), Refusal>
        ensures { (result, view S.words S.spare self.new) ≡ copy_root (view S.words S.spare self.old) i k }
    {
        let i = root_index(i)?;
        let k = root_index(k)?;
        self.roots[k] = self.roots[i];
        Ok(())
    }

    /// Makes root `i` nil.
    pub fn clear(&mut self, i: u32) -> Result<(), Refusal>
        ensures { (result, view S.words S.spare self.new) ≡ clear_root (view S.words S.spare self.old) i }
    {
        self.roots[root_index(i)?] = None;
        Ok(())
    }

    /// Whether roots `i` and `k` hold the same.
    pub fn same(&self, i: u32, k: u32) -> Result<bool, Refusal>
        ensures { result ≡ same_roots (view S.words S.spare self.now) i k }
    {
        let i = root_index(i)?;
        let k = root_index(k)?;
        // The references are compared, and not the places: the two highest places have one reference.
        Ok(reference_to(self.roots[i]) == reference_to(self.roots[k]))
    }

    /// The header of the object at root `i`.
    pub fn head(&self, i: u32) -> Result<u32, Refusal>
        ensures { result ≡ head_of (view S.words S.spare self.now) i }
    {
        let place = self.roots[root_index(i)?].ok_or(Refusal::RootNil)?;
        Ok(self.word(place as usize))
    }
}
