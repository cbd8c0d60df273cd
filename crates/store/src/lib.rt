//! Stores: lists of 32-bit words of fixed length, each read and written at an index.
#![tactic(auto)]

mod bytes;
mod words;

ghost use Rattle.std.specs.Prelude.{◌≡◌, ℕ, List, length, slice_index, slice_set};
ghost use Rattle.store.specs.Access.{read_at, write_at};

pub use bytes::ByteStore;
pub use words::WordStore;

/// The index lies at or past the length of the store.
#[derive(Clone, Copy, PartialEq, Eq, Debug)]
pub struct Outside;

/// A list of 32-bit words of fixed length.
///
/// `words` is that list. `spare` is what else the store holds and no call touches, such as bytes that make up no whole word.
/// The contracts speak of nothing else: a store may rest on anything that keeps words. Every call takes any index, and one at
/// or past the length is refused.
pub trait Store {
    ghost words: { Self → List ℕ };

    ghost spare: { Self → List ℕ };

    /// How many words the store has.
    fn len(&self) -> usize
        ensures { result ≡ length (words self.now) };

    /// The word at `index`. It alters nothing.
    fn read(&self, index: usize) -> Result<u32, Outside>
        ensures { result ≡ read_at (words self.now) index };

    /// Puts `word` at `index`. All other words stay as they were, and where `index` lies outside all words do.
    fn write(&mut self, index: usize, word: u32) -> Result<(), Outside>
        ensures answer { result ≡ write_at (words self.old) index }
        ensures after { words self.new ≡ slice_set (words self.old) index word }
        ensures spare { spare self.new ≡ spare self.old };
}

/// The word at `index`, or 0 where `index` lies outside.
pub fn word_or_zero<S: Store>(store: &S, index: u32) -> u32
    ensures { result ≡ slice_index (S.words store.now) index }
{
    store.read(index as usize).unwrap_or(0)
}
