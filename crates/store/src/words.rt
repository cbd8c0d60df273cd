//! The stores over words: a vector that the store owns, and words that are lent to it.
ghost use Rattle.std.specs.Prelude.{◌≡◌, [], slice_set};
ghost use Rattle.store.specs.Access.{read_at, write_at};
ghost use Rattle.store.specs.Held.{words_in};

use crate::{Outside, Store};

/// A store over a vector of words, which it owns.
#[derive(Drop)]
pub struct WordStore {
    items: Vec<u32>,
}

impl WordStore {
    /// The store of the words of `items`.
    pub fn new(items: Vec<u32>) -> WordStore
        ensures { words_in result ≡ items.items }
    {
        Self { items }
    }

    /// Gives the memory back, with the words of the store.
    pub fn into_words(self) -> Vec<u32>
        ensures { result.items ≡ words_in self }
    {
        let WordStore { items } = self;
        items
    }
}

impl Store for WordStore {
    ghost words = { words_in };

    ghost spare = { λ _. [] };

    fn len(&self) -> usize {
        self.items.len()
    }

    fn read(&self, index: usize) -> Result<u32, Outside> {
        read(&self.items, index)
    }

    fn write(&mut self, index: usize, word: u32) -> Result<(), Outside> {
        write(&mut self.items, index, word)
    }
}

/// The store over words of a caller, which are lent to it.
impl Store for &mut [u32] {
    ghost words = { λ s. s.now };

    ghost spare = { λ _. [] };

    fn len(&self) -> usize {
        (**self).len()
    }

    fn read(&self, index: usize) -> Result<u32, Outside> {
        read(self, index)
    }

    fn write(&mut self, index: usize, word: u32) -> Result<(), Outside> {
        write(self, index, word)
    }
}

/// The word at `index`.
fn read(words: &[u32], index: usize) -> Result<u32, Outside>
    ensures { result ≡ read_at words.now index }
{
    words.get(index).copied().ok_or(Outside)
}

/// Puts `word` at `index`. All other words stay as they were, and where `index` lies outside all words do.
fn write(words: &mut [u32], index: usize, word: u32) -> Result<(), Outside>
    ensures answer { result ≡ write_at words.old index }
    ensures after { words.new ≡ slice_set words.old index word }
{
    // The contract of `get_mut` leaves open what the other words are after the write.
    if index >= words.len() {
        return Err(Outside);
    }
    words[index] = word;
    Ok(())
}
