//! The store over a vector of bytes.
ghost use Rattle.std.specs.Prelude.{◌≡◌, ◌/◌, ◌++◌, length};
ghost use Rattle.store.specs.Held.{decoded_words, spare_bytes};
ghost use Rattle.store.specs.Words.{words_of, bytes_of, spare_of, word_done, word_written};

use crate::{Outside, Store};

/// A store over a vector of bytes, which it owns: four bytes a word, lowest byte first.
///
/// Up to three bytes at the end belong to no word. These spare bytes stay as they are through every write.
#[derive(Drop)]
pub struct ByteStore {
    bytes: Vec<u8>,
}

impl ByteStore {
    /// The store of the words that `bytes` holds.
    pub fn new(bytes: Vec<u8>) -> ByteStore
        ensures words { decoded_words result ≡ words_of bytes.items }
        ensures spare { spare_bytes result ≡ spare_of bytes.items }
    {
        Self { bytes }
    }

    /// Gives the memory back: the words of the store as bytes, and after them the spare bytes.
    #[tactic(auto, using(crate::proofs::Laws::bytes_back))]
    pub fn into_bytes(self) -> Vec<u8>
        ensures { result.items ≡ bytes_of (decoded_words self) ++ spare_bytes self }
    {
        let ByteStore { bytes } = self;
        bytes
    }
}

impl Store for ByteStore {
    ghost words = { decoded_words };

    ghost spare = { spare_bytes };

    #[tactic(auto, using(crate::proofs::Laws::held_words))]
    fn len(&self) -> usize {
        word_count(self.bytes.as_slice())
    }

    #[tactic(auto, using(crate::proofs::Laws::held_words))]
    fn read(&self, index: usize) -> Result<u32, Outside> {
        let (words, _) = self.bytes.as_chunks::<4>();
        words
            .get(index)
            .map(|word| u32::from_le_bytes(*word))
            .ok_or(Outside)
    }

    fn write(&mut self, index: usize, word: u32) -> Result<(), Outside> {
        write_word(self.bytes.as_mut_slice(), index, word)
    }
}

/// How many whole words `bytes` holds.
fn word_count(bytes: &[u8]) -> usize
    ensures { result ≡ length bytes.now / 4 }
{
    bytes.len() / 4
}

/// Puts `word` at `index`. All other bytes stay as they were, and where `index` lies outside all bytes do.
fn write_word(bytes: &mut [u8], index: usize, word: u32) -> Result<(), Outside>
    ensures answer { result ≡ word_done bytes.old index }
    ensures after { bytes.new ≡ word_written bytes.old index word }
{
    if index >= word_count(bytes) {
        return Err(Outside);
    }
    // By place: the contract of `as_chunks_mut` leaves open what the bytes are after the write.
    let at = 4 * index;
    let [low, second, third, high] = word.to_le_bytes();
    bytes[at] = low;
    bytes[at + 1] = second;
    bytes[at + 2] = third;
    bytes[at + 3] = high;
    Ok(())
}
