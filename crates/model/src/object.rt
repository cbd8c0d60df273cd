//! An object of the heap.
ghost use Rattle.std.specs.Prelude.{◌≡◌, [], replicate, IfOk, slice_index, slice_set};

use std::alloc::{AllocError, Global};
use std::marker::Model;

/// A header and the words after it. To a contract it is an object of a content.
#[derive(Drop)]
pub(crate) struct Object {
    pub(crate) header: u32,
    body: Vec<u32>,
}

impl Model for Object {
    ghost use Rattle.image.specs.Content.{Object as Stored};

    ghost Value = { Stored };

    ghost use Rattle.model.specs.Held.{object_of};

    ghost view = { object_of };
}

impl Object {
    /// An object with a body of `count` zeros.
    pub(crate) fn blank(heap: Global, header: u32, count: usize) -> Result<Object, AllocError>
        ensures { IfOk result (λ o. o ≡ record { header = header; body = replicate count 0 }) }
    {
        let body = vec![in heap; 0; count]?;
        Ok(Object { header, body })
    }

    /// The word at `index` of the body, or 0 past its end.
    pub(crate) fn word(&self, index: usize) -> u32
        ensures { result ≡ slice_index self.now.body index }
    {
        self.body.get(index).copied().unwrap_or(0)
    }

    /// Puts `word` at `index` of the body. Past its end it alters nothing.
    pub(crate) fn put(&mut self, index: usize, word: u32)
        ensures { self.new ≡ record { header = self.old.header; body = slice_set self.old.body index word } }
    {
        if let Some(place) = self.body.get_mut(index) {
            *place = word;
        }
    }
}
