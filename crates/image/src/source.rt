//! An image that is read from front to back.
ghost use Rattle.std.specs.Prelude.{◌≡◌, ℕ, OnErr};
ghost use Rattle.image.specs.Read.{fault_place, number_at, start_of};
ghost use Rattle.image.specs.Stage.{Follows};

use crate::refusals::{Fault, Refusal};

// Where a fault of the number at a position is reported.
fn fault_place(fault: leb128::Fault, bytes: &[u8], position: usize) -> usize
    ensures { result ≡ fault_place fault bytes.now position }
{
    match fault {
        leb128::Fault::EndsEarly => bytes.len(),
        leb128::Fault::NotShortest | leb128::Fault::TooWide => position,
    }
}

/// A reader over a borrowed image, with the position of the next byte.
//
// The position stands beside all bytes, and not what is left of them, since a fault is told by its byte place.
#[derive(Drop)]
pub struct Reader<'a> {
    bytes: &'a [u8],
    position: usize,
}

impl<'a> Reader<'a> {
    /// A reader behind the two bytes at the start of an image.
    pub fn open(bytes: &'a [u8]) -> Result<Reader<'a>, Refusal>
        ensures { Follows result (start_of bytes.now) (λ reader at. (reader.bytes.now ≡ bytes.now) × (reader.position ≡ at)) }
    {
        match bytes {
            [0x43, 0x4D, rest @ ..] => Ok(Reader {
                bytes,
                position: bytes.len() - rest.len(),
            }),
            [_, _, ..] => Err(Fault::Start.at(0, 0)),
            _ => Err(Fault::Number(leb128::Fault::EndsEarly).at(bytes.len(), 0)),
        }
    }

    /// The position of the next byte.
    pub(crate) fn position(&self) -> usize
        ensures { result ≡ self.now.position }
    {
        self.position
    }

    /// The number at the reader's position, which moves past it. A fault leaves the position; it is
    /// reported in `object`, the number of the object that is read, or 0.
    pub fn number(&mut self, object: u32) -> Result<u32, Refusal>
        ensures value { Follows result (number_at self.old.bytes.now object self.old.position) (λ v p. (p.value ≡ v) × (self.new ≡ record self.old { position = p.next })) }
        ensures stays { OnErr result (self.new ≡ self.old) }
    {
        // A match: with `map_err` and `?` the check of an image takes 1.4 times as long.
        match leb128::read(self.bytes, self.position) {
            Ok(number) => {
                self.position = number.next;
                Ok(number.value)
            }
            Err(fault) => {
                Err(Fault::Number(fault).at(fault_place(fault, self.bytes, self.position), object))
            }
        }
    }
}
