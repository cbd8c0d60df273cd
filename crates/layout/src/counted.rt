//! The layout whose headers count.
ghost use Rattle.std.specs.Prelude.{◌≡◌, refl};
ghost use Rattle.layout.specs.Counted.{counted, reference_count, plain_count};
ghost use Rattle.std.proofs.Common.{rules};

use crate::Layout;

/// The layout whose headers count: the lowest byte is the number of references, the byte above it the number of plain words,
/// and the upper 16 bits are free. After the header come the references, and then the plain words.
///
/// A header is legal where the two numbers are at most 63 together.
#[derive(Clone, Copy)]
pub struct Counted;

/// How many references `header` names.
fn reference_count(header: u32) -> u32
    ensures { result ≡ reference_count header }
{
    let [references, ..] = header.to_le_bytes();
    u32::from(references)
}

/// How many plain words `header` names.
fn plain_count(header: u32) -> u32
    ensures { result ≡ plain_count header }
{
    let [_, plain, ..] = header.to_le_bytes();
    u32::from(plain)
}

impl Layout for Counted {
    ghost shape = { counted };

    ghost IMAGE_SIGN = { 1 };

    const IMAGE_SIGN: u32 = 1;

    ghost SAMPLE_HEADER = { 0 };

    const SAMPLE_HEADER: u32 = 0;

    ghost lawful = { Prim.search rules };

    ghost sign = { refl };

    ghost sample = { refl };

    fn legal(header: u32) -> bool {
        reference_count(header) + plain_count(header) <= 63
    }

    fn size(header: u32) -> u32 {
        if Self::legal(header) {
            1 + reference_count(header) + plain_count(header)
        } else {
            0
        }
    }

    fn is_reference(header: u32, position: u32) -> bool {
        Self::legal(header) && (1..=reference_count(header)).contains(&position)
    }
}
