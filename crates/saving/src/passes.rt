//! What is done with the numbers of an image, one after another.
ghost use Rattle.leb128.specs.Number.{encode};
ghost use Rattle.saving.specs.Passes.{measured, put};
ghost use Rattle.std.specs.Prelude.{◌≡◌, ℕ, List};

use leb128::encoded_len;

/// A pass over the numbers of an image. To measure an image and to write it goes over the same numbers.
pub(crate) trait Pass {
    ghost step: { ℕ × List ℕ → ℕ → ℕ × List ℕ };

    /// Takes the number that comes to stand at a place of the output, and tells the place after it.
    fn number(output: &mut [u8], at: usize, value: u32) -> usize
        ensures { (result, output.new) ≡ step (at, output.old) value };
}

/// Tells how long the image is. It touches no output.
pub(crate) struct Measure;

/// Writes the image.
pub(crate) struct Write;

impl Pass for Measure {
    ghost step = { measured };

    fn number(_output: &mut [u8], at: usize, value: u32) -> usize {
        at.saturating_add(encoded_len(value))
    }
}

impl Pass for Write {
    ghost step = { put };

    fn number(output: &mut [u8], at: usize, value: u32) -> usize {
        leb128::write(output, at, value).unwrap_or(at)
    }
}
