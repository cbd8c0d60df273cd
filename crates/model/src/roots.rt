//! The numbers of roots.
ghost use Rattle.model.specs.Roots.{index_of};
ghost use Rattle.std.specs.Prelude.{◌≡◌, ◌<◌, IfOk};

use crate::edits::Refusal;

/// The index of a root, from its number.
pub fn root_index(root: u32) -> Result<usize, Refusal>
    ensures index { result ≡ index_of root }
    ensures within { IfOk result (λ k. k < 64) }
{
    if root < 64 {
        Ok(root as usize)
    } else {
        Err(Refusal::RootAbove63)
    }
}
