//! The small steps of a collector: marking and refining.
//!
//! The clauses are those of the edits.
ghost use Rattle.heap.specs.Effects.{Outside};
ghost use Rattle.heap.specs.Steps.{Begins, Marks, Refining};
ghost use Rattle.heap.specs.View.{state_of};
ghost use Rattle.marking.specs.Refining.{refine_step};
ghost use Rattle.marking.specs.Scanning.{begin_step, mark_step};
ghost use Rattle.std.specs.Prelude.{◌≡◌};

use crate::heap::Heap;
use layout::Layout;
use marking::{Marked, Refined};
use model::Refusal;
use store::Store;

impl<S: Store, L: Layout> Heap<S, L> {
    /// Begins a marking: what the roots hold is marked and pending, and nothing else is marked. Refused: 34 while marking.
    pub fn begin(&mut self) -> Result<(), Refusal>
        ensures step { (result, state_of S.words S.spare self.new) ≡ begin_step (state_of S.words S.spare self.old) }
        ensures effect { Begins (state_of S.words S.spare self.old) (state_of S.words S.spare self.new) result }
        ensures outside { Outside (state_of S.words S.spare self.old) (state_of S.words S.spare self.new) }
    {
        marking::begin(&mut self.memory)
    }

    /// Scans the pending object at the lowest place, or ends the marking where none is pending. Refused: 35 if not marking.
    pub fn mark(&mut self) -> Result<Marked, Refusal>
        ensures step { (result, state_of S.words S.spare self.new) ≡ mark_step L.shape (state_of S.words S.spare self.old) }
        ensures effect { Marks L.shape (state_of S.words S.spare self.old) (state_of S.words S.spare self.new) result }
        ensures outside { Outside (state_of S.words S.spare self.old) (state_of S.words S.spare self.new) }
    {
        marking::mark(&mut self.memory)
    }

    /// Refines the lowest dirty card: it is entered in the table of each other region that its objects refer to, and then
    /// clean. It is never refused.
    pub fn refine(&mut self) -> Refined
        ensures step { (result, state_of S.words S.spare self.new) ≡ refine_step L.shape (state_of S.words S.spare self.old) }
        ensures effect { Refining L.shape (state_of S.words S.spare self.old) (state_of S.words S.spare self.new) result }
        ensures outside { Outside (state_of S.words S.spare self.old) (state_of S.words S.spare self.new) }
    {
        marking::refine(&mut self.memory)
    }
}
