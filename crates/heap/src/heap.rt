//! The heap, how it is made, and what can be seen of it.
ghost use Rattle.heap.specs.Sound.{Sound};
ghost use Rattle.memory.specs.State.{view};

use layout::Layout;
use memory::Memory;
use store::Store;

/// A heap of objects in the regions of a store.
///
/// It comes from [`Heap::over`] and changes by its calls only. Every heap is sound: making gives it so, and each call keeps it.
/// Contracts read it by `state_of`. It has no `impl Model`, whose value may hold no function, as the sets of a state are.
#[derive(Drop)]
pub struct Heap<S: Store, L: Layout> {
    pub(crate) memory: Memory<S, L>,
    pub ghost sound: { ∥ Sound L.shape (view S.words S.spare memory) ∥₁ },
}

impl<S: Store, L: Layout> Heap<S, L> {
    ghost use Rattle.heap.specs.View.{state_of};
    ghost use Rattle.memory.specs.Objects.{making};
    ghost use Rattle.std.specs.Prelude.{◌≡◌};

    /// A heap without objects on the words of a store. It writes no word.
    pub fn over(store: S) -> Heap<S, L>
        ensures step { state_of S.words S.spare result ≡ making (S.words store) (S.spare store) }
    {
        Heap {
            memory: Memory::over(store),
        }
    }

    /// The words, tables and roots, to look at.
    pub fn memory(&self) -> &Memory<S, L>
        ensures { view S.words S.spare result.now ≡ state_of S.words S.spare self.now }
    {
        &self.memory
    }
}
