//! The edits of a heap.
//!
//! The clause `step` of a contract is one equation: the answer and the state after the call. The other clauses rest on the
//! heap being sound: the call does to its objects what its name says or is refused and alters nothing, and nothing outside
//! the regions changes. That is said of each call by `outside`, since a type tells what a heap is and not what a call changes.
ghost use Rattle.heap.specs.Effects.{Clears, Copies, Gets, Makes, Outside, Puts, Sets, Spaceless};
ghost use Rattle.heap.specs.View.{state_of};
ghost use Rattle.memory.specs.Edits.{clear_root, copy_root, get_reference, head_of, peek_word, put_word, same_roots, set_reference};
ghost use Rattle.memory.specs.Objects.{new_object};
ghost use Rattle.std.specs.Prelude.{◌≡◌};

use crate::heap::Heap;
use layout::Layout;
use model::Refusal;
use store::Store;

impl<S: Store, L: Layout> Heap<S, L> {
    /// Makes an object with that header and a body of zeros; the root then holds it.
    /// Refused: 1 for a root above 63, 2 for a header that is not legal, 33 where there is no space.
    pub fn new(&mut self, root: u32, header: u32) -> Result<(), Refusal>
        ensures step { (result, state_of S.words S.spare self.new) ≡ new_object L.shape (state_of S.words S.spare self.old) root header }
        ensures effect { Makes L.shape (state_of S.words S.spare self.old) (state_of S.words S.spare self.new) root header result }
        ensures space { Spaceless L.shape (state_of S.words S.spare self.old) header result }
        ensures outside { Outside (state_of S.words S.spare self.old) (state_of S.words S.spare self.new) }
    {
        self.memory.new(root, header)
    }

    /// Stores what root `k` holds at a reference position of the object at root `i`.
    /// Refused: 1 for a root above 63, 31 if root `i` is nil, 32 if the position holds no reference.
    pub fn set(&mut self, i: u32, position: u32, k: u32) -> Result<(), Refusal>
        ensures step { (result, state_of S.words S.spare self.new) ≡ set_reference L.shape (state_of S.words S.spare self.old) i position k }
        ensures effect { Sets L.shape (state_of S.words S.spare self.old) (state_of S.words S.spare self.new) i position k result }
        ensures outside { Outside (state_of S.words S.spare self.old) (state_of S.words S.spare self.new) }
    {
        self.memory.set(i, position, k)
    }

    /// Loads root `k` from a reference position of the object at root `i`. Refused as `set`.
    pub fn get(&mut self, i: u32, position: u32, k: u32) -> Result<(), Refusal>
        ensures step { (result, state_of S.words S.spare self.new) ≡ get_reference L.shape (state_of S.words S.spare self.old) i position k }
        ensures effect { Gets L.shape (state_of S.words S.spare self.old) (state_of S.words S.spare self.new) i position k result }
        ensures outside { Outside (state_of S.words S.spare self.old) (state_of S.words S.spare self.new) }
    {
        self.memory.get(i, position, k)
    }

    /// Stores a word at a plain position of the object at root `i`.
    /// Refused: 1 for a root above 63, 31 if root `i` is nil, 32 if the position holds no plain word.
    pub fn put(&mut self, i: u32, position: u32, word: u32) -> Result<(), Refusal>
        ensures step { (result, state_of S.words S.spare self.new) ≡ put_word L.shape (state_of S.words S.spare self.old) i position word }
        ensures effect { Puts L.shape (state_of S.words S.spare self.old) (state_of S.words S.spare self.new) i position word result }
        ensures outside { Outside (state_of S.words S.spare self.old) (state_of S.words S.spare self.new) }
    {
        self.memory.put(i, position, word)
    }

    /// Makes root `k` hold what root `i` holds. Refused: 1 for a root above 63.
    pub fn copy(&mut self, i: u32, k: u32) -> Result<(), Refusal>
        ensures step { (result, state_of S.words S.spare self.new) ≡ copy_root (state_of S.words S.spare self.old) i k }
        ensures effect { Copies (state_of S.words S.spare self.old) (state_of S.words S.spare self.new) i k result }
        ensures outside { Outside (state_of S.words S.spare self.old) (state_of S.words S.spare self.new) }
    {
        self.memory.copy(i, k)
    }

    /// Makes root `i` nil. Refused: 1 for a root above 63.
    pub fn clear(&mut self, i: u32) -> Result<(), Refusal>
        ensures step { (result, state_of S.words S.spare self.new) ≡ clear_root (state_of S.words S.spare self.old) i }
        ensures effect { Clears (state_of S.words S.spare self.old) (state_of S.words S.spare self.new) i result }
        ensures outside { Outside (state_of S.words S.spare self.old) (state_of S.words S.spare self.new) }
    {
        self.memory.clear(i)
    }

    /// The word at a plain position of the object at root `i`. Refused as `put`.
    pub fn peek(&self, i: u32, position: u32) -> Result<u32, Refusal>
        ensures { result ≡ peek_word L.shape (state_of S.words S.spare self.now) i position }
    {
        self.memory.peek(i, position)
    }

    /// Whether roots `i` and `k` hold the same; nil is the same as nil. Refused: 1 for a root above 63.
    pub fn same(&self, i: u32, k: u32) -> Result<bool, Refusal>
        ensures { result ≡ same_roots (state_of S.words S.spare self.now) i k }
    {
        self.memory.same(i, k)
    }

    /// The header of the object at root `i`. Refused: 1 for a root above 63, 31 if the root is nil.
    pub fn head(&self, i: u32) -> Result<u32, Refusal>
        ensures { result ≡ head_of (state_of S.words S.spare self.now) i }
    {
        self.memory.head(i)
    }
}
